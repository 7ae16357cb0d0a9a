//! Rows that extend a span.
ghost use Rattle.std.specs.Prelude.{◌≡◌, ℕ, ◌+◌, ◌^◌, ◌<◌, ◌≤◌, length, slice_index, IfOk};
ghost use Rattle.bmp_math.specs.Matrices.{Matrix, NumbersBelow};
ghost use Rattle.bmp_elim.specs.Columns.{IsJoinedColumn, AreJoinedColumns};
ghost use Rattle.bmp_elim.specs.Extensions.{AreChosen, AreDual, IsCombination, HasCombinations};

use crate::columns::extend_columns;
use bmp_field::Field;
use bmp_linear::{Places, RowSpace, Rows, Vector, Vectors};
use std::alloc::{AllocError, Global};

/// Rows that are a basis modulo a span, and how they and the span's rows combine to the others.
#[derive(Debug, Drop)]
pub struct Extension {
    /// The numbers of the chosen rows, rising.
    pub chosen: Places,
    /// For each chosen row a form, with a number a column: 1 on it, and 0 on the other chosen rows and on
    /// the span.
    pub duals: Vectors,
    /// For each row, chosen or not, the numbers that write it: first one for each row of the span, then
    /// one for each chosen row.
    pub combinations: Vectors,
}

/// Writes a column from the place `from` on.
fn write_column<F: Field, A: Rows<F>>(f: &F, a: &A, column: u32, from: u32, into: &mut [u8])
    requires numbers { NumbersBelow (F.size f.now) (A.matrix a.now) }
    requires column { column < (A.matrix a.now).cols }
    requires room { from + (A.matrix a.now).rows ≤ length into.old }
    ensures written { (i : ℕ) → i < (A.matrix a.now).rows
        → slice_index into.new (from + i) ≡ (A.matrix a.now).entry i column }
    ensures before { (k : ℕ) → k < from → slice_index into.new k ≡ slice_index into.old k }
{
    for i in 0..a.rows() {
        into[from as usize + i as usize] = f.num(a.at(f, i, column)) as u8;
    }
}

/// The column of `span` and after it that of `vectors`, made in a row of numbers to work in.
fn joined_column<F: Field, A: Rows<F>>(
    alloc: Global,
    f: &F,
    span: &A,
    vectors: &A,
    column: u32,
    numbers: &mut [u8],
) -> Result<Vector, AllocError>
    requires span_numbers { NumbersBelow (F.size f.now) (A.matrix span.now) }
    requires numbers { NumbersBelow (F.size f.now) (A.matrix vectors.now) }
    requires span_column { column < (A.matrix span.now).cols }
    requires column { column < (A.matrix vectors.now).cols }
    requires room { length numbers.old ≡ (A.matrix span.now).rows + (A.matrix vectors.now).rows }
    requires limit { length numbers.old < 2 ^ 32 }
    ensures { IfOk result
        (IsJoinedColumn (F.size f.now) (A.matrix span.now) (A.matrix vectors.now) column) }
{
    write_column(f, span, column, 0, numbers);
    write_column(f, vectors, column, span.rows(), numbers);
    Ok(Vector::of_numbers(alloc, numbers)?)
}

/// The columns of both, joined, as rows. Wants memory also where there are 2^32 rows or more in all.
fn joined_columns<F: Field, A: RowSpace<F>>(
    alloc: Global,
    f: &F,
    span: &A,
    vectors: &A,
) -> Result<A, AllocError>
    requires span_numbers { NumbersBelow (F.size f.now) (A.matrix span.now) }
    requires numbers { NumbersBelow (F.size f.now) (A.matrix vectors.now) }
    requires width { (A.matrix span.now).cols ≡ (A.matrix vectors.now).cols }
    ensures joined { IfOk result (λ columns.
        AreJoinedColumns (A.matrix vectors.now).cols (A.matrix span.now) (A.matrix vectors.now) (A.matrix columns)) }
    ensures numbers { IfOk result (λ columns. NumbersBelow (F.size f.now) (A.matrix columns)) }
{
    let cols = span.rows().checked_add(vectors.rows()).ok_or(AllocError)?;
    let mut columns = span.empty(cols);
    let mut numbers = vec![in alloc; 0; cols as usize]?;
    for column in 0..span.cols() {
        let joined = joined_column(alloc, f, span, vectors, column, &mut numbers)?;
        columns.push_row(f, &joined)?;
    }
    Ok(columns)
}

/// Chooses rows of `vectors` that are a basis of theirs modulo the span of the rows of `span`, which have
/// as many columns. One elimination of all columns tells. Wants memory also where there are 2^32 rows or
/// more in all.
pub fn extend_basis<F: Field, A: RowSpace<F>>(
    alloc: Global,
    f: &F,
    span: &A,
    vectors: &A,
) -> Result<Extension, AllocError>
    requires span_numbers { NumbersBelow (F.size f.now) (A.matrix span.now) }
    requires numbers { NumbersBelow (F.size f.now) (A.matrix vectors.now) }
    requires width { (A.matrix span.now).cols ≡ (A.matrix vectors.now).cols }
    ensures chosen { IfOk result (λ e. AreChosen (A.matrix vectors.now) e.chosen) }
    ensures duals { IfOk result
        (λ e. AreDual (F.size f.now) (A.matrix span.now) (A.matrix vectors.now) e.chosen e.duals) }
    ensures spans { IfOk result (λ e. (i : ℕ) → i < (A.matrix vectors.now).rows
        → IsCombination (F.size f.now) (A.matrix span.now) (A.matrix vectors.now) e.chosen
        ((A.matrix vectors.now).entry i)) }
    ensures combinations { IfOk result
        (λ e. HasCombinations (F.size f.now) (A.matrix span.now) (A.matrix vectors.now) e.chosen e.combinations) }
{
    let columns = joined_columns(alloc, f, span, vectors)?;
    let extension = extend_columns(alloc, f, columns, span.rows())?;
    Ok(Extension {
        chosen: extension.chosen,
        duals: extension.duals,
        combinations: extension.sums,
    })
}
