//! The elimination, column by column, made to rows and to others alike.
ghost use Rattle.std.specs.Prelude.{◌≡◌, ◌≢◌, ◌<◌, length, slice_index, OnOk, IfOk, MatchOption};
ghost use Rattle.bmp_math.specs.Matrices.{Matrix, NumbersBelow};
ghost use Rattle.bmp_field.specs.Runs.{AreBelow};
ghost use Rattle.bmp_linear.specs.RowChanges.{AreMultiplesAdded};
ghost use Rattle.bmp_elim.specs.Steps.{IsZeroFrom, IsFound, IsTakenAwayBelow, IsColumnCleared, IsEliminated};

use bmp_field::Field;
use bmp_linear::{Places, RowSpace, Rows};
use std::alloc::{AllocError, Global};

/// The first row from `from` on that isn't 0 at the column.
fn find_row<F: Field, A: Rows<F>>(f: &F, a: &A, from: u32, col: u32) -> Option<u32>
    requires numbers { NumbersBelow (F.size f.now) (A.matrix a.now) }
    requires column { col < (A.matrix a.now).cols }
    ensures { MatchOption result
        (IsZeroFrom (A.matrix a.now) from (A.matrix a.now).rows col)
        (λ row. IsFound (A.matrix a.now) from row col) }
{
    for row in from..a.rows() {
        if f.num(a.at(f, row, col)) != 0 {
            return Some(row);
        }
    }
    None
}

/// For each row the number that takes away what the row is at the column.
fn read_factors<F: Field, A: Rows<F>>(f: &F, a: &A, col: u32, factors: &mut [u8])
    requires numbers { NumbersBelow (F.size f.now) (A.matrix a.now) }
    requires column { col < (A.matrix a.now).cols }
    requires as_many { length factors.old ≡ (A.matrix a.now).rows }
    ensures sized { length factors.new ≡ length factors.old }
    ensures below { AreBelow (F.size f.now) factors.new }
    ensures away { IsTakenAwayBelow (A.matrix a.now).rows (F.size f.now) (A.matrix a.now) col factors.new }
{
    for i in 0..a.rows() {
        factors[i as usize] = f.num(f.neg(a.at(f, i, col))) as u8;
    }
}

/// Makes the column 0 at each row but the pivot's, by adding multiples of that, in factors to work in.
fn clear_column<F: Field, A: RowSpace<F>, T: RowSpace<F>>(
    f: &F,
    a: &mut A,
    t: &mut T,
    pivot: u32,
    col: u32,
    factors: &mut [u8],
) -> Result<(), AllocError>
    requires numbers { NumbersBelow (F.size f.now) (A.matrix a.old) }
    requires other_numbers { NumbersBelow (F.size f.now) (T.matrix t.old) }
    requires height { (T.matrix t.old).rows ≡ (A.matrix a.old).rows }
    requires row { pivot < (A.matrix a.old).rows }
    requires column { col < (A.matrix a.old).cols }
    requires one { (A.matrix a.old).entry pivot col ≡ 1 }
    requires as_many { length factors.old ≡ (A.matrix a.old).rows }
    ensures sized { length factors.new ≡ length factors.old }
    ensures cleared { OnOk result
        (IsColumnCleared (F.size f.now) col pivot (A.matrix a.old).rows
        (A.matrix a.old) (A.matrix a.new) (T.matrix t.old) (T.matrix t.new)) }
{
    read_factors(f, a, col, factors);
    a.add_to_rows(f, pivot, factors)?;
    add_alike(f, t, pivot, factors)?;
    Ok(())
}

/// Adds to each row but `from` its factor times that. Where there are no columns nothing is to be done.
fn add_alike<F: Field, T: RowSpace<F>>(
    f: &F,
    t: &mut T,
    from: u32,
    factors: &[u8],
) -> Result<(), AllocError>
    requires numbers { NumbersBelow (F.size f.now) (T.matrix t.old) }
    requires from { from < (T.matrix t.old).rows }
    requires as_many { length factors.now ≡ (T.matrix t.old).rows }
    requires factors { AreBelow (F.size f.now) factors.now }
    ensures ok { OnOk result (AreMultiplesAdded (F.size f.now) (T.matrix t.old) (T.matrix t.new) from
        (slice_index factors.now)) }
    ensures numbers { OnOk result (NumbersBelow (F.size f.now) (T.matrix t.new)) }
{
    if t.cols() == 0 {
        return Ok(());
    }
    t.add_to_rows(f, from, factors)?;
    Ok(())
}

/// Brings the row `row` to `pivot`, makes it 1 at the column, and the other rows 0 there.
fn make_pivot<F: Field, A: RowSpace<F>, T: RowSpace<F>>(
    f: &F,
    a: &mut A,
    t: &mut T,
    pivot: u32,
    row: u32,
    col: u32,
    factors: &mut [u8],
) -> Result<(), AllocError>
    requires numbers { NumbersBelow (F.size f.now) (A.matrix a.old) }
    requires other_numbers { NumbersBelow (F.size f.now) (T.matrix t.old) }
    requires height { (T.matrix t.old).rows ≡ (A.matrix a.old).rows }
    requires column { col < (A.matrix a.old).cols }
    requires found { IsFound (A.matrix a.old) pivot row col }
    requires as_many { length factors.old ≡ (A.matrix a.old).rows }
    ensures sized { length factors.new ≡ length factors.old }
    ensures cleared { OnOk result
        (IsColumnCleared (F.size f.now) col pivot (A.matrix a.old).rows
        (A.matrix a.old) (A.matrix a.new) (T.matrix t.old) (T.matrix t.new)) }
{
    a.swap_rows(pivot, row);
    t.swap_rows(pivot, row);
    let c = f.inv(a.at(f, pivot, col));
    a.scale_row(f, pivot, c);
    t.scale_row(f, pivot, c);
    clear_column(f, a, t, pivot, col, factors)?;
    Ok(())
}

/// Brings the rows to reduced echelon form, makes each change to the others too, and gives the pivots, in
/// factors to work in, one for each row.
fn eliminate_in<F: Field, A: RowSpace<F>, T: RowSpace<F>>(
    alloc: Global,
    f: &F,
    a: &mut A,
    t: &mut T,
    factors: &mut [u8],
) -> Result<Places, AllocError>
    requires numbers { NumbersBelow (F.size f.now) (A.matrix a.old) }
    requires other_numbers { NumbersBelow (F.size f.now) (T.matrix t.old) }
    requires height { (T.matrix t.old).rows ≡ (A.matrix a.old).rows }
    requires as_many { length factors.old ≡ (A.matrix a.old).rows }
    ensures { IfOk result (λ pivots.
        IsEliminated (F.size f.now) (A.matrix a.old).cols
        (A.matrix a.old) (A.matrix a.new) (T.matrix t.old) (T.matrix t.new) pivots) }
{
    let mut pivots = Places::new(alloc);
    for col in 0..a.cols() {
        let count = pivots.len();
        if let Some(row) = find_row(f, a, count, col) {
            make_pivot(f, a, t, count, row, col, factors)?;
            pivots.push(col)?;
        }
    }
    Ok(pivots)
}

/// Brings the rows to reduced echelon form, makes each change to the others too, and gives the pivots. Takes
/// memory for a number a row, and what `add_to_rows` takes for a column.
pub(crate) fn eliminate<F: Field, A: RowSpace<F>, T: RowSpace<F>>(
    alloc: Global,
    f: &F,
    a: &mut A,
    t: &mut T,
) -> Result<Places, AllocError>
    requires numbers { NumbersBelow (F.size f.now) (A.matrix a.old) }
    requires other_numbers { NumbersBelow (F.size f.now) (T.matrix t.old) }
    requires height { (T.matrix t.old).rows ≡ (A.matrix a.old).rows }
    ensures { IfOk result (λ pivots.
        IsEliminated (F.size f.now) (A.matrix a.old).cols
        (A.matrix a.old) (A.matrix a.new) (T.matrix t.old) (T.matrix t.new) pivots) }
{
    let mut factors = vec![in alloc; 0; a.rows() as usize]?;
    let pivots = eliminate_in(alloc, f, a, t, &mut factors)?;
    Ok(pivots)
}
