//! The edge equations over the vertices above a vertex, as rows in memory.
ghost use Rattle.std.specs.Prelude.{◌≡◌, ◌^◌, ◌<◌, ℕ, length, IfOk};
ghost use Rattle.bmp_math.specs.Matrices.{Matrix, NumbersBelow};
ghost use Rattle.bmp_linear.specs.RowTables.{matrix_of_entries};
ghost use Rattle.bmp_linear.specs.SparseVectors.{FitsBelow, ValuesBelow, number_at};
ghost use Rattle.bmp_sheaf.specs.EdgeMaps.{SameMatrix};
ghost use Rattle.bmp_sheaf.specs.States.{sheaf_of};
ghost use Rattle.bmp_sections.specs.Numbers.{equation_matrix};
ghost use Rattle.bmp_sections.specs.Indexes.{IsIndexFor};

use crate::equations::Equations;
use crate::index::SectionIndex;
use bmp_field::Field;
use bmp_linear::{RowSpace, Rows, SparseRows, Vector};
use bmp_sheaf::Sheaf;
use std::alloc::{AllocError, Global};

/// The edge equations over the vertices above `x`, in degree `d`, for which the index is filled: the rows of
/// `Equations`, each kept as its entries.
pub fn constraints<F: Field>(
    alloc: Global,
    sheaf: &Sheaf<F>,
    x: u32,
    d: u32,
    index: &SectionIndex,
) -> Result<SparseRows<F>, AllocError>
    requires { IsIndexFor sheaf.now x d index.now }
    ensures matrix { let s = sheaf.now in
        IfOk result (λ rows. SameMatrix (matrix_of_entries rows) (equation_matrix s.graph (sheaf_of s) x d)) }
    ensures numbers { IfOk result (λ rows. NumbersBelow sheaf.now.graph.prime (matrix_of_entries rows)) }
{
    let _ = sheaf.graph();
    let rows = Equations::over(sheaf, x, d, index);
    let f = sheaf.field();
    Ok(stored(alloc, f, &rows)?)
}

/// Equal rows, kept as entries.
fn stored<F: Field, A: Rows<F>>(alloc: Global, f: &F, a: &A) -> Result<SparseRows<F>, AllocError>
    requires { NumbersBelow (F.size f.now) (A.matrix a.now) }
    ensures { IfOk result (λ rows. SameMatrix (matrix_of_entries rows) (A.matrix a.now)) }
{
    let mut rows = SparseRows::new(alloc, a.cols());
    let mut numbers = vec![in alloc; 0; a.cols() as usize]?;
    for i in 0..a.rows() {
        rows.push_row(f, &row_vector(alloc, f, a, i, &mut numbers)?)?;
    }
    Ok(rows)
}

/// The vector of the row `i`, made in a row of numbers to work in.
fn row_vector<F: Field, A: Rows<F>>(
    alloc: Global,
    f: &F,
    a: &A,
    i: u32,
    numbers: &mut [u8],
) -> Result<Vector, AllocError>
    requires below { NumbersBelow (F.size f.now) (A.matrix a.now) }
    requires row { i < (A.matrix a.now).rows }
    requires room { length numbers.old ≡ (A.matrix a.now).cols }
    requires limit { length numbers.old < 2 ^ 32 }
    ensures fits { IfOk result (λ row. FitsBelow row (A.matrix a.now).cols) }
    ensures values { IfOk result (λ row. ValuesBelow row (F.size f.now)) }
    ensures numbers { IfOk result
        (λ row. (j : ℕ) → j < (A.matrix a.now).cols → number_at row j ≡ (A.matrix a.now).entry i j) }
{
    numbers.fill(0);
    a.add_row_to(f, i, f.one(), numbers);
    Ok(Vector::of_numbers(alloc, numbers)?)
}
