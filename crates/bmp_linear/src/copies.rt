//! Rows as vectors, and equal rows in memory.
ghost use Rattle.std.specs.Prelude.{◌<◌, IfOk};
ghost use Rattle.bmp_math.specs.Matrices.{Matrix, NumbersBelow, SameMatrix};
ghost use Rattle.bmp_linear.specs.RowVectors.{IsRowVector};

use crate::rows::{RowSpace, Rows};
use crate::vector::Vector;
use bmp_field::Field;
use std::alloc::{AllocError, Global};

/// The vector of the row `i`.
pub fn row_vector<F: Field, A: Rows<F>>(
    alloc: Global,
    f: &F,
    a: &A,
    i: u32,
) -> Result<Vector, AllocError>
    requires numbers { NumbersBelow (F.size f.now) (A.matrix a.now) }
    requires row { i < (A.matrix a.now).rows }
    ensures { IfOk result (IsRowVector (F.size f.now) (A.matrix a.now) i) }
{
    let mut work = vec![in alloc; 0; a.cols() as usize]?;
    let mut vector = Vector::new(alloc);
    a.read_row(f, i, &mut work, &mut vector)?;
    Ok(vector)
}

/// Equal rows, kept in memory as those of `like` are: those of a view, say, which keeps none.
///
/// Takes a row of numbers and a vector to work in, and beyond these only the rows.
pub fn stored<F: Field, V: Rows<F>, A: RowSpace<F>>(
    alloc: Global,
    f: &F,
    view: &V,
    like: &A,
) -> Result<A, AllocError>
    requires { NumbersBelow (F.size f.now) (V.matrix view.now) }
    ensures same { IfOk result (λ rows. SameMatrix (A.matrix rows) (V.matrix view.now)) }
    ensures numbers { IfOk result (λ rows. NumbersBelow (F.size f.now) (A.matrix rows)) }
{
    let mut rows = like.empty(view.cols());
    let mut work = vec![in alloc; 0; view.cols() as usize]?;
    let mut vector = Vector::new(alloc);
    for i in 0..view.rows() {
        view.read_row(f, i, &mut work, &mut vector)?;
        rows.push_row(f, &vector)?;
    }
    Ok(rows)
}
