//! Rows as vectors.
ghost use Rattle.std.specs.Prelude.{◌≤◌, IfOk};
ghost use Rattle.bmp_math.specs.Matrices.{Matrix, NumbersBelow};
ghost use Rattle.bmp_elim.specs.RowVectors.{AreRowVectors};

use bmp_field::Field;
use bmp_linear::{Rows, Vector, Vectors};
use std::alloc::{AllocError, Global};

/// The vectors of the rows from `from` on and below `end`.
pub(crate) fn row_vectors<F: Field, A: Rows<F>>(
    alloc: Global,
    f: &F,
    a: &A,
    from: u32,
    end: u32,
) -> Result<Vectors, AllocError>
    requires numbers { NumbersBelow (F.size f.now) (A.matrix a.now) }
    requires order { from ≤ end }
    requires within { end ≤ (A.matrix a.now).rows }
    ensures { IfOk result (AreRowVectors (F.size f.now) (A.matrix a.now) from end) }
{
    let mut vectors = Vectors::with_capacity(alloc, (end - from) as usize)?;
    let mut numbers = vec![in alloc; 0; a.cols() as usize]?;
    for row in from..end {
        let mut vector = Vector::new(alloc);
        a.read_row(f, row, &mut numbers, &mut vector)?;
        vectors.push(vector)?;
    }
    Ok(vectors)
}
