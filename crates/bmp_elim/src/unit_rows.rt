//! Rows for a trace to begin with.
ghost use Rattle.std.specs.Prelude.{◌≡◌, IfOk};
ghost use Rattle.bmp_math.specs.Matrices.{Matrix, NumbersBelow};
ghost use Rattle.bmp_elim.specs.Traces.{AreUnits};

use bmp_field::Field;
use bmp_linear::{RowSpace, Vector};
use std::alloc::{AllocError, Global};

/// The unit vectors of `count` numbers, kept as the rows of `like` are.
pub(crate) fn unit_rows<F: Field, A: RowSpace<F>>(
    alloc: Global,
    f: &F,
    like: &A,
    count: u32,
) -> Result<A, AllocError>
    ensures units { IfOk result (λ t. AreUnits count count (A.matrix t)) }
    ensures numbers { IfOk result (λ t. NumbersBelow (F.size f.now) (A.matrix t)) }
{
    let mut rows = like.empty(count);
    for place in 0..count {
        rows.push_row(f, &Vector::unit(alloc, place)?)?;
    }
    Ok(rows)
}

/// Rows without columns, for where no trace is wanted.
pub(crate) fn no_columns<F: Field, A: RowSpace<F>>(
    alloc: Global,
    f: &F,
    like: &A,
    count: u32,
) -> Result<A, AllocError>
    ensures rows { IfOk result (λ t. (A.matrix t).rows ≡ count) }
    ensures cols { IfOk result (λ t. (A.matrix t).cols ≡ 0) }
{
    let none = Vector::new(alloc);
    let mut rows = like.empty(0);
    for _ in 0..count {
        rows.push_row(f, &none)?;
    }
    Ok(rows)
}
