//! An elimination that is kept, to answer many questions.
ghost use Rattle.std.specs.Prelude.{◌≡◌, ◌≤◌, length, IfOk};
ghost use Rattle.bmp_math.specs.Matrices.{Matrix, NumbersBelow};
ghost use Rattle.bmp_linear.specs.SparseVectors.{FitsBelow, ValuesBelow, number_at};
ghost use Rattle.bmp_elim.specs.Echelons.{IsEchelon};
ghost use Rattle.bmp_elim.specs.Eliminations.{IsSolvedFrom, IsEvidenceOf, IsReducedOf};

use crate::eliminate::eliminate;
use crate::kernels::free_vectors;
use crate::row_vectors::row_vectors;
use crate::systems::{Solution, find_other, pivot_vector};
use crate::unit_rows::unit_rows;
use bmp_field::Field;
use bmp_linear::{KernelEvidence, Places, RowSpace, Rows, Vector, row_vector};
use std::alloc::{AllocError, Global};

/// Rows in reduced echelon form, the trace that leads to them from the old rows, which are as many, and the
/// places of their leading ones. It answers any number of questions of the old rows.
#[derive(Drop)]
pub struct Eliminated<A: Drop> {
    pub rows: A,
    pub trace: A,
    pub pivots: Places,
}

/// Eliminates, and keeps what answers each right side.
pub fn eliminate_rows<F: Field, A: RowSpace<F>>(
    alloc: Global,
    f: &F,
    a: A,
) -> Result<Eliminated<A>, AllocError>
    requires { NumbersBelow (F.size f.now) (A.matrix a) }
    ensures { IfOk result
        (λ e. IsReducedOf (F.size f.now) (A.matrix a) (A.matrix e.rows) (A.matrix e.trace) e.pivots) }
{
    let mut rows = a;
    let mut trace = unit_rows(alloc, f, &rows, rows.rows())?;
    let pivots = eliminate(alloc, f, &mut rows, &mut trace)?;
    Ok(Eliminated {
        rows,
        trace,
        pivots,
    })
}

/// Solves the system of the old rows with the right side `b`, which has a number a row: a solution where
/// there is one, and otherwise a combination of the equations that none meets. One pass over the trace.
pub fn solve_by<F: Field, A: Rows<F> + Drop>(
    alloc: Global,
    f: &F,
    e: &Eliminated<A>,
    b: &Vector,
) -> Result<Solution, AllocError>
    requires numbers { NumbersBelow (F.size f.now) (A.matrix e.now.trace) }
    requires fits { FitsBelow b.now (A.matrix e.now.trace).cols }
    requires values { ValuesBelow b.now (F.size f.now) }
    requires echelon { IsEchelon (A.matrix e.now.rows) e.now.pivots }
    requires height { (A.matrix e.now.trace).rows ≡ (A.matrix e.now.rows).rows }
    ensures { IfOk result (λ s. (old : Matrix)
        → IsReducedOf (F.size f.now) old (A.matrix e.now.rows) (A.matrix e.now.trace) e.now.pivots
        → IsSolvedFrom (F.size f.now) old (number_at b.now) s) }
{
    match find_other(f, &e.trace, e.pivots.len(), b) {
        Some(row) => Ok(Solution::Without(row_vector(alloc, f, &e.trace, row)?)),
        None => Ok(Solution::Found(pivot_vector(alloc, f, &e.trace, &e.pivots, b)?)),
    }
}

/// A basis of what the old rows send to 0, with the evidence that it spans that.
pub fn evidence_by<F: Field, A: Rows<F> + Drop>(
    alloc: Global,
    f: &F,
    e: &Eliminated<A>,
) -> Result<KernelEvidence, AllocError>
    requires numbers { NumbersBelow (F.size f.now) (A.matrix e.now.rows) }
    requires trace_numbers { NumbersBelow (F.size f.now) (A.matrix e.now.trace) }
    requires echelon { IsEchelon (A.matrix e.now.rows) e.now.pivots }
    requires height { (A.matrix e.now.trace).rows ≡ (A.matrix e.now.rows).rows }
    ensures { IfOk result (λ evidence. (old : Matrix)
        → IsReducedOf (F.size f.now) old (A.matrix e.now.rows) (A.matrix e.now.trace) e.now.pivots
        → IsEvidenceOf (F.size f.now) old evidence) }
{
    let basis = free_vectors(alloc, f, &e.rows, &e.pivots, e.rows.cols())?;
    let combinations = row_vectors(alloc, f, &e.trace, 0, e.pivots.len())?;
    let pivots = e.pivots.copy()?;
    Ok(KernelEvidence {
        pivots,
        basis,
        rows: combinations,
    })
}
