//! What rows send to 0.
ghost use Rattle.std.specs.Prelude.{◌≡◌, ◌≢◌, ◌<◌, ◌≤◌, ◌↔◌, IsTrue, ℕ, length, slice_index, IfOk};
ghost use Rattle.bmp_math.specs.Matrices.{Matrix, NumbersBelow, IsInKernel, IsIndependent};
ghost use Rattle.bmp_linear.specs.Evidence.{EvidenceFits, EvidenceBelow, vector_at};
ghost use Rattle.bmp_linear.specs.Faults.{AllPass};
ghost use Rattle.bmp_linear.specs.KernelChecks.{KernelCompares, IsSpanned};
ghost use Rattle.bmp_elim.specs.Echelons.{IsEchelon};
ghost use Rattle.bmp_elim.specs.FreeVectors.{IsCountBelow, IsFreeVector, IsBasisBelow};

use crate::eliminated::{eliminate_rows, evidence_by};
use bmp_field::Field;
use bmp_linear::{Entry, KernelEvidence, Places, RowSpace, Rows, Vector, Vectors};
use std::alloc::{AllocError, Global};

/// The vector of a free place: 1 there, and at the `before` pivots below it what takes its column away.
fn free_vector<F: Field, A: Rows<F>>(
    alloc: Global,
    f: &F,
    a: &A,
    pivots: &Places,
    before: u32,
    free: u32,
) -> Result<Vector, AllocError>
    requires numbers { NumbersBelow (F.size f.now) (A.matrix a.now) }
    requires echelon { IsEchelon (A.matrix a.now) pivots.now }
    requires column { free < (A.matrix a.now).cols }
    requires before { IsCountBelow pivots.now free before }
    requires free { (k : ℕ) → k < length pivots.now → slice_index pivots.now k ≢ free }
    ensures { IfOk result (IsFreeVector (F.size f.now) (A.matrix a.now) pivots.now free) }
{
    let mut vector = Vector::new(alloc);
    for k in 0..before {
        let number = f.num(f.neg(a.at(f, k, free)));
        if number != 0 {
            vector.push(Entry {
                place: pivots.at(k),
                value: number as u8,
            })?;
        }
    }
    vector.push(Entry {
        place: free,
        value: 1,
    })?;
    Ok(vector)
}

/// Whether the pivot number `next` is the place.
fn is_next(pivots: &Places, next: u32, place: u32) -> bool
    ensures { IsTrue result ↔ ((next < length pivots.now) × (slice_index pivots.now next ≡ place)) }
{
    next < pivots.len() && pivots.at(next) == place
}

/// The vectors of the free places below `end`, in rising order.
pub(crate) fn free_vectors<F: Field, A: Rows<F>>(
    alloc: Global,
    f: &F,
    a: &A,
    pivots: &Places,
    end: u32,
) -> Result<Vectors, AllocError>
    requires numbers { NumbersBelow (F.size f.now) (A.matrix a.now) }
    requires echelon { IsEchelon (A.matrix a.now) pivots.now }
    requires end { end ≤ (A.matrix a.now).cols }
    ensures { IfOk result (IsBasisBelow (F.size f.now) (A.matrix a.now) pivots.now end) }
{
    let mut vectors = Vectors::new(alloc);
    let mut next = 0;
    for place in 0..end {
        if is_next(pivots, next, place) {
            next += 1;
        } else {
            vectors.push(free_vector(alloc, f, a, pivots, next, place)?)?;
        }
    }
    Ok(vectors)
}

/// A basis of what the rows send to 0, with evidence that it spans that: the pivots, and for each pivot a
/// combination of the rows that is 1 there and 0 at the others. A basis vector has a place a column, and a
/// combination a place a row. `check_kernel` accepts it.
pub fn kernel<F: Field, A: RowSpace<F>>(
    alloc: Global,
    f: &F,
    a: &A,
) -> Result<KernelEvidence, AllocError>
    requires { NumbersBelow (F.size f.now) (A.matrix a.now) }
    ensures fits { IfOk result (λ e. EvidenceFits e (A.matrix a.now).rows (A.matrix a.now).cols) }
    ensures values { IfOk result (λ e. EvidenceBelow e (F.size f.now)) }
    ensures passes { IfOk result (λ e. AllPass (KernelCompares (F.size f.now) (A.matrix a.now) e)) }
    ensures kernel { IfOk result (λ e. (t : ℕ) → t < length e.basis
        → IsInKernel (F.size f.now) (A.matrix a.now) (vector_at e.basis t)) }
    ensures independent { IfOk result
        (λ e. IsIndependent (F.size f.now) (A.matrix a.now).cols (vector_at e.basis) (length e.basis)) }
    ensures spans { IfOk result (λ e. (v : ℕ → ℕ) → IsInKernel (F.size f.now) (A.matrix a.now) v
        → IsSpanned (F.size f.now) (A.matrix a.now).cols e v) }
{
    let rows = a.copy()?;
    let eliminated = eliminate_rows(alloc, f, rows)?;
    let evidence = evidence_by(alloc, f, &eliminated)?;
    Ok(evidence)
}
