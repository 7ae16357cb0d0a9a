//! The check that a basis spans what rows send to zero.
ghost use Rattle.std.specs.Prelude.{◌≡◌, ℕ, ◌+◌, ◌%◌, ◌<◌, ◌≤◌, [], length, slice_index, slice_index_or, All, OnOk, IfErr};
ghost use Rattle.std.specs.List.Sorted.{IsStrictlyIncreasing};
ghost use Rattle.bmp_math.specs.Matrices.{Matrix, NumbersBelow, IsInKernel, IsIndependent};
ghost use Rattle.bmp_linear.specs.SparseVectors.{IsSpread, number_at};
ghost use Rattle.bmp_linear.specs.FreePlaces.{IsMarked};
ghost use Rattle.bmp_linear.specs.Faults.{AllPass, IsFirstFailure, WithIndex};
ghost use Rattle.bmp_linear.specs.Evidence.{EvidenceFits, EvidenceBelow, vector_at};
ghost use Rattle.bmp_linear.specs.KernelChecks.{ComparesFree, ComparesZero, ComparesPivot, KernelCompares, IsSpanned};

use crate::combination::combine;
use crate::dual::one_at;
use crate::evidence::KernelEvidence;
use crate::fault::RowFault;
use crate::places::Places;
use crate::rows::Rows;
use crate::scratch::{Scratch, clear};
use bmp_field::Field;

/// Writes 1 at the places and 0 elsewhere.
fn mark(places: &Places, marks: &mut [u8])
    requires { All (λ place. place < length marks.old) places.now }
    ensures { IsMarked places.now (length marks.new) marks.new }
{
    clear(marks);
    for place in places.as_slice() {
        marks[*place as usize] = 1;
    }
}

/// Compares the numbers of one basis vector at the free places.
fn check_free(
    e: &KernelEvidence,
    cols: u32,
    index: u32,
    numbers: &[u8],
    marks: &[u8],
) -> Result<(), RowFault>
    requires rise { IsStrictlyIncreasing e.now.pivots }
    requires below { All (λ pivot. pivot < cols) e.now.pivots }
    requires counted { length e.now.pivots + length e.now.basis ≡ cols }
    requires index { index < length e.now.basis }
    requires numbers { IsSpread (slice_index_or e.now.basis index []) cols numbers.now }
    requires marks { IsMarked e.now.pivots cols marks.now }
    ensures ok { OnOk result (AllPass (WithIndex index (ComparesFree cols e.now))) }
    ensures fault { IfErr result (IsFirstFailure (WithIndex index (ComparesFree cols e.now))) }
{
    let mut place = 0;
    for j in 0..cols {
        let free = marks[j as usize] == 0;
        if free {
            let left = u32::from(numbers[j as usize]);
            let right = one_at(place, index);
            if left != right {
                return Err(RowFault {
                    index: u64::from(index),
                    place: u64::from(place),
                    left,
                    right,
                });
            }
            place += 1;
        }
    }
    Ok(())
}

/// Compares what each row says of one basis vector with 0.
fn check_zero<F: Field, A: Rows<F>>(
    f: &F,
    a: &A,
    e: &KernelEvidence,
    index: u32,
    numbers: &[u8],
) -> Result<(), RowFault>
    requires numbers { NumbersBelow (F.size f.now) (A.matrix a.now) }
    requires fits { EvidenceFits e.now (A.matrix a.now).rows (A.matrix a.now).cols }
    requires values { EvidenceBelow e.now (F.size f.now) }
    requires index { index < length e.now.basis }
    requires spread { IsSpread (slice_index_or e.now.basis index []) (A.matrix a.now).cols numbers.now }
    ensures ok { OnOk result (AllPass (WithIndex index (ComparesZero (F.size f.now) (A.matrix a.now) e.now))) }
    ensures fault { IfErr result
        (IsFirstFailure (WithIndex index (ComparesZero (F.size f.now) (A.matrix a.now) e.now))) }
{
    let vector = e.basis.at(index);
    for i in 0..a.rows() {
        let left = f.num(a.value_at_spread(f, i, vector, numbers));
        if left != 0 {
            return Err(RowFault {
                index: u64::from(index),
                place: u64::from(e.basis.len()) + u64::from(i),
                left,
                right: 0,
            });
        }
    }
    Ok(())
}

/// Compares one combination of the rows at the pivots.
fn check_pivots<F: Field, A: Rows<F>>(
    f: &F,
    a: &A,
    e: &KernelEvidence,
    index: u32,
    sums: &mut [u8],
) -> Result<(), RowFault>
    requires numbers { NumbersBelow (F.size f.now) (A.matrix a.now) }
    requires fits { EvidenceFits e.now (A.matrix a.now).rows (A.matrix a.now).cols }
    requires values { EvidenceBelow e.now (F.size f.now) }
    requires index { index < length e.now.rows }
    requires room { (A.matrix a.now).cols ≤ length sums.old }
    ensures ok { OnOk result
        (AllPass (WithIndex (length e.now.basis + index)
        (ComparesPivot (F.size f.now) (A.matrix a.now) e.now))) }
    ensures fault { IfErr result
        (IsFirstFailure (WithIndex (length e.now.basis + index)
        (ComparesPivot (F.size f.now) (A.matrix a.now) e.now))) }
{
    let row = e.rows.at(index);
    combine(f, a, row, sums);
    for s in 0..e.pivots.len() {
        let pivot = e.pivots.at(s);
        let left = u32::from(sums[pivot as usize]);
        let right = one_at(s, index);
        if left != right {
            return Err(RowFault {
                index: u64::from(e.basis.len()) + u64::from(index),
                place: u64::from(pivot),
                left,
                right,
            });
        }
    }
    Ok(())
}

/// Compares each basis vector, and then each combination of the rows, in two rows to work in.
fn check_parts<F: Field, A: Rows<F>>(
    f: &F,
    a: &A,
    e: &KernelEvidence,
    numbers: &mut [u8],
    marks: &mut [u8],
) -> Result<(), RowFault>
    requires numbers { NumbersBelow (F.size f.now) (A.matrix a.now) }
    requires fits { EvidenceFits e.now (A.matrix a.now).rows (A.matrix a.now).cols }
    requires values { EvidenceBelow e.now (F.size f.now) }
    requires room { (A.matrix a.now).cols ≤ length numbers.old }
    requires marks_room { (A.matrix a.now).cols ≤ length marks.old }
    ensures ok { OnOk result (AllPass (KernelCompares (F.size f.now) (A.matrix a.now) e.now)) }
    ensures fault { IfErr result (IsFirstFailure (KernelCompares (F.size f.now) (A.matrix a.now) e.now)) }
{
    mark(&e.pivots, marks);
    for index in 0..e.basis.len() {
        let vector = e.basis.at(index);
        vector.spread(numbers);
        check_free(e, a.cols(), index, numbers, marks)?;
        check_zero(f, a, e, index, numbers)?;
    }
    for index in 0..e.rows.len() {
        check_pivots(f, a, e, index, numbers)?;
    }
    Ok(())
}

/// Checks evidence about the vectors that the rows send to zero: each basis vector is 1 at its own
/// free place, 0 at the other free places, and sent to zero; each combination of the rows is 1 at its
/// own pivot and 0 at the other pivots. Then the basis spans all that is sent to zero.
///
/// The free places are the columns that are no pivots, and the vector number k owns the k-th of them.
/// A fault is the first comparison that fails. Index k is the basis vector k: the places below the
/// number of basis vectors are the free places, and the later ones the rows. After the basis vectors
/// each combination has an index, and its places are the pivots themselves. Takes no memory.
pub fn check_kernel<F: Field, A: Rows<F>>(
    f: &F,
    a: &A,
    e: &KernelEvidence,
    s: &mut Scratch,
) -> Result<(), RowFault>
    requires numbers { NumbersBelow (F.size f.now) (A.matrix a.now) }
    requires fits { EvidenceFits e.now (A.matrix a.now).rows (A.matrix a.now).cols }
    requires values { EvidenceBelow e.now (F.size f.now) }
    requires room { (A.matrix a.now).cols ≤ length s.old.first }
    ensures ok { OnOk result (AllPass (KernelCompares (F.size f.now) (A.matrix a.now) e.now)) }
    ensures fault { IfErr result (IsFirstFailure (KernelCompares (F.size f.now) (A.matrix a.now) e.now)) }

    // The basis is in the kernel, is independent, and spans it.
    ensures kernel { OnOk result
        ((t : ℕ) → t < length e.now.basis
        → IsInKernel (F.size f.now) (A.matrix a.now) (vector_at e.now.basis t)) }
    ensures independent { OnOk result
        (IsIndependent (F.size f.now) (A.matrix a.now).cols (vector_at e.now.basis) (length e.now.basis)) }
    ensures spans { OnOk result
        ((v : ℕ → ℕ) → IsInKernel (F.size f.now) (A.matrix a.now) v
        → IsSpanned (F.size f.now) (A.matrix a.now).cols e.now v) }
    ensures scratch { length s.new.first ≡ length s.old.first }
    ensures second { length s.new.second ≡ length s.old.second }
{
    let first = s.first.as_mut_slice();
    let second = s.second.as_mut_slice();
    check_parts(f, a, e, first, second)
}
