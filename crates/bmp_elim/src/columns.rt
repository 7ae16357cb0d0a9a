//! Columns behind the first ones of a matrix, chosen so that they extend what those span. One elimination
//! tells which, their dual forms, and how the kept columns combine to each of the others.
ghost use Rattle.std.specs.Prelude.{◌≡◌, ℕ, ◌+◌, ◌-◌, ◌<◌, ◌≤◌, length, slice_index, IfOk};
ghost use Rattle.std.specs.List.Sorted.{IsStrictlyIncreasing};
ghost use Rattle.bmp_math.specs.Matrices.{Matrix, NumbersBelow};
ghost use Rattle.bmp_elim.specs.Columns.{AreShifted};
ghost use Rattle.bmp_elim.specs.FreeVectors.{IsCountBelow};
ghost use Rattle.bmp_elim.specs.Eliminations.{IsReducedOf, IsEvidenceOf};
ghost use Rattle.bmp_elim.specs.KeptColumns.{AreKeptPivots, IsPlacedColumn, ArePlacedColumns, IsColumnChoice, HasColumnDuals, HasColumnSums, AreColumns, kept_columns};

use crate::eliminated::{Eliminated, eliminate_rows};
use crate::kernels::free_vectors;
use crate::row_vectors::row_vectors;
use bmp_field::Field;
use bmp_linear::{Entry, KernelEvidence, Places, RowSpace, Rows, Vector, Vectors};
use std::alloc::{AllocError, Global};

/// Which columns behind the first ones are chosen, and what is read off the elimination that chose them.
#[derive(Debug, Drop)]
pub struct ColumnExtension {
    /// The chosen columns, counted behind the first ones.
    pub chosen: Places,
    /// For each a form: 1 on it, and 0 on the other kept columns.
    pub duals: Vectors,
    /// For each column behind the first ones the numbers by which the kept columns combine to it.
    pub sums: Vectors,
    /// Evidence for the kernel of the kept columns, which are the first ones and the chosen ones.
    pub kernel: KernelEvidence,
}

/// How many of the places are below `n`.
fn count_below(places: &Places, n: u32) -> u32
    requires { IsStrictlyIncreasing places.now }
    ensures { IsCountBelow places.now n result }
{
    let mut count = 0;
    while count < places.len() && places.at(count) < n {
        count += 1;
    }
    count
}

/// The places from number `from` on, less `first`.
fn shifted(alloc: Global, places: &Places, from: u32, first: u32) -> Result<Places, AllocError>
    requires within { from ≤ length places.now }
    requires above { (k : ℕ) → from ≤ k → k < length places.now → first ≤ slice_index places.now k }
    ensures { IfOk result (AreShifted places.now from first) }
{
    let mut shifted = Places::with_capacity(alloc, (places.len() - from) as usize)?;
    for k in from..places.len() {
        shifted.push(places.at(k) - first)?;
    }
    Ok(shifted)
}

/// Where the pivot number `k` stands among the kept columns. The first `start` pivots are among the first
/// `split` columns.
fn kept_place(pivot: u32, k: u32, start: u32, split: u32) -> u32
    requires { start ≤ k → split + (k - start) ≤ pivot }
    ensures early { k < start → result ≡ pivot }
    ensures late { start ≤ k → result ≡ split + (k - start) }
{
    if k < start {
        pivot
    } else {
        split + (k - start)
    }
}

/// The same of all pivots.
fn kept_pivots(alloc: Global, pivots: &Places, start: u32, split: u32) -> Result<Places, AllocError>
    requires { (k : ℕ) → start ≤ k → k < length pivots.now → split + (k - start) ≤ slice_index pivots.now k }
    ensures { IfOk result (AreKeptPivots pivots.now start split) }
{
    let mut kept = Places::with_capacity(alloc, pivots.len() as usize)?;
    for k in 0..pivots.len() {
        let place = kept_place(pivots.at(k), k, start, split);
        kept.push(place)?;
    }
    Ok(kept)
}

/// The vector with the numbers of a column at the places, row by row.
fn placed_column<F: Field, A: Rows<F>>(
    alloc: Global,
    f: &F,
    a: &A,
    places: &Places,
    column: u32,
) -> Result<Vector, AllocError>
    requires numbers { NumbersBelow (F.size f.now) (A.matrix a.now) }
    requires column { column < (A.matrix a.now).cols }
    requires within { length places.now ≤ (A.matrix a.now).rows }
    requires rise { IsStrictlyIncreasing places.now }
    ensures { IfOk result (IsPlacedColumn (F.size f.now) (A.matrix a.now) column places.now) }
{
    let mut v = Vector::new(alloc);
    for k in 0..places.len() {
        let number = f.num(a.at(f, k, column));
        if number != 0 {
            v.push(Entry {
                place: places.at(k),
                value: number as u8,
            })?;
        }
    }
    Ok(v)
}

/// The same of each column from `from` on.
fn placed_columns<F: Field, A: Rows<F>>(
    alloc: Global,
    f: &F,
    a: &A,
    places: &Places,
    from: u32,
) -> Result<Vectors, AllocError>
    requires numbers { NumbersBelow (F.size f.now) (A.matrix a.now) }
    requires from { from ≤ (A.matrix a.now).cols }
    requires within { length places.now ≤ (A.matrix a.now).rows }
    requires rise { IsStrictlyIncreasing places.now }
    ensures { IfOk result (ArePlacedColumns (F.size f.now) (A.matrix a.now) places.now from (A.matrix a.now).cols) }
{
    let mut vectors = Vectors::with_capacity(alloc, (a.cols() - from) as usize)?;
    for column in from..a.cols() {
        vectors.push(placed_column(alloc, f, a, places, column)?)?;
    }
    Ok(vectors)
}

/// Reduced columns, which of them are chosen, and the trace that leads to them.
#[derive(Drop)]
pub(crate) struct ReducedColumns<A: Drop> {
    pub(crate) eliminated: Eliminated<A>,
    /// How many pivots are among the first columns.
    pub(crate) start: u32,
    pub(crate) chosen: Places,
    /// The pivots, counted along the kept columns.
    pub(crate) kept: Places,
}

/// Reduces columns, and chooses from those behind the first `split`.
pub(crate) fn reduced_columns<F: Field, A: RowSpace<F>>(
    alloc: Global,
    f: &F,
    columns: A,
    split: u32,
) -> Result<ReducedColumns<A>, AllocError>
    requires numbers { NumbersBelow (F.size f.now) (A.matrix columns) }
    requires split { split ≤ (A.matrix columns).cols }
    ensures reduced { IfOk result
        (λ r. IsReducedOf (F.size f.now) (A.matrix columns) (A.matrix r.eliminated.rows) (A.matrix r.eliminated.trace)
        r.eliminated.pivots) }
    ensures choice { IfOk result (λ r. IsColumnChoice r.eliminated.pivots split r.start r.chosen r.kept) }
{
    let eliminated = eliminate_rows(alloc, f, columns)?;
    let start = count_below(&eliminated.pivots, split);
    let chosen = shifted(alloc, &eliminated.pivots, start, split)?;
    let kept = kept_pivots(alloc, &eliminated.pivots, start, split)?;
    Ok(ReducedColumns {
        eliminated,
        start,
        chosen,
        kept,
    })
}

/// Chooses columns behind the first `split` that are a basis of all those behind, modulo what the first
/// ones span. A form has a number a row, and a sum one for each of the first columns and then for each
/// chosen one.
pub fn extend_columns<F: Field, A: RowSpace<F>>(
    alloc: Global,
    f: &F,
    columns: A,
    split: u32,
) -> Result<ColumnExtension, AllocError>
    requires numbers { NumbersBelow (F.size f.now) (A.matrix columns) }
    requires split { split ≤ (A.matrix columns).cols }
    ensures chosen { IfOk result (λ e. AreColumns split (A.matrix columns) e.chosen) }
    ensures duals { IfOk result (λ e. HasColumnDuals (F.size f.now) split (A.matrix columns) e.chosen e.duals) }
    ensures sums { IfOk result (λ e. HasColumnSums (F.size f.now) split (A.matrix columns) e.chosen e.sums) }
    ensures kernel { IfOk result
        (λ e. IsEvidenceOf (F.size f.now) (kept_columns split e.chosen (A.matrix columns)) e.kernel) }
{
    let r = reduced_columns(alloc, f, columns, split)?;
    let count = r.eliminated.pivots.len();
    let duals = row_vectors(alloc, f, &r.eliminated.trace, r.start, count)?;
    let sums = placed_columns(alloc, f, &r.eliminated.rows, &r.kept, split)?;
    let basis = free_vectors(alloc, f, &r.eliminated.rows, &r.eliminated.pivots, split)?;
    let combinations = row_vectors(alloc, f, &r.eliminated.trace, 0, count)?;
    Ok(ColumnExtension {
        chosen: r.chosen,
        duals,
        sums,
        kernel: KernelEvidence {
            pivots: r.kept,
            basis,
            rows: combinations,
        },
    })
}
