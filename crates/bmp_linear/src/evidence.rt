//! Evidence about rows.
ghost use Rattle.std.specs.Prelude.{◌≡◌, ◌<◌, ◌↔◌, IsTrue, IfOk, All};
ghost use Rattle.std.specs.List.Sorted.{IsStrictlyIncreasing};
ghost use Rattle.bmp_linear.specs.SparseVectors.{FitsBelow, ValuesBelow};
ghost use Rattle.bmp_linear.specs.Evidence.{EvidenceFits, EvidenceBelow};

use crate::places::Places;
use crate::vectors::Vectors;
use std::alloc::AllocError;

/// Evidence about the vectors that rows send to zero.
#[derive(Debug, Drop)]
pub struct KernelEvidence {
    /// Some of the columns, in rising order.
    pub pivots: Places,
    /// A vector for each column that is no pivot, in their order, with a place for each column.
    pub basis: Vectors,
    /// A combination of the rows for each pivot, in their order, with a place for each row.
    pub rows: Vectors,
}

/// Evidence that some vectors span others, and that none of them can be left out. What its places number
/// is said by who checks it.
#[derive(Debug, Drop)]
pub struct CoverEvidence {
    /// For each of the others, how the vectors combine to it.
    pub covers: Vectors,
    /// For each vector, how the others combine to it.
    pub sources: Vectors,
    /// For each vector, a form that is 1 on it and 0 on the rest.
    pub duals: Vectors,
}

/// Whether the places rise and are below `n`.
fn rise_below(places: &Places, n: u32) -> bool
    ensures { IsTrue result
        ↔ ((IsStrictlyIncreasing places.now) × (All (λ place. place < n) places.now)) }
{
    let mut least = 0;
    for place in places.as_slice() {
        if *place < least || *place >= n {
            return false;
        }
        least = *place + 1;
    }
    true
}

/// Whether the places of each vector are below `n`.
fn fit_below(vectors: &Vectors, n: u32) -> bool
    ensures { IsTrue result ↔ All (λ v. FitsBelow v n) vectors.now }
{
    for vector in vectors.as_slice() {
        if !vector.fits(n) {
            return false;
        }
    }
    true
}

/// Whether the values of each vector are below `p`.
fn are_below(vectors: &Vectors, p: u32) -> bool
    ensures { IsTrue result ↔ All (λ v. ValuesBelow v p) vectors.now }
{
    for vector in vectors.as_slice() {
        if !vector.is_below(p) {
            return false;
        }
    }
    true
}

impl KernelEvidence {
    /// Whether the evidence has the shape that so many rows and columns ask: the pivots rise below the
    /// columns, there are as many combinations as pivots, pivots and basis number the columns, and the
    /// vectors are in range.
    pub fn fits(&self, rows: u32, cols: u32) -> bool
        ensures { IsTrue result ↔ EvidenceFits self.now rows cols }
    {
        rise_below(&self.pivots, cols)
            && self.rows.len() == self.pivots.len()
            && u64::from(self.pivots.len()) + u64::from(self.basis.len()) == u64::from(cols)
            && fit_below(&self.basis, cols)
            && fit_below(&self.rows, rows)
    }

    /// Whether the values are numbers of a field of `p` elements.
    pub fn is_below(&self, p: u32) -> bool
        ensures { IsTrue result ↔ EvidenceBelow self.now p }
    {
        are_below(&self.basis, p) && are_below(&self.rows, p)
    }

    /// Equal evidence.
    pub fn copy(&self) -> Result<KernelEvidence, AllocError>
        ensures { IfOk result (λ copy. copy ≡ self.now) }
    {
        Ok(KernelEvidence {
            pivots: self.pivots.copy()?,
            basis: self.basis.copy()?,
            rows: self.rows.copy()?,
        })
    }
}

impl CoverEvidence {
    /// Equal evidence.
    pub fn copy(&self) -> Result<CoverEvidence, AllocError>
        ensures { IfOk result (λ copy. copy ≡ self.now) }
    {
        Ok(CoverEvidence {
            covers: self.covers.copy()?,
            sources: self.sources.copy()?,
            duals: self.duals.copy()?,
        })
    }
}
