//! How many lines a block has.

/// How many pivots, vectors of the kernel and covers the first line of a block announces.
#[derive(Clone, Copy, Debug)]
pub(crate) struct LineCounts {
    pub(crate) pivots: u64,
    pub(crate) vectors: u64,
    pub(crate) covers: u64,
}
