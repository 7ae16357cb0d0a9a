//! Why a word has no interval.
use thiserror::Error;

/// The first rule that a word breaks, or want of memory.
#[derive(Clone, Copy, Debug, PartialEq, Eq, Error)]
pub enum IntervalFault {
    /// The product of the word is shorter than the word: its length.
    #[error("the product of the word has length {length}, less than the word")]
    NotReduced { length: u32 },
    /// The word is reduced and has more than 4,096 vertices: the count is always 4,097.
    #[error("the word has {count} vertices or more")]
    TooMany { count: u32 },
    /// The word is reduced, and there was no memory.
    #[error("there was no memory")]
    Memory,
}
