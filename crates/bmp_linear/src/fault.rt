//! What the checks answer.
use thiserror::Error;

/// The first comparison that failed: where it stands, and the two numbers that differ. Which comparison
/// an index and a place name is said by the check that gives it.
#[derive(Clone, Copy, Debug, PartialEq, Eq, Error)]
#[error("comparison {index}, {place}: {left} is not {right}")]
pub struct RowFault {
    /// Comparisons go by index, from 0 on.
    pub index: u64,
    /// And those of one index by place.
    pub place: u64,
    /// The number that was computed, below the size of the field.
    pub left: u32,
    /// The number that it should be.
    pub right: u32,
}
