//! What the check of covers answers.
use crate::kind::Kind;

/// The first comparison that fails: what it is about, where it stands, and the two numbers, which differ.
#[derive(Clone, Copy, Debug, PartialEq, Eq)]
pub struct CoverFault {
    pub kind: Kind,
    pub index: u64,
    pub place: u64,
    pub left: u32,
    pub right: u32,
}
