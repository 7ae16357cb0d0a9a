//! A root with its coroot, as the machine holds them.

/// A root and its coroot, by their coordinates in the simple roots and in the simple coroots. Places past the rank are
/// 0.
#[derive(Clone, Copy, Debug, PartialEq, Eq)]
pub struct Pair {
    pub root: [i16; 6],
    pub coroot: [i16; 6],
}
