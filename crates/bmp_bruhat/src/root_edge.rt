//! An edge with its root.

/// An edge from the vertex `lower` up to the vertex `upper`, and the number of the positive root whose reflection leads
/// along it.
#[derive(Clone, Copy, Debug)]
pub struct RootEdge {
    pub lower: u32,
    pub upper: u32,
    pub root: u32,
}
