//! Edges of a moment graph.
use bmp_poly::Label;

/// An edge from the vertex `lower` up to the vertex `upper`.
#[derive(Debug, Clone, Copy, PartialEq, Eq)]
pub struct Edge {
    /// The number of the lower end.
    pub lower: u32,
    /// The number of the upper end.
    pub upper: u32,
    /// The linear form on the edge.
    pub label: Label,
}
