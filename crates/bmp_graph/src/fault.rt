//! What the calls on graphs answer besides graphs.
ghost use Rattle.std.specs.Prelude.{◌≡◌};

use std::alloc::{AllocError, AllocFailed};
use thiserror::Error;

/// Why lengths and edges make no graph. A rule is tried after all earlier ones hold.
#[derive(Debug, PartialEq, Eq, Drop, Error)]
pub enum GraphFault {
    /// There is no vertex.
    #[error("there is no vertex")]
    Empty,
    /// The first vertex that is shorter than the one before it.
    #[error("vertex {vertex} is shorter than the one before it")]
    LengthFalls { vertex: u32 },
    /// The first edge with an end that is no vertex, or that doesn't lead to a longer vertex.
    #[error("edge {edge} doesn't lead from a vertex up to a longer one")]
    EdgeEnds { edge: u32 },
    /// The first edge that isn't greater than the one before it, by lower and then upper end.
    #[error("edge {edge} isn't greater than the one before it")]
    EdgeOrder { edge: u32 },
    /// The first edge whose label has another rank or prime than the graph.
    #[error("the label of edge {edge} has another rank or prime")]
    LabelOf { edge: u32 },
    /// All rules hold, and there was no memory.
    #[error("there was no memory")]
    Memory,
}

impl From<AllocError> for GraphFault {
    ghost use Rattle.bmp_graph.specs.declared.fault.GraphFault.TheVariants.{Memory};

    ghost from_gives = { λ _ e. e ≡ Memory };

    fn from(_: AllocError) -> Self {
        GraphFault::Memory
    }
}

impl<T: Drop> From<AllocFailed<T>> for GraphFault {
    ghost use Rattle.bmp_graph.specs.declared.fault.GraphFault.TheVariants.{Memory};

    ghost from_gives = { λ _ e. e ≡ Memory };

    fn from(_: AllocFailed<T>) -> Self {
        GraphFault::Memory
    }
}

/// Two different edges at one vertex whose labels are parallel.
#[derive(Clone, Copy, Debug, PartialEq, Eq)]
pub struct GkmPair {
    /// The number of the vertex.
    pub vertex: u32,
    /// The number of the first edge.
    pub first: u32,
    /// The number of the second edge, which is greater.
    pub second: u32,
}
