//! Moment graphs: vertices with lengths, and edges with linear forms as labels.
//!
//! A graph is made of any lengths and edges that keep five rules, and knows for each vertex its
//! edges, and which vertices lie above it. `specs/Graph.antt` has what the contracts cite.
#![tactic(auto)]

mod bits;
pub mod edge;
pub mod fault;
mod gkm;
pub mod graph;
pub mod laws;
mod parts;
mod tables;

pub use edge::Edge;
pub use fault::{GkmPair, GraphFault};
pub use graph::MomentGraph;
