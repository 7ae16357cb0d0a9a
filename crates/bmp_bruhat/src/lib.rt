//! Bruhat moment graphs: the graph of the vertices of an interval and the reflections between them.
//!
//! An edge leads from x up to t x, for the reflection t of a positive root, where t x is longer. Its label is the root
//! modulo the prime, by the simple roots (`graph_of`) or by the fundamental weights (`graph_in`). `specs/Edges.antt`
//! has what the contracts cite.
#![tactic(auto)]

mod building;
pub mod error;
pub mod graph;
mod label;
mod labeling;
pub mod laws;
mod reflections;
mod root_edge;

pub use error::BruhatError;
pub use graph::{graph_in, graph_of, root_of};
