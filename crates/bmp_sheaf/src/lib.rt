//! Stalks, lifts and boundaries of a sheaf on a moment graph.
#![tactic(auto)]

pub mod boundary;
mod edge_maps;
pub mod fault;
pub mod label_tables;
pub mod laws;
mod openings;
mod owners;
mod push;
mod rules;
mod shared;
mod shared_list;
pub mod sheaf;
mod sizes;
mod stalk;
mod upper_maps;

pub use boundary::BoundaryRows;
pub use fault::SheafFault;
pub use sheaf::Sheaf;
