//! Certificates, built: for each vertex of a moment graph the stalk and its evidence, by levels or by whole spaces of
//! sections, such that no comparison of the verdict fails.
#![tactic(auto)]

mod held;
pub mod laws;
mod level;
mod level_parts;
mod level_tasks;
mod levels;
mod space_tasks;
mod start;
mod tasks;
mod version;
mod whole;
mod whole_space;
mod whole_spaces;
mod whole_stalk;

pub use version::level_version;
pub use whole::{build, build_graph, build_graph_with, build_with};
