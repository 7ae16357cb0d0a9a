//! Sections of a sheaf on a moment graph: the equations that they meet, and lists of tuples.
#![tactic(auto)]

pub mod compatible;
pub mod constraints;
pub mod equations;
pub mod index;
pub mod laws;
mod negated;
pub mod restrict;
mod row_parts;
mod runs;
pub mod sections;
pub mod tuples;
pub mod upper_set;

pub use compatible::EdgeFault;
pub use equations::Equations;
pub use index::{EquationPlace, SectionIndex};
pub use sections::Sections;
pub use tuples::Tuples;
pub use upper_set::UpperSet;
