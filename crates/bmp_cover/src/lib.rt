//! What a Braden-MacPherson sheaf is and what its generators count, with the smallest examples; and the check of
//! covers, sources and dual forms at one vertex and degree ([`check_cover`]).
#![tactic(auto)]

mod check;
mod compare;
mod covers;
mod duals;
pub mod examples;
mod fault;
mod generators;
mod kind;
pub mod laws;
mod sources;

pub use check::{check_beside_covers, check_cover};
pub use fault::CoverFault;
pub use kind::Kind;
