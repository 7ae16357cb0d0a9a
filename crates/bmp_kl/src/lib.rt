//! The Kazhdan-Lusztig table of a lower interval, and whether it is self-dual.
#![tactic(auto)]

pub mod duality;
pub mod error;
pub mod fill;
mod filling;
mod horner;
pub mod laws;
pub mod not_dual;
mod parts;
mod rows;
mod steps;
pub mod table;

pub use duality::self_dual;
pub use error::KlError;
pub use fill::kl_table;
pub use not_dual::NotDual;
pub use table::KlTable;
