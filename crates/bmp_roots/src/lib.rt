//! Cartan matrices of rank 1 to 6 and their finite root systems.
//!
//! `Cartan::new` takes the rows of a matrix, or names the first rule that they break. `Roots::close` makes the list of
//! the root pairs of a matrix, or names the first pair that the limits forbid. Nothing here takes memory.
//!
//! A root is written by its coordinates in the simple roots, and a coroot by its coordinates in the simple coroots, six
//! places each, 0 past the rank. The entry `a_ij` of the matrix is the value of the simple coroot i on the simple root
//! j. Numbers of rows, columns and simple reflections begin at 1 in the calls, and at 0 in `specs/`.
#![tactic(auto)]

pub mod cartan_matrix;
mod closing;
pub mod laws;
mod pair_list;
mod pair_tests;
mod reflection;
pub mod refusal;
pub mod root_pair;
pub mod root_system;

pub use cartan_matrix::{Cartan, CartanFault};
pub use refusal::{FiniteKind, NotFinite};
pub use root_pair::Pair;
pub use root_system::Roots;
