//! Monomials, homogeneous polynomials and labels (linear forms), with normal forms by a label.
#![tactic(auto)]

pub mod label;
pub mod laws;
pub mod monomials;
pub mod poly;
mod product;
mod reduction;
pub mod sums;

pub use label::{Label, LabelFault};
pub use monomials::Monomials;
pub use poly::Poly;
