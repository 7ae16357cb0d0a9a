//! The vertices below a reduced word: the products of its subsequences, numbered.
//!
//! `Interval::below` makes the list of these vertices, each once, by length and then by matrix, or
//! says why it does not. Vertices are numbered from 0: the identity is 0, and the product of the
//! whole word has the greatest number.
#![tactic(auto)]

pub mod fault;
mod growth;
pub mod interval;
pub mod laws;
mod numbering;

pub use fault::IntervalFault;
pub use interval::Interval;
