//! Graded modules over polynomials, by the coordinates of their elements.
//!
//! `specs/` says what a graded module and a map of graded modules are, and builds free modules, their quotients
//! by a linear form, direct sums, and the maps between them. The functions in [`laws`] have a law as their
//! contract and no body.
#![tactic(auto)]

pub mod laws;
