//! The mathematics under every other crate: sums, congruences, vectors, matrices, integers and lists.
//!
//! Definitions stand in `specs/`, each file with a table at its head, and lemmas in `proofs/`.
//! Nothing here runs. The functions below have a law as their contract and no body.
#![tactic(auto)]

pub mod laws;
