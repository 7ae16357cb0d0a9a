//! Tests of certificates that are built, and of what is built on graphs that are no interval's.
#![tactic(auto)]

#[cfg(test)]
mod built;
#[cfg(test)]
mod graphs;
