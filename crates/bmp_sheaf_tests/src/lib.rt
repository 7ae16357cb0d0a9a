//! Tests of polynomials, graded modules and sheaves: small examples with answers worked out by hand.
#![tactic(auto)]

#[cfg(test)]
mod modules;
#[cfg(test)]
mod polynomials;
#[cfg(test)]
mod sheaves;
