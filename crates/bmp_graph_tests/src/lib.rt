//! Tests of root systems, elements, intervals and moment graphs. What they expect was worked out by hand or by another
//! program.
#![tactic(auto)]

#[cfg(test)]
mod bruhat;
#[cfg(test)]
mod elements;
#[cfg(test)]
mod graphs;
#[cfg(test)]
mod intervals;
#[cfg(test)]
mod matrices;
#[cfg(test)]
mod systems;
