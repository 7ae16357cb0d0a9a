//! Tests of the Hecke algebra and of Kazhdan-Lusztig tables. What they expect was worked out by hand, or by another
//! program along another road (`bench/kl/independent.py`, which knows no bar).
#![tactic(auto)]

#[cfg(test)]
mod bars;
#[cfg(test)]
mod matrices;
#[cfg(test)]
mod tables;
