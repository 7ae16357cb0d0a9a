//! Finite fields whose values are seen as the numbers below a prime.
//!
//! `Field` is the trait that the linear algebra above is generic over, and `PrimeField` the field of as
//! many elements as a prime from 2 to 61 says. No call of this crate takes memory.
#![tactic(auto)]

pub mod field;
mod multiples;
pub mod prime;

pub use field::Field;
pub use prime::{BadPrime, PrimeField};
