//! The fields of a prime number of elements.
ghost use Rattle.std.specs.Prelude.{◌≡◌, ◌≢◌, ◌↔◌, ℕ, ◌+◌, ◌*◌, ◌%◌, ◌<◌, ◌≤◌, ◌^◌, IsTrue, IsOk, IsErr, IfOk, slice_index};
ghost use Rattle.bmp_field.specs.Primes.{is_listed};
ghost use Rattle.bmp_field.specs.Tables.{IsReciprocal, HoldsInverses};

use crate::field::Field;
use crate::multiples::{add_once, add_products, subtract_once};
use thiserror::Error;

/// The number is none of the primes from 2 to 61.
#[derive(Clone, Copy, Debug, PartialEq, Eq, Error)]
#[error("the number is no prime from 2 to 61")]
pub struct BadPrime;

/// The power of two over which a reciprocal is kept.
const SCALE: u32 = 1 << 18;

/// The largest listed prime: its numbers are the places of a table.
const NUMBERS: usize = 61;

/// The numbers below a prime, with sums and products modulo it.
///
/// Products are reduced by a reciprocal and inverses are looked up, so that no call of the trait divides.
#[derive(Clone, Copy, Debug)]
pub struct PrimeField {
    prime: u8,
    reciprocal: u32,
    inverses: [u8; NUMBERS],
    ghost listed: { IsTrue (is_listed prime) },
    ghost scaled: { IsReciprocal prime reciprocal },
    ghost inverted: { HoldsInverses prime inverses },
}

impl PrimeField {
    ghost use Rattle.bmp_field.specs.PrimeFields.{size_of};

    /// The field of `p` elements, where `p` is a prime from 2 to 61. Its inverses are found by trying, in
    /// at most `p` squared steps.
    pub fn new(p: u8) -> Result<PrimeField, BadPrime>
        ensures taken { IsOk result ↔ IsTrue (is_listed p) }
        ensures refused { IsErr result ↔ ¬ IsTrue (is_listed p) }
        ensures field { IfOk result (λ f. size_of f ≡ p) }
    {
        match p {
            2 | 3 | 5 | 7 | 11 | 13 | 17 | 19 | 23 | 29 | 31 | 37 | 41 | 43 | 47 | 53 | 59 | 61 => {
                Ok(PrimeField::of_listed(p))
            }
            _ => Err(BadPrime),
        }
    }

    /// The field of any listed prime.
    fn of_listed(p: u8) -> PrimeField
        requires { IsTrue (is_listed p) }
        ensures { size_of result ≡ p }
    {
        PrimeField {
            prime: p,
            reciprocal: SCALE / u32::from(p) + 1,
            inverses: inverses_modulo(p),
        }
    }
}

/// The inverse of each number below `p` but 0, at its place.
fn inverses_modulo(p: u8) -> [u8; NUMBERS]
    requires { IsTrue (is_listed p) }
    ensures { HoldsInverses p result }
{
    let mut inverses = [0; NUMBERS];
    for a in 1..p {
        inverses[a as usize] = inverse_modulo(p, a);
    }
    inverses
}

/// The inverse of one number, found by trying each.
fn inverse_modulo(p: u8, a: u8) -> u8
    requires listed { IsTrue (is_listed p) }
    requires below { a < p }
    requires not_zero { a ≢ 0 }
    ensures below { result < p }
    ensures product { (a * result) % p ≡ 1 }
{
    let mut b = 1;
    while u16::from(a) * u16::from(b) % u16::from(p) != 1 {
        b += 1;
    }
    b
}

impl Field for PrimeField {
    type E = u8;

    ghost use Rattle.bmp_field.specs.PrimeLaws.{prime_laws};

    ghost size = { λ f. f.prime };

    ghost is_value = { λ f a. a < f.prime };

    ghost num = { λ f a. a };

    fn size(&self) -> u32 {
        u32::from(self.prime)
    }

    fn is_value(&self, a: u8) -> bool {
        a < self.prime
    }

    fn zero(&self) -> u8 {
        0
    }

    fn one(&self) -> u8 {
        1
    }

    fn add(&self, a: u8, b: u8) -> u8 {
        let sum = a + b;
        if sum < self.prime {
            sum
        } else {
            sum - self.prime
        }
    }

    fn neg(&self, a: u8) -> u8 {
        if a == 0 { 0 } else { self.prime - a }
    }

    fn mul(&self, a: u8, b: u8) -> u8 {
        let product = u32::from(a) * u32::from(b);
        let quotient = product * self.reciprocal / SCALE;
        (product - quotient * u32::from(self.prime)) as u8
    }

    fn inv(&self, a: u8) -> u8 {
        self.inverses[a as usize]
    }

    fn num(&self, a: u8) -> u32 {
        u32::from(a)
    }

    fn from_num(&self, n: u32) -> u8 {
        n as u8
    }

    fn add_multiple(&self, c: u8, from: &[u8], into: &mut [u8]) {
        if c == 1 {
            add_once(self.prime, from, into);
        } else if c == self.prime - 1 {
            subtract_once(self.prime, from, into);
        } else {
            add_products(self.prime, self.reciprocal, c, from, into);
        }
    }

    ghost laws = { prime_laws };
}
