//! The field of two elements.
ghost use Rattle.std.specs.Prelude.{◌<◌};

use bmp_field::Field;

/// The numbers 0 and 1, with sums and products modulo 2. Takes no memory.
#[derive(Clone, Copy, Debug)]
pub struct BitField;

impl BitField {
    /// The field of two elements.
    pub fn new() -> BitField {
        BitField
    }
}

impl Field for BitField {
    type E = u8;

    ghost use Rattle.bmp_packed.specs.BitLaws.{bit_laws};

    ghost size = { λ f. 2 };

    ghost is_value = { λ f a. a < 2 };

    ghost num = { λ f a. a };

    fn size(&self) -> u32 {
        2
    }

    fn is_value(&self, a: u8) -> bool {
        a < 2
    }

    fn zero(&self) -> u8 {
        0
    }

    fn one(&self) -> u8 {
        1
    }

    fn add(&self, a: u8, b: u8) -> u8 {
        (a + b) % 2
    }

    fn neg(&self, a: u8) -> u8 {
        a
    }

    fn mul(&self, a: u8, b: u8) -> u8 {
        a * b
    }

    fn inv(&self, a: u8) -> u8 {
        a
    }

    fn num(&self, a: u8) -> u32 {
        u32::from(a)
    }

    fn from_num(&self, n: u32) -> u8 {
        n as u8
    }

    fn add_multiple(&self, c: u8, from: &[u8], into: &mut [u8]) {
        for (j, number) in into.iter_mut().enumerate() {
            *number = (*number + c * from[j]) % 2;
        }
    }

    ghost laws = { bit_laws };
}
