//! Two rows of numbers to work in.
ghost use Rattle.std.specs.Prelude.{◌≡◌, ℕ, ◌<◌, length, slice_index, slice_set, replicate, if◌then◌else◌, IfOk, EachIndex};
ghost use Rattle.bmp_linear.specs.RowTables.{Work};

use std::alloc::{AllocError, Global};
use std::marker::Model;

/// Two rows of equally many numbers, for the checks to work in.
#[derive(Debug, Drop)]
pub struct Scratch {
    pub(crate) first: Vec<u8>,
    pub(crate) second: Vec<u8>,
}

/// Writes 0 everywhere.
pub(crate) fn clear(row: &mut [u8])
    ensures { EachIndex row.new (λ j. slice_index row.new j ≡ 0) }
{
    row.fill(0);
}

impl Model for Scratch {
    ghost use Rattle.std.specs.Prelude.{◌≡◌, length};
    ghost use Rattle.bmp_linear.specs.RowTables.{Work};

    ghost Value = { Work };

    ghost view = { λ s. record { first = s.first.items; second = s.second.items } };

    ghost invariant = { λ s. length s.first.items ≡ length s.second.items };
}

impl Scratch {
    /// Two rows of `len` numbers, all 0.
    pub fn new(alloc: Global, len: u64) -> Result<Scratch, AllocError>
        ensures { IfOk result (λ s. s ≡ record { first = replicate len 0; second = replicate len 0 }) }
    {
        Ok(Scratch {
            first: vec![in alloc; 0; len as usize]?,
            second: vec![in alloc; 0; len as usize]?,
        })
    }

    /// How many numbers a row has.
    pub fn len(&self) -> u64
        ensures first { result ≡ length self.now.first }
        ensures second { result ≡ length self.now.second }
    {
        self.first.len() as u64
    }

    /// The first row.
    pub fn first(&self) -> &[u8]
        ensures { result.now ≡ self.now.first }
    {
        self.first.as_slice()
    }

    /// The second row.
    pub fn second(&self) -> &[u8]
        ensures { result.now ≡ self.now.second }
    {
        self.second.as_slice()
    }

    /// The number `i` of the first row, or of the second one.
    pub fn get(&self, second: bool, i: u64) -> u8
        requires { i < length self.now.first }
        ensures { result ≡ slice_index (if second then self.now.second else self.now.first) i }
    {
        if second {
            self.second[i as usize]
        } else {
            self.first[i as usize]
        }
    }

    /// Writes the number `i` of the first row, or of the second one.
    pub fn set(&mut self, second: bool, i: u64, n: u8)
        requires { i < length self.old.first }
        ensures { self.new ≡ (if second
            then record self.old { second = slice_set self.old.second i n }
            else record self.old { first = slice_set self.old.first i n }) }
    {
        if second {
            self.second[i as usize] = n;
        } else {
            self.first[i as usize] = n;
        }
    }
}
