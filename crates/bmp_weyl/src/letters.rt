//! A list of letters.
ghost use Rattle.std.specs.Prelude.{◌≡◌, ◌<◌, ◌↔◌, ◌++◌, ◌∷◌, ◌^◌, [], length, IsTrue, OnOk, OnErr, IfOk, slice_index, reverse};

use std::alloc::{AllocError, Global};
use std::marker::Model;

/// A list of letters, the numbers of simple reflections from 1. Fewer than 2^32 of them.
#[derive(Debug, Drop)]
pub struct Letters {
    letters: Vec<u8>,
}

impl Model for Letters {
    ghost use Rattle.std.specs.Prelude.{ℕ, ◌<◌, ◌^◌, List, length};

    ghost Value = { List ℕ };

    ghost view = { λ l. l.letters.items };

    ghost invariant = { λ l. length l.letters.items < 2 ^ 32 };
}

impl Letters {
    /// No letters. Takes no memory.
    pub fn new(alloc: Global) -> Letters
        ensures { result ≡ [] }
    {
        Letters {
            letters: Vec::new(alloc),
        }
    }

    /// The number of letters.
    pub fn len(&self) -> u32
        ensures { result ≡ length self.now }
    {
        self.letters.len() as u32
    }

    /// Whether there are no letters.
    pub fn is_empty(&self) -> bool
        ensures { IsTrue result ↔ (self.now ≡ []) }
    {
        self.letters.is_empty()
    }

    /// The letter at a place, from 0.
    pub fn at(&self, i: u32) -> u8
        requires { i < length self.now }
        ensures { result ≡ slice_index self.now i }
    {
        self.letters[i as usize]
    }

    /// The letters.
    pub fn as_slice(&self) -> &[u8]
        ensures letters { result.now ≡ self.now }
        ensures few { length result.now < 2 ^ 32 }
    {
        self.letters.as_slice()
    }

    /// Appends a letter. Wants memory where there is none, or where there are 2^32 - 1 letters.
    pub fn push(&mut self, letter: u8) -> Result<(), AllocError>
        ensures ok { OnOk result (self.new ≡ self.old ++ letter ∷ []) }
        ensures err { OnErr result (self.new ≡ self.old) }
    {
        if self.letters.len() >= u32::MAX as usize {
            return Err(AllocError);
        }
        self.letters.push(letter)?;
        Ok(())
    }

    /// The same letters once more.
    pub fn copy(&self) -> Result<Letters, AllocError>
        ensures { IfOk result (λ copy. copy ≡ self.now) }
    {
        let letters = self.letters.clone()?;
        Ok(Letters { letters })
    }

    /// Turns the order of the letters round.
    pub(crate) fn reverse(&mut self)
        ensures { self.new ≡ reverse self.old }
    {
        self.letters.reverse();
    }
}
