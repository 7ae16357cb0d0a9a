//! A list of places.
ghost use Rattle.std.specs.Prelude.{◌≡◌, ◌<◌, ◌^◌, [], ◌∷◌, ◌++◌, length, slice_index, OnOk, OnErr, IfOk};

use std::alloc::{AllocError, Global};
use std::marker::Model;

/// A list of places, of fewer than 2^32 members.
#[derive(Debug, Drop)]
pub struct Places {
    items: Vec<u32>,
}

impl Model for Places {
    ghost use Rattle.std.specs.Prelude.{ℕ, ◌^◌, ◌<◌, List, length};

    ghost Value = { List ℕ };

    ghost view = { λ p. p.items.items };

    ghost invariant = { λ p. length p.items.items < 2 ^ 32 };
}

impl Places {
    /// The empty list. Takes no memory.
    pub fn new(alloc: Global) -> Places
        ensures { result ≡ [] }
    {
        Places {
            items: Vec::new(alloc),
        }
    }

    /// The empty list, with room for `capacity` members.
    pub fn with_capacity(alloc: Global, capacity: usize) -> Result<Places, AllocError>
        ensures { IfOk result (λ places. places ≡ []) }
    {
        Ok(Places {
            items: Vec::with_capacity(alloc, capacity)?,
        })
    }

    /// How many members there are.
    pub fn len(&self) -> u32
        ensures { result ≡ length self.now }
    {
        self.items.len() as u32
    }

    /// The member number `i`, from 0 on.
    pub fn at(&self, i: u32) -> u32
        requires { i < length self.now }
        ensures { result ≡ slice_index self.now i }
    {
        self.items[i as usize]
    }

    /// Appends a member. Wants memory also where the list has 2^32 - 1 members.
    pub fn push(&mut self, item: u32) -> Result<(), AllocError>
        ensures ok { OnOk result (self.new ≡ self.old ++ item ∷ []) }
        ensures err { OnErr result (self.new ≡ self.old) }
    {
        if self.len() == u32::MAX {
            return Err(AllocError);
        }
        self.items.push(item)?;
        Ok(())
    }

    /// An equal list.
    pub fn copy(&self) -> Result<Places, AllocError>
        ensures { IfOk result (λ copy. copy ≡ self.now) }
    {
        Ok(Places {
            items: self.items.clone()?,
        })
    }

    /// The members, in order.
    pub fn as_slice(&self) -> &[u32]
        ensures items { result.now ≡ self.now }
        ensures few { length result.now < 2 ^ 32 }
    {
        self.items.as_slice()
    }
}
