//! A list of vectors.
ghost use Rattle.std.specs.Prelude.{◌≡◌, ◌<◌, ◌^◌, [], ◌∷◌, ◌++◌, length, slice_index_or, OnOk, OnErr, IfOk};

use crate::vector::Vector;
use std::alloc::{AllocError, Global};
use std::marker::Model;

/// A list of vectors, of fewer than 2^32 members.
#[derive(Debug, Drop)]
pub struct Vectors {
    items: Vec<Vector>,
}

impl Model for Vectors {
    ghost use Rattle.std.specs.Prelude.{◌^◌, ◌<◌, List, length};
    ghost use Rattle.bmp_linear.specs.declared.vector.Entry.{Entry};

    ghost Value = { List (List Entry) };

    ghost view = { λ p. p.items.items };

    ghost invariant = { λ p. length p.items.items < 2 ^ 32 };
}

impl Vectors {
    /// The empty list. Takes no memory.
    pub fn new(alloc: Global) -> Vectors
        ensures { result ≡ [] }
    {
        Vectors {
            items: Vec::new(alloc),
        }
    }

    /// The empty list, with room for `capacity` members.
    pub fn with_capacity(alloc: Global, capacity: usize) -> Result<Vectors, AllocError>
        ensures { IfOk result (λ vectors. vectors ≡ []) }
    {
        Ok(Vectors {
            items: Vec::with_capacity(alloc, capacity)?,
        })
    }

    /// How many members there are.
    pub fn len(&self) -> u32
        ensures { result ≡ length self.now }
    {
        self.items.len() as u32
    }

    /// The member number `i`, from 0 on.
    pub fn at(&self, i: u32) -> &Vector
        requires { i < length self.now }
        ensures { result.now ≡ slice_index_or self.now i [] }
    {
        &self.items[i as usize]
    }

    /// Appends a member. Wants memory also where the list has 2^32 - 1 members.
    pub fn push(&mut self, item: Vector) -> Result<(), AllocError>
        ensures ok { OnOk result (self.new ≡ self.old ++ item ∷ []) }
        ensures err { OnErr result (self.new ≡ self.old) }
    {
        if self.len() == u32::MAX {
            return Err(AllocError);
        }
        self.items.push(item)?;
        Ok(())
    }

    /// An equal list.
    pub fn copy(&self) -> Result<Vectors, AllocError>
        ensures { IfOk result (λ copy. copy ≡ self.now) }
    {
        let mut copy = Vectors::with_capacity(*self.items.allocator(), self.items.len())?;
        for vector in &self.items {
            copy.push(vector.copy()?)?;
        }
        Ok(copy)
    }

    /// The members, in order.
    pub fn as_slice(&self) -> &[Vector]
        ensures items { result.now ≡ self.now }
        ensures few { length result.now < 2 ^ 32 }
    {
        self.items.as_slice()
    }
}
