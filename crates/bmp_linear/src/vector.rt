//! A vector of numbers, kept as those that aren't 0.
ghost use Rattle.std.specs.Prelude.{◌≡◌, ◌≢◌, ◌<◌, ◌≤◌, ◌^◌, ◌↔◌, IsTrue, ℕ, All, [], ◌∷◌, ◌++◌, length, slice_get, slice_index, Some, EachIndex, OnOk, OnErr, IfOk};
ghost use Rattle.bmp_linear.specs.SparseVectors.{IsSparse, FitsBelow, ValuesBelow, number_at};

use crate::entries::spread_entries;
use std::alloc::{AllocError, Global};
use std::marker::Model;

/// A number that isn't 0, and its place.
#[derive(Clone, Copy, Debug, Default, PartialEq, Eq)]
pub struct Entry {
    pub place: u32,
    pub value: u8,
}

/// The numbers of a vector that aren't 0, by rising place. Fewer than 2^32 of them.
#[derive(Debug, Drop)]
pub struct Vector {
    entries: Vec<Entry>,
}

impl Model for Vector {
    ghost use Rattle.std.specs.Prelude.{List, ◌^◌, ◌<◌, length};
    ghost use Rattle.bmp_linear.specs.declared.vector.Entry.{Entry};
    ghost use Rattle.bmp_linear.specs.SparseVectors.{IsSparse};

    ghost Value = { List Entry };

    ghost view = { λ v. v.entries.items };

    ghost invariant = { λ v. (length v.entries.items < 2 ^ 32) × IsSparse v.entries.items };
}

impl Vector {
    /// The vector whose numbers are all 0. Takes no memory.
    pub fn new(alloc: Global) -> Vector
        ensures { result ≡ [] }
    {
        Vector {
            entries: Vec::new(alloc),
        }
    }

    /// The vector whose numbers are all 0, with room for `capacity` entries.
    pub fn with_capacity(alloc: Global, capacity: usize) -> Result<Vector, AllocError>
        ensures { IfOk result (λ vector. vector ≡ []) }
    {
        Ok(Vector {
            entries: Vec::with_capacity(alloc, capacity)?,
        })
    }

    /// The vector that is 1 at the place, and 0 elsewhere.
    pub fn unit(alloc: Global, place: u32) -> Result<Vector, AllocError>
        ensures { IfOk result (λ unit. unit ≡ record { place = place; value = 1 } ∷ []) }
    {
        let mut unit = Vector::with_capacity(alloc, 1)?;
        unit.push(Entry { place, value: 1 })?;
        Ok(unit)
    }

    /// The vector of the numbers, each at its place.
    pub fn of_numbers(alloc: Global, numbers: &[u8]) -> Result<Vector, AllocError>
        requires { length numbers.now ≤ 2 ^ 32 }
        ensures sparse { IfOk result IsSparse }
        ensures fits { IfOk result (λ vector. FitsBelow vector (length numbers.now)) }
        ensures numbers { IfOk result
            (λ vector. (j : ℕ) → j < length numbers.now → number_at vector j ≡ slice_index numbers.now j) }
    {
        let mut vector = Vector::new(alloc);
        vector.set_numbers(numbers)?;
        Ok(vector)
    }

    /// Makes this the vector of the numbers, each at its place, in the room that there is. Where memory is
    /// wanting it is the vector of the first of them.
    pub fn set_numbers(&mut self, numbers: &[u8]) -> Result<(), AllocError>
        requires { length numbers.now ≤ 2 ^ 32 }
        ensures sparse { IsSparse self.new }
        ensures fits { FitsBelow self.new (length numbers.now) }
        ensures numbers { OnOk result
            ((j : ℕ) → j < length numbers.now → number_at self.new j ≡ slice_index numbers.now j) }
    {
        self.clear();
        for (place, value) in numbers.iter().enumerate() {
            if *value != 0 {
                self.push(Entry {
                    place: place as u32,
                    value: *value,
                })?;
            }
        }
        Ok(())
    }

    /// Makes this the vector of the entries, in the room that there is. Wants memory also where there are
    /// 2^32 entries or more.
    pub fn set_entries(&mut self, entries: &[Entry]) -> Result<(), AllocError>
        requires { IsSparse entries.now }
        ensures ok { OnOk result (self.new ≡ entries.now) }
        ensures err { OnErr result (self.new ≡ []) }
    {
        self.entries.clear();
        if entries.len() > u32::MAX as usize {
            return Err(AllocError);
        }
        self.entries.extend_from_slice(entries)?;
        Ok(())
    }

    /// How many entries there are.
    pub fn len(&self) -> u32
        ensures { result ≡ length self.now }
    {
        self.entries.len() as u32
    }

    /// The entry number `i`, from 0 on.
    pub fn at(&self, i: u32) -> Entry
        requires { i < length self.now }
        ensures entry { slice_get self.now i ≡ Some result }
        ensures not_zero { result.value ≢ 0 }
    {
        self.entries[i as usize]
    }

    /// Appends an entry whose place is greater than all before, and whose value isn't 0. Wants memory
    /// also where there are 2^32 - 1 entries.
    pub fn push(&mut self, item: Entry) -> Result<(), AllocError>
        requires after { FitsBelow self.old item.place }
        requires not_zero { item.value ≢ 0 }
        ensures ok { OnOk result (self.new ≡ self.old ++ item ∷ []) }
        ensures err { OnErr result (self.new ≡ self.old) }
    {
        if self.len() == u32::MAX {
            return Err(AllocError);
        }
        self.entries.push(item)?;
        Ok(())
    }

    /// Takes all entries away, and keeps the room for them.
    pub fn clear(&mut self)
        ensures { self.new ≡ [] }
    {
        self.entries.clear();
    }

    /// An equal vector.
    pub fn copy(&self) -> Result<Vector, AllocError>
        ensures { IfOk result (λ copy. copy ≡ self.now) }
    {
        Ok(Vector {
            entries: self.entries.clone()?,
        })
    }

    /// The entries: their places rise, and no value is 0.
    pub fn entries(&self) -> &[Entry]
        ensures items { result.now ≡ self.now }
        ensures sparse { IsSparse result.now }
    {
        self.entries.as_slice()
    }

    /// Whether the places are below `n`.
    pub fn fits(&self, n: u32) -> bool
        ensures { IsTrue result ↔ FitsBelow self.now n }
    {
        self.entries().iter().all(|entry| entry.place < n)
    }

    /// Whether the values are below `p`.
    pub fn is_below(&self, p: u32) -> bool
        ensures { IsTrue result ↔ ValuesBelow self.now p }
    {
        self.entries()
            .iter()
            .all(|entry| u32::from(entry.value) < p)
    }

    /// Writes all the numbers, 0s too.
    pub fn spread(&self, into: &mut [u8])
        requires { FitsBelow self.now (length into.old) }
        ensures { EachIndex into.new (λ j. slice_index into.new j ≡ number_at self.now j) }
    {
        spread_entries(self.entries(), into);
    }
}
