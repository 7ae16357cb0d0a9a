//! Lists of numbers: the entries of a Cartan matrix, and degrees of generators.
ghost use Rattle.std.specs.Prelude.{◌≡◌, ◌<◌, ◌^◌, pos, [], ◌∷◌, ◌++◌, ◌==◌, count_by, length, slice_index, slice_index_or, OnOk, OnErr, IfOk};

use std::alloc::{AllocError, Global};
use std::marker::Model;

/// The entries of a matrix, row by row: a list of fewer than 2^32 members.
#[derive(Debug, Drop)]
pub struct Entries {
    items: Vec<i64>,
}

impl Model for Entries {
    ghost use Rattle.std.specs.Prelude.{ℤ, ◌^◌, ◌<◌, List, length};

    ghost Value = { List ℤ };

    ghost view = { λ l. l.items.items };

    ghost invariant = { λ l. length l.items.items < 2 ^ 32 };
}

impl Entries {
    /// The empty list. Takes no memory.
    pub fn new(alloc: Global) -> Entries
        ensures { result ≡ [] }
    {
        Entries {
            items: Vec::new(alloc),
        }
    }

    /// The empty list, with room for `capacity` members.
    pub fn with_capacity(alloc: Global, capacity: usize) -> Result<Entries, AllocError>
        ensures { IfOk result (λ entries. entries ≡ []) }
    {
        Ok(Entries {
            items: Vec::with_capacity(alloc, capacity)?,
        })
    }

    /// How many members there are.
    pub fn len(&self) -> u32
        ensures { result ≡ length self.now }
    {
        self.items.len() as u32
    }

    /// The member number `i`, from 0 on.
    pub fn at(&self, i: u32) -> i64
        requires { i < length self.now }
        ensures { result ≡ slice_index_or self.now i (pos 0) }
    {
        self.items[i as usize]
    }

    /// Appends a member. Wants memory also where the list has 2^32 - 1 members.
    pub fn push(&mut self, item: i64) -> Result<(), AllocError>
        ensures ok { OnOk result (self.new ≡ self.old ++ item ∷ []) }
        ensures err { OnErr result (self.new ≡ self.old) }
    {
        if self.len() == u32::MAX {
            return Err(AllocError);
        }
        self.items.push(item)?;
        Ok(())
    }

    /// Appends a row of entries. Wants memory also past 2^32 - 1 members.
    pub(crate) fn append(&mut self, row: &[i64]) -> Result<(), AllocError>
        ensures ok { OnOk result (self.new ≡ self.old ++ row.now) }
        ensures err { OnErr result (self.new ≡ self.old) }
    {
        if row.len() > (u32::MAX - self.len()) as usize {
            return Err(AllocError);
        }
        self.items.extend_from_slice(row)?;
        Ok(())
    }

    /// An equal list.
    pub fn copy(&self) -> Result<Entries, AllocError>
        ensures { IfOk result (λ copy. copy ≡ self.now) }
    {
        Ok(Entries {
            items: self.items.clone()?,
        })
    }

    /// The members, in order.
    pub fn as_slice(&self) -> &[i64]
        ensures { result.now ≡ self.now }
    {
        self.items.as_slice()
    }
}

/// Degrees of generators: a list of fewer than 2^32 members.
#[derive(Debug, Drop)]
pub struct Degrees {
    items: Vec<u32>,
}

impl Model for Degrees {
    ghost use Rattle.std.specs.Prelude.{ℕ, ◌^◌, ◌<◌, List, length};

    ghost Value = { List ℕ };

    ghost view = { λ l. l.items.items };

    ghost invariant = { λ l. length l.items.items < 2 ^ 32 };
}

impl Degrees {
    /// The empty list. Takes no memory.
    pub fn new(alloc: Global) -> Degrees
        ensures { result ≡ [] }
    {
        Degrees {
            items: Vec::new(alloc),
        }
    }

    /// The empty list, with room for `capacity` members.
    pub fn with_capacity(alloc: Global, capacity: usize) -> Result<Degrees, AllocError>
        ensures { IfOk result (λ degrees. degrees ≡ []) }
    {
        Ok(Degrees {
            items: Vec::with_capacity(alloc, capacity)?,
        })
    }

    /// How many members there are.
    pub fn len(&self) -> u32
        ensures { result ≡ length self.now }
    {
        self.items.len() as u32
    }

    /// The member number `i`, from 0 on.
    pub fn at(&self, i: u32) -> u32
        requires { i < length self.now }
        ensures { result ≡ slice_index self.now i }
    {
        self.items[i as usize]
    }

    /// Appends a member. Wants memory also where the list has 2^32 - 1 members.
    pub fn push(&mut self, item: u32) -> Result<(), AllocError>
        ensures ok { OnOk result (self.new ≡ self.old ++ item ∷ []) }
        ensures err { OnErr result (self.new ≡ self.old) }
    {
        if self.len() == u32::MAX {
            return Err(AllocError);
        }
        self.items.push(item)?;
        Ok(())
    }

    /// An equal list.
    pub fn copy(&self) -> Result<Degrees, AllocError>
        ensures { IfOk result (λ copy. copy ≡ self.now) }
    {
        Ok(Degrees {
            items: self.items.clone()?,
        })
    }

    /// The members, in order.
    pub fn as_slice(&self) -> &[u32]
        ensures items { result.now ≡ self.now }
        ensures few { length result.now < 2 ^ 32 }
    {
        self.items.as_slice()
    }

    /// How many of the degrees are this one.
    pub fn count(&self, degree: u64) -> u32
        ensures { result ≡ count_by (λ e. e == degree) self.now }
    {
        let mut count: u32 = 0;
        let degrees = self.as_slice();
        'degrees: for own in degrees {
            if u64::from(*own) == degree {
                count += 1;
            }
        }
        count
    }
}
