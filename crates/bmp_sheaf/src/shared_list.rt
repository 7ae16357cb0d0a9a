//! Lists of values with several owners, which share their beginnings.
ghost use Rattle.std.specs.Prelude.{◌≡◌, ◌-◌, ◌<◌, ◌≤◌, ◌++◌, ◌∷◌, [], length, take, slice_index_or, IfOk, OnOk, OnErr};
ghost use Rattle.std.specs.Arc.{arc_value};

use crate::owners::{add_owners, owners};
use std::alloc::{AllocError, Global};
use std::marker::Model;
use std::sync::Arc;

/// A list of values, each of which may have further owners. Those of its beginning are shared all at once, and cost
/// another list nothing.
#[derive(Drop)]
pub(crate) struct SharedList<T: Drop> {
    beginning: Arc<Vec<Arc<T, Global>>, Global>,
    /// How many of the beginning's values are in the list.
    shared: usize,
    rest: Vec<Arc<T, Global>>,
}

impl<T: Drop> Model for SharedList<T> {
    ghost use Rattle.std.specs.Prelude.{List, map, take, length, ◌++◌, ◌≤◌};
    ghost use Rattle.std.specs.Arc.{arc_value};

    ghost Value = { List T };

    ghost view = { λ l. map arc_value (take l.shared (arc_value l.beginning).items) ++ map arc_value l.rest.items };

    ghost invariant = { λ l. l.shared ≤ length (arc_value l.beginning).items };
}

impl<T: Drop> SharedList<T> {
    /// The empty list, with room for `capacity` values.
    pub(crate) fn with_capacity(alloc: Global, capacity: usize) -> Result<SharedList<T>, AllocError>
        ensures { IfOk result (λ list. list ≡ []) }
    {
        let rest = Vec::with_capacity(alloc, capacity)?;
        Ok(SharedList {
            beginning: Arc::new(alloc, Vec::new(alloc))?,
            shared: 0,
            rest,
        })
    }

    /// What takes memory for the list.
    pub(crate) fn allocator(&self) -> Global {
        *self.rest.allocator()
    }

    /// How many values there are.
    pub(crate) fn len(&self) -> usize
        ensures { result ≡ length self.now }
    {
        self.shared + self.rest.len()
    }

    /// An owner of the value number `i`, from 0 on.
    pub(crate) fn at(&self, i: usize) -> &Arc<T, Global>
        requires { i < length self.now }
        ensures { arc_value result.now ≡ slice_index_or self.now i (arc_value result.now) }
    {
        if i < self.shared {
            &self.beginning[i]
        } else {
            &self.rest[i - self.shared]
        }
    }

    /// Appends a value.
    pub(crate) fn push(&mut self, value: Arc<T, Global>) -> Result<(), AllocError>
        ensures ok { OnOk result (self.new ≡ self.old ++ arc_value value ∷ []) }
        ensures err { OnErr result (self.new ≡ self.old) }
    {
        self.rest.push(value)?;
        Ok(())
    }

    /// Takes away all values but the first `count`.
    pub(crate) fn truncate(&mut self, count: usize)
        requires { count ≤ length self.old }
        ensures { self.new ≡ take count self.old }
    {
        let left = count.saturating_sub(self.shared);
        self.rest.truncate(left);
        self.shared = count - left;
    }

    /// The list of the first `count` values. Costs an owner for each that stands behind the shared beginning.
    pub(crate) fn first(&self, count: usize) -> Result<SharedList<T>, AllocError>
        requires { count ≤ length self.now }
        ensures { IfOk result (λ list. list ≡ take count self.now) }
    {
        let left = count.saturating_sub(self.shared);
        let rest = owners(self.allocator(), &self.rest[..left])?;
        Ok(SharedList {
            beginning: Arc::try_clone(&self.beginning)?,
            shared: count - left,
            rest,
        })
    }

    /// Makes all values the shared beginning. Costs an owner for each.
    pub(crate) fn settle(&mut self) -> Result<(), AllocError>
        ensures { self.new ≡ self.old }
    {
        let alloc = self.allocator();
        let mut all = owners(alloc, &self.beginning[..self.shared])?;
        add_owners(&mut all, &self.rest)?;
        let shared = all.len();
        let beginning = Arc::new(alloc, all)?;
        *self = SharedList {
            beginning,
            shared,
            rest: Vec::new(alloc),
        };
        Ok(())
    }
}
