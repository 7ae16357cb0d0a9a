//! The evidence of one degree, and a list of it.
ghost use Rattle.std.specs.Prelude.{◌≡◌, ◌<◌, ◌^◌, [], ◌∷◌, ◌++◌, length, slice_get, Some, OnOk, OnErr, IfOk};

use crate::evidence::{CoverEvidence, KernelEvidence};
use std::alloc::{AllocError, Global};
use std::marker::Model;

/// The evidence of one degree.
#[derive(Debug, Drop)]
pub struct DegreeBlock {
    pub kernel: KernelEvidence,
    pub cover: CoverEvidence,
}

impl DegreeBlock {
    /// An equal block.
    pub fn copy(&self) -> Result<DegreeBlock, AllocError>
        ensures { IfOk result (λ copy. copy ≡ self.now) }
    {
        Ok(DegreeBlock {
            kernel: self.kernel.copy()?,
            cover: self.cover.copy()?,
        })
    }
}

/// A list of blocks, of fewer than 2^32 members.
#[derive(Debug, Drop)]
pub struct Blocks {
    items: Vec<DegreeBlock>,
}

impl Model for Blocks {
    ghost use Rattle.std.specs.Prelude.{◌^◌, ◌<◌, List, length};
    ghost use Rattle.bmp_linear.specs.declared.blocks.DegreeBlock.{DegreeBlock};

    ghost Value = { List DegreeBlock };

    ghost view = { λ b. b.items.items };

    ghost invariant = { λ b. length b.items.items < 2 ^ 32 };
}

impl Blocks {
    /// The empty list. Takes no memory.
    pub fn new(alloc: Global) -> Blocks
        ensures { result ≡ [] }
    {
        Blocks {
            items: Vec::new(alloc),
        }
    }

    /// How many members there are.
    pub fn len(&self) -> u32
        ensures { result ≡ length self.now }
    {
        self.items.len() as u32
    }

    /// The member number `i`, from 0 on.
    pub fn at(&self, i: u32) -> &DegreeBlock
        requires { i < length self.now }
        ensures { slice_get self.now i ≡ Some result.now }
    {
        &self.items[i as usize]
    }

    /// Appends a member. Wants memory also where the list has 2^32 - 1 members.
    pub fn push(&mut self, item: DegreeBlock) -> Result<(), AllocError>
        ensures ok { OnOk result (self.new ≡ self.old ++ item ∷ []) }
        ensures err { OnErr result (self.new ≡ self.old) }
    {
        if self.len() == u32::MAX {
            return Err(AllocError);
        }
        self.items.push(item)?;
        Ok(())
    }

    /// An equal list.
    pub fn copy(&self) -> Result<Blocks, AllocError>
        ensures { IfOk result (λ copy. copy ≡ self.now) }
    {
        let mut copy = Blocks::new(*self.items.allocator());
        for block in &self.items {
            copy.push(block.copy()?)?;
        }
        Ok(copy)
    }

    /// The members, in order.
    pub fn as_slice(&self) -> &[DegreeBlock]
        ensures items { result.now ≡ self.now }
        ensures few { length result.now < 2 ^ 32 }
    {
        self.items.as_slice()
    }
}
