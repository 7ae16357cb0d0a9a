//! The blocks of one degree.
ghost use Rattle.bmp_check.specs.DegreeBlocks.{has_block, block_at};

use crate::given::Given;
use crate::part::{block_of, part_of};
use bmp_levels::LevelBlocks;
use bmp_linear::DegreeBlock;

/// The blocks of one degree, by vertex: those of all vertices but the greatest.
#[derive(Clone, Copy)]
pub(crate) struct DegreeBlocks<'a> {
    pub(crate) given: Given<'a>,
    pub(crate) degree: u32,
}

impl LevelBlocks for DegreeBlocks<'_> {
    ghost has = { has_block };

    ghost block = { block_at };

    fn block(&self, x: u32) -> &DegreeBlock {
        block_of(part_of(&self.given, x), self.degree)
    }
}
