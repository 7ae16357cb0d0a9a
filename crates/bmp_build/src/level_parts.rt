//! The blocks of one degree, of the parts that are there.
ghost use Rattle.bmp_build.specs.Building.{has_block, block_at};

use bmp_cert::Parts;
use bmp_levels::LevelBlocks;
use bmp_linear::DegreeBlock;

/// The blocks of one degree by vertex, of a graph with so many: those of the vertices whose parts are there.
#[derive(Clone, Copy)]
pub(crate) struct LevelParts<'a> {
    pub(crate) parts: &'a Parts,
    pub(crate) vertices: u32,
    pub(crate) degree: u32,
}

impl LevelBlocks for LevelParts<'_> {
    ghost has = { has_block };

    ghost block = { block_at };

    fn block(&self, x: u32) -> &DegreeBlock {
        let part = self.parts.at(self.vertices - 1 - x);
        part.blocks.at(self.degree)
    }
}
