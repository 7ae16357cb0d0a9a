//! The blocks of one length.
ghost use Rattle.std.specs.Prelude.{◌≡◌, ℕ, Bool, IsTrue};
ghost use Rattle.bmp_linear.specs.declared.blocks.DegreeBlock.{DegreeBlock};

use bmp_linear::DegreeBlock;

/// The blocks of the vertices of one length, or of more, in one degree: of each the covers of the members over the
/// longer vertices, and the basis of the kernel.
pub trait LevelBlocks {
    /// The vertices that have a block.
    ghost has: { Self → ℕ → Bool };

    /// Their blocks.
    ghost block: { Self → ℕ → DegreeBlock };

    /// The block of a vertex.
    fn block(&self, x: u32) -> &DegreeBlock
        requires { IsTrue (has self.now x) }
        ensures { result.now ≡ block self.now x };
}
