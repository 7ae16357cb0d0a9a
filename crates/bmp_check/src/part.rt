//! The parts of a certificate, by vertex and degree.
ghost use Rattle.std.specs.Prelude.{◌≡◌, ◌<◌, length, slice_index_or};
ghost use Rattle.bmp_cert.specs.Counts.{part_of};
ghost use Rattle.bmp_check.specs.BlockData.{no_block};
ghost use Rattle.bmp_check.specs.ShapedViews.{written_in};

use crate::given::Given;
use bmp_cert::VertexPart;
use bmp_linear::DegreeBlock;

/// The part of a vertex.
pub(crate) fn part_of<'a>(c: &Given<'a>, x: u32) -> &'a VertexPart
    requires { x < length c.now.parts.now }
    ensures { result.now ≡ part_of (written_in c.now) x }
{
    c.parts.at(c.parts.len() - 1 - x)
}

/// The block of a degree.
pub(crate) fn block_of(part: &VertexPart, d: u32) -> &DegreeBlock
    requires { d < length part.now.blocks }
    ensures { result.now ≡ slice_index_or part.now.blocks d no_block }
{
    part.blocks.at(d)
}
