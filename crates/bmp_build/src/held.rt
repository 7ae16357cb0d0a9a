//! What each part in memory keeps by its types: lists of fewer than 2^32 members, and vectors whose places rise.
ghost use Rattle.std.specs.Prelude.{ℕ, ◌<◌, All};
ghost use Rattle.bmp_build.specs.BuiltGraphs.{IsHeldList, IsHeldBlock, IsHeldPart};

use bmp_cert::VertexPart;
use bmp_linear::{Blocks, DegreeBlock, Vectors};

/// Reads the lengths of vectors, and that their places rise.
fn read_vectors(vectors: &Vectors)
    ensures { IsHeldList vectors.now }
{
    'each: for i in 0..vectors.len() {
        let vector = vectors.at(i);
        let _len = vector.len();
        let _entries = vector.entries();
    }
}

/// Reads those of a block.
fn read_block(block: &DegreeBlock)
    ensures { IsHeldBlock block.now }
{
    let _pivots = block.kernel.pivots.len();
    read_vectors(&block.kernel.basis);
    read_vectors(&block.kernel.rows);
    read_vectors(&block.cover.covers);
    read_vectors(&block.cover.sources);
    read_vectors(&block.cover.duals);
}

/// Reads those of blocks.
fn read_blocks(blocks: &Blocks)
    ensures { All IsHeldBlock blocks.now }
{
    'each: for i in 0..blocks.len() {
        let block = blocks.at(i);
        read_block(block);
    }
}

/// Reads those of a part. It takes no memory, and changes nothing.
pub(crate) fn read_part(part: &VertexPart)
    ensures { IsHeldPart part.now }
{
    let _degrees = part.degrees.len();
    let _edges = part.edges;
    read_vectors(&part.lifts);
    read_blocks(&part.blocks);
}
