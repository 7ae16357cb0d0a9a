//! The extension of a family by the blocks of one length.
ghost use Rattle.std.specs.Prelude.{◌≡◌, ℕ, suc, ◌<◌, ◌≤◌, IfOk};
ghost use Rattle.bmp_graph.specs.Graph.{vertex_count, length_at};
ghost use Rattle.bmp_sheaf.specs.States.{sheaf_of};
ghost use Rattle.bmp_levels.specs.Runs.{list_of};
ghost use Rattle.bmp_levels.specs.Extensions.{IsFirst, HoldsLevel, LevelFits, IsExtension, KeepsBases};

use crate::family::Family;
use crate::level_blocks::LevelBlocks;
use bmp_field::Field;
use bmp_graph::MomentGraph;
use bmp_sheaf::Sheaf;
use std::alloc::AllocError;

/// The first vertex of length `k` or more, or the number of vertices.
fn first_of_level(graph: &MomentGraph, k: u32) -> u32
    ensures { IsFirst graph.now k result }
{
    for y in 0..graph.vertices() {
        if graph.length(y) >= k {
            return y;
        }
    }
    graph.vertices()
}

impl Family {
    /// The extension of a family over the vertices longer than `k` by the blocks of the vertices of length `k`: first
    /// the old members, with the covers as their values at these vertices, and then for each of these vertices, from
    /// the greatest number down, one for each basis vector, with 0 at all other vertices.
    ///
    /// Wants memory also where there would be 2^32 members or more.
    pub fn extend_level<F: Field, B: LevelBlocks>(
        self,
        sheaf: &Sheaf<F>,
        k: u32,
        d: u32,
        blocks: &B,
    ) -> Result<Family, AllocError>
        requires degree { d ≤ sheaf.now.degree }
        requires longer { HoldsLevel sheaf.now (suc k) d self }
        requires blocks { LevelFits sheaf.now k d self.count (B.has blocks.now) (B.block blocks.now) }
        ensures holds { IfOk result (HoldsLevel sheaf.now k d) }
        ensures extended { IfOk result (IsExtension sheaf.now k d (B.block blocks.now) self) }
        ensures keeps { IfOk result
            (λ f. KeepsBases sheaf.now.graph (sheaf_of sheaf.now) k d (B.block blocks.now) (list_of self) (list_of f)) }
    {
        let graph = sheaf.graph();
        let vertices = graph.vertices();
        let mut family = self;
        let start = family.vertices();
        let first = first_of_level(graph, k);
        for b in start..vertices - first {
            let y = vertices - 1 - b;
            let block = blocks.block(y);
            let size = sheaf.stalk_len(y, d) as u32;
            family.add_vertex(size, &block.cover.covers, &block.kernel.basis)?;
        }
        Ok(family)
    }
}
