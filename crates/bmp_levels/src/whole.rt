//! The family over all vertices.
ghost use Rattle.std.specs.Prelude.{◌≡◌, ℕ, ◌<◌, ◌≤◌, ◌-◌, IfOk, length};
ghost use Rattle.bmp_graph.specs.Graph.{vertex_count, length_at};
ghost use Rattle.bmp_sheaf.specs.States.{sheaf_of};
ghost use Rattle.bmp_levels.specs.Levels.{level_vertices};
ghost use Rattle.bmp_levels.specs.Lists.{first_members, SameList};
ghost use Rattle.bmp_levels.specs.Families.{family};
ghost use Rattle.bmp_levels.specs.Runs.{list_of};
ghost use Rattle.bmp_levels.specs.Extensions.{HoldsLevel, HasTop, AllFit};

use crate::family::Family;
use crate::level_blocks::LevelBlocks;
use bmp_field::Field;
use bmp_graph::MomentGraph;
use bmp_sheaf::Sheaf;
use std::alloc::{AllocError, Global};

/// The length of the next vertex, which has no values yet.
fn next_length(graph: &MomentGraph, family: &Family) -> u32
    requires { length family.now.runs < vertex_count graph.now }
    ensures { result ≡ length_at graph.now (vertex_count graph.now - 1 - length family.now.runs) }
{
    graph.length(graph.vertices() - 1 - family.vertices())
}

impl Family {
    /// The family over all vertices, made level by level from blocks of all vertices but the greatest. Its first
    /// members are, over each level, the family of that level.
    ///
    /// Wants memory also where there would be 2^32 members or more.
    pub fn of_blocks<F: Field, B: LevelBlocks>(
        alloc: Global,
        sheaf: &Sheaf<F>,
        d: u32,
        blocks: &B,
    ) -> Result<Family, AllocError>
        requires degree { d ≤ sheaf.now.degree }
        requires top { HasTop sheaf.now }
        requires blocks { AllFit sheaf.now d (B.has blocks.now) (B.block blocks.now) }
        ensures holds { IfOk result (HoldsLevel sheaf.now 0 d) }
        ensures families { let G = sheaf.now.graph in let top = vertex_count G - 1 in
            let families = family G (sheaf_of sheaf.now) d top (B.block blocks.now) in
            IfOk result (λ f. (k : ℕ) → k ≤ length_at G top →
            ((families k).count ≤ f.count)
            × SameList (level_vertices G k) (first_members (families k).count (list_of f)) (families k)) }
    {
        let graph = sheaf.graph();
        let mut family = Family::top(alloc, sheaf, d)?;
        while family.vertices() < graph.vertices() {
            let k = next_length(graph, &family);
            family = family.extend_level(sheaf, k, d, blocks)?;
        }
        Ok(family)
    }
}
