//! How many members the families of one degree have.
ghost use Rattle.std.specs.Prelude.{◌≡◌, ◌≢◌, ℕ, suc, ◌+◌, ◌-◌, ◌<◌, ◌≤◌, IsTrue, IfOk, length, slice_index};
ghost use Rattle.bmp_graph.specs.Graph.{vertex_count, length_at};
ghost use Rattle.bmp_levels.specs.Families.{shorter_at, member_count};

use crate::level_blocks::LevelBlocks;
use bmp_graph::MomentGraph;
use bmp_poly::monomials;
use std::alloc::{AllocError, Global};

/// How many basis vectors the block of a vertex has, where it is shorter than the greatest vertex.
fn basis_len<B: LevelBlocks>(graph: &MomentGraph, blocks: &B, x: u32) -> u32
    requires vertex { x < vertex_count graph.now }
    requires block { let top = vertex_count graph.now - 1 in
        length_at graph.now x < length_at graph.now top → IsTrue (B.has blocks.now x) }
    ensures { let top = vertex_count graph.now - 1 in
        result ≡ shorter_at graph.now top (B.block blocks.now) x }
{
    if graph.length(x) < graph.length(graph.vertices() - 1) {
        blocks.block(x).kernel.basis.len()
    } else {
        0
    }
}

/// That of the next vertex where it is as long, and otherwise the sum.
fn longer_count(graph: &MomentGraph, x: u32, counts: &[u64], sum: u64) -> u64
    requires vertex { x < vertex_count graph.now }
    requires vertices { length counts.now ≡ vertex_count graph.now }
    ensures same { x + 1 < vertex_count graph.now → length_at graph.now x ≡ length_at graph.now (x + 1)
        → result ≡ slice_index counts.now (x + 1) }
    ensures shorter { (x + 1 < vertex_count graph.now → length_at graph.now x ≢ length_at graph.now (x + 1))
        → result ≡ sum }
{
    let vertices = graph.vertices();
    let next = x + 1;
    if next < vertices && graph.length(x) == graph.length(next) {
        counts[next as usize]
    } else {
        sum
    }
}

/// For each vertex, how many members the family over the longer vertices has, in degree `d`: one for each monomial,
/// and one for each basis vector of a longer vertex but the longest.
pub fn longer_counts<B: LevelBlocks>(
    alloc: Global,
    graph: &MomentGraph,
    d: u32,
    blocks: &B,
) -> Result<Vec<u64>, AllocError>
    requires degree { d ≤ 6 }
    requires blocks { let top = vertex_count graph.now - 1 in
        (x : ℕ) → x < vertex_count graph.now → length_at graph.now x < length_at graph.now top
        → IsTrue (B.has blocks.now x) }
    ensures vertices { IfOk result (λ counts. length counts.items ≡ vertex_count graph.now) }
    ensures counts { let top = vertex_count graph.now - 1 in
        IfOk result (λ counts. (x : ℕ) → x < vertex_count graph.now → slice_index counts.items x
        ≡ member_count graph.now d top (B.block blocks.now) (suc (length_at graph.now x))) }
{
    let vertices = graph.vertices();
    let mut counts = no_counts(alloc, vertices as usize)?;
    let mut sum = u64::from(monomials::count(graph.rank(), d));
    for b in 0..vertices {
        let x = vertices - 1 - b;
        counts[x as usize] = longer_count(graph, x, &counts, sum);
        sum += u64::from(basis_len(graph, blocks, x));
    }
    Ok(counts)
}

/// So many 0s.
fn no_counts(alloc: Global, len: usize) -> Result<Vec<u64>, AllocError>
    ensures { IfOk result (λ counts. length counts.items ≡ len) }
{
    vec![in alloc; 0; len]
}
