//! The sizes of a vertex and of a block, compared in their order.
ghost use Rattle.std.specs.Prelude.{◌≡◌, ◌+◌, ◌-◌, ◌/◌, ◌%◌, ◌^◌, ◌<◌, length, slice_index, OnOk};
ghost use Rattle.std.specs.List.Sorted.{IsStrictlyIncreasing};
ghost use Rattle.bmp_graph.specs.Graph.{vertex_count, edge_count, upper};
ghost use Rattle.bmp_check.specs.declared.method.Method.TheVariants.{Spaces, Levels};
ghost use Rattle.bmp_check.specs.Sizes.{vertex_sizes, pivot_sizes, kernel_sizes, cover_sizes, last_size, sizes_of_block};
ghost use Rattle.bmp_check.specs.SizeLists.{size_in};
ghost use Rattle.bmp_check.specs.SizeTables.{IsReady};
ghost use Rattle.bmp_check.specs.SizeChecks.{Compares};
ghost use Rattle.bmp_check.specs.ShapedViews.{method_in, written_in};

use crate::Refusal;
use crate::given::Given;
use crate::method::Method;
use crate::need::{need, need_of_places};
use crate::part::part_of;
use crate::size_check::SizeCheck;
use crate::sizes::{BlockSizes, SizeTable};
use bmp_cert::VertexPart;
use bmp_graph::MomentGraph;
use bmp_linear::{CoverEvidence, DegreeBlock, KernelEvidence};

/// How many coordinates there are for a lift: at the upper end of its edge, in the degree of its generator. Lifts
/// stand by edge, from the first edge on, and then by generator.
fn lift_room(graph: &MomentGraph, table: &SizeTable, part: &VertexPart, first: u32, i: u32) -> u64
    requires generators { 0 < length part.now.degrees }
    requires edge { first + i / length part.now.degrees < edge_count graph.now }
    requires fits { first + i / length part.now.degrees < 2 ^ 32 }
    requires vertices { table.now.stalks.vertices ≡ vertex_count graph.now }
    requires degree { slice_index part.now.degrees (i % length part.now.degrees) < table.now.stalks.width }
    ensures { let k = length part.now.degrees in
        result ≡ size_in table.now.stalks (upper graph.now (first + i / k)) (slice_index part.now.degrees (i % k)) }
{
    let generators = part.degrees.len();
    let edge = graph.edge(first + i / generators);
    table.stalks.at(edge.upper, part.degrees.at(i % generators))
}

/// Compares the number of edges of a vertex with the graph's, and the need of each lift with its room.
pub(crate) fn check_vertex_sizes(
    graph: &MomentGraph,
    c: &Given,
    table: &SizeTable,
    x: u32,
    at: &mut SizeCheck,
) -> Result<(), Refusal>
    requires ready { IsReady graph.now c.now.version (written_in c.now) table.now }
    requires vertex { x + 1 < vertex_count graph.now }
    requires room { at.old.index < 2 ^ 32 }
    ensures compares { Compares at.old at.new (vertex_sizes graph.now (written_in c.now) x) result }
    ensures index { OnOk result (at.new.index < 2 ^ 34) }
{
    let part = part_of(c, x);
    let (first, end) = graph.up(x);
    at.is(u64::from(part.edges), u64::from(end - first))?;
    'lifts: for i in 0..part.lifts.len() {
        let room = lift_room(graph, table, part, first, i);
        at.at_most(need(part.lifts.at(i)), room)?;
    }
    Ok(())
}

/// Compares the number of pivots and basis vectors of kernel evidence, and the need of its pivots.
fn check_pivot_sizes(n: &BlockSizes, e: &KernelEvidence, at: &mut SizeCheck) -> Result<(), Refusal>
    requires pivots { IsStrictlyIncreasing e.now.pivots }
    requires room { at.old.index < 2 ^ 40 }
    ensures compares { Compares at.old at.new (pivot_sizes n.now e.now) result }
    ensures index { OnOk result (at.new.index ≡ at.old.index + 2) }
{
    at.is(
        u64::from(e.pivots.len()) + u64::from(e.basis.len()),
        n.columns,
    )?;
    at.at_most(need_of_places(&e.pivots), n.columns)
}

/// Compares the needs of the vectors of kernel evidence.
fn check_kernel_sizes(n: &BlockSizes, e: &KernelEvidence, at: &mut SizeCheck) -> Result<(), Refusal>
    requires { at.old.index < 2 ^ 42 }
    ensures compares { Compares at.old at.new (kernel_sizes n.now e.now) result }
    ensures index { OnOk result (at.new.index < at.old.index + 2 ^ 34) }
{
    at.each_at_most(&e.basis, n.columns)?;
    at.each_at_most(&e.rows, n.rows)
}

/// Compares the needs of the vectors of cover evidence.
fn check_cover_sizes(n: &BlockSizes, e: &CoverEvidence, at: &mut SizeCheck) -> Result<(), Refusal>
    requires { at.old.index < 2 ^ 42 }
    ensures compares { Compares at.old at.new (cover_sizes n.now e.now) result }
    ensures index { OnOk result (at.new.index < at.old.index + 2 ^ 34) }
{
    at.each_at_most(&e.covers, n.stalk)?;
    at.each_at_most(&e.sources, n.tuples)?;
    at.each_at_most(&e.duals, n.boundary)
}

/// Compares the largest of the sizes with the greatest that it may be.
fn check_last_size(n: &BlockSizes, at: &mut SizeCheck) -> Result<(), Refusal>
    requires { at.old.index < 2 ^ 63 }
    ensures { Compares at.old at.new (last_size n.now) result }
{
    at.at_most(n.largest(), u64::from(u32::MAX))
}

/// Compares the sizes of a block by whole spaces.
fn check_space_sizes(n: &BlockSizes, b: &DegreeBlock, at: &mut SizeCheck) -> Result<(), Refusal>
    requires pivots { IsStrictlyIncreasing b.now.kernel.pivots }
    requires room { at.old.index < 2 ^ 40 - 1 }
    ensures { Compares at.old at.new (sizes_of_block Spaces n.now b.now) result }
{
    check_pivot_sizes(n, &b.kernel, at)?;
    check_kernel_sizes(n, &b.kernel, at)?;
    check_cover_sizes(n, &b.cover, at)?;
    check_last_size(n, at)
}

/// Compares the sizes of a block by levels.
fn check_level_sizes(n: &BlockSizes, b: &DegreeBlock, at: &mut SizeCheck) -> Result<(), Refusal>
    requires pivots { IsStrictlyIncreasing b.now.kernel.pivots }
    requires room { at.old.index < 2 ^ 40 - 1 }
    ensures { Compares at.old at.new (sizes_of_block Levels n.now b.now) result }
{
    at.is(u64::from(b.cover.covers.len()), n.tuples)?;
    check_pivot_sizes(n, &b.kernel, at)?;
    check_cover_sizes(n, &b.cover, at)?;
    check_kernel_sizes(n, &b.kernel, at)?;
    check_last_size(n, at)
}

/// Compares the sizes of a block.
pub(crate) fn check_block_sizes(
    method: Method,
    n: &BlockSizes,
    b: &DegreeBlock,
    at: &mut SizeCheck,
) -> Result<(), Refusal>
    requires pivots { IsStrictlyIncreasing b.now.kernel.pivots }
    requires room { at.old.index < 2 ^ 40 - 1 }
    ensures { Compares at.old at.new (sizes_of_block method n.now b.now) result }
{
    match method {
        Method::Spaces => check_space_sizes(n, b, at),
        Method::Levels => check_level_sizes(n, b, at),
    }
}
