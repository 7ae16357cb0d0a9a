//! The pass over all sizes, which comes before any number is compared.
ghost use Rattle.std.specs.Prelude.{◌≡◌, ◌≢◌, ◌+◌, ◌-◌, ◌<◌, ◌≤◌, None, Some, length, MatchResult, IfErr};
ghost use Rattle.bmp_graph.specs.Graph.{vertex_count};
ghost use Rattle.bmp_cert.specs.CertGrammar.{HavePartLines};
ghost use Rattle.bmp_cover.specs.BradenMacPherson.{IsTopVertex};
ghost use Rattle.bmp_check.specs.BlockData.{top_vertex};
ghost use Rattle.bmp_check.specs.Comparisons.{first_failure};
ghost use Rattle.bmp_check.specs.Sizes.{shape_comparisons};
ghost use Rattle.bmp_check.specs.SizeTables.{AreSizesOf, IsReady};
ghost use Rattle.bmp_check.specs.Verdicts.{CountPasses, IsCountRefusal, ShapePassesAt, ShapePasses, IsShapeRefusal};
ghost use Rattle.bmp_check.specs.ShapedViews.{method_in, written_in};

use crate::Refusal;
use crate::blocks::{block_at, block_count};
use crate::given::Given;
use crate::part::{block_of, part_of};
use crate::shape_sizes::{check_block_sizes, check_vertex_sizes};
use crate::size_check::SizeCheck;
use crate::sizes::SizeTable;
use bmp_cover::Kind;
use bmp_graph::MomentGraph;

/// Compares the number of vertices of the text with the graph's. Takes no memory.
pub fn check_count(graph: &MomentGraph, c: &Given) -> Result<(), Refusal>
    ensures first { MatchResult result (λ _. CountPasses graph.now (written_in c.now))
        (IsCountRefusal graph.now (written_in c.now)) }
    ensures differ { IfErr result (λ r. r.left ≢ r.right) }
{
    let left = u64::from(c.parts.len());
    let right = u64::from(graph.vertices());
    if left != right {
        return Err(Refusal {
            vertex: 0,
            degree: 0,
            kind: Kind::Shape,
            index: 0,
            place: 0,
            left,
            right,
        });
    }
    Ok(())
}

// The sizes of one vertex and degree.
fn check_shape_at(
    graph: &MomentGraph,
    c: &Given,
    table: &SizeTable,
    x: u32,
    d: u32,
) -> Result<(), Refusal>
    requires ready { IsReady graph.now c.now.version (written_in c.now) table.now }
    requires vertex { x + 1 < vertex_count graph.now }
    requires degree { d ≤ c.now.degree }
    ensures { MatchResult result
        (λ _. ShapePassesAt graph.now (method_in c.now) (written_in c.now) x d)
        (λ r. first_failure (shape_comparisons graph.now (method_in c.now) (written_in c.now) x d) ≡ Some r) }
{
    let mut at = SizeCheck {
        vertex: x,
        degree: d,
        index: 0,
    };
    if d == 0 {
        check_vertex_sizes(graph, c, table, x, &mut at)?;
    }
    let counts = table.block(graph, c, x, d);
    check_block_sizes(c.method(), &counts, block_of(part_of(c, x), d), &mut at)
}

/// Compares the sizes of all blocks, and of their vertices, and gives the first comparison that fails. Takes no memory.
pub fn check_shape(graph: &MomentGraph, c: &Given, table: &SizeTable) -> Result<(), Refusal>
    requires formed { HavePartLines c.now.version (graph.now.prime - 1) c.now.degree c.now.parts.now }
    requires vertices { length c.now.parts.now ≡ vertex_count graph.now }
    requires top { IsTopVertex graph.now (top_vertex graph.now) }
    requires degree { c.now.degree ≤ 6 }
    requires table { AreSizesOf graph.now (method_in c.now) (written_in c.now) table.now }
    ensures first { MatchResult result (λ _. ShapePasses graph.now (method_in c.now) (written_in c.now))
        (IsShapeRefusal graph.now (method_in c.now) (written_in c.now)) }
    ensures differ { IfErr result (λ r. r.left ≢ r.right) }
{
    let vertices = graph.vertices();
    let degree = c.degree;
    'each: for i in 0..block_count(vertices, degree) {
        let (x, d) = block_at(vertices, degree, i);
        check_shape_at(graph, c, table, x, d)?;
    }
    Ok(())
}
