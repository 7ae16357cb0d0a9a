//! How many sections the cover evidence of each block is about.
ghost use Rattle.std.specs.Prelude.{◌≡◌, ◌+◌, ◌-◌, ◌*◌, ◌<◌, ◌≤◌, ℕ, length, slice_index, IfOk};
ghost use Rattle.bmp_graph.specs.Graph.{Graph, vertex_count};
ghost use Rattle.bmp_cert.specs.CertGrammar.{HavePartLines};
ghost use Rattle.bmp_cover.specs.BradenMacPherson.{IsTopVertex};
ghost use Rattle.bmp_check.specs.declared.method.Method.TheVariants.{Spaces, Levels};
ghost use Rattle.bmp_check.specs.BlockData.{block_of, top_vertex};
ghost use Rattle.bmp_check.specs.ShapedViews.{method_in, written_in};
ghost use Rattle.bmp_check.specs.TupleCounts.{CountsDegree, AreTupleCounts};

use crate::degree_blocks::DegreeBlocks;
use crate::given::Given;
use crate::method::Method;
use crate::part::part_of;
use bmp_graph::MomentGraph;
use bmp_levels::longer_counts;
use std::alloc::{AllocError, Global};

/// A number for each vertex and each degree up to a bound: by degree, and then by vertex.
#[derive(Debug, Drop)]
pub struct TupleCounts {
    pub(crate) vertices: u32,
    pub(crate) numbers: Vec<u64>,
}

/// How many basis vectors the block of a vertex and a degree has: none at the greatest vertex, which has no blocks.
fn basis_len(c: &Given, x: u32, d: u32) -> u32
    requires { x < length c.now.parts.now }
    ensures { result ≡ length (block_of (written_in c.now) x d).kernel.basis }
{
    let blocks = &part_of(c, x).blocks;
    if d < blocks.len() {
        blocks.at(d).kernel.basis.len()
    } else {
        0
    }
}

/// How many basis vectors the blocks of a degree have, by vertex.
fn basis_counts(alloc: Global, c: &Given, d: u32) -> Result<Vec<u64>, AllocError>
    ensures { IfOk result (λ counts. (G : Graph) → vertex_count G ≡ length c.now.parts.now
        → CountsDegree G Spaces (written_in c.now) d counts.items) }
{
    let mut counts = Vec::with_capacity(alloc, c.parts.len() as usize)?;
    'vertices: for x in 0..c.parts.len() {
        counts.push(u64::from(basis_len(c, x, d)))?;
    }
    Ok(counts)
}

/// The numbers of one degree, by vertex.
fn degree_counts(
    alloc: Global,
    graph: &MomentGraph,
    c: &Given,
    d: u32,
) -> Result<Vec<u64>, AllocError>
    requires formed { HavePartLines c.now.version (graph.now.prime - 1) c.now.degree c.now.parts.now }
    requires vertices { length c.now.parts.now ≡ vertex_count graph.now }
    requires degree { (d ≤ c.now.degree) × (d ≤ 6) }
    ensures { IfOk result (λ counts. CountsDegree graph.now (method_in c.now) (written_in c.now) d counts.items) }
{
    match c.method() {
        Method::Spaces => basis_counts(alloc, c, d),
        Method::Levels => {
            let blocks = DegreeBlocks {
                given: *c,
                degree: d,
            };
            longer_counts(alloc, graph, d, &blocks)
        }
    }
}

impl TupleCounts {
    /// The numbers of what is written of a graph.
    pub fn new(alloc: Global, graph: &MomentGraph, c: &Given) -> Result<TupleCounts, AllocError>
        requires formed { HavePartLines c.now.version (graph.now.prime - 1) c.now.degree c.now.parts.now }
        requires vertices { length c.now.parts.now ≡ vertex_count graph.now }
        requires degree { c.now.degree ≤ 6 }
        ensures { IfOk result (AreTupleCounts graph.now (method_in c.now) (written_in c.now)) }
    {
        let mut numbers = Vec::new(alloc);
        'degrees: for d in 0..c.degree + 1 {
            numbers.extend_from_slice(&degree_counts(alloc, graph, c, d)?)?;
        }
        Ok(TupleCounts {
            vertices: graph.vertices(),
            numbers,
        })
    }

    /// That of a vertex and a degree.
    pub(crate) fn at(&self, x: u32, d: u32) -> u64
        requires { d * self.now.vertices + x < length self.now.numbers.items }
        ensures { result ≡ slice_index self.now.numbers.items (d * self.now.vertices + x) }
    {
        self.numbers[d as usize * self.vertices as usize + x as usize]
    }
}
