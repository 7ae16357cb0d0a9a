//! The sizes of a certificate's sheaf: a table made once, and the sizes of a block.
ghost use Rattle.std.specs.Prelude.{◌≡◌, ◌+◌, ◌-◌, ◌<◌, ◌≤◌, length, IfOk};
ghost use Rattle.bmp_graph.specs.Graph.{vertex_count};
ghost use Rattle.bmp_cert.specs.CertGrammar.{HavePartLines};
ghost use Rattle.bmp_cover.specs.BradenMacPherson.{IsTopVertex};
ghost use Rattle.bmp_check.specs.BlockData.{top_vertex, matrix_at};
ghost use Rattle.bmp_check.specs.Sizes.{counts_at, largest};
ghost use Rattle.bmp_check.specs.SizeTables.{AreSizesOf};
ghost use Rattle.bmp_check.specs.ShapedViews.{method_in, written_in};

use crate::counts::{boundary_size, stalk_size};
use crate::given::Given;
use crate::method::Method;
use crate::part::part_of;
use crate::size_rows::SizeRows;
use crate::tuple_counts::TupleCounts;
use bmp_graph::MomentGraph;
use std::alloc::{AllocError, Global};

/// How many coordinates the stalk and the boundary of each vertex have, in each degree, and how many sections the cover
/// evidence of its block is about.
#[derive(Debug, Drop)]
pub struct SizeTable {
    pub stalks: SizeRows,
    pub boundaries: SizeRows,
    pub tuples: TupleCounts,
}

/// The sizes of a block. Its kernel evidence is about so many columns and rows: by whole spaces these are the positions
/// of a tuple over the vertices above and the edge equations there, by levels the coordinates of the stalk and of the
/// boundary. Its cover evidence is about so many sections.
#[derive(Clone, Copy, Debug, PartialEq, Eq)]
pub struct BlockSizes {
    pub columns: u64,
    pub rows: u64,
    pub stalk: u64,
    pub boundary: u64,
    pub tuples: u64,
}

impl BlockSizes {
    /// The largest of the sizes but that of the sections.
    pub fn largest(&self) -> u64
        ensures { result ≡ largest self.now }
    {
        self.stalk
            .max(self.boundary)
            .max(self.columns.max(self.rows))
    }
}

impl SizeTable {
    /// The sizes of the sheaf that a certificate writes down on a graph.
    pub fn new(alloc: Global, graph: &MomentGraph, c: &Given) -> Result<SizeTable, AllocError>
        requires formed { HavePartLines c.now.version (graph.now.prime - 1) c.now.degree c.now.parts.now }
        requires vertices { length c.now.parts.now ≡ vertex_count graph.now }
        requires degree { c.now.degree ≤ 6 }
        ensures { IfOk result (AreSizesOf graph.now (method_in c.now) (written_in c.now)) }
    {
        let vertices = graph.vertices();
        let width = c.degree + 1;
        let mut stalks = Vec::new(alloc);
        let mut boundaries = Vec::new(alloc);
        'each: for k in 0..vertices * width {
            let x = k / width;
            let d = k % width;
            stalks.push(stalk_size(graph.rank(), &part_of(c, x).degrees, d))?;
            boundaries.push(boundary_size(graph, c, x, d))?;
        }
        Ok(SizeTable {
            stalks: SizeRows {
                vertices,
                width,
                numbers: stalks,
            },
            boundaries: SizeRows {
                vertices,
                width,
                numbers: boundaries,
            },
            tuples: TupleCounts::new(alloc, graph, c)?,
        })
    }

    /// The sizes of the block of a vertex and a degree, of what the table was made for.
    pub fn block(&self, graph: &MomentGraph, c: &Given, x: u32, d: u32) -> BlockSizes
        requires sizes { AreSizesOf graph.now (method_in c.now) (written_in c.now) self.now }
        requires top { IsTopVertex graph.now (top_vertex graph.now) }
        requires vertex { x + 1 < vertex_count graph.now }
        requires degree { d ≤ c.now.degree }
        ensures { result ≡ counts_at graph.now (method_in c.now) (written_in c.now) x d }
    {
        let (columns, rows) = self.kernel_sizes(graph, c, x, d);
        let tuples = self.tuples.at(x, d);
        BlockSizes {
            columns,
            rows,
            stalk: self.stalks.at(x, d),
            boundary: self.boundaries.at(x, d),
            tuples,
        }
    }

    /// How many columns and rows the kernel evidence of the block is about.
    fn kernel_sizes(&self, graph: &MomentGraph, c: &Given, x: u32, d: u32) -> (u64, u64)
        requires sizes { AreSizesOf graph.now (method_in c.now) (written_in c.now) self.now }
        requires top { IsTopVertex graph.now (top_vertex graph.now) }
        requires vertex { x + 1 < vertex_count graph.now }
        requires degree { d ≤ c.now.degree }
        ensures columns { result.0 ≡ (matrix_at graph.now (method_in c.now) (written_in c.now) x d).cols }
        ensures rows { result.1 ≡ (matrix_at graph.now (method_in c.now) (written_in c.now) x d).rows }
    {
        match c.method() {
            Method::Spaces => (
                self.stalks.sum_above(graph, x, d),
                self.boundaries.sum_above(graph, x, d),
            ),
            Method::Levels => (self.stalks.at(x, d), self.boundaries.at(x, d)),
        }
    }
}
