//! A table of numbers by vertex and degree.
ghost use Rattle.std.specs.Prelude.{◌≡◌, ◌<◌, ◌≤◌};
ghost use Rattle.bmp_graph.specs.Graph.{vertex_count, IsGraph};
ghost use Rattle.bmp_check.specs.SizeLists.{MOST_SIZE, size_in};
ghost use Rattle.bmp_check.specs.SizeTables.{sum_above};

use bmp_graph::MomentGraph;
use std::marker::Model;

/// A number for each vertex and each degree up to a bound.
#[derive(Debug, Drop)]
pub struct SizeRows {
    pub(crate) vertices: u32,
    /// The bound plus 1.
    pub(crate) width: u32,
    pub(crate) numbers: Vec<u64>,
}

impl Model for SizeRows {
    ghost use Rattle.bmp_check.specs.SizeLists.{SizeList, IsSizeList};

    ghost Value = { SizeList };

    ghost view = { λ r. record { vertices = r.vertices; width = r.width; numbers = r.numbers.items } };

    ghost invariant = { λ r. IsSizeList
        (record { vertices = r.vertices; width = r.width; numbers = r.numbers.items }) };
}

impl SizeRows {
    /// The number of a vertex and a degree.
    pub fn at(&self, x: u32, d: u32) -> u64
        requires vertex { x < self.now.vertices }
        requires degree { d < self.now.width }
        ensures number { result ≡ size_in self.now x d }
        ensures small { result ≤ MOST_SIZE }
    {
        self.numbers[x as usize * self.width as usize + d as usize]
    }

    /// The sum over the vertices above one, in a degree.
    pub fn sum_above(&self, graph: &MomentGraph, x: u32, d: u32) -> u64
        requires vertices { self.now.vertices ≡ vertex_count graph.now }
        requires vertex { x < vertex_count graph.now }
        requires degree { d < self.now.width }
        ensures sum { result ≡ sum_above graph.now x (λ y. size_in self.now y d) }
        ensures graph { IsGraph graph.now }
    {
        let mut sum = 0;
        'vertices: for y in 0..graph.vertices() {
            if graph.is_above(y, x) {
                sum += self.at(y, d);
            }
        }
        sum
    }
}
