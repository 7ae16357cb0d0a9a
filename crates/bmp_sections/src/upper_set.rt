//! The vertices above a vertex, and those longer than a number, as sets in memory.
ghost use Rattle.std.specs.Prelude.{◌≡◌, ◌<◌, false, IfOk, length, slice_index_or};
ghost use Rattle.bmp_graph.specs.Graph.{vertex_count};
ghost use Rattle.bmp_sections.specs.Positions.{TestsAbove, TestsLonger};

use bmp_graph::MomentGraph;
use std::alloc::{AllocError, Global};
use std::marker::Model;

/// The set of the vertices above a vertex, or of those that are longer than a number.
#[derive(Debug, Drop)]
pub struct UpperSet {
    tests: Vec<bool>,
}

impl Model for UpperSet {
    ghost use Rattle.std.specs.Prelude.{Bool, List};

    ghost Value = { List Bool };

    ghost view = { λ s. s.tests.items };
}

impl UpperSet {
    /// The vertices above `x`, one or more edges up.
    pub fn above(alloc: Global, graph: &MomentGraph, x: u32) -> Result<UpperSet, AllocError>
        requires { x < vertex_count graph.now }
        ensures vertices { IfOk result (λ set. length set ≡ vertex_count graph.now) }
        ensures above { IfOk result (λ set. TestsAbove graph.now x (λ y. slice_index_or set y false)) }
    {
        let mut tests = Vec::with_capacity(alloc, graph.vertices() as usize)?;
        for y in 0..graph.vertices() {
            tests.push(graph.is_above(y, x))?;
        }
        Ok(UpperSet { tests })
    }

    /// The vertices that are longer than `l`.
    pub fn longer(alloc: Global, graph: &MomentGraph, l: u32) -> Result<UpperSet, AllocError>
        ensures vertices { IfOk result (λ set. length set ≡ vertex_count graph.now) }
        ensures longer { IfOk result (λ set. TestsLonger graph.now l (λ y. slice_index_or set y false)) }
    {
        let mut tests = Vec::with_capacity(alloc, graph.vertices() as usize)?;
        for y in 0..graph.vertices() {
            tests.push(l < graph.length(y))?;
        }
        Ok(UpperSet { tests })
    }

    /// Whether the vertex `y` is in the set.
    pub fn has(&self, y: u32) -> bool
        requires { y < length self.now }
        ensures { result ≡ slice_index_or self.now y false }
    {
        self.tests[y as usize]
    }
}
