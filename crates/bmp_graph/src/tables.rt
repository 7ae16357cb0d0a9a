//! The tables that a graph keeps: where the edges of a vertex stand, and which vertices lie above it.
ghost use Rattle.std.specs.Prelude.{◌≡◌, ℕ, ◌+◌, ◌<◌, ◌≤◌, ◌↔◌, ◌⊎◌, IfOk};

use crate::bits::BitRows;
use crate::parts::Parts;
use std::alloc::{AllocError, Global};

/// The edges that end at each vertex, threaded by rising number.
#[derive(Debug, Drop)]
pub struct Endings {
    /// By vertex the first edge that ends there, or the number of edges.
    pub first: Vec<u32>,
    /// By edge the next edge with the same upper end, or the number of edges.
    pub next: Vec<u32>,
}

impl Endings {
    /// The same threads again.
    pub fn copy(&self, alloc: Global) -> Result<Endings, AllocError>
        ensures first { IfOk result (λ t. t.first.items ≡ self.now.first.items) }
        ensures next { IfOk result (λ t. t.next.items ≡ self.now.next.items) }
    {
        Ok(Endings {
            first: Vec::from_slice(alloc, &self.first)?,
            next: Vec::from_slice(alloc, &self.next)?,
        })
    }
}

impl<'a> Parts<'a> {
    ghost use Rattle.bmp_graph.specs.Graph.{vertex_count, edge_count, lower, IsGraph, IsUpRange};
    ghost use Rattle.bmp_graph.specs.Parts.{graph_of};
    ghost use Rattle.bmp_graph.specs.Tables.{IsStart, HasStarts, HasEndings, HasRows, HasRowsFrom};

    /// The first edge, from number `from` on, whose lower end is `vertex` or greater.
    fn start_after(&self, vertex: usize, from: usize) -> usize
        requires graph { IsGraph (graph_of self.now) }
        requires from { from ≤ edge_count (graph_of self.now) }
        requires before { (e : ℕ) → e < from → lower (graph_of self.now) e < vertex }
        ensures { IsStart (graph_of self.now) vertex result }
    {
        let mut start = from;
        while start < self.edges.len() && self.lower(start) < vertex {
            start += 1;
        }
        start
    }

    /// By vertex the first edge whose lower end is that vertex or greater; last the number of edges.
    pub fn starts(&self, alloc: Global) -> Result<Vec<u32>, AllocError>
        requires { IsGraph (graph_of self.now) }
        ensures { IfOk result (λ starts. HasStarts (graph_of self.now) starts.items) }
    {
        let mut starts = Vec::new(alloc);
        let mut start = 0;
        for vertex in 0..self.lengths.len() + 1 {
            start = self.start_after(vertex, start);
            starts.push(start as u32)?;
        }
        Ok(starts)
    }

    /// The edges that end at each vertex.
    pub fn endings(&self, alloc: Global) -> Result<Endings, AllocError>
        requires { IsGraph (graph_of self.now) }
        ensures { IfOk result (λ t. HasEndings (graph_of self.now) t.first.items t.next.items) }
    {
        let none = self.edges.len() as u32;
        let mut first = vec![in alloc; none; self.lengths.len()]?;
        let mut next = vec![in alloc; none; self.edges.len()]?;
        for e in (0..self.edges.len()).rev() {
            let upper = self.upper(e);
            next[e] = first[upper];
            first[upper] = e as u32;
        }
        Ok(Endings { first, next })
    }

    /// Fills the row of one vertex, where those of the greater vertices are filled.
    fn fill_row(&self, rows: &mut BitRows, vertex: usize, from: u32, to: u32)
        requires graph { IsGraph (graph_of self.now) }
        requires rows { HasRowsFrom (graph_of self.now) (vertex + 1) rows.old }
        requires vertex { vertex < vertex_count (graph_of self.now) }
        requires range { IsUpRange (graph_of self.now) vertex from to }
        ensures { HasRowsFrom (graph_of self.now) vertex rows.new }
    {
        for e in from..to {
            let upper = self.upper(e as usize);
            rows.insert(vertex, upper);
            rows.merge(vertex, upper);
        }
    }

    /// By vertex the set of the vertices above it.
    pub fn rows_above(&self, alloc: Global, starts: &[u32]) -> Result<BitRows, AllocError>
        requires graph { IsGraph (graph_of self.now) }
        requires starts { HasStarts (graph_of self.now) starts.now }
        ensures { IfOk result (HasRows (graph_of self.now)) }
    {
        let size = self.lengths.len();
        let mut rows = BitRows::new(alloc, size)?;
        for vertex in (0..size).rev() {
            self.fill_row(&mut rows, vertex, starts[vertex], starts[vertex + 1]);
        }
        Ok(rows)
    }
}
