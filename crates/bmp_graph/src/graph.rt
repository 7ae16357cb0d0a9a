//! Moment graphs.
ghost use Rattle.std.specs.Prelude.{◌≡◌, ◌+◌, ◌^◌, ◌<◌, ◌≤◌, ◌↔◌, length, slice_get, Some, IsTrue, IfOk, IfErr};

use crate::bits::BitRows;
use crate::edge::Edge;
use crate::fault::GraphFault;
use crate::parts::Parts;
use crate::tables::Endings;
use std::alloc::{AllocError, Global};
use std::marker::Model;

/// A moment graph: vertices with lengths, and edges with linear forms as labels.
///
/// Vertices and edges are numbered from 0. Lengths never fall with the number, and edges rise by
/// lower and then by upper end.
#[derive(Debug, Drop)]
pub struct MomentGraph {
    rank: u8,
    prime: u8,
    lengths: Vec<u32>,
    edges: Vec<Edge>,
    /// By vertex the first edge that starts there or later; last the number of edges.
    starts: Vec<u32>,
    endings: Endings,
    /// By vertex the set of the vertices above it.
    above: BitRows,
}

impl Model for MomentGraph {
    ghost use Rattle.bmp_graph.specs.Graph.{Graph};
    ghost use Rattle.bmp_graph.specs.Tables.{IsIndexed};

    ghost Value = { Graph };

    ghost view = { λ g. record { rank = g.rank; prime = g.prime; lengths = g.lengths.items; edges = g.edges.items } };

    ghost invariant = { λ g. IsIndexed
        (record { rank = g.rank; prime = g.prime; lengths = g.lengths.items; edges = g.edges.items })
        g.starts.items g.endings.first.items g.endings.next.items g.above };
}

impl MomentGraph {
    ghost use Rattle.bmp_poly.specs.Labels.{rank_of, prime_of, coordinate_of};
    ghost use Rattle.bmp_graph.specs.Graph.{Graph, vertex_count, edge_count, length_at, lower, upper, label, IsGraph, IsUpRange, IsAbove};
    ghost use Rattle.bmp_graph.specs.Tables.{IsNextEnding};
    ghost use Rattle.bmp_graph.specs.Faults.{BreaksFirst};

    /// The graph with these lengths and edges, or the first rule that they break.
    pub fn new(
        alloc: Global,
        rank: u8,
        prime: u8,
        lengths: &[u32],
        edges: &[Edge],
    ) -> Result<MomentGraph, GraphFault>
        requires rank { (1 ≤ rank) × (rank ≤ 6) }
        requires vertices { length lengths.now ≤ 4096 }
        requires edges { length edges.now < 2 ^ 32 }
        ensures made { IfOk result (λ g. g ≡
            record { rank = rank; prime = prime; lengths = lengths.now; edges = edges.now }) }
        ensures graph { IfOk result IsGraph }
        ensures fault { let parts : Graph =
            record { rank = rank; prime = prime; lengths = lengths.now; edges = edges.now } in
            IfErr result (BreaksFirst parts) }
    {
        let parts = Parts {
            rank,
            prime,
            lengths,
            edges,
        };
        parts.check()?;
        let starts = parts.starts(alloc)?;
        let endings = parts.endings(alloc)?;
        let above = parts.rows_above(alloc, &starts)?;
        Ok(MomentGraph {
            rank,
            prime,
            lengths: lengths.to_vec(alloc)?,
            edges: edges.to_vec(alloc)?,
            starts,
            endings,
            above,
        })
    }

    /// An equal graph.
    pub fn copy(&self, alloc: Global) -> Result<MomentGraph, AllocError>
        ensures { IfOk result (λ copy. copy ≡ self.now) }
    {
        Ok(MomentGraph {
            rank: self.rank,
            prime: self.prime,
            lengths: Vec::from_slice(alloc, &self.lengths)?,
            edges: Vec::from_slice(alloc, &self.edges)?,
            starts: Vec::from_slice(alloc, &self.starts)?,
            endings: self.endings.copy(alloc)?,
            above: self.above.copy(alloc)?,
        })
    }

    /// The number of variables of the labels, from 1 to 6.
    pub fn rank(&self) -> u8
        ensures value { result ≡ self.now.rank }
        ensures range { (1 ≤ result) × (result ≤ 6) }
    {
        self.rank
    }

    /// The prime of the labels.
    pub fn prime(&self) -> u8
        ensures { result ≡ self.now.prime }
    {
        self.prime
    }

    /// The number of vertices.
    pub fn vertices(&self) -> u32
        ensures count { result ≡ vertex_count self.now }
        ensures range { result ≤ 4096 }
        ensures graph { IsGraph self.now }
    {
        self.lengths.len() as u32
    }

    /// The number of edges.
    pub fn edges(&self) -> u32
        ensures count { result ≡ edge_count self.now }
        ensures graph { IsGraph self.now }
    {
        self.edges.len() as u32
    }

    /// The edge with this number.
    pub fn edge(&self, e: u32) -> &Edge
        requires { e < edge_count self.now }
        ensures edge { slice_get self.now.edges e ≡ Some result.now }
        ensures lower { result.now.lower ≡ lower self.now e }
        ensures upper { result.now.upper ≡ upper self.now e }
        ensures label { coordinate_of result.now.label ≡ label self.now e }
        ensures rank { rank_of result.now.label ≡ self.now.rank }
        ensures prime { prime_of result.now.label ≡ self.now.prime }
        ensures graph { IsGraph self.now }
    {
        &self.edges[e as usize]
    }

    /// The length of a vertex.
    pub fn length(&self, x: u32) -> u32
        requires { x < vertex_count self.now }
        ensures { result ≡ length_at self.now x }
    {
        self.lengths[x as usize]
    }

    /// The first edge that leads up from a vertex, and the number after the last.
    pub fn up(&self, x: u32) -> (u32, u32)
        requires { x < vertex_count self.now }
        ensures range { IsUpRange self.now x result.0 result.1 }
        ensures graph { IsGraph self.now }
    {
        (self.starts[x as usize], self.starts[x as usize + 1])
    }

    /// The first edge that ends at a vertex, or the number of edges.
    pub(crate) fn first_ending(&self, x: u32) -> u32
        requires { x < vertex_count self.now }
        ensures { IsNextEnding self.now x 0 result }
    {
        self.endings.first[x as usize]
    }

    /// The next edge after e with the same upper end, or the number of edges.
    pub(crate) fn next_ending(&self, e: u32) -> u32
        requires { e < edge_count self.now }
        ensures { IsNextEnding self.now (upper self.now e) (e + 1) result }
    {
        self.endings.next[e as usize]
    }

    /// Whether a chain of one or more edges leads up from x to y.
    pub fn is_above(&self, y: u32, x: u32) -> bool
        requires upper { y < vertex_count self.now }
        requires lower { x < vertex_count self.now }
        ensures { IsTrue result ↔ IsAbove self.now y x }
    {
        self.above.has(x as usize, y as usize)
    }
}
