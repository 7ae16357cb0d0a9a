//! The parts of which a graph is made, and the rules that they keep.
ghost use Rattle.std.specs.Prelude.{◌≡◌, ◌≢◌, ◌^◌, ◌<◌, ◌≤◌, ◌↔◌, length, IsTrue, MatchOption, OnOk, IfErr};

use crate::edge::Edge;
use crate::fault::GraphFault;

/// Lengths and edges that may make a graph.
#[derive(Drop)]
pub struct Parts<'a> {
    pub rank: u8,
    pub prime: u8,
    pub lengths: &'a [u32],
    pub edges: &'a [Edge],
    ghost few_vertices: { length lengths.now ≤ 4096 },
    ghost few_edges: { length edges.now < 2 ^ 32 },
}

impl<'a> Parts<'a> {
    ghost use Rattle.bmp_graph.specs.Graph.{vertex_count, edge_count, lower, upper, HasEnds, HasLabel, IsBefore, IsGraph};
    ghost use Rattle.bmp_graph.specs.Parts.{graph_of};
    ghost use Rattle.bmp_graph.specs.Faults.{HoldsBelow, IsFirstFailure, KeepsLength, KeepsOrder, BreaksFirst};

    /// The lower end of an edge.
    pub fn lower(&self, e: usize) -> usize
        requires { e < edge_count (graph_of self.now) }
        ensures { result ≡ lower (graph_of self.now) e }
    {
        self.edges[e].lower as usize
    }

    /// The upper end of an edge.
    pub fn upper(&self, e: usize) -> usize
        requires { e < edge_count (graph_of self.now) }
        ensures { result ≡ upper (graph_of self.now) e }
    {
        self.edges[e].upper as usize
    }

    /// The first vertex that is shorter than the one before it.
    fn first_fall(&self) -> Option<u32>
        ensures { let n = vertex_count (graph_of self.now) in let rule = KeepsLength (graph_of self.now) in
            MatchOption result (HoldsBelow n rule) (IsFirstFailure n rule) }
    {
        for x in 1..self.lengths.len() {
            if self.lengths[x] < self.lengths[x - 1] {
                return Some(x as u32);
            }
        }
        None
    }

    /// Whether the edge leads from a vertex up to a longer one.
    fn has_ends(&self, e: usize) -> bool
        requires { e < edge_count (graph_of self.now) }
        ensures { IsTrue result ↔ HasEnds (graph_of self.now) e }
    {
        let (lower, upper) = (self.lower(e), self.upper(e));
        let vertices = self.lengths.len();
        lower < vertices && upper < vertices && self.lengths[lower] < self.lengths[upper]
    }

    /// The first edge that doesn't lead from a vertex up to a longer one.
    fn first_without_ends(&self) -> Option<u32>
        ensures { let n = edge_count (graph_of self.now) in let rule = HasEnds (graph_of self.now) in
            MatchOption result (HoldsBelow n rule) (IsFirstFailure n rule) }
    {
        for e in 0..self.edges.len() {
            if !self.has_ends(e) {
                return Some(e as u32);
            }
        }
        None
    }

    /// Whether the edge d is less than the edge e, by lower and then by upper end.
    fn is_before(&self, d: usize, e: usize) -> bool
        requires first { d < edge_count (graph_of self.now) }
        requires second { e < edge_count (graph_of self.now) }
        ensures { IsTrue result ↔ IsBefore (graph_of self.now) d e }
    {
        (self.lower(d), self.upper(d)) < (self.lower(e), self.upper(e))
    }

    /// The first edge that isn't greater than the one before it.
    fn first_out_of_order(&self) -> Option<u32>
        ensures { let n = edge_count (graph_of self.now) in let rule = KeepsOrder (graph_of self.now) in
            MatchOption result (HoldsBelow n rule) (IsFirstFailure n rule) }
    {
        for e in 1..self.edges.len() {
            if !self.is_before(e - 1, e) {
                return Some(e as u32);
            }
        }
        None
    }

    /// Whether the label has the rank and the prime of the graph.
    fn has_label(&self, e: usize) -> bool
        requires { e < edge_count (graph_of self.now) }
        ensures { IsTrue result ↔ HasLabel (graph_of self.now) e }
    {
        let label = &self.edges[e].label;
        label.rank() == self.rank && label.prime() == self.prime
    }

    /// The first edge whose label has another rank or prime.
    fn first_with_other_label(&self) -> Option<u32>
        ensures { let n = edge_count (graph_of self.now) in let rule = HasLabel (graph_of self.now) in
            MatchOption result (HoldsBelow n rule) (IsFirstFailure n rule) }
    {
        for e in 0..self.edges.len() {
            if !self.has_label(e) {
                return Some(e as u32);
            }
        }
        None
    }

    /// The rules in their order.
    pub fn check(&self) -> Result<(), GraphFault>
        ensures ok { OnOk result (IsGraph (graph_of self.now)) }
        ensures fault { IfErr result (BreaksFirst (graph_of self.now)) }
        ensures not_memory { IfErr result (λ e. e ≢ GraphFault.Memory) }
    {
        if self.lengths.is_empty() {
            return Err(GraphFault::Empty);
        }
        if let Some(vertex) = self.first_fall() {
            return Err(GraphFault::LengthFalls { vertex });
        }
        if let Some(edge) = self.first_without_ends() {
            return Err(GraphFault::EdgeEnds { edge });
        }
        if let Some(edge) = self.first_out_of_order() {
            return Err(GraphFault::EdgeOrder { edge });
        }
        if let Some(edge) = self.first_with_other_label() {
            return Err(GraphFault::LabelOf { edge });
        }
        Ok(())
    }
}
