//! The Goresky-Kottwitz-MacPherson condition: no two labels at one vertex are parallel.
ghost use Rattle.std.specs.Prelude.{◌≡◌, ℕ, ◌+◌, ◌*◌, ◌<◌, ◌↔◌, IsTrue, MatchOption, OnOk, IfErr};
ghost use Rattle.bmp_math.specs.Congruences.{SameMod};
ghost use Rattle.bmp_poly.specs.Labels.{rank_of, prime_of, coordinate_of};
ghost use Rattle.bmp_graph.specs.Graph.{AreParallel};

use crate::fault::GkmPair;
use crate::graph::MomentGraph;
use bmp_poly::Label;

/// Whether the minor of two labels at the variables i and j, from 0, is 0 modulo the prime.
fn has_zero_minor(first: &Label, second: &Label, i: u8, j: u8) -> bool
    requires first { i < rank_of first.now }
    requires second { j < rank_of first.now }
    requires rank { rank_of second.now ≡ rank_of first.now }
    ensures { IsTrue result ↔ SameMod (prime_of first.now)
        (coordinate_of first.now i * coordinate_of second.now j)
        (coordinate_of first.now j * coordinate_of second.now i) }
{
    let prime = u32::from(first.prime());
    let left = u32::from(first.coordinate(i + 1)) * u32::from(second.coordinate(j + 1));
    let right = u32::from(first.coordinate(j + 1)) * u32::from(second.coordinate(i + 1));
    left % prime == right % prime
}

/// Whether each two by two minor of two labels is 0 modulo the prime.
fn are_parallel(first: &Label, second: &Label) -> bool
    requires { rank_of second.now ≡ rank_of first.now }
    ensures { IsTrue result ↔ AreParallel (prime_of first.now) (rank_of first.now)
        (coordinate_of first.now) (coordinate_of second.now) }
{
    for j in 0..first.rank() {
        for i in 0..j {
            if !has_zero_minor(first, second, i, j) {
                return false;
            }
        }
    }
    true
}

impl MomentGraph {
    ghost use Rattle.bmp_graph.specs.Graph.{edge_count, vertex_count, lower, IsEndOf, IsParallel, HasGkm};
    ghost use Rattle.bmp_graph.specs.Faults.{HasNoPartner, IsFirstParallelPair, IsFirstPartner, IsFirstAt};
    ghost use Rattle.bmp_graph.specs.Tables.{IsNextEnding, IsNext};

    /// Whether the labels of two edges are parallel.
    fn has_parallel(&self, d: u32, e: u32) -> bool
        requires first { d < edge_count self.now }
        requires second { e < edge_count self.now }
        ensures { IsTrue result ↔ IsParallel self.now d e }
    {
        are_parallel(&self.edge(d).label, &self.edge(e).label)
    }

    /// The first edge, from number `from` on, with the end x, where `ending` is the first that ends there.
    fn first_of(&self, x: u32, from: u32, ending: u32) -> Option<u32>
        requires vertex { x < vertex_count self.now }
        requires ending { IsNextEnding self.now x from ending }
        requires starts { (e : ℕ) → e < from → e < edge_count self.now → lower self.now e < x }
        ensures { IsNext self.now x from result }
    {
        if ending < self.edges() {
            return Some(ending);
        }
        let (first, past) = self.up(x);
        if first < past { Some(first) } else { None }
    }

    /// The first edge with the end x.
    fn first_at(&self, x: u32) -> Option<u32>
        requires { x < vertex_count self.now }
        ensures { IsNext self.now x 0 result }
    {
        self.first_of(x, 0, self.first_ending(x))
    }

    /// The first edge after e with the end x.
    fn next_at(&self, x: u32, e: u32) -> Option<u32>
        requires vertex { x < vertex_count self.now }
        requires edge { IsEndOf self.now x e }
        ensures { IsNext self.now x (e + 1) result }
    {
        if self.edge(e).upper == x {
            let ending = self.next_ending(e);
            return self.first_of(x, e + 1, ending);
        }
        let (_, past) = self.up(x);
        if e + 1 < past { Some(e + 1) } else { None }
    }

    /// The first edge after `first` at x that is parallel to it.
    fn parallel_after(&self, x: u32, first: u32) -> Option<u32>
        requires vertex { x < vertex_count self.now }
        requires edge { IsEndOf self.now x first }
        ensures { MatchOption result (HasNoPartner self.now x first) (IsFirstPartner self.now x first) }
    {
        let mut next = self.next_at(x, first);
        while let Some(second) = next {
            if self.has_parallel(first, second) {
                return Some(second);
            }
            next = self.next_at(x, second);
        }
        None
    }

    /// The first pair of parallel edges at x.
    fn gkm_at(&self, x: u32) -> Result<(), GkmPair>
        requires { x < vertex_count self.now }
        ensures holds { OnOk result ((d : ℕ) → HasNoPartner self.now x d) }
        ensures fails { IfErr result (λ p. (p.vertex ≡ x) × IsFirstAt self.now x p.first p.second) }
    {
        let mut next = self.first_at(x);
        while let Some(first) = next {
            if let Some(second) = self.parallel_after(x, first) {
                return Err(GkmPair {
                    vertex: x,
                    first,
                    second,
                });
            }
            next = self.next_at(x, first);
        }
        Ok(())
    }

    /// Whether no two different edges at one vertex are parallel, or the first pair that is, by vertex, then
    /// first, then second edge.
    ///
    /// The condition of Goresky, Kottwitz and MacPherson, as in Fiebig and Williamson, Parity sheaves, moment
    /// graphs and the p-smooth locus of Schubert varieties.
    pub fn gkm(&self) -> Result<(), GkmPair>
        ensures holds { OnOk result (HasGkm self.now) }
        ensures fails { IfErr result (λ p. IsFirstParallelPair self.now p.vertex p.first p.second) }
    {
        for x in 0..self.vertices() {
            self.gkm_at(x)?;
        }
        Ok(())
    }
}
