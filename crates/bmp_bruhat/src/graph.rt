//! The graph of an interval.
ghost use Rattle.std.specs.Prelude.{◌≡◌, ℕ, ◌<◌, ◌≤◌, length, ◌↔◌, map, IsTrue, IfOk, IfErr, OnOk};
ghost use Rattle.bmp_roots.specs.RootPairs.{RootPair};
ghost use Rattle.bmp_roots.specs.RootSystems.{matrix_of, positive_roots_of};
ghost use Rattle.bmp_weyl.specs.Elements.{element_length};
ghost use Rattle.bmp_interval.specs.Limits.{max_vertices};
ghost use Rattle.bmp_interval.specs.Intervals.{IsIntervalOf};
ghost use Rattle.bmp_interval.specs.IntervalViews.{system_of, letters_of, vertices_of};
ghost use Rattle.bmp_graph.specs.Graph.{IsGraph};
ghost use Rattle.bmp_bruhat.specs.Labels.{root_form, form_in};
ghost use Rattle.bmp_bruhat.specs.Edges.{IsEdge, IsBruhatGraph, IsEdgeOfRoot};
ghost use Rattle.bmp_bruhat.specs.Building.{IsError};

use crate::building::edges_of;
use crate::error::BruhatError;
use crate::labeling::labeled;
use bmp_graph::{Edge, GraphFault, MomentGraph};
use bmp_interval::Interval;
use bmp_weyl::Elem;
use std::alloc::{AllocError, Global};

/// The lengths of the vertices, by number.
fn lengths_of(alloc: Global, interval: &Interval) -> Result<Vec<u32>, AllocError>
    ensures lengths { IfOk result (λ lengths. lengths.items
        ≡ map (element_length (positive_roots_of (system_of interval.now))) (vertices_of interval.now)) }
    ensures some { OnOk result (0 < length (vertices_of interval.now)) }
    ensures few { OnOk result (length (vertices_of interval.now) ≤ max_vertices) }
    ensures interval { OnOk result
        (IsIntervalOf (system_of interval.now) (letters_of interval.now) (vertices_of interval.now)) }
{
    let mut lengths = Vec::with_capacity(alloc, interval.len() as usize)?;
    for x in 0..interval.len() {
        lengths.push(interval.length(x))?;
    }
    Ok(lengths)
}

/// The Bruhat moment graph of an interval, with the linear forms of the roots modulo a prime as labels: by the simple
/// roots, or by the fundamental weights where `weight` holds.
///
/// Edges are numbered by lower and then by upper end. By the fundamental weights a form may be zero modulo the prime;
/// then there is no graph, and the answer is the first such edge.
pub fn graph_in(
    alloc: Global,
    interval: &Interval,
    prime: u8,
    weight: bool,
) -> Result<MomentGraph, BruhatError>
    requires { 2 ≤ prime }
    ensures graph { IfOk result IsGraph }
    ensures bruhat { IfOk result (IsBruhatGraph (system_of interval.now) (vertices_of interval.now) prime
        (form_in (matrix_of (system_of interval.now)) weight)) }
    ensures error { IfErr result (IsError (system_of interval.now) (vertices_of interval.now) prime
        (form_in (matrix_of (system_of interval.now)) weight)) }
{
    let lengths = lengths_of(alloc, interval)?;
    let found = edges_of(alloc, interval)?;
    let edges = labeled(alloc, interval, &found, prime, weight)?;
    let rank = interval.roots().rank();
    match MomentGraph::new(alloc, rank, prime, &lengths, &edges) {
        Ok(graph) => Ok(graph),
        Err(fault) => match fault {
            GraphFault::Memory => Err(BruhatError::Memory),
            _ => unreachable!(),
        },
    }
}

/// The Bruhat moment graph of an interval, with the roots modulo a prime as labels. That no root is zero modulo the
/// prime needs only that it is 2 or more.
pub fn graph_of(alloc: Global, interval: &Interval, prime: u8) -> Result<MomentGraph, AllocError>
    requires { 2 ≤ prime }
    ensures graph { IfOk result IsGraph }
    ensures bruhat { IfOk result
        (IsBruhatGraph (system_of interval.now) (vertices_of interval.now) prime root_form) }
{
    match graph_in(alloc, interval, prime, false) {
        Ok(graph) => Ok(graph),
        Err(error) => match error {
            BruhatError::Memory => Err(AllocError),
            BruhatError::ZeroLabel { .. } => unreachable!(),
        },
    }
}

fn is_same(x: &Elem, y: &Elem) -> bool
    ensures { IsTrue result ↔ (x.now ≡ y.now) }
{
    x == y
}

/// The number of the positive root whose reflection leads from the lower end of an edge to the upper end.
///
/// The label alone doesn't give it: different roots may be equal modulo the prime.
pub fn root_of(interval: &Interval, edge: &Edge) -> u32
    requires { (q : RootPair) × IsEdge (matrix_of (system_of interval.now)) (positive_roots_of (system_of interval.now))
        (vertices_of interval.now) edge.now.lower edge.now.upper q }
    ensures { IsEdgeOfRoot (system_of interval.now) (vertices_of interval.now) edge.now.lower edge.now.upper result }
{
    let roots = interval.roots();
    let (low, high) = (interval.elem(edge.lower), interval.elem(edge.upper));
    for i in 0..roots.positive() {
        let product = Elem::reflection(roots, i).mul(low);
        if is_same(&product, high) {
            return i;
        }
    }
    unreachable!()
}
