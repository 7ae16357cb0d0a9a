//! The edges, vertex by vertex and root by root, in rising order.
ghost use Rattle.std.specs.Prelude.{◌≡◌, ℕ, ◌+◌, ◌<◌, ◌≤◌, ◌↔◌, length, slice_index_or, slice_get, Some, IsTrue, IfOk, OnOk};
ghost use Rattle.bmp_roots.specs.RootSystems.{positives};
ghost use Rattle.bmp_roots.specs.declared.root_pair.Pair.{Pair};
ghost use Rattle.bmp_interval.specs.Intervals.{IsIntervalOf};
ghost use Rattle.bmp_interval.specs.IntervalViews.{system_of, letters_of, vertices_of};
ghost use Rattle.bmp_roots.specs.RootSystems.{matrix_of};
ghost use Rattle.bmp_roots.specs.Pairs.{pair_of};
ghost use Rattle.bmp_weyl.specs.Elements.{IsReflection};
ghost use Rattle.bmp_weyl.specs.declared.elem.Elem.{Elem};
ghost use Rattle.bmp_bruhat.specs.Building.{ComesBefore, HasReflections, HasEdgesUpTo};
ghost use Rattle.bmp_bruhat.specs.declared.root_edge.RootEdge.{RootEdge};

use crate::reflections::reflections;
use crate::root_edge::RootEdge;
use bmp_interval::Interval;
use bmp_weyl::Elem;
use std::alloc::{AllocError, Global};

/// Where an edge with these ends goes: behind the last that is not greater.
fn place_of(edges: &[RootEdge], lower: u32, upper: u32) -> usize
    ensures within { result ≤ length edges.now }
    ensures after { (e : ℕ) (o : RootEdge) → result ≤ e → e < length edges.now
        → ComesBefore lower upper
        (slice_index_or edges.now e o).lower (slice_index_or edges.now e o).upper }
    ensures before { (e : ℕ) (o : RootEdge) → e + 1 ≡ result
        → ComesBefore lower upper
        (slice_index_or edges.now e o).lower (slice_index_or edges.now e o).upper → ⊥ }
{
    let mut place = edges.len();
    while place > 0 && is_less(lower, upper, &edges[place - 1]) {
        place -= 1;
    }
    place
}

/// Whether the ends come before those of an edge.
fn is_less(lower: u32, upper: u32, edge: &RootEdge) -> bool
    ensures { IsTrue result ↔ ComesBefore lower upper edge.now.lower edge.now.upper }
{
    (lower, upper) < (edge.lower, edge.upper)
}

/// Adds the edge that the reflection number i leads up from the vertex x, if there is one.
pub fn add_edge(
    interval: &Interval,
    x: u32,
    i: u32,
    reflection: &Elem,
    edges: &mut Vec<RootEdge>,
) -> Result<(), AllocError>
    requires interval { IsIntervalOf (system_of interval.now) (letters_of interval.now) (vertices_of interval.now) }
    requires vertex { x < length (vertices_of interval.now) }
    requires root { i < length (positives (system_of interval.now)) }
    requires reflection { (pair : Pair) → slice_get (positives (system_of interval.now)) i ≡ Some pair
        → IsReflection (matrix_of (system_of interval.now)) (pair_of pair) reflection.now }
    requires edges { HasEdgesUpTo (system_of interval.now) (vertices_of interval.now) x i edges.old.items }
    ensures { OnOk result (HasEdgesUpTo (system_of interval.now) (vertices_of interval.now) x (i + 1) edges.new.items) }
{
    let above = reflection.mul(interval.elem(x));
    let Some(y) = interval.number_of(&above) else {
        return Ok(());
    };
    if interval.length(x) < interval.length(y) {
        let place = place_of(edges, x, y);
        edges.insert(
            place,
            RootEdge {
                lower: x,
                upper: y,
                root: i,
            },
        )?;
    }
    Ok(())
}

/// Adds the edges that lead up from the vertex x.
fn add_edges(
    interval: &Interval,
    x: u32,
    reflections: &[Elem],
    edges: &mut Vec<RootEdge>,
) -> Result<(), AllocError>
    requires interval { IsIntervalOf (system_of interval.now) (letters_of interval.now) (vertices_of interval.now) }
    requires vertex { x < length (vertices_of interval.now) }
    requires reflections { HasReflections (system_of interval.now) (length (positives (system_of interval.now)))
        reflections.now }
    requires edges { HasEdgesUpTo (system_of interval.now) (vertices_of interval.now) x 0 edges.old.items }
    ensures { OnOk result (HasEdgesUpTo (system_of interval.now) (vertices_of interval.now) (x + 1) 0 edges.new.items) }
{
    for (i, reflection) in reflections.iter().enumerate() {
        add_edge(interval, x, i as u32, reflection, edges)?;
    }
    Ok(())
}

/// The edges of all vertices with their roots, by lower and then by upper end.
pub fn edges_of(alloc: Global, interval: &Interval) -> Result<Vec<RootEdge>, AllocError>
    ensures { IfOk result (λ edges. HasEdgesUpTo (system_of interval.now) (vertices_of interval.now)
        (length (vertices_of interval.now)) 0 edges.items) }
{
    let reflections = reflections(alloc, interval.roots())?;
    let mut edges = Vec::new(alloc);
    for x in 0..interval.len() {
        add_edges(interval, x, &reflections, &mut edges)?;
    }
    Ok(edges)
}
