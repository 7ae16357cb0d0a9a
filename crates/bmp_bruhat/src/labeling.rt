//! The edges with their labels.
ghost use Rattle.std.specs.Prelude.{◌≤◌, length, IfOk, IfErr};
ghost use Rattle.bmp_roots.specs.RootSystems.{matrix_of};
ghost use Rattle.bmp_interval.specs.IntervalViews.{system_of, vertices_of};
ghost use Rattle.bmp_bruhat.specs.Labels.{form_in};
ghost use Rattle.bmp_bruhat.specs.Building.{HasEdgesUpTo, AreLabeled, IsError};

use crate::error::BruhatError;
use crate::label::root_label;
use crate::root_edge::RootEdge;
use bmp_graph::Edge;
use bmp_interval::Interval;
use std::alloc::Global;

/// The edges with the forms of their roots modulo a prime as labels, or the first whose form is zero.
pub fn labeled(
    alloc: Global,
    interval: &Interval,
    found: &[RootEdge],
    prime: u8,
    weight: bool,
) -> Result<Vec<Edge>, BruhatError>
    requires prime { 2 ≤ prime }
    requires found { HasEdgesUpTo (system_of interval.now) (vertices_of interval.now)
        (length (vertices_of interval.now)) 0
        found.now }
    ensures ok { IfOk result (λ edges. AreLabeled (system_of interval.now) prime
        (form_in (matrix_of (system_of interval.now)) weight) (length found.now) found.now edges.items) }
    ensures error { IfErr result (IsError (system_of interval.now) (vertices_of interval.now) prime
        (form_in (matrix_of (system_of interval.now)) weight)) }
{
    let roots = interval.roots();
    let mut edges = Vec::with_capacity(alloc, found.len())?;
    for edge in found {
        let Some(label) = root_label(roots, edge.root, prime, weight) else {
            return Err(BruhatError::ZeroLabel {
                lower: edge.lower,
                upper: edge.upper,
            });
        };
        edges.push(Edge {
            lower: edge.lower,
            upper: edge.upper,
            label,
        })?;
    }
    Ok(edges)
}
