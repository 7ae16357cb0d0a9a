//! The levels of a moment graph, from the greatest vertex down, over any field and in any rows.
ghost use Rattle.std.specs.Prelude.{◌≡◌, ◌≤◌, IfOk};
ghost use Rattle.bmp_check.specs.Accepted.{IsCheckableGraph};
ghost use Rattle.bmp_build.specs.BuiltGraphs.{AreBuilt};

use crate::level::{build_level, counts_of, extend_families};
use crate::start::{begun, top_families, top_part};
use bmp_cert::Parts;
use bmp_field::Field;
use bmp_graph::MomentGraph;
use bmp_linear::RowSpace;
use bmp_par::Gate;
use std::alloc::{AllocError, Global};
use std::thread::Threads;

/// Builds the parts of all vertices of a graph, up to a degree, over its field, in rows that are kept as `rows` are:
/// level by level the stalks of its vertices, by at most so many threads, and then the families over it.
pub(crate) fn build_levels<F: Field + Drop + Send + Sync, A: RowSpace<F> + Send + Sync, G: Gate>(
    rt: &(impl Threads + Sync),
    alloc: Global,
    graph: &MomentGraph,
    field: F,
    rows: &A,
    degree: u32,
    workers: u32,
    gate: &G,
) -> Result<Parts, AllocError>
where
    F::E: Send + Sync,
    requires on { IsCheckableGraph graph.now }
    requires prime { F.size field ≡ graph.now.prime }
    requires degree { degree ≤ 6 }
    requires workers { (1 ≤ workers) × (workers ≤ 32) }
    ensures { IfOk result (λ parts. AreBuilt F graph.now (record { degree = degree; parts = parts })) }
{
    let top = top_part(alloc)?;
    let mut sheaf = begun(alloc, graph, field, degree, &top)?;
    let mut families = top_families(alloc, &sheaf)?;
    let mut parts = Parts::new(alloc);
    parts.push(top)?;
    'levels: while sheaf.pushed() < graph.vertices() {
        let k = sheaf.next_length();
        let counts = counts_of(alloc, &families)?;
        build_level(
            rt, alloc, &mut sheaf, k, &families, &counts, rows, &mut parts, workers, gate,
        )?;
        extend_families(&sheaf, k, &parts, &mut families)?;
    }
    Ok(parts)
}
