//! The parts of all vertices of a moment graph, with evidence by whole spaces of sections.
ghost use Rattle.std.specs.Prelude.{◌≡◌, ◌<◌, ◌≤◌, IfOk, OnOk, length};
ghost use Rattle.bmp_field.specs.declared.prime.PrimeField.{PrimeField};
ghost use Rattle.bmp_graph.specs.Graph.{vertex_count};
ghost use Rattle.bmp_check.specs.Accepted.{IsCheckableGraph};
ghost use Rattle.bmp_build.specs.WholeSpaces.{IsWholePart, AreWhole, AreWholeDown};
ghost use Rattle.bmp_build.specs.Tasks.{IsLengthMade};

use crate::space_tasks::SpaceTasks;
use crate::start::{begun, field_of, top_part};
use crate::tasks::MadeStalk;
use bmp_cert::Parts;
use bmp_field::Field;
use bmp_graph::MomentGraph;
use bmp_par::{Gate, run_tasks};
use bmp_sheaf::Sheaf;
use std::alloc::{AllocError, Global};
use std::thread::Threads;

/// Builds the stalks of the vertices of length `k`, the length of the next vertex: at once, a task for each vertex. The
/// sheaf is as before.
fn space_stalks<F: Field + Drop + Send + Sync, G: Gate>(
    rt: &(impl Threads + Sync),
    alloc: Global,
    sheaf: &mut Sheaf<F>,
    k: u32,
    workers: u32,
    gate: &G,
) -> Result<Vec<MadeStalk<F>>, AllocError>
where
    F::E: Send + Sync,
    requires on { IsCheckableGraph sheaf.old.graph }
    requires some { 1 ≤ length sheaf.old.stalks }
    requires workers { (1 ≤ workers) × (workers ≤ 32) }
    ensures made { IfOk result (λ made. IsLengthMade IsWholePart k sheaf.old made.items) }
    ensures sheaf { OnOk result (sheaf.new ≡ sheaf.old) }
{
    let longer = sheaf.pushed();
    let count = sheaf.open_length(k)?;
    let tasks = SpaceTasks {
        alloc,
        sheaf,
        low: sheaf.graph().vertices() - sheaf.pushed(),
        count,
    };
    let made = run_tasks(rt, alloc, &tasks, count, workers, gate)?;
    let closed = sheaf.first(longer)?;
    *sheaf = closed;
    Ok(made)
}

/// Builds the parts of the vertices of the next vertex's length, where those of all longer ones are there.
fn build_length<F: Field + Drop + Send + Sync, G: Gate>(
    rt: &(impl Threads + Sync),
    alloc: Global,
    sheaf: &mut Sheaf<F>,
    parts: &mut Parts,
    workers: u32,
    gate: &G,
) -> Result<(), AllocError>
where
    F::E: Send + Sync,
    requires on { IsCheckableGraph sheaf.old.graph }
    requires down { AreWholeDown sheaf.old.graph sheaf.old.degree sheaf.old parts.old }
    requires left { length sheaf.old.stalks < vertex_count sheaf.old.graph }
    requires workers { (1 ≤ workers) × (workers ≤ 32) }
    ensures down { OnOk result (AreWholeDown sheaf.old.graph sheaf.old.degree sheaf.new parts.new) }
    ensures more { OnOk result (length parts.old < length parts.new) }
{
    let k = sheaf.next_length();
    let mut made = space_stalks(rt, alloc, sheaf, k, workers, gate)?;
    'vertices: while let Some(stalk) = made.pop() {
        sheaf.adopt(&stalk.sheaf)?;
        parts.push(stalk.part)?;
    }
    Ok(())
}

/// Builds the parts of all vertices of a moment graph, up to a degree, with evidence by whole spaces: from the greatest
/// length down the stalks of the vertices of one length, by at most so many threads, each for the space of sections
/// over the vertices above it.
pub(crate) fn build_spaces<G: Gate>(
    rt: &(impl Threads + Sync),
    alloc: Global,
    graph: &MomentGraph,
    degree: u32,
    workers: u32,
    gate: &G,
) -> Result<Parts, AllocError>
    requires on { IsCheckableGraph graph.now }
    requires degree { degree ≤ 6 }
    requires workers { (1 ≤ workers) × (workers ≤ 32) }
    ensures { IfOk result (λ parts. AreWhole PrimeField graph.now (record { degree = degree; parts = parts })) }
{
    let top = top_part(alloc)?;
    let mut sheaf = begun(alloc, graph, field_of(graph), degree, &top)?;
    let mut parts = Parts::new(alloc);
    parts.push(top)?;
    'lengths: while sheaf.pushed() < graph.vertices() {
        build_length(rt, alloc, &mut sheaf, &mut parts, workers, gate)?;
    }
    Ok(parts)
}
