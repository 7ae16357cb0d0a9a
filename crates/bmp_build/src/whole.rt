//! The parts of all vertices of a moment graph, and the certificate of an accepted job.
ghost use Rattle.std.specs.Prelude.{◌≡◌, ◌≤◌, ◌-◌, IfOk};
ghost use Rattle.bmp_cert.specs.CertGrammar.{HavePartLines, IsWellFormed};
ghost use Rattle.bmp_cert.specs.Counts.{written_by};
ghost use Rattle.bmp_cert.specs.JobViews.{job_of, graph_of, prepared_of};
ghost use Rattle.bmp_cert.specs.Versions.{IsVersionOf};
ghost use Rattle.bmp_check.specs.Accepted.{IsCheckableGraph};
ghost use Rattle.bmp_check.specs.Verdicts.{Passes};

use crate::levels::build_levels;
use crate::start::field_of;
use crate::whole_spaces::build_spaces;
use bmp_cert::{Accepted, Cert, Parts};
use bmp_graph::MomentGraph;
use bmp_linear::DenseRows;
use bmp_packed::{BitField, PackedRows};
use bmp_par::{Gate, OpenGate};
use std::alloc::{AllocError, Global};
use std::thread::Threads;

/// Builds the parts of all vertices of a moment graph, up to a degree: from the greatest length down, each stalk with
/// its evidence, in version 1 for the whole spaces of sections over the vertices above, and in the versions 2 and 3 for
/// the families over the longer vertices. Whatever the graph is, the parts have lines of the version, and no comparison
/// of their verdict fails.
///
/// The stalks of the vertices of one length are built at once, by at most so many threads, and by levels modulo 2 in
/// rows of bits. Wants memory also where a number of members or of coordinates would be 2^32 or more.
pub fn build_graph(
    rt: &(impl Threads + Sync),
    alloc: Global,
    graph: &MomentGraph,
    degree: u32,
    version: u8,
    workers: u32,
) -> Result<Parts, AllocError>
    requires on { IsCheckableGraph graph.now }
    requires degree { degree ≤ 6 }
    requires version { (1 ≤ version) × (version ≤ 3) }
    requires workers { (1 ≤ workers) × (workers ≤ 32) }
    ensures formed { IfOk result (HavePartLines version (graph.now.prime - 1) degree) }
    ensures passes { IfOk result (λ parts. Passes graph.now version (record { degree = degree; parts = parts })) }
{
    build_graph_with(rt, alloc, graph, degree, version, workers, &OpenGate)
}

/// The same with a gate, which is passed before each vertex but the greatest, with the number of the vertex, from 0 on,
/// among those of its length.
pub fn build_graph_with<G: Gate>(
    rt: &(impl Threads + Sync),
    alloc: Global,
    graph: &MomentGraph,
    degree: u32,
    version: u8,
    workers: u32,
    gate: &G,
) -> Result<Parts, AllocError>
    requires on { IsCheckableGraph graph.now }
    requires degree { degree ≤ 6 }
    requires version { (1 ≤ version) × (version ≤ 3) }
    requires workers { (1 ≤ workers) × (workers ≤ 32) }
    ensures formed { IfOk result (HavePartLines version (graph.now.prime - 1) degree) }
    ensures passes { IfOk result (λ parts. Passes graph.now version (record { degree = degree; parts = parts })) }
{
    if version == 1 {
        let spaces = build_spaces(rt, alloc, graph, degree, workers, gate)?;
        return Ok(spaces);
    }
    if graph.prime() == 2 {
        let rows = PackedRows::new(alloc, 0);
        let bits = BitField::new();
        let parts_of_bits = build_levels(rt, alloc, graph, bits, &rows, degree, workers, gate)?;
        return Ok(parts_of_bits);
    }
    let rows = DenseRows::new(alloc, 0);
    let parts = build_levels(
        rt,
        alloc,
        graph,
        field_of(graph),
        &rows,
        degree,
        workers,
        gate,
    )?;
    Ok(parts)
}

/// Builds a certificate of an accepted job, of the version 1 or 2 where its lattice is plain, and else of 3, as
/// [`build_graph`] builds its parts. It is well formed, and no comparison of its verdict fails.
pub fn build(
    rt: &(impl Threads + Sync),
    alloc: Global,
    a: &Accepted,
    version: u8,
    workers: u32,
) -> Result<Cert, AllocError>
    requires version { IsVersionOf (job_of (prepared_of a.now)).lattice version }
    requires workers { (1 ≤ workers) × (workers ≤ 32) }
    ensures version { IfOk result (λ c. c.version ≡ version) }
    ensures job { IfOk result (λ c. c.job ≡ job_of (prepared_of a.now)) }
    ensures formed { IfOk result IsWellFormed }
    ensures passes { IfOk result (λ c. Passes (graph_of (prepared_of a.now)) c.version (written_by c)) }
{
    build_with(rt, alloc, a, version, workers, &OpenGate)
}

/// The same with a gate, which is passed as [`build_graph_with`] says.
pub fn build_with<G: Gate>(
    rt: &(impl Threads + Sync),
    alloc: Global,
    a: &Accepted,
    version: u8,
    workers: u32,
    gate: &G,
) -> Result<Cert, AllocError>
    requires version { IsVersionOf (job_of (prepared_of a.now)).lattice version }
    requires workers { (1 ≤ workers) × (workers ≤ 32) }
    ensures version { IfOk result (λ c. c.version ≡ version) }
    ensures job { IfOk result (λ c. c.job ≡ job_of (prepared_of a.now)) }
    ensures formed { IfOk result IsWellFormed }
    ensures passes { IfOk result (λ c. Passes (graph_of (prepared_of a.now)) c.version (written_by c)) }
{
    let job = a.job().copy()?;
    let degree = u32::from(job.degree);
    let vertices = build_graph_with(rt, alloc, a.graph(), degree, version, workers, gate)?;
    Ok(Cert {
        version,
        job,
        vertices,
    })
}
