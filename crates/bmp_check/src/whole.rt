//! The check of a whole certificate.
ghost use Rattle.std.specs.Prelude.{◌≡◌, ◌≢◌, ◌≤◌, OnOk, IfOk, IfErr};
ghost use Rattle.bmp_cover.specs.BradenMacPherson.{IsBradenMacPherson, HasGeneratorsUpTo};
ghost use Rattle.bmp_cover.specs.Counts.{CountsAreDimensions};
ghost use Rattle.bmp_cert.specs.Counts.{Written, written_by, IsRanksOf};
ghost use Rattle.bmp_cert.specs.CertGrammar.{IsWellFormed};
ghost use Rattle.bmp_cert.specs.JobViews.{job_of, graph_of, prepared_of};
ghost use Rattle.bmp_check.specs.Accepted.{IsCheckable};
ghost use Rattle.bmp_check.specs.BlockData.{top_vertex};
ghost use Rattle.bmp_check.specs.CheckErrors.{IsRefusedBy};
ghost use Rattle.bmp_check.specs.Settings.{shaped_in, IsSet};
ghost use Rattle.bmp_check.specs.Shaped.{IsRoomFor};
ghost use Rattle.bmp_check.specs.ShapedViews.{graph_in, method_at, cert_in};
ghost use Rattle.bmp_check.specs.PartsSheaf.{parts_sheaf};
ghost use Rattle.bmp_check.specs.Verdicts.{BlocksPass, IsFirstBlockRefusal, Passes, IsFirstRefusal};

use crate::given::Given;
use crate::pieces::{check_blocks, pieces_for};
use crate::refusal::CheckError;
use crate::setting::Setting;
use crate::top::check_top;
use crate::written::{check_sizes, shaped_of, sheaf_by};
use bmp_cert::{Accepted, Cert, Parts, Ranks};
use bmp_graph::MomentGraph;
use bmp_par::{Gate, OpenGate};
use std::alloc::Global;
use std::thread::Threads;

/// Checks parts of the vertices of a moment graph. It answers the numbers of generators exactly where no comparison
/// fails, and else the first that fails: the number of vertices and all sizes come first, then the greatest vertex,
/// then the blocks. Then the sheaf is a Braden-MacPherson sheaf (Braden-MacPherson 2001; Fiebig-Williamson) in every
/// degree up to the bound, no generator has a degree above the bound, and each number is the dimension of the boundary
/// module modulo multiples of positive degree.
///
/// The workers add the stalks of the vertices of one length at once, and then each checks the blocks of some of the
/// vertices; the answer is the same for any number of workers.
pub fn check_graph(
    rt: &(impl Threads + Sync),
    alloc: Global,
    graph: &MomentGraph,
    degree: u32,
    version: u8,
    parts: &Parts,
    workers: u32,
) -> Result<Ranks, CheckError>
    requires checkable { IsCheckable graph.now version (record { degree = degree; parts = parts.now }) }
    requires workers { (1 ≤ workers) × (workers ≤ 32) }
    ensures ranks { IfOk result (IsRanksOf (record { degree = degree; parts = parts.now })) }
    ensures passes { OnOk result (Passes graph.now version (record { degree = degree; parts = parts.now })) }
    ensures sheaf { let w : Written = record { degree = degree; parts = parts.now } in
        OnOk result (IsBradenMacPherson graph.now (parts_sheaf graph.now w) degree (top_vertex graph.now)) }
    ensures bounded { let w : Written = record { degree = degree; parts = parts.now } in
        OnOk result (HasGeneratorsUpTo graph.now (parts_sheaf graph.now w) degree) }
    ensures dimensions { let w : Written = record { degree = degree; parts = parts.now } in
        OnOk result (CountsAreDimensions graph.now (parts_sheaf graph.now w) degree (top_vertex graph.now)) }
    ensures refused { IfErr result
        (IsRefusedBy (IsFirstRefusal graph.now version (record { degree = degree; parts = parts.now }))) }
{
    check_graph_with(rt, alloc, graph, degree, version, parts, workers, &OpenGate)
}

/// The same with a gate, which each worker passes before its blocks.
pub fn check_graph_with<W: Gate>(
    rt: &(impl Threads + Sync),
    alloc: Global,
    graph: &MomentGraph,
    degree: u32,
    version: u8,
    parts: &Parts,
    workers: u32,
    gate: &W,
) -> Result<Ranks, CheckError>
    requires checkable { IsCheckable graph.now version (record { degree = degree; parts = parts.now }) }
    requires workers { (1 ≤ workers) × (workers ≤ 32) }
    ensures ranks { IfOk result (IsRanksOf (record { degree = degree; parts = parts.now })) }
    ensures passes { OnOk result (Passes graph.now version (record { degree = degree; parts = parts.now })) }
    ensures sheaf { let w : Written = record { degree = degree; parts = parts.now } in
        OnOk result (IsBradenMacPherson graph.now (parts_sheaf graph.now w) degree (top_vertex graph.now)) }
    ensures bounded { let w : Written = record { degree = degree; parts = parts.now } in
        OnOk result (HasGeneratorsUpTo graph.now (parts_sheaf graph.now w) degree) }
    ensures dimensions { let w : Written = record { degree = degree; parts = parts.now } in
        OnOk result (CountsAreDimensions graph.now (parts_sheaf graph.now w) degree (top_vertex graph.now)) }
    ensures refused { IfErr result
        (IsRefusedBy (IsFirstRefusal graph.now version (record { degree = degree; parts = parts.now }))) }
{
    let given = Given {
        degree,
        version,
        parts,
    };
    let sizes = check_sizes(alloc, graph, &given)?;
    check_top(&given)?;
    let sheaf = sheaf_by(rt, alloc, graph, &given, workers)?;
    let shaped = shaped_of(graph, &given, sizes, sheaf);
    let setting = Setting::of(alloc, shaped)?;
    let mut pieces = pieces_for(alloc, setting.shaped(), workers)?;
    check_blocks(rt, &setting, workers, &mut pieces, gate)?;
    let ranks = Ranks::of_parts(alloc, parts, degree)?;
    Ok(ranks)
}

/// Checks a certificate whose job is the accepted one, as [`check_graph`] does on the graph of the job.
pub fn check(
    rt: &(impl Threads + Sync),
    alloc: Global,
    a: &Accepted,
    c: &Cert,
    workers: u32,
) -> Result<Ranks, CheckError>
    requires formed { IsWellFormed c.now }
    requires job { c.now.job ≡ job_of (prepared_of a.now) }
    requires workers { (1 ≤ workers) × (workers ≤ 32) }
    ensures ranks { IfOk result (IsRanksOf (written_by c.now)) }
    ensures passes { OnOk result (Passes (graph_of (prepared_of a.now)) c.now.version (written_by c.now)) }
    ensures sheaf { let G = graph_of (prepared_of a.now) in
        OnOk result (IsBradenMacPherson G (parts_sheaf G (written_by c.now)) c.now.job.degree (top_vertex G)) }
    ensures bounded { let G = graph_of (prepared_of a.now) in
        OnOk result (HasGeneratorsUpTo G (parts_sheaf G (written_by c.now)) c.now.job.degree) }
    ensures dimensions { let G = graph_of (prepared_of a.now) in
        OnOk result (CountsAreDimensions G (parts_sheaf G (written_by c.now)) c.now.job.degree (top_vertex G)) }
    ensures refused { IfErr result
        (IsRefusedBy (IsFirstRefusal (graph_of (prepared_of a.now)) c.now.version (written_by c.now))) }
{
    check_with(rt, alloc, a, c, workers, &OpenGate)
}

/// The same with a gate, which each worker passes before its blocks.
pub fn check_with<W: Gate>(
    rt: &(impl Threads + Sync),
    alloc: Global,
    a: &Accepted,
    c: &Cert,
    workers: u32,
    gate: &W,
) -> Result<Ranks, CheckError>
    requires formed { IsWellFormed c.now }
    requires job { c.now.job ≡ job_of (prepared_of a.now) }
    requires workers { (1 ≤ workers) × (workers ≤ 32) }
    ensures ranks { IfOk result (IsRanksOf (written_by c.now)) }
    ensures passes { OnOk result (Passes (graph_of (prepared_of a.now)) c.now.version (written_by c.now)) }
    ensures sheaf { let G = graph_of (prepared_of a.now) in
        OnOk result (IsBradenMacPherson G (parts_sheaf G (written_by c.now)) c.now.job.degree (top_vertex G)) }
    ensures bounded { let G = graph_of (prepared_of a.now) in
        OnOk result (HasGeneratorsUpTo G (parts_sheaf G (written_by c.now)) c.now.job.degree) }
    ensures dimensions { let G = graph_of (prepared_of a.now) in
        OnOk result (CountsAreDimensions G (parts_sheaf G (written_by c.now)) c.now.job.degree (top_vertex G)) }
    ensures refused { IfErr result
        (IsRefusedBy (IsFirstRefusal (graph_of (prepared_of a.now)) c.now.version (written_by c.now))) }
{
    check_graph_with(
        rt,
        alloc,
        a.graph(),
        u32::from(c.job.degree),
        c.version,
        &c.vertices,
        workers,
        gate,
    )
}
