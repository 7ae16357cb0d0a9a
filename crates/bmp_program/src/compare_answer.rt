//! What `compare` answers to a job: the ranks of a certificate that is built beside the Kazhdan-Lusztig table.
ghost use Rattle.std.specs.Prelude.{◌≡◌, ◌≤◌, IfOk};
ghost use Rattle.bmp_interval.specs.IntervalViews.{system_of, vertices_of};
ghost use Rattle.bmp_kl.specs.KlTables.{sum_of, coefficient_of};
ghost use Rattle.bmp_cert.specs.JobGraphs.{IsJobGraph, IsPrepared};
ghost use Rattle.bmp_cert.specs.JobGrammar.{IsWellFormedJob};
ghost use Rattle.bmp_cert.specs.JobViews.{job_of, interval_of, graph_of, prepared_of};
ghost use Rattle.bmp_program.specs.Reports.{IsBuiltComparison, ComparedReport, CompareReport, JobTextReport};
ghost use Rattle.bmp_program.specs.Runs.{answer_view};

use crate::Status;
use crate::answer::{Answer, made};
use crate::built_answer::{built, checked};
use crate::job_answer::fault_answer;
use crate::table_answer::TABLE_LIMIT;
use bmp_cert::{Accepted, CertError, Job, JobError, accept_job, read_job};
use bmp_interval::Interval;
use bmp_kl::{KlError, KlTable, kl_table};
use bmp_par::Gate;
use bmp_report::{compare_text, limit_line, text_line};
use std::alloc::{AllocError, Global};
use std::thread::Threads;

// The ranks of a certificate that is built, beside a table of its job's vertices.
fn compared<G: Gate>(
    rt: &(impl Threads + Sync),
    alloc: Global,
    accepted: &Accepted,
    table: &KlTable,
    workers: u32,
    gate: &G,
) -> Result<Vec<u8>, AllocError>
    requires formed { IsWellFormedJob (job_of (prepared_of accepted.now)) }
    requires graph { IsJobGraph (job_of (prepared_of accepted.now)) (graph_of (prepared_of accepted.now)) }
    requires lengths { table.now.lengths.items ≡ (graph_of (prepared_of accepted.now)).lengths }
    requires workers { (1 ≤ workers) × (workers ≤ 32) }
    ensures { IfOk result (λ v. IsBuiltComparison (job_of (prepared_of accepted.now))
        (graph_of (prepared_of accepted.now)) (coefficient_of table.now) (sum_of table.now) v.items) }
{
    let cert = built(rt, alloc, accepted, workers, gate)?;
    let ranks = checked(rt, alloc, accepted, &cert, workers, gate)?;
    let text = compare_text(alloc, &ranks, table)?;
    Ok(text)
}

// What is answered to the vertices of an accepted job: the comparison, or the first vertex that passes the limit.
fn answer_on<G: Gate>(
    rt: &(impl Threads + Sync),
    alloc: Global,
    accepted: &Accepted,
    interval: &Interval,
    workers: u32,
    gate: &G,
) -> Result<Answer, AllocError>
    requires formed { IsWellFormedJob (job_of (prepared_of accepted.now)) }
    requires graph { IsJobGraph (job_of (prepared_of accepted.now)) (graph_of (prepared_of accepted.now)) }
    requires prepared { IsPrepared (job_of (prepared_of accepted.now)) interval.now
        (graph_of (prepared_of accepted.now)) }
    requires workers { (1 ≤ workers) × (workers ≤ 32) }
    ensures { IfOk result (λ a. ComparedReport (job_of (prepared_of accepted.now)) (system_of interval.now)
        (vertices_of interval.now) (answer_view a).status (answer_view a).text) }
{
    match kl_table(alloc, interval, TABLE_LIMIT) {
        Ok(table) => {
            let text = compared(rt, alloc, accepted, &table, workers, gate)?;
            Ok(made(Status::Done, text))
        }
        Err(KlError::TooBig { x }) => {
            let line = limit_line(alloc, x)?;
            Ok(made(Status::TableLimit, line))
        }
        Err(KlError::Memory) => Err(AllocError),
    }
}

// What `compare` answers to a job.
fn compare_answer<G: Gate>(
    rt: &(impl Threads + Sync),
    alloc: Global,
    j: &Job,
    workers: u32,
    gate: &G,
) -> Result<Answer, AllocError>
    requires formed { IsWellFormedJob j.now }
    requires workers { (1 ≤ workers) × (workers ≤ 32) }
    ensures { IfOk result (λ a. CompareReport j.now (answer_view a).status (answer_view a).text) }
{
    match accept_job(alloc, j) {
        Ok(accepted) => {
            let answer = answer_on(rt, alloc, &accepted, accepted.interval(), workers, gate)?;
            Ok(answer)
        }
        Err(JobError::Fault(fault)) => {
            let answer = fault_answer(alloc, j, &fault)?;
            Ok(answer)
        }
        Err(JobError::Memory) => Err(AllocError),
    }
}

/// What `compare` answers to an input.
pub(crate) fn report_compare<G: Gate>(
    rt: &(impl Threads + Sync),
    alloc: Global,
    input: &[u8],
    workers: u32,
    gate: &G,
) -> Result<Answer, AllocError>
    requires { (1 ≤ workers) × (workers ≤ 32) }
    ensures { IfOk result (λ a. JobTextReport CompareReport input.now (answer_view a).status (answer_view a).text) }
{
    match read_job(alloc, input) {
        Ok(job) => compare_answer(rt, alloc, &job, workers, gate),
        Err(CertError::Text(fault)) => Ok(made(Status::BadText, text_line(alloc, &fault)?)),
        Err(CertError::Memory) => Err(AllocError),
    }
}
