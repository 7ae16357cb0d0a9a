//! What `build`, `ranks` and `sample` answer: a certificate by levels that was built, its ranks, and a summary.
ghost use Rattle.std.specs.Prelude.{◌≡◌, ◌≤◌, IfOk};
ghost use Rattle.bmp_cert.specs.Counts.{written_by, IsRanksOf};
ghost use Rattle.bmp_cert.specs.JobGraphs.{IsJobGraph};
ghost use Rattle.bmp_cert.specs.JobGrammar.{IsWellFormedJob};
ghost use Rattle.bmp_cert.specs.JobViews.{job_of, graph_of, prepared_of};
ghost use Rattle.bmp_program.specs.Reports.{IsBuiltCert, BuildReport, RanksReport, SampleReport, JobTextReport};
ghost use Rattle.bmp_program.specs.Runs.{answer_view};

use crate::Status;
use crate::answer::{Answer, made};
use crate::job_answer::fault_answer;
use bmp_build::{build_with, level_version};
use bmp_cert::{Accepted, Cert, CertError, Job, JobError, Ranks, accept_job, print_cert, read_job};
use bmp_check::{CheckError, check_with};
use bmp_par::Gate;
use bmp_report::{ranks_text, sample_job, summary_text, text_line};
use std::alloc::{AllocError, Global};
use std::thread::Threads;

/// A certificate of an accepted job.
pub(crate) fn built<G: Gate>(
    rt: &(impl Threads + Sync),
    alloc: Global,
    accepted: &Accepted,
    workers: u32,
    gate: &G,
) -> Result<Cert, AllocError>
    requires formed { IsWellFormedJob (job_of (prepared_of accepted.now)) }
    requires graph { IsJobGraph (job_of (prepared_of accepted.now)) (graph_of (prepared_of accepted.now)) }
    requires workers { (1 ≤ workers) × (workers ≤ 32) }
    ensures { IfOk result
        (IsBuiltCert (job_of (prepared_of accepted.now)) (graph_of (prepared_of accepted.now))) }
{
    build_with(
        rt,
        alloc,
        accepted,
        level_version(accepted.job().lattice),
        workers,
        gate,
    )
}

/// The ranks of a check of a certificate that was built, which no comparison refuses.
pub(crate) fn checked<G: Gate>(
    rt: &(impl Threads + Sync),
    alloc: Global,
    accepted: &Accepted,
    cert: &Cert,
    workers: u32,
    gate: &G,
) -> Result<Ranks, AllocError>
    requires built { IsBuiltCert (job_of (prepared_of accepted.now)) (graph_of (prepared_of accepted.now)) cert.now }
    requires workers { (1 ≤ workers) × (workers ≤ 32) }
    ensures { IfOk result (IsRanksOf (written_by cert.now)) }
{
    match check_with(rt, alloc, accepted, cert, workers, gate) {
        Ok(ranks) => Ok(ranks),
        Err(CheckError::Refused(_)) => unreachable!(),
        Err(CheckError::Memory) => Err(AllocError),
    }
}

// What `build` answers to a job.
fn build_answer<G: Gate>(
    rt: &(impl Threads + Sync),
    alloc: Global,
    j: &Job,
    workers: u32,
    gate: &G,
) -> Result<Answer, AllocError>
    requires formed { IsWellFormedJob j.now }
    requires workers { (1 ≤ workers) × (workers ≤ 32) }
    ensures { IfOk result (λ a. BuildReport j.now (answer_view a).status (answer_view a).text) }
{
    match accept_job(alloc, j) {
        Ok(accepted) => {
            let cert = built(rt, alloc, &accepted, workers, gate)?;
            let text = print_cert(alloc, &cert)?;
            Ok(made(Status::Done, text))
        }
        Err(JobError::Fault(fault)) => {
            let answer = fault_answer(alloc, j, &fault)?;
            Ok(answer)
        }
        Err(JobError::Memory) => Err(AllocError),
    }
}

// What `ranks` answers to a job.
fn ranks_answer<G: Gate>(
    rt: &(impl Threads + Sync),
    alloc: Global,
    j: &Job,
    workers: u32,
    gate: &G,
) -> Result<Answer, AllocError>
    requires formed { IsWellFormedJob j.now }
    requires workers { (1 ≤ workers) × (workers ≤ 32) }
    ensures { IfOk result (λ a. RanksReport j.now (answer_view a).status (answer_view a).text) }
{
    match accept_job(alloc, j) {
        Ok(accepted) => {
            let cert = built(rt, alloc, &accepted, workers, gate)?;
            let ranks = checked(rt, alloc, &accepted, &cert, workers, gate)?;
            let text = ranks_text(alloc, &ranks)?;
            Ok(made(Status::Done, text))
        }
        Err(JobError::Fault(fault)) => {
            let answer = fault_answer(alloc, j, &fault)?;
            Ok(answer)
        }
        Err(JobError::Memory) => Err(AllocError),
    }
}

/// What `sample` answers, for the job of a number.
pub(crate) fn report_sample<G: Gate>(
    rt: &(impl Threads + Sync),
    alloc: Global,
    seed: u32,
    workers: u32,
    gate: &G,
) -> Result<Answer, AllocError>
    requires { (1 ≤ workers) × (workers ≤ 32) }
    ensures { IfOk result (λ a. SampleReport seed (answer_view a).status (answer_view a).text) }
{
    let job = sample_job(alloc, seed)?;
    match accept_job(alloc, &job) {
        Ok(accepted) => {
            let cert = built(rt, alloc, &accepted, workers, gate)?;
            let ranks = checked(rt, alloc, &accepted, &cert, workers, gate)?;
            let text = summary_text(alloc, seed, &accepted, &ranks)?;
            Ok(made(Status::Done, text))
        }
        Err(JobError::Fault(fault)) => {
            let answer = fault_answer(alloc, &job, &fault)?;
            Ok(answer)
        }
        Err(JobError::Memory) => Err(AllocError),
    }
}

/// What `build` answers to an input.
pub(crate) fn report_build<G: Gate>(
    rt: &(impl Threads + Sync),
    alloc: Global,
    input: &[u8],
    workers: u32,
    gate: &G,
) -> Result<Answer, AllocError>
    requires { (1 ≤ workers) × (workers ≤ 32) }
    ensures { IfOk result (λ a. JobTextReport BuildReport input.now (answer_view a).status (answer_view a).text) }
{
    match read_job(alloc, input) {
        Ok(job) => build_answer(rt, alloc, &job, workers, gate),
        Err(CertError::Text(fault)) => Ok(made(Status::BadText, text_line(alloc, &fault)?)),
        Err(CertError::Memory) => Err(AllocError),
    }
}

/// What `ranks` answers to an input.
pub(crate) fn report_ranks<G: Gate>(
    rt: &(impl Threads + Sync),
    alloc: Global,
    input: &[u8],
    workers: u32,
    gate: &G,
) -> Result<Answer, AllocError>
    requires { (1 ≤ workers) × (workers ≤ 32) }
    ensures { IfOk result (λ a. JobTextReport RanksReport input.now (answer_view a).status (answer_view a).text) }
{
    match read_job(alloc, input) {
        Ok(job) => ranks_answer(rt, alloc, &job, workers, gate),
        Err(CertError::Text(fault)) => Ok(made(Status::BadText, text_line(alloc, &fault)?)),
        Err(CertError::Memory) => Err(AllocError),
    }
}
