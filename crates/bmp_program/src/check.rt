//! The command `check`: whether the input is a certificate that holds, and its ranks.
ghost use Rattle.std.specs.Prelude.{◌≡◌, ◌≤◌, IfOk};
ghost use Rattle.bmp_cert.specs.CertGrammar.{IsWellFormed};
ghost use Rattle.bmp_cert.specs.JobViews.{job_of, graph_of, prepared_of};
ghost use Rattle.bmp_check.specs.Accepted.{IsAccepted};
ghost use Rattle.bmp_program.specs.Reports.{CertReport, CertTextReport};
ghost use Rattle.bmp_program.specs.Runs.{answer_view};

use crate::Status;
use crate::answer::{Answer, made};
use crate::job_answer::fault_answer;
use bmp_cert::{Accepted, Cert, CertError, JobError, accept_job, read_cert};
use bmp_check::{CheckError, check_with, refusal_line};
use bmp_par::Gate;
use bmp_report::{ranks_text, text_line};
use std::alloc::{AllocError, Global};
use std::thread::Threads;

// What the comparisons of a certificate answer whose job is the accepted one.
fn verdict_on<G: Gate>(
    rt: &(impl Threads + Sync),
    alloc: Global,
    accepted: &Accepted,
    cert: &Cert,
    workers: u32,
    gate: &G,
) -> Result<Answer, AllocError>
    requires accepted { IsAccepted (graph_of (prepared_of accepted.now)) cert.now }
    requires job { cert.now.job ≡ job_of (prepared_of accepted.now) }
    requires workers { (1 ≤ workers) × (workers ≤ 32) }
    ensures { IfOk result (λ a. CertReport cert.now (answer_view a).status (answer_view a).text) }
{
    match check_with(rt, alloc, accepted, cert, workers, gate) {
        Ok(ranks) => {
            let lines = ranks_text(alloc, &ranks)?;
            Ok(made(Status::Done, lines))
        }
        Err(CheckError::Refused(refusal)) => {
            let line = refusal_line(alloc, &refusal)?;
            Ok(made(Status::Refused, line))
        }
        Err(CheckError::Memory) => Err(AllocError),
    }
}

// What the check of a certificate answers.
fn report_on_cert<G: Gate>(
    rt: &(impl Threads + Sync),
    alloc: Global,
    cert: &Cert,
    workers: u32,
    gate: &G,
) -> Result<Answer, AllocError>
    requires formed { IsWellFormed cert.now }
    requires workers { (1 ≤ workers) × (workers ≤ 32) }
    ensures { IfOk result (λ a. CertReport cert.now (answer_view a).status (answer_view a).text) }
{
    match accept_job(alloc, &cert.job) {
        Ok(accepted) => verdict_on(rt, alloc, &accepted, cert, workers, gate),
        Err(JobError::Fault(fault)) => {
            let answer = fault_answer(alloc, &cert.job, &fault)?;
            Ok(answer)
        }
        Err(JobError::Memory) => Err(AllocError),
    }
}

/// What `check` answers to an input, by so many workers. Once the certificate is read, the bytes of the input are given
/// back.
pub(crate) fn report_check<G: Gate>(
    rt: &(impl Threads + Sync),
    alloc: Global,
    input: Vec<u8>,
    workers: u32,
    gate: &G,
) -> Result<Answer, AllocError>
    requires { (1 ≤ workers) × (workers ≤ 32) }
    ensures { IfOk result (λ a. CertTextReport input.items (answer_view a).status (answer_view a).text) }
{
    let read = read_cert(alloc, &input);
    drop(input);
    match read {
        Ok(cert) => report_on_cert(rt, alloc, &cert, workers, gate),
        Err(CertError::Text(fault)) => {
            let line = text_line(alloc, &fault)?;
            Ok(made(Status::BadText, line))
        }
        Err(CertError::Memory) => Err(AllocError),
    }
}
