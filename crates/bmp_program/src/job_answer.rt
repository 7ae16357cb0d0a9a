//! What is answered to a job: the first rule that it breaks, its moment graph, or its GKM condition.
ghost use Rattle.std.specs.Prelude.{◌≡◌, IfOk};
ghost use Rattle.bmp_cert.specs.JobGrammar.{IsWellFormedJob};
ghost use Rattle.bmp_cert.specs.JobRules.{IsFirstFault};
ghost use Rattle.bmp_program.specs.Reports.{fault_status, JobReport, GraphReport, GkmReport, JobTextReport};
ghost use Rattle.bmp_program.specs.Runs.{answer_view};

use crate::Status;
use crate::answer::{Answer, made};
use bmp_cert::{CertError, Job, JobError, JobFault, accept_job, prepare_job, read_job};
use bmp_report::{gkm_text, graph_text, job_line, text_line};
use std::alloc::{AllocError, Global};

// The status of a job's fault.
fn fault_status(fault: &JobFault) -> Status
    ensures { result ≡ fault_status fault.now }
{
    match fault {
        JobFault::Gkm(_) => Status::GkmFailed,
        _ => Status::BadJob,
    }
}

/// The answer to a job that breaks a rule: the line of the first one.
pub(crate) fn fault_answer(alloc: Global, j: &Job, fault: &JobFault) -> Result<Answer, AllocError>
    requires { IsFirstFault j.now fault.now }
    ensures report { IfOk result (λ a. JobReport j.now (answer_view a).status (answer_view a).text) }
    ensures status { IfOk result (λ a. (answer_view a).status ≡ fault_status fault.now) }
{
    let line = job_line(alloc, j.rank, fault)?;
    Ok(made(fault_status(fault), line))
}

// What `graph` answers to a job.
fn graph_answer(alloc: Global, j: &Job) -> Result<Answer, AllocError>
    ensures { IfOk result (λ a. GraphReport j.now (answer_view a).status (answer_view a).text) }
{
    match prepare_job(alloc, j) {
        Ok(prepared) => {
            let text = graph_text(alloc, &prepared)?;
            Ok(made(Status::Done, text))
        }
        Err(JobError::Fault(fault)) => {
            let answer = fault_answer(alloc, j, &fault)?;
            Ok(answer)
        }
        Err(JobError::Memory) => Err(AllocError),
    }
}

// What `gkm` answers to a job.
fn gkm_answer(alloc: Global, j: &Job) -> Result<Answer, AllocError>
    ensures { IfOk result (λ a. GkmReport j.now (answer_view a).status (answer_view a).text) }
{
    match accept_job(alloc, j) {
        Ok(accepted) => {
            let text = gkm_text(alloc, &accepted)?;
            Ok(made(Status::Done, text))
        }
        Err(JobError::Fault(fault)) => {
            let answer = fault_answer(alloc, j, &fault)?;
            Ok(answer)
        }
        Err(JobError::Memory) => Err(AllocError),
    }
}

/// What `graph` answers to an input.
pub(crate) fn report_graph(alloc: Global, input: &[u8]) -> Result<Answer, AllocError>
    ensures { IfOk result (λ a. JobTextReport GraphReport input.now (answer_view a).status (answer_view a).text) }
{
    match read_job(alloc, input) {
        Ok(job) => graph_answer(alloc, &job),
        Err(CertError::Text(fault)) => Ok(made(Status::BadText, text_line(alloc, &fault)?)),
        Err(CertError::Memory) => Err(AllocError),
    }
}

/// What `gkm` answers to an input.
pub(crate) fn report_gkm(alloc: Global, input: &[u8]) -> Result<Answer, AllocError>
    ensures { IfOk result (λ a. JobTextReport GkmReport input.now (answer_view a).status (answer_view a).text) }
{
    match read_job(alloc, input) {
        Ok(job) => gkm_answer(alloc, &job),
        Err(CertError::Text(fault)) => Ok(made(Status::BadText, text_line(alloc, &fault)?)),
        Err(CertError::Memory) => Err(AllocError),
    }
}
