//! What `kl` answers to a job: its Kazhdan-Lusztig table.
ghost use Rattle.std.specs.Prelude.{◌≡◌, IfOk};
ghost use Rattle.bmp_interval.specs.IntervalViews.{system_of, vertices_of};
ghost use Rattle.bmp_program.specs.Reports.{KlReport, TableReport, JobTextReport};
ghost use Rattle.bmp_program.specs.Runs.{answer_view};

use crate::Status;
use crate::answer::{Answer, made};
use crate::job_answer::fault_answer;
use bmp_cert::{CertError, Job, JobError, prepare_job, read_job};
use bmp_interval::Interval;
use bmp_kl::{KlError, kl_table};
use bmp_report::{kl_text, limit_line, text_line};
use std::alloc::{AllocError, Global};

/// How large in size the coefficients of a table may be.
pub(crate) const TABLE_LIMIT: i64 = 1_000_000;

// The table of an interval, or the first vertex that passes the limit.
fn table_answer(alloc: Global, interval: &Interval) -> Result<Answer, AllocError>
    ensures { IfOk result (λ a. TableReport (system_of interval.now) (vertices_of interval.now)
        (answer_view a).status (answer_view a).text) }
{
    match kl_table(alloc, interval, TABLE_LIMIT) {
        Ok(table) => {
            let text = kl_text(alloc, &table)?;
            Ok(made(Status::Done, text))
        }
        Err(KlError::TooBig { x }) => {
            let line = limit_line(alloc, x)?;
            Ok(made(Status::TableLimit, line))
        }
        Err(KlError::Memory) => Err(AllocError),
    }
}

// What `kl` answers to a job.
fn kl_answer(alloc: Global, j: &Job) -> Result<Answer, AllocError>
    ensures { IfOk result (λ a. KlReport j.now (answer_view a).status (answer_view a).text) }
{
    match prepare_job(alloc, j) {
        Ok(prepared) => {
            let answer = table_answer(alloc, prepared.interval())?;
            Ok(answer)
        }
        Err(JobError::Fault(fault)) => {
            let answer = fault_answer(alloc, j, &fault)?;
            Ok(answer)
        }
        Err(JobError::Memory) => Err(AllocError),
    }
}

/// What `kl` answers to an input.
pub(crate) fn report_kl(alloc: Global, input: &[u8]) -> Result<Answer, AllocError>
    ensures { IfOk result (λ a. JobTextReport KlReport input.now (answer_view a).status (answer_view a).text) }
{
    match read_job(alloc, input) {
        Ok(job) => kl_answer(alloc, &job),
        Err(CertError::Text(fault)) => Ok(made(Status::BadText, text_line(alloc, &fault)?)),
        Err(CertError::Memory) => Err(AllocError),
    }
}
