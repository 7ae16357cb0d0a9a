//! A command on its input: reads it to its end and answers it; and `sample`, which reads nothing.
ghost use Rattle.std.specs.Prelude.{◌≡◌, ◌≤◌, true, IfOk, length, None};
ghost use Rattle.bmp_ports.specs.Ports.{Rose, IsAtEnd};
ghost use Rattle.bmp_program.specs.CommandLine.{reads_input};
ghost use Rattle.bmp_program.specs.Reports.{TextReport, InputReport, SampleReport};
ghost use Rattle.bmp_program.specs.Runs.{IsDecided, answer_view};

use crate::Status;
use crate::answer::{Answer, fixed};
use crate::built_answer::{report_build, report_ranks, report_sample};
use crate::check::report_check;
use crate::compare_answer::report_compare;
use crate::job_answer::{report_gkm, report_graph};
use crate::table_answer::report_kl;
use crate::words::{CommandWord, Request};
use bmp_par::Gate;
use bmp_ports::{READ_LIMIT, ReadError, Source, read_all};
use std::alloc::{AllocError, Global};
use std::thread::Threads;

// What a request answers to an input.
fn report_on<G: Gate>(
    rt: &(impl Threads + Sync),
    alloc: Global,
    request: Request,
    input: Vec<u8>,
    gate: &G,
) -> Result<Answer, AllocError>
    requires limit { length input.items ≤ READ_LIMIT }
    requires reads { reads_input request.command ≡ true }
    requires workers { (1 ≤ request.workers) × (request.workers ≤ 32) }
    ensures { IfOk result (λ a.
        TextReport request.command input.items (answer_view a).status (answer_view a).text) }
{
    match request.command {
        CommandWord::Check => report_check(rt, alloc, input, request.workers, gate),
        CommandWord::Graph => report_graph(alloc, &input),
        CommandWord::Gkm => report_gkm(alloc, &input),
        CommandWord::Kl => report_kl(alloc, &input),
        CommandWord::Build => report_build(rt, alloc, &input, request.workers, gate),
        CommandWord::Ranks => report_ranks(rt, alloc, &input, request.workers, gate),
        CommandWord::Compare => report_compare(rt, alloc, &input, request.workers, gate),
        CommandWord::Sample => unreachable!(),
    }
}

/// Reads the input to its end and answers it.
pub(crate) fn answer_to<S: Source, G: Gate>(
    rt: &(impl Threads + Sync),
    alloc: Global,
    request: Request,
    source: &mut S,
    gate: &G,
) -> Answer
    requires reads { reads_input request.command ≡ true }
    requires workers { (1 ≤ request.workers) × (request.workers ≤ 32) }
    ensures answer { IsDecided (InputReport request.command) (S.left source.old)
        (Rose (S.faults source.old) (S.faults source.new)) (answer_view result) }
    ensures end { (answer_view result).status ≡ Status.Done → IsAtEnd (S.left source.new) }
{
    match read_all(alloc, source, READ_LIMIT) {
        Ok(input) => match report_on(rt, alloc, request, input, gate) {
            Ok(answer) => answer,
            Err(_) => fixed(Status::NoMemory, b"no memory\n"),
        },
        Err(ReadError::ReadFault) => fixed(Status::ReadFault, b"read fault\n"),
        Err(ReadError::TooLong) => fixed(Status::TooLong, b"input too long\n"),
        Err(ReadError::Memory) => fixed(Status::NoMemory, b"no memory\n"),
    }
}

/// The answer of `sample`, for the job of the number that the request names.
#[tactic(auto, using(crate::proofs::ReportLemmas::sample_answered))]
pub(crate) fn answer_sample<G: Gate>(
    rt: &(impl Threads + Sync),
    alloc: Global,
    request: Request,
    gate: &G,
) -> Answer
    requires { (1 ≤ request.workers) × (request.workers ≤ 32) }
    ensures { IsDecided (λ input. SampleReport request.seed) None ⊥ (answer_view result) }
{
    match report_sample(rt, alloc, request.seed, request.workers, gate) {
        Ok(answer) => answer,
        Err(_) => fixed(Status::NoMemory, b"no memory\n"),
    }
}
