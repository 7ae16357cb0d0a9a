//! The top call.
ghost use Rattle.std.specs.Prelude.{◌≡◌, ◌≢◌, ⊤, Some, None, map, string_bytes};
ghost use Rattle.bmp_ports.specs.Ports.{Rose, IsAtEnd, Takes};
ghost use Rattle.bmp_program.specs.CommandLine.{asked};
ghost use Rattle.bmp_program.specs.declared.words.CommandWord.TheVariants.{Check, Sample};
ghost use Rattle.bmp_program.specs.Headline.{IsCertified};
ghost use Rattle.bmp_program.specs.Passed.{HasPassed};
ghost use Rattle.bmp_program.specs.Reports.{IsReport, read_fault_line};
ghost use Rattle.bmp_program.specs.Runs.{IsDecided, IsReported, WritesReport, WritesPrefix, answer_view};

use crate::Status;
use crate::answer::{Answer, bytes_of, fixed};
use crate::input::{answer_sample, answer_to};
use crate::words::{WordsError, read_words, reads_input};
use bmp_par::{Gate, OpenGate};
use bmp_ports::{Sink, Source, WriteError, write_all};
use std::alloc::Global;
use std::thread::Threads;

// What the words and the input are answered with.
#[tactic(auto, using(crate::proofs::ReportLemmas::input_decided, crate::proofs::ReportLemmas::sample_decided, crate::proofs::ReportLemmas::reads_nothing))]
fn decide<S: Source, G: Gate>(
    rt: &(impl Threads + Sync),
    alloc: Global,
    words: &[String],
    source: &mut S,
    gate: &G,
) -> Answer
    ensures answer { IsDecided (IsReport (map string_bytes words.now)) (S.left source.old)
        (Rose (S.faults source.old) (S.faults source.new)) (answer_view result) }
    ensures end { asked (map string_bytes words.now) ≢ Some Sample → (answer_view result).status ≡ Status.Done →
        IsAtEnd (S.left source.new) }
    ensures unread { asked (map string_bytes words.now) ≡ None → source.new ≡ source.old }
    ensures sample { asked (map string_bytes words.now) ≡ Some Sample → source.new ≡ source.old }
{
    let request = match read_words(alloc, words) {
        Ok(request) => request,
        Err(WordsError::Usage) => return fixed(Status::Usage, b"usage\n"),
        Err(WordsError::Memory) => return fixed(Status::NoMemory, b"no memory\n"),
    };
    if reads_input(request.command) {
        answer_to(rt, alloc, request, source, gate)
    } else {
        answer_sample(rt, alloc, request, gate)
    }
}

/// Does all that the program does: reads the words, and the input where the command reads it, and writes the text of
/// the report on them, whose status it answers.
///
/// `ReadFault` comes only where the source's count of faults rose, `WriteFault` only where the sink's did, and
/// `NoMemory` wherever memory is wanting. Every other status comes exactly where words and input are reported with it
/// (`IsReport`, by which they have one status at most). The first word is the program's name.
pub fn run<S: Source, K: Sink>(
    rt: &(impl Threads + Sync),
    alloc: Global,
    words: &[String],
    source: &mut S,
    sink: &mut K,
) -> Status
    ensures reported { IsReported result →
        WritesReport (IsReport (map string_bytes words.now)) (S.left source.old)
        (K.taken sink.old) (K.taken sink.new) result }

    // A fault has its cause. What is written then is the line of the read fault, or a prefix of what was to be written.
    ensures read_fault { result ≡ Status.ReadFault → Rose (S.faults source.old) (S.faults source.new) }
    ensures read_fault_line { result ≡ Status.ReadFault → Takes (K.taken sink.old) (K.taken sink.new) read_fault_line }
    ensures write_fault { result ≡ Status.WriteFault → Rose (K.faults sink.old) (K.faults sink.new) }
    ensures write_fault_prefix { result ≡ Status.WriteFault →
        WritesPrefix (IsReport (map string_bytes words.now)) (S.left source.old)
        (Rose (S.faults source.old) (S.faults source.new))
        (K.taken sink.old) (K.taken sink.new) (λ s. s ≢ Status.NoMemory) }
    ensures no_memory_prefix { result ≡ Status.NoMemory →
        WritesPrefix (IsReport (map string_bytes words.now)) (S.left source.old)
        (Rose (S.faults source.old) (S.faults source.new))
        (K.taken sink.old) (K.taken sink.new) (λ _. ⊤) }

    // The words alone decide on a usage line and on a sample; else all was read with status 0.
    ensures unread { asked (map string_bytes words.now) ≡ None → source.new ≡ source.old }
    ensures sample { asked (map string_bytes words.now) ≡ Some Sample → source.new ≡ source.old }
    ensures end { asked (map string_bytes words.now) ≢ Some Sample → result ≡ Status.Done →
        IsAtEnd (S.left source.new) }

    // When `check` ends with status 0, no comparison of the certificate fails.
    ensures passed { asked (map string_bytes words.now) ≡ Some Check → result ≡ Status.Done →
        HasPassed (S.left source.old) }

    // When `check` ends with status 0, the bytes it read are exactly one certificate text, its job is accepted, and the
    // sheaf in the text is, in every degree up to D, a Braden-MacPherson sheaf of the job's Bruhat moment graph; the
    // lines written are its generator counts, each the dimension of the boundary module modulo positive-degree
    // multiples.
    ensures certified { asked (map string_bytes words.now) ≡ Some Check → result ≡ Status.Done →
        IsCertified (S.left source.old) (K.taken sink.old) (K.taken sink.new) }
{
    run_with(rt, alloc, words, source, sink, &OpenGate)
}

/// The same with a gate, which is passed before each vertex but the greatest is built, and by each worker before its
/// part of a check.
pub fn run_with<S: Source, K: Sink, G: Gate>(
    rt: &(impl Threads + Sync),
    alloc: Global,
    words: &[String],
    source: &mut S,
    sink: &mut K,
    gate: &G,
) -> Status
    ensures reported { IsReported result →
        WritesReport (IsReport (map string_bytes words.now)) (S.left source.old)
        (K.taken sink.old) (K.taken sink.new) result }
    ensures read_fault { result ≡ Status.ReadFault → Rose (S.faults source.old) (S.faults source.new) }
    ensures read_fault_line { result ≡ Status.ReadFault → Takes (K.taken sink.old) (K.taken sink.new) read_fault_line }
    ensures write_fault { result ≡ Status.WriteFault → Rose (K.faults sink.old) (K.faults sink.new) }
    ensures write_fault_prefix { result ≡ Status.WriteFault →
        WritesPrefix (IsReport (map string_bytes words.now)) (S.left source.old)
        (Rose (S.faults source.old) (S.faults source.new))
        (K.taken sink.old) (K.taken sink.new) (λ s. s ≢ Status.NoMemory) }
    ensures no_memory_prefix { result ≡ Status.NoMemory →
        WritesPrefix (IsReport (map string_bytes words.now)) (S.left source.old)
        (Rose (S.faults source.old) (S.faults source.new))
        (K.taken sink.old) (K.taken sink.new) (λ _. ⊤) }
    ensures unread { asked (map string_bytes words.now) ≡ None → source.new ≡ source.old }
    ensures sample { asked (map string_bytes words.now) ≡ Some Sample → source.new ≡ source.old }
    ensures end { asked (map string_bytes words.now) ≢ Some Sample → result ≡ Status.Done →
        IsAtEnd (S.left source.new) }
    ensures passed { asked (map string_bytes words.now) ≡ Some Check → result ≡ Status.Done →
        HasPassed (S.left source.old) }
    ensures certified { asked (map string_bytes words.now) ≡ Some Check → result ≡ Status.Done →
        IsCertified (S.left source.old) (K.taken sink.old) (K.taken sink.new) }
{
    let answer = decide(rt, alloc, words, source, gate);
    match write_all(sink, bytes_of(&answer)) {
        Ok(()) => answer.status,
        Err(WriteError::Failed) if answer.status != Status::NoMemory => Status::WriteFault,
        Err(_) => Status::NoMemory,
    }
}
