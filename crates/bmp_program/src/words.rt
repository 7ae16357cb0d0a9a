//! The words of the command line.
ghost use Rattle.std.specs.Prelude.{◌≡◌, ◌≤◌, IfOk, IfSome, map, option_map, option_and_then, Some, None, false, true, IsErrOf, IsTrue, string_bytes, codes};
ghost use Rattle.clap.specs.Simple.{app_of};
ghost use Rattle.clap.specs.Matches.{found_of};
ghost use Rattle.clap.specs.Walk.{rule_of, rows_of, first_of};
ghost use Rattle.bmp_program.specs.CommandLine.{line_app, refuses, found_in, named, takes_seed, reads_input, allowed, command_in, asked, seed_named, seed_of, IsWorkers, command_rule, workers_rule, seed_rule, bare_app};

use clap::error::ErrorKind;
use clap::{Arg, ArgMatches, Command, value_parser};
use std::alloc::{AllocError, Global};

/// A command that the program knows.
#[derive(Clone, Copy, Debug, PartialEq, Eq)]
pub enum CommandWord {
    /// Checks a certificate and prints the ranks.
    Check,
    /// Prints the moment graph of a job.
    Graph,
    /// Says whether the moment graph of a job has the GKM condition.
    Gkm,
    /// Prints the Kazhdan-Lusztig table of a job.
    Kl,
    /// Builds a certificate of a job.
    Build,
    /// Builds a certificate of a job, checks it and prints its ranks.
    Ranks,
    /// Builds a certificate of a job, checks it and compares its ranks with the Kazhdan-Lusztig table.
    Compare,
    /// Builds and checks a certificate of a job that a number tells, and prints a summary.
    Sample,
}

/// Why the words ask for nothing.
#[derive(Clone, Copy, Debug, PartialEq, Eq)]
pub enum WordsError {
    /// They are no command of the program.
    Usage,
    /// There is no memory to read them.
    Memory,
}

/// What the words ask for.
#[derive(Clone, Copy, Debug)]
pub struct Request {
    /// What is to be done.
    pub command: CommandWord,
    /// By so many threads, 1 to 32.
    pub workers: u32,
    /// The number of a sample.
    pub seed: u32,
}

fn command_word<'a>(alloc: Global) -> Arg<'a>
    ensures rule { rule_of result ≡ command_rule }
    ensures local { result.global ≡ false }
{
    Arg::new(alloc, "COMMAND").required(true)
}

fn workers<'a>(alloc: Global) -> Arg<'a>
    ensures rule { rule_of result ≡ workers_rule }
    ensures local { result.global ≡ false }
{
    Arg::new(alloc, "workers")
        .long("workers")
        .value_parser(value_parser!(u8).range(1..=32))
        .default_value("1")
}

fn seed<'a>(alloc: Global) -> Arg<'a>
    ensures rule { rule_of result ≡ seed_rule }
    ensures local { result.global ≡ false }
{
    Arg::new(alloc, "seed")
        .long("seed")
        .value_parser(value_parser!(u32))
}

// The one command that clap reads the words by.
fn command_line<'a>(alloc: Global) -> Result<Command<'a>, AllocError>
    ensures { IfOk result (λ c. app_of c ≡ line_app) }
{
    let bare = Command::new(alloc, "bmp")
        .disable_help_flag(true)
        .disable_version_flag(true);
    let one = bare.arg(command_word(alloc))?;
    let two = one.arg(workers(alloc))?;
    two.arg(seed(alloc))
}

// What clap finds in the words, or the cause of their refusal.
#[tactic(auto, unfolding(crate::specs::CommandLine::refuses, crate::specs::CommandLine::found_in))]
fn matched<'a>(alloc: Global, words: &'a [String]) -> Result<ArgMatches<'a>, WordsError>
    ensures taken { IfOk result (λ m. refuses (map string_bytes words.entry.now) ≡ false) }
    ensures found { IfOk result (λ m. rows_of (found_of m) ≡ found_in (map string_bytes words.entry.now)) }
    ensures usage { IsErrOf result WordsError.Usage → IsTrue (refuses (map string_bytes words.entry.now)) }
{
    let command = match command_line(alloc) {
        Ok(command) => command,
        Err(_) => return Err(WordsError::Memory),
    };
    match command.try_get_matches_from(words) {
        Ok(matches) => Ok(matches),
        Err(error) => {
            if error.kind() == ErrorKind::OutOfMemory {
                Err(WordsError::Memory)
            } else {
                Err(WordsError::Usage)
            }
        }
    }
}

// The first text of an argument.
fn text_at<'a>(matches: &ArgMatches<'a>, id: &str) -> Option<&'a str>
    ensures { option_map (λ s. s.now) result ≡ first_of id.now (rows_of (found_of matches.now)) }
{
    matches.get_str(id)
}

// The listed command of this name.
fn named_command(word: &str) -> Option<CommandWord>
    ensures { result ≡ named word.now }
{
    match word {
        "check" => Some(CommandWord::Check),
        "graph" => Some(CommandWord::Graph),
        "gkm" => Some(CommandWord::Gkm),
        "kl" => Some(CommandWord::Kl),
        "build" => Some(CommandWord::Build),
        "ranks" => Some(CommandWord::Ranks),
        "compare" => Some(CommandWord::Compare),
        "sample" => Some(CommandWord::Sample),
        _ => None,
    }
}

// Whether the command may stand with a seed.
fn takes_seed(command: CommandWord) -> bool
    ensures { result ≡ takes_seed command }
{
    match command {
        CommandWord::Sample => true,
        CommandWord::Check
        | CommandWord::Graph
        | CommandWord::Gkm
        | CommandWord::Kl
        | CommandWord::Build
        | CommandWord::Ranks
        | CommandWord::Compare => false,
    }
}

/// Whether the command reads its input.
pub(crate) fn reads_input(command: CommandWord) -> bool
    ensures { result ≡ reads_input command }
{
    match command {
        CommandWord::Sample => false,
        CommandWord::Check
        | CommandWord::Graph
        | CommandWord::Gkm
        | CommandWord::Kl
        | CommandWord::Build
        | CommandWord::Ranks
        | CommandWord::Compare => true,
    }
}

// The listed command that the word names, but none where a seed is given and the command takes none.
fn allowed_command(word: Option<&str>, seeded: bool) -> Option<CommandWord>
    ensures { result ≡ option_and_then (λ text. option_and_then (allowed seeded) (named text))
        (option_map (λ s. s.now) word.entry) }
{
    let command = named_command(word?)?;
    if seeded && !takes_seed(command) {
        return None;
    }
    Some(command)
}

// The number of workers that a word names: 1 to 32, and 1 where there is none.
fn workers_named(word: Option<&str>) -> u32
    ensures named { IsWorkers (option_map (λ s. s.now) word.entry) result }
    ensures positive { 1 ≤ result }
    ensures most { result ≤ 32 }
{
    match word {
        None => 1,
        Some(text) => match text.parse::<u32>() {
            Ok(workers) if (1..=32).contains(&workers) => workers,
            _ => 1,
        },
    }
}

// The number of a sample that a word names, 0 where there is none.
fn seed_named(word: Option<&str>) -> u32
    ensures { result ≡ seed_named (option_map (λ s. s.now) word.entry) }
{
    match word {
        None => 0,
        Some(text) => match text.parse::<u32>() {
            Ok(seed) => seed,
            Err(_) => 0,
        },
    }
}

// What the matches ask for.
fn requested(matches: &ArgMatches) -> Option<Request>
    ensures command { option_map (λ r. r.command) result ≡ command_in (rows_of (found_of matches.now)) }
    ensures workers { IfSome result (λ r.
        IsWorkers (first_of (codes "workers") (rows_of (found_of matches.now))) r.workers) }
    ensures positive { IfSome result (λ r. 1 ≤ r.workers) }
    ensures most { IfSome result (λ r. r.workers ≤ 32) }
    ensures seed { IfSome result (λ r.
        r.seed ≡ seed_named (first_of (codes "seed") (rows_of (found_of matches.now)))) }
{
    let seeded = text_at(matches, "seed").is_some();
    let command = allowed_command(text_at(matches, "COMMAND"), seeded)?;
    let workers = workers_named(text_at(matches, "workers"));
    let seed = seed_named(text_at(matches, "seed"));
    Some(Request {
        command,
        workers,
        seed,
    })
}

/// What the words ask for: the program's name, a listed command and its options.
///
/// `Usage` comes exactly where clap refuses the words for another cause than memory, the command isn't listed, or a
/// seed is given with a command that takes none.
pub fn read_words(alloc: Global, words: &[String]) -> Result<Request, WordsError>
    ensures usage { IsErrOf result WordsError.Usage → asked (map string_bytes words.now) ≡ None }
    ensures command { IfOk result (λ r. asked (map string_bytes words.now) ≡ Some r.command) }
    ensures workers { IfOk result (λ r.
        IsWorkers (first_of (codes "workers") (found_in (map string_bytes words.now))) r.workers) }
    ensures positive { IfOk result (λ r. 1 ≤ r.workers) }
    ensures most { IfOk result (λ r. r.workers ≤ 32) }
    ensures seed { IfOk result (λ r. r.seed ≡ seed_of (map string_bytes words.now)) }
{
    let matches = matched(alloc, words)?;
    requested(&matches).ok_or(WordsError::Usage)
}
