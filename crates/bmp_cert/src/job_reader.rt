//! The text of a job, read.
ghost use Rattle.std.specs.Prelude.{◌≡◌, ◌≤◌, pos, negsuc, codes, IfOk, Ok};
ghost use Rattle.bmp_text.specs.Cursor.{number, natural};
ghost use Rattle.bmp_text.specs.Readers.{nothing, line, single, whole};
ghost use Rattle.bmp_text.specs.LaterLines.{IsLaterLine, PassesLines};
ghost use Rattle.bmp_cert.specs.Answers.{Gives, Answers, Pushes};
ghost use Rattle.bmp_cert.specs.JobGrammar.{entries, letter_list, letters, rows, job_lines, job, job_text, IsWellFormedJob};
ghost use Rattle.bmp_cert.specs.declared.job.Job.{Job};
ghost use Rattle.bmp_cert.specs.declared.lattice.Lattice.TheVariants.{Plain};

use crate::lattice_text::lattice_if;
use crate::{CertError, Entries, Job, Lattice};
use bmp_text::{Line, Lines};
use bmp_weyl::Letters;
use std::alloc::Global;

// One entry more.
fn push_entry(line: &mut Line, row: &mut Vec<i64>) -> Result<(), CertError>
    ensures { Pushes row.old.items row.new.items line.new result (number (negsuc 999) (pos 1000) line.old) }
{
    let entry = line.number(-1000, 1000)?;
    row.push(entry)?;
    Ok(())
}

// So many entries.
fn entries_of(alloc: Global, line: &mut Line, count: u64) -> Result<Vec<i64>, CertError>
    ensures { Gives (λ v. v.items) line.new result (entries count line.old) }
{
    let mut row = Vec::new(alloc);
    'entries: for _ in 0..count {
        push_entry(line, &mut row)?;
    }
    Ok(row)
}

// A row of the matrix.
#[tactic(auto, unfolding(bmp_text::specs::Readers::line))]
fn row_of(alloc: Global, lines: &mut Lines, rank: u8) -> Result<Vec<i64>, CertError>
    ensures gives { Gives (λ v. v.items) lines.new result (line (codes "row") (entries rank) lines.old) }
    ensures later { PassesLines lines.old lines.new }
{
    let mut line = lines.next_line()?;
    line.keyword(b"row")?;
    let row = entries_of(alloc, &mut line, u64::from(rank))?;
    line.finish()?;
    Ok(row)
}

// All rows, in one list.
fn rows_of(alloc: Global, lines: &mut Lines, rank: u8) -> Result<Entries, CertError>
    ensures gives { Gives (λ v. v) lines.new result (rows rank lines.old) }
    ensures later { PassesLines lines.old lines.new }
{
    let mut entries = Entries::new(alloc);
    'rows: for _ in 0..rank {
        let row = row_of(alloc, lines, rank)?;
        entries.append(&row)?;
    }
    Ok(entries)
}

// One letter, or one count of letters.
fn letter_of(line: &mut Line) -> Result<u8, CertError>
    ensures { Gives (λ n. n) line.new result (natural 0 255 line.old) }
{
    let letter = line.natural(0, 255)?;
    Ok(letter as u8)
}

// So many letters.
fn letters_of(alloc: Global, line: &mut Line, count: u8) -> Result<Letters, CertError>
    ensures { Gives (λ v. v) line.new result (letter_list count line.old) }
{
    let mut letters = Letters::new(alloc);
    'letters: for _ in 0..count {
        let letter = letter_of(line)?;
        letters.push(letter)?;
    }
    Ok(letters)
}

// A count, and as many letters.
#[tactic(auto, unfolding(bmp_text::specs::Readers::counted_chain))]
fn counted_letters(alloc: Global, line: &mut Line) -> Result<Letters, CertError>
    ensures { Gives (λ v. v) line.new result (letters line.old) }
{
    let count = letter_of(line)?;
    letters_of(alloc, line, count)
}

// The line of the word.
#[tactic(auto, unfolding(bmp_text::specs::Readers::line))]
fn word_of(alloc: Global, lines: &mut Lines) -> Result<Letters, CertError>
    ensures gives { Gives (λ v. v) lines.new result (line (codes "word") letters lines.old) }
    ensures later { PassesLines lines.old lines.new }
{
    let mut line = lines.next_line()?;
    line.keyword(b"word")?;
    let word = counted_letters(alloc, &mut line)?;
    line.finish()?;
    Ok(word)
}

/// A line of a keyword and one number of a byte.
#[tactic(auto, unfolding(bmp_text::specs::Readers::line))]
pub(crate) fn single_of(lines: &mut Lines, word: &[u8], low: u8, high: u8) -> Result<u8, CertError>
    ensures gives { Gives (λ n. n) lines.new result (single word.now low high lines.old) }
    ensures within { IfOk result (λ n. (low ≤ n) × (n ≤ high)) }
    ensures later { PassesLines lines.old lines.new }
{
    let mut line = lines.next_line()?;
    line.keyword(word)?;
    let n = line.natural(u64::from(low), u64::from(high))?;
    line.finish()?;
    Ok(n as u8)
}

/// The last line.
#[tactic(auto, unfolding(bmp_text::specs::Readers::line))]
pub(crate) fn end_of(lines: &mut Lines) -> Result<(), CertError>
    ensures { Gives (λ x. x) lines.new result (line (codes "end") nothing lines.old) }
{
    let mut line = lines.next_line()?;
    line.keyword(b"end")?;
    line.finish()?;
    Ok(())
}

/// The job lines of a job with this lattice.
#[tactic(auto, unfolding(crate::specs::JobGrammar::job_lines), using(bmp_text::proofs::LaterLines::same_place))]
pub(crate) fn job_lines_of(
    alloc: Global,
    lines: &mut Lines,
    lattice: Lattice,
) -> Result<Job, CertError>
    ensures gives { Gives (λ j. j) lines.new result (job_lines lattice lines.old) }
    ensures later { IsLaterLine lines.old lines.new }
{
    let rank = single_of(lines, b"rank", 0, 16)?;
    let cartan = rows_of(alloc, lines, rank)?;
    let prime = single_of(lines, b"prime", 0, 255)?;
    let word = word_of(alloc, lines)?;
    let degree = single_of(lines, b"degree", 0, 255)?;
    Ok(Job {
        rank,
        cartan,
        prime,
        word,
        degree,
        lattice,
    })
}

/// Reads the job lines, or gives the first fault in reading order. The lattice isn't among them: the job is a plain
/// one. After an error `lines` stands where it stood, or behind a later line: at the start of a line, or at the end of
/// the text.
pub fn read_job_lines(alloc: Global, lines: &mut Lines) -> Result<Job, CertError>
    ensures gives { Gives (λ j. j) lines.new result (job_lines Plain lines.old) }
    ensures later { IsLaterLine lines.old lines.new }
{
    job_lines_of(alloc, lines, Lattice::Plain)
}

// A job up to its last line.
#[tactic(auto, unfolding(crate::specs::JobGrammar::job))]
fn job_of(alloc: Global, lines: &mut Lines) -> Result<Job, CertError>
    ensures { Gives (λ j. j) lines.new result (job lines.old) }
{
    let version = single_of(lines, b"bmp-job", 1, 2)?;
    let lattice = lattice_if(lines, version == 2)?;
    let job = job_lines_of(alloc, lines, lattice)?;
    end_of(lines)?;
    Ok(job)
}

// The same, with nothing behind it.
#[tactic(auto, unfolding(bmp_text::specs::Readers::whole))]
fn whole_job(alloc: Global, bytes: &[u8]) -> Result<Job, CertError>
    ensures { Answers (λ j. j) result (whole job bytes.now) }
{
    let mut lines = Lines::new(bytes);
    let job = job_of(alloc, &mut lines)?;
    lines.finish()?;
    Ok(job)
}

/// The job of a text. `Text` comes exactly where the bytes aren't in the grammar, with the first fault in
/// reading order. A count in the text takes no memory before its items came.
pub fn read_job(alloc: Global, bytes: &[u8]) -> Result<Job, CertError>
    // What is read is well formed, and the bytes are its text.
    ensures found { IfOk result (λ j. IsWellFormedJob j × (bytes.now ≡ job_text j)) }
    // The text of a well formed job is read, unless memory is wanting.
    ensures only { (j : Job) → IsWellFormedJob j → bytes.now ≡ job_text j → Answers (λ j. j) result (Ok j) }
    // Which fault it is.
    ensures exact { Answers (λ j. j) result (whole job bytes.now) }
{
    whole_job(alloc, bytes)
}
