//! The text of a job, printed.
ghost use Rattle.std.specs.Prelude.{◌≡◌, ◌*◌, ◌++◌, ◌∷◌, [], IfOk, OnOk, OnErr, length};
ghost use Rattle.std.specs.Fmt.{decimal, signed_decimal};
ghost use Rattle.bmp_text.specs.Readers.{same};
ghost use Rattle.bmp_text.specs.Printing.{spaced_words, chain_text, single_text};
ghost use Rattle.bmp_cert.specs.JobGrammar.{row_text, word_text, rows_text, job_lines_text, job_text, IsWellFormedJob};

use crate::Job;
use crate::lattice_text::push_lattice;
use bmp_text::{push_int, push_number};
use std::alloc::{AllocError, Global};

// A number behind a space.
fn push_entry(out: &mut Vec<u8>, n: &i64) -> Result<(), AllocError>
    ensures { OnOk result (out.new.items ≡ out.old.items ++ (32 ∷ signed_decimal n.now)) }
{
    out.push(b' ')?;
    push_int(out, i128::from(*n))
}

/// A line of a keyword and a number.
pub(crate) fn push_single(out: &mut Vec<u8>, word: &[u8], n: u64) -> Result<(), AllocError>
    ensures { OnOk result (out.new.items ≡ out.old.items ++ single_text word.now n) }
{
    out.extend_from_slice(word)?;
    push_number(out, n)?;
    out.push(b'\n')?;
    Ok(())
}

// Letters, each behind a space.
fn push_letters(out: &mut Vec<u8>, letters: &[u8]) -> Result<(), AllocError>
    ensures { OnOk result (out.new.items ≡ out.old.items
        ++ spaced_words (chain_text (λ (s : Unit {0}) n. decimal n ∷ []) same tt letters.now)) }
{
    'letters: for letter in letters {
        push_number(out, u64::from(*letter))?;
    }
    Ok(())
}

// The line of the word.
fn push_word(out: &mut Vec<u8>, letters: &[u8]) -> Result<(), AllocError>
    ensures { OnOk result (out.new.items ≡ out.old.items ++ word_text letters.now) }
{
    out.extend_from_slice(b"word")?;
    push_number(out, letters.len() as u64)?;
    push_letters(out, letters)?;
    out.push(b'\n')?;
    Ok(())
}

// Entries, each behind a space.
fn push_entries(out: &mut Vec<u8>, row: &[i64]) -> Result<(), AllocError>
    ensures { OnOk result (out.new.items ≡ out.old.items
        ++ spaced_words (chain_text (λ (s : Unit {0}) z. signed_decimal z ∷ []) same tt row.now)) }
{
    'entries: for entry in row {
        push_entry(out, entry)?;
    }
    Ok(())
}

// A row.
fn push_row(out: &mut Vec<u8>, row: &[i64]) -> Result<(), AllocError>
    ensures { OnOk result (out.new.items ≡ out.old.items ++ row_text row.now) }
{
    out.extend_from_slice(b"row")?;
    push_entries(out, row)?;
    out.push(b'\n')?;
    Ok(())
}

// The rows of a square matrix.
fn push_rows(out: &mut Vec<u8>, rank: u8, entries: &[i64]) -> Result<(), AllocError>
    requires { length entries.now ≡ rank * rank }
    ensures { OnOk result (out.new.items ≡ out.old.items ++ rows_text rank entries.now) }
{
    let width = rank as usize;
    'rows: for i in 0..width {
        push_row(out, &entries[i * width..(i + 1) * width])?;
    }
    Ok(())
}

// The job lines, of which a part may stand where memory is wanting.
pub(crate) fn push_lines(out: &mut Vec<u8>, j: &Job) -> Result<(), AllocError>
    requires { IsWellFormedJob j.now }
    ensures { OnOk result (out.new.items ≡ out.old.items ++ job_lines_text j.now) }
{
    push_single(out, b"rank", u64::from(j.rank))?;
    push_rows(out, j.rank, j.cartan.as_slice())?;
    push_single(out, b"prime", u64::from(j.prime))?;
    push_word(out, j.word.as_slice())?;
    push_single(out, b"degree", u64::from(j.degree))?;
    Ok(())
}

/// Appends the job lines. Where memory is wanting, nothing is appended: the lines are made apart first.
pub fn push_job_lines(out: &mut Vec<u8>, j: &Job) -> Result<(), AllocError>
    requires { IsWellFormedJob j.now }
    ensures ok { OnOk result (out.new.items ≡ out.old.items ++ job_lines_text j.now) }
    ensures err { OnErr result (out.new.items ≡ out.old.items) }
{
    let mut lines = Vec::new(*out.allocator());
    push_lines(&mut lines, j)?;
    out.extend_from_slice(&lines)
}

/// The text of a job.
pub fn print_job(alloc: Global, j: &Job) -> Result<Vec<u8>, AllocError>
    requires { IsWellFormedJob j.now }
    ensures { IfOk result (λ v. v.items ≡ job_text j.now) }
{
    let mut out = Vec::new(alloc);
    push_single(
        &mut out,
        b"bmp-job",
        if j.lattice.has_line() { 2 } else { 1 },
    )?;
    push_lattice(&mut out, j.lattice)?;
    push_lines(&mut out, j)?;
    out.extend_from_slice(b"end\n")?;
    Ok(out)
}
