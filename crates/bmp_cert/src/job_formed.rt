//! Whether the grammar has a text for a job.
ghost use Rattle.std.specs.Prelude.{◌≤◌, ◌↔◌, pos, negsuc, All, IsTrue};
ghost use Rattle.bmp_text.specs.Numerals.{InRange};
ghost use Rattle.bmp_cert.specs.JobGrammar.{AreLetters, IsWellFormedJob};

use crate::Job;

// An entry of a matrix.
fn is_entry(entry: &i64) -> bool
    ensures { IsTrue result ↔ InRange (negsuc 999) (pos 1000) entry.now }
{
    -1000 <= *entry && *entry <= 1000
}

// Entries of a matrix.
fn are_entries(entries: &[i64]) -> bool
    ensures { IsTrue result ↔ All (InRange (negsuc 999) (pos 1000)) entries.now }
{
    'entries: for entry in entries {
        if !is_entry(entry) {
            return false;
        }
    }
    true
}

// The letters of a word.
fn are_letters(letters: &[u8]) -> bool
    ensures { IsTrue result ↔ AreLetters letters.now }
{
    letters.len() <= 255
}

/// Whether the grammar has a text for the job. Takes no memory.
pub fn well_formed_job(j: &Job) -> bool
    ensures { IsTrue result ↔ IsWellFormedJob j.now }
{
    let rank = u32::from(j.rank);
    j.rank <= 16
        && j.cartan.len() == rank * rank
        && are_entries(j.cartan.as_slice())
        && are_letters(j.word.as_slice())
}
