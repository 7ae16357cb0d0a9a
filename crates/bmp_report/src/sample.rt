//! The jobs of `sample`.
ghost use Rattle.std.specs.Prelude.{◌≡◌, ◌<◌, ◌≤◌, ◌^◌, ◌+◌, ◌-◌, ◌/◌, ◌%◌, length, IfOk};
ghost use Rattle.bmp_report.specs.SampleJobs.{sample_at, sample_job};
ghost use Rattle.bmp_report.specs.SampleViews.{sample_view};

use bmp_cert::{Entries, Job, Lattice};
use bmp_weyl::Letters;
use std::alloc::{AllocError, Global};

/// An entry of the table: a Cartan matrix row by row, a prime, a degree bound and a word.
#[derive(Clone, Copy)]
pub(crate) struct Sample {
    rank: u8,
    rows: &'static [i64],
    prime: u8,
    degree: u8,
    word: &'static [u8],
}

const D4: Sample = Sample {
    rank: 4,
    rows: &[2, -1, 0, 0, -1, 2, -1, -1, 0, -1, 2, 0, 0, -1, 0, 2],
    prime: 3,
    degree: 3,
    word: &[1, 3, 4, 2, 1, 3, 4, 2, 1, 3, 4, 2],
};

const A3: Sample = Sample {
    rank: 3,
    rows: &[2, -1, 0, -1, 2, -1, 0, -1, 2],
    prime: 3,
    degree: 2,
    word: &[1, 2, 1, 3, 2, 1],
};

const B2: Sample = Sample {
    rank: 2,
    rows: &[2, -1, -2, 2],
    prime: 3,
    degree: 3,
    word: &[1, 2, 1, 2],
};

const A4: Sample = Sample {
    rank: 4,
    rows: &[2, -1, 0, 0, -1, 2, -1, 0, 0, -1, 2, -1, 0, 0, -1, 2],
    prime: 2,
    degree: 1,
    word: &[1, 2, 1, 3, 2, 1, 4, 3, 2, 1],
};

const G2: Sample = Sample {
    rank: 2,
    rows: &[2, -1, -3, 2],
    prime: 5,
    degree: 3,
    word: &[1, 2, 1, 2, 1, 2],
};

const B3: Sample = Sample {
    rank: 3,
    rows: &[2, -1, 0, -1, 2, -1, 0, -2, 2],
    prime: 3,
    degree: 2,
    word: &[1, 3, 2, 1, 3, 2, 1, 3, 2],
};

// Entry i of the table.
#[tactic(auto, unfolding(crate::specs::SampleJobs::sample_at))]
pub(crate) fn sample_at(i: u32) -> Sample
    ensures value { sample_view result ≡ sample_at i }
    ensures short { length result.word.now < 2 ^ 32 }
{
    match i {
        0 => D4,
        1 => A3,
        2 => B2,
        3 => A4,
        4 => G2,
        _ => B3,
    }
}

// The entries of a matrix.
fn entries_of(alloc: Global, rows: &[i64]) -> Result<Entries, AllocError>
    ensures { IfOk result (λ entries. entries ≡ rows.now) }
{
    let mut entries = Entries::new(alloc);
    'rows: for i in 0..rows.len() {
        entries.push(rows[i])?;
    }
    Ok(entries)
}

// The first letters of a word.
fn letters_of(alloc: Global, word: &[u8]) -> Result<Letters, AllocError>
    ensures { IfOk result (λ letters. letters ≡ word.now) }
{
    let mut letters = Letters::new(alloc);
    'letters: for i in 0..word.len() {
        letters.push(word[i])?;
    }
    Ok(letters)
}

// How many letters of a word of so many the job of the number n has.
fn letter_count(n: u32, all: usize) -> usize
    requires { all < 2 ^ 32 }
    ensures value { result ≡ all - (n / 6) % (all + 1) }
    ensures within { result ≤ all }
{
    all - (n / 6) as usize % (all + 1)
}

/// The job of the number n: entry n modulo 6 of a table of six, with the first letters of its word. Where m is n / 6
/// and the word has L letters, these are L - m % (L + 1).
pub fn sample_job(alloc: Global, n: u32) -> Result<Job, AllocError>
    ensures { IfOk result (λ j. j ≡ sample_job n) }
{
    let sample = sample_at(n % 6);
    let count = letter_count(n, sample.word.len());
    Ok(Job {
        rank: sample.rank,
        cartan: entries_of(alloc, sample.rows)?,
        prime: sample.prime,
        word: letters_of(alloc, &sample.word[..count])?,
        degree: sample.degree,
        lattice: Lattice::Plain,
    })
}
