//! A Cartan matrix of rank 1 to 6, and the rules that its rows keep.
ghost use Rattle.std.specs.Prelude.{◌≡◌, ◌+◌, ◌-◌, ◌*◌, ◌<◌, ◌≤◌, ◌↔◌, ℕ, ℤ, pos, length, IsTrue, OnOk, IfOk, IfErr, MatchOption, slice_index_or};
ghost use Rattle.bmp_math.specs.Integers.{IsWithin};
ghost use Rattle.bmp_roots.specs.RootPairs.{CartanMatrix, HasCartanForm, entry};
ghost use Rattle.bmp_roots.specs.CartanRules.{matrix_of, HasShape, HasTwo, IsInRange, HasPairedZero, AllRows, AllPlaces, IsFirstPlace, IsFirstRow, IsFirstIn, BreaksFirst};

use std::marker::Model;
use thiserror::Error;

/// The first rule of a Cartan matrix that the rows break. Rows and columns are numbered from 1, and a rule is tried
/// after the ones before it hold.
#[derive(Clone, Copy, Debug, PartialEq, Eq, Error)]
pub enum CartanFault {
    /// The rank is not 1 to 6, or there are not rank times rank entries.
    #[error("the rank is not 1 to 6, or there are not rank times rank entries")]
    BadRank,
    /// The first diagonal entry that is not 2.
    #[error("the diagonal entry {i} is not 2")]
    BadDiagonal { i: u8 },
    /// The first entry off the diagonal, row by row, that is not from -32 to 0.
    #[error("the entry at {i}, {j} is not from -32 to 0")]
    BadOffDiagonal { i: u8, j: u8 },
    /// The first place, row by row, that is 0 where the entry at the mirror place is not.
    #[error("the entry at {i}, {j} is 0, and the one at {j}, {i} is not")]
    UnpairedZero { i: u8, j: u8 },
}

/// A Cartan matrix of rank 1 to 6: 2 on the diagonal, entries from -32 to 0 elsewhere, and zeros only in mirror places.
#[derive(Debug, Drop)]
pub struct Cartan {
    rank: u8,
    entries: [i64; 36],
}

impl Model for Cartan {
    ghost use Rattle.std.specs.Prelude.{◌*◌, take};
    ghost use Rattle.bmp_roots.specs.RootPairs.{CartanMatrix, HasCartanForm};

    ghost Value = { CartanMatrix };

    ghost view = { λ c. record { rank = c.rank; rows = take (c.rank * c.rank) c.entries } };

    ghost invariant = { λ c. HasCartanForm (record { rank = c.rank; rows = take (c.rank * c.rank) c.entries }) };
}

// The entry at row i and column j, both from 0.
fn entry_of(rows: &[i64], rank: usize, i: usize, j: usize) -> i64
    requires rank { rank ≤ 6 }
    requires shape { length rows.now ≡ rank * rank }
    requires row { i < rank }
    requires column { j < rank }
    ensures { result ≡ entry (matrix_of rows.now rank) i j }
{
    rows[i * rank + j]
}

// The first row whose diagonal entry is not 2.
fn first_diagonal(rows: &[i64], rank: usize) -> Option<usize>
    requires { HasShape rows.now rank }
    ensures { let m = matrix_of rows.now rank in
        MatchOption result (AllRows m (HasTwo m)) (λ i. IsFirstRow m (HasTwo m) i) }
{
    for i in 0..rank {
        if entry_of(rows, rank, i, i) != 2 {
            return Some(i);
        }
    }
    None
}

fn is_in_range(rows: &[i64], rank: usize, i: usize, j: usize) -> bool
    requires rank { rank ≤ 6 }
    requires shape { length rows.now ≡ rank * rank }
    requires row { i < rank }
    requires column { j < rank }
    ensures { IsTrue result ↔ IsInRange (matrix_of rows.now rank) i j }
{
    let entry = entry_of(rows, rank, i, j);
    i == j || (-32 <= entry && entry <= 0)
}

fn has_paired_zero(rows: &[i64], rank: usize, i: usize, j: usize) -> bool
    requires rank { rank ≤ 6 }
    requires shape { length rows.now ≡ rank * rank }
    requires row { i < rank }
    requires column { j < rank }
    ensures { IsTrue result ↔ HasPairedZero (matrix_of rows.now rank) i j }
{
    entry_of(rows, rank, i, j) != 0 || entry_of(rows, rank, j, i) == 0
}

// The first place of the row i, from 0, that is out of range.
fn first_out_of_range_in(rows: &[i64], rank: usize, i: usize) -> Option<usize>
    requires shape { HasShape rows.now rank }
    requires row { i < rank }
    ensures { let m = matrix_of rows.now rank in
        MatchOption result ((j : ℕ) → j < rank → IsInRange m i j) (λ j. IsFirstIn m (IsInRange m) i j) }
{
    for j in 0..rank {
        if !is_in_range(rows, rank, i, j) {
            return Some(j);
        }
    }
    None
}

fn first_out_of_range(rows: &[i64], rank: usize) -> Option<(usize, usize)>
    requires { HasShape rows.now rank }
    ensures { let m = matrix_of rows.now rank in
        MatchOption result (AllPlaces m (IsInRange m)) (λ p. IsFirstPlace m (IsInRange m) p.0 p.1) }
{
    for i in 0..rank {
        if let Some(j) = first_out_of_range_in(rows, rank, i) {
            return Some((i, j));
        }
    }
    None
}

// The first place of the row i, from 0, that is 0 where its mirror place is not.
fn first_unpaired_in(rows: &[i64], rank: usize, i: usize) -> Option<usize>
    requires shape { HasShape rows.now rank }
    requires row { i < rank }
    ensures { let m = matrix_of rows.now rank in
        MatchOption result ((j : ℕ) → j < rank → HasPairedZero m i j) (λ j. IsFirstIn m (HasPairedZero m) i j) }
{
    for j in 0..rank {
        if !has_paired_zero(rows, rank, i, j) {
            return Some(j);
        }
    }
    None
}

fn first_unpaired(rows: &[i64], rank: usize) -> Option<(usize, usize)>
    requires { HasShape rows.now rank }
    ensures { let m = matrix_of rows.now rank in
        MatchOption result (AllPlaces m (HasPairedZero m)) (λ p. IsFirstPlace m (HasPairedZero m) p.0 p.1) }
{
    for i in 0..rank {
        if let Some(j) = first_unpaired_in(rows, rank, i) {
            return Some((i, j));
        }
    }
    None
}

impl Cartan {
    /// The matrix with these rows, one after another, or the first rule that they break.
    pub fn new(rows: &[i64], rank: u8) -> Result<Cartan, CartanFault>
        ensures ok { IfOk result (λ c. c ≡ matrix_of rows.now rank) }
        ensures shape { OnOk result (HasShape rows.now rank) }
        ensures form { IfOk result (λ c. HasCartanForm c) }
        ensures fault { IfErr result (λ fault. BreaksFirst rows.now rank fault) }
    {
        let size = rank as usize;
        if rank < 1 || rank > 6 || rows.len() != size * size {
            return Err(CartanFault::BadRank);
        }
        if let Some(i) = first_diagonal(rows, size) {
            return Err(CartanFault::BadDiagonal { i: i as u8 + 1 });
        }
        if let Some((i, j)) = first_out_of_range(rows, size) {
            return Err(CartanFault::BadOffDiagonal {
                i: i as u8 + 1,
                j: j as u8 + 1,
            });
        }
        if let Some((i, j)) = first_unpaired(rows, size) {
            return Err(CartanFault::UnpairedZero {
                i: i as u8 + 1,
                j: j as u8 + 1,
            });
        }
        let mut entries = [0; 36];
        entries[..size * size].copy_from_slice(rows);
        Ok(Cartan { rank, entries })
    }

    /// The entry `a_ij`: the value of the simple coroot i on the simple root j, both from 1. From -32 to 2.
    pub fn entry(&self, i: u8, j: u8) -> i64
        requires row { (1 ≤ i) × (i ≤ self.now.rank) }
        requires column { (1 ≤ j) × (j ≤ self.now.rank) }
        ensures value { result ≡ entry self.now (i - 1) (j - 1) }
        ensures within { IsWithin 32 result }
    {
        self.at(i as usize - 1, j as usize - 1)
    }

    /// The same matrix.
    pub(crate) fn copied(&self) -> Cartan
        ensures { result ≡ self.now }
    {
        Cartan {
            rank: self.rank,
            entries: self.entries,
        }
    }

    /// The number of rows.
    pub fn rank(&self) -> usize
        ensures value { result ≡ self.now.rank }
        ensures form { HasCartanForm self.now }
    {
        self.rank as usize
    }

    /// The entry at row i and column j, both from 0.
    pub(crate) fn at(&self, i: usize, j: usize) -> i64
        requires row { i < self.now.rank }
        requires column { j < self.now.rank }
        ensures value { result ≡ entry self.now i j }
        ensures within { IsWithin 32 result }
    {
        self.entries[i * self.rank as usize + j]
    }
}
