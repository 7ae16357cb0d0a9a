//! A row that keeps its entries while they are few, and each number from then on.
ghost use Rattle.std.specs.Prelude.{◌≡◌, ◌≢◌, ◌↔◌, IsTrue, ℕ, ◌/◌, ◌<◌, ◌≤◌, [], length, slice_index, OnOk, OnErr, IfOk};
ghost use Rattle.bmp_field.specs.Runs.{AreBelow};
ghost use Rattle.bmp_linear.specs.KeptRows.{spread_numbers};
ghost use Rattle.bmp_linear.specs.NumberRows.{IsRowSum, IsRowTimes, HoldsRows, HaveLength, AreRowsSummedBelow};
ghost use Rattle.bmp_linear.specs.SparseVectors.{IsSparse, FitsBelow, ValuesBelow, number_at};

use crate::entries::{add_entries, number_in, spread_entries};
use crate::entry_sums::{INLINE, scale_entries, sum_of_entries};
use crate::mixed_sums::{add_entries_to_each, add_numbers_to_each};
use crate::runs::scale_run;
use crate::vector::Entry;
use bmp_field::Field;
use smallvec::SmallVec;
use std::alloc::{AllocError, Global};
use std::marker::Model;
use std::mem;

/// The columns for each of which a row keeps one entry at most.
const COLUMNS_OF_AN_ENTRY: usize = 8;

/// How the numbers of a row are kept.
#[derive(Drop)]
pub(crate) enum Kept {
    /// The entries.
    Entries(SmallVec<Entry, INLINE>),
    /// Each number.
    Numbers(Vec<u8>),
}

/// A row of `cols` numbers, seen as those. Once each is kept, each is kept from then on.
#[derive(Drop)]
pub(crate) struct MixedRow {
    cols: u32,
    kept: Kept,
}

impl Model for MixedRow {
    ghost use Rattle.std.specs.Prelude.{ℕ, List, ◌^◌, ◌<◌};
    ghost use Rattle.bmp_linear.specs.KeptRows.{kept_numbers, KeepsRow};

    ghost Value = { List ℕ };

    ghost view = { λ r. kept_numbers r.cols r.kept };

    ghost invariant = { λ r. (r.cols < 2 ^ 32) × KeepsRow r.cols r.kept };
}

/// Whether so many entries are few in a row.
fn are_few(count: usize, cols: u32) -> bool
    ensures { IsTrue result ↔ (count ≤ cols / 8) }
{
    count <= cols as usize / COLUMNS_OF_AN_ENTRY
}

/// Each number of a row of entries.
fn numbers_of(alloc: Global, entries: &[Entry], cols: u32) -> Result<Vec<u8>, AllocError>
    requires sparse { IsSparse entries.now }
    requires fits { FitsBelow entries.now cols }
    ensures { IfOk result (λ numbers. numbers.items ≡ spread_numbers cols entries.now) }
{
    let mut numbers = vec![in alloc; 0; cols as usize]?;
    spread_entries(entries, &mut numbers);
    Ok(numbers)
}

/// Multiplies the numbers by `c`.
fn scale_numbers<F: Field>(f: &F, c: F::E, numbers: &mut [u8])
    requires factor { F.is_value f.now c }
    requires numbers { AreBelow (F.size f.now) numbers.old }
    ensures { IsRowTimes (F.size f.now) (F.num f.now c) numbers.old numbers.new }
{
    let len = numbers.len();
    scale_run(f, c, numbers, 0, len);
}

/// Adds `c` times as many numbers, of which those before `start` are 0.
fn add_behind<F: Field>(f: &F, c: F::E, more: &[u8], start: usize, sums: &mut [u8])
    requires factor { F.is_value f.now c }
    requires below { AreBelow (F.size f.now) more.now }
    requires as_many { length more.now ≡ length sums.old }
    requires sums { AreBelow (F.size f.now) sums.old }
    requires start { start ≤ length more.now }
    requires zero { (j : ℕ) → j < start → slice_index more.now j ≡ 0 }
    ensures { IsRowSum (F.size f.now) (F.num f.now c) sums.old (slice_index more.now) sums.new }
{
    f.add_multiple(c, &more[start..], &mut sums[start..]);
}

/// Each number of a row of entries to which `c` times others are added.
fn sum_with_entries<F: Field>(
    alloc: Global,
    f: &F,
    c: F::E,
    own: &[Entry],
    more: &[Entry],
    cols: u32,
) -> Result<Vec<u8>, AllocError>
    requires factor { F.is_value f.now c }
    requires own { IsSparse own.now }
    requires own_fits { FitsBelow own.now cols }
    requires below { AreBelow (F.size f.now) (spread_numbers cols own.now) }
    requires sparse { IsSparse more.now }
    requires fits { FitsBelow more.now cols }
    requires values { ValuesBelow more.now (F.size f.now) }
    ensures { IfOk result (λ sum. IsRowSum (F.size f.now) (F.num f.now c) (spread_numbers cols own.now)
        (number_at more.now) sum.items) }
{
    let mut sum = numbers_of(alloc, own, cols)?;
    add_entries(f, c, more, &mut sum);
    Ok(sum)
}

/// The same of as many numbers, of which those before `start` are 0.
fn sum_with_numbers<F: Field>(
    alloc: Global,
    f: &F,
    c: F::E,
    own: &[Entry],
    more: &[u8],
    start: usize,
    cols: u32,
) -> Result<Vec<u8>, AllocError>
    requires factor { F.is_value f.now c }
    requires own { IsSparse own.now }
    requires own_fits { FitsBelow own.now cols }
    requires below { AreBelow (F.size f.now) (spread_numbers cols own.now) }
    requires more { AreBelow (F.size f.now) more.now }
    requires as_many { length more.now ≡ cols }
    requires start { start ≤ length more.now }
    requires zero { (j : ℕ) → j < start → slice_index more.now j ≡ 0 }
    ensures { IfOk result (λ sum. IsRowSum (F.size f.now) (F.num f.now c) (spread_numbers cols own.now)
        (slice_index more.now) sum.items) }
{
    let mut sum = numbers_of(alloc, own, cols)?;
    add_behind(f, c, more, start, &mut sum);
    Ok(sum)
}

impl MixedRow {
    /// The row of `cols` numbers that are all 0. Takes no memory.
    pub(crate) fn zero(alloc: Global, cols: u32) -> MixedRow
        ensures { result ≡ spread_numbers cols [] }
    {
        MixedRow {
            cols,
            kept: Kept::Entries(SmallVec::new(alloc)),
        }
    }

    /// The row of these entries.
    pub(crate) fn of_entries(
        alloc: Global,
        entries: &[Entry],
        cols: u32,
    ) -> Result<MixedRow, AllocError>
        requires sparse { IsSparse entries.now }
        requires fits { FitsBelow entries.now cols }
        ensures { IfOk result (λ r. r ≡ spread_numbers cols entries.now) }
    {
        let kept = if are_few(entries.len(), cols) {
            Kept::Entries(SmallVec::from_slice(alloc, entries)?)
        } else {
            Kept::Numbers(numbers_of(alloc, entries, cols)?)
        };
        Ok(MixedRow { cols, kept })
    }

    /// The number in the column `j`.
    pub(crate) fn at(&self, j: u32) -> u8
        requires { j < length self.now }
        ensures { result ≡ slice_index self.now j }
    {
        match &self.kept {
            Kept::Entries(entries) => number_in(entries.as_slice(), j),
            Kept::Numbers(numbers) => numbers[j as usize],
        }
    }

    /// Adds `c` times the row to as many numbers.
    pub(crate) fn add_to<F: Field>(&self, f: &F, c: F::E, sums: &mut [u8])
        requires factor { F.is_value f.now c }
        requires numbers { AreBelow (F.size f.now) self.now }
        requires as_many { length sums.old ≡ length self.now }
        requires sums { AreBelow (F.size f.now) sums.old }
        ensures { IsRowSum (F.size f.now) (F.num f.now c) sums.old (slice_index self.now) sums.new }
    {
        match &self.kept {
            Kept::Entries(entries) => add_entries(f, c, entries.as_slice(), sums),
            Kept::Numbers(numbers) => f.add_multiple(c, numbers, sums),
        }
    }

    /// Multiplies the row by `c`, which isn't 0.
    pub(crate) fn scale<F: Field>(&mut self, f: &F, c: F::E)
        requires factor { F.is_value f.now c }
        requires not_zero { F.num f.now c ≢ 0 }
        requires numbers { AreBelow (F.size f.now) self.old }
        ensures { IsRowTimes (F.size f.now) (F.num f.now c) self.old self.new }
    {
        match &mut self.kept {
            Kept::Entries(entries) => scale_entries(f, c, entries.as_mut_slice()),
            Kept::Numbers(numbers) => scale_numbers(f, c, numbers),
        }
    }

    /// Adds `c` times a row of entries. A sum of entries is made in spare ones, which are then exchanged with the
    /// row's; the row keeps each number where these were too many.
    pub(crate) fn add_entries<F: Field>(
        &mut self,
        alloc: Global,
        f: &F,
        c: F::E,
        more: &[Entry],
        spare: &mut SmallVec<Entry, INLINE>,
    ) -> Result<(), AllocError>
        requires factor { F.is_value f.now c }
        requires numbers { AreBelow (F.size f.now) self.old }
        requires sparse { IsSparse more.now }
        requires fits { FitsBelow more.now (length self.old) }
        requires values { ValuesBelow more.now (F.size f.now) }
        ensures ok { OnOk result (IsRowSum (F.size f.now) (F.num f.now c) self.old (number_at more.now) self.new) }
        ensures err { OnErr result (self.new ≡ self.old) }
    {
        match &mut self.kept {
            Kept::Entries(entries) => {
                let own = entries.as_slice();
                if are_few(own.len() + more.len(), self.cols) {
                    sum_of_entries(f, c, own, more, spare)?;
                    mem::swap(entries, spare);
                } else {
                    let numbers = sum_with_entries(alloc, f, c, own, more, self.cols)?;
                    self.kept = Kept::Numbers(numbers);
                }
            }
            Kept::Numbers(numbers) => add_entries(f, c, more, numbers),
        }
        Ok(())
    }

    /// Adds `c` times as many numbers, of which those before `start` are 0. The row then keeps each number.
    pub(crate) fn add_numbers<F: Field>(
        &mut self,
        alloc: Global,
        f: &F,
        c: F::E,
        more: &[u8],
        start: usize,
    ) -> Result<(), AllocError>
        requires factor { F.is_value f.now c }
        requires numbers { AreBelow (F.size f.now) self.old }
        requires as_many { length more.now ≡ length self.old }
        requires below { AreBelow (F.size f.now) more.now }
        requires start { start ≤ length more.now }
        requires zero { (j : ℕ) → j < start → slice_index more.now j ≡ 0 }
        ensures ok { OnOk result (IsRowSum (F.size f.now) (F.num f.now c) self.old (slice_index more.now) self.new) }
        ensures err { OnErr result (self.new ≡ self.old) }
    {
        match &mut self.kept {
            Kept::Entries(entries) => {
                let own = entries.as_slice();
                let numbers = sum_with_numbers(alloc, f, c, own, more, start, self.cols)?;
                self.kept = Kept::Numbers(numbers);
            }
            Kept::Numbers(numbers) => add_behind(f, c, more, start, numbers),
        }
        Ok(())
    }

    /// Adds `c` times the row to another, of as many numbers.
    pub(crate) fn add_to_row<F: Field>(
        &self,
        alloc: Global,
        f: &F,
        c: F::E,
        row: &mut MixedRow,
        spare: &mut SmallVec<Entry, INLINE>,
    ) -> Result<(), AllocError>
        requires factor { F.is_value f.now c }
        requires numbers { AreBelow (F.size f.now) self.now }
        requires as_many { length row.old ≡ length self.now }
        requires others { AreBelow (F.size f.now) row.old }
        ensures ok { OnOk result (IsRowSum (F.size f.now) (F.num f.now c) row.old (slice_index self.now) row.new) }
        ensures sized { length row.new ≡ length row.old }
        ensures err { OnErr result (row.new ≡ row.old) }
    {
        match &self.kept {
            Kept::Entries(more) => row.add_entries(alloc, f, c, more.as_slice(), spare)?,
            Kept::Numbers(more) => row.add_numbers(alloc, f, c, more, 0)?,
        }
        Ok(())
    }

    /// Adds to each row but `from` its factor times this row. Where memory is wanting some rows may be changed and
    /// others not.
    pub(crate) fn add_to_each<F: Field>(
        &self,
        alloc: Global,
        f: &F,
        rows: &mut [MixedRow],
        from: usize,
        factors: &[u8],
        spare: &mut SmallVec<Entry, INLINE>,
    ) -> Result<(), AllocError>
        requires numbers { AreBelow (F.size f.now) self.now }
        requires rows { HoldsRows (F.size f.now) (length self.now) rows.old }
        requires as_many { length factors.now ≡ length rows.old }
        requires factors { AreBelow (F.size f.now) factors.now }
        ensures ok { OnOk result (AreRowsSummedBelow (length rows.old) (F.size f.now) from (slice_index factors.now)
            (slice_index self.now) rows.old rows.new) }
        ensures sized { HaveLength (length self.now) rows.new }
        ensures count { length rows.new ≡ length rows.old }
    {
        match &self.kept {
            Kept::Entries(more) => {
                add_entries_to_each(
                    alloc,
                    f,
                    rows,
                    more.as_slice(),
                    from,
                    factors,
                    spare,
                    self.cols,
                )?;
            }
            Kept::Numbers(more) => add_numbers_to_each(alloc, f, rows, more, from, factors)?,
        }
        Ok(())
    }

    /// An equal row.
    pub(crate) fn copy(&self, alloc: Global) -> Result<MixedRow, AllocError>
        ensures { IfOk result (λ copy. copy ≡ self.now) }
    {
        let kept = match &self.kept {
            Kept::Entries(entries) => {
                Kept::Entries(SmallVec::from_slice(alloc, entries.as_slice())?)
            }
            Kept::Numbers(numbers) => Kept::Numbers(numbers.clone()?),
        };
        Ok(MixedRow {
            cols: self.cols,
            kept,
        })
    }
}
