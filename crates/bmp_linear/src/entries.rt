//! Runs of entries, the numbers of a vector that aren't 0, against other numbers.
ghost use Rattle.std.specs.Prelude.{◌≡◌, ℕ, ◌*◌, ◌%◌, ◌<◌, ◌≤◌, length, take, slice_index, slice_index_or, All, EachIndex, sum_by};
ghost use Rattle.bmp_linear.specs.SparseVectors.{IsRising, IsSparse, FitsBelow, ValuesBelow, number_at};
ghost use Rattle.bmp_linear.specs.RowChanges.{AddsEntries};

use crate::scratch::clear;
use crate::vector::Entry;
use bmp_field::Field;

/// The number at a place among entries, which is 0 where no entry stands.
pub(crate) fn number_in(entries: &[Entry], place: u32) -> u8
    ensures { result ≡ number_at entries.now place }
{
    for entry in entries {
        if entry.place == place {
            return entry.value;
        }
    }
    0
}

/// Writes all the numbers of entries, 0s too.
pub(crate) fn spread_entries(entries: &[Entry], into: &mut [u8])
    requires sparse { IsSparse entries.now }
    requires fits { FitsBelow entries.now (length into.old) }
    ensures { EachIndex into.new (λ j. slice_index into.new j ≡ number_at entries.now j) }
{
    clear(into);
    for entry in entries {
        into[entry.place as usize] = entry.value;
    }
}

/// The first entry from `next` on whose place is `place` or more.
fn seek(entries: &[Entry], next: usize, place: u32) -> usize
    requires within { next ≤ length entries.now }
    requires passed { FitsBelow (take next entries.now) place }
    ensures within { result ≤ length entries.now }
    ensures passed { FitsBelow (take result entries.now) place }
    ensures reached { (d : Entry) → result < length entries.now → place ≤ (slice_index_or entries.now result d).place }
{
    let mut at = next;
    while at < entries.len() && entries[at].place < place {
        at += 1;
    }
    at
}

/// The number at `place`, where `at` is the first entry whose place is `place` or more.
fn number_from(entries: &[Entry], at: usize, place: u32) -> u8
    requires rising { IsRising entries.now }
    requires passed { FitsBelow (take at entries.now) place }
    requires reached { (d : Entry) → at < length entries.now → place ≤ (slice_index_or entries.now at d).place }
    ensures { result ≡ number_at entries.now place }
{
    if at < entries.len() && entries[at].place == place {
        entries[at].value
    } else {
        0
    }
}

/// The sum of the products of the values at equal places, in one pass over both.
pub(crate) fn product<F: Field>(f: &F, row: &[Entry], vector: &[Entry]) -> F::E
    requires row_rising { IsRising row.now }
    requires row_values { ValuesBelow row.now (F.size f.now) }
    requires rising { IsRising vector.now }
    requires values { ValuesBelow vector.now (F.size f.now) }
    ensures value { F.is_value f.now result }
    ensures number { F.num f.now result
        ≡ sum_by (λ e. e.value * number_at vector.now e.place) row.now % F.size f.now }
{
    let mut sum = f.zero();
    let mut next = 0;
    for entry in row {
        next = seek(vector, next, entry.place);
        let factor = f.from_num(u32::from(entry.value));
        let number = f.from_num(u32::from(number_from(vector, next, entry.place)));
        sum = f.add(sum, f.mul(factor, number));
    }
    sum
}

/// The sum of the entries' values times the numbers at their places.
pub fn value_of<F: Field>(f: &F, entries: &[Entry], numbers: &[u8]) -> F::E
    requires values { ValuesBelow entries.now (F.size f.now) }
    requires fits { FitsBelow entries.now (length numbers.now) }
    requires numbers { All (λ e. slice_index numbers.now e.place < F.size f.now) entries.now }
    ensures value { F.is_value f.now result }
    ensures number { F.num f.now result
        ≡ sum_by (λ e. e.value * slice_index numbers.now e.place) entries.now % F.size f.now }
{
    let mut sum = f.zero();
    for entry in entries {
        let factor = f.from_num(u32::from(entry.value));
        let number = f.from_num(u32::from(numbers[entry.place as usize]));
        sum = f.add(sum, f.mul(factor, number));
    }
    sum
}

/// Adds `c` times the entries to the numbers at their places.
pub fn add_entries<F: Field>(f: &F, c: F::E, entries: &[Entry], sums: &mut [u8])
    requires factor { F.is_value f.now c }
    requires sparse { IsSparse entries.now }
    requires values { ValuesBelow entries.now (F.size f.now) }
    requires fits { FitsBelow entries.now (length sums.old) }
    requires sums { All (λ e. slice_index sums.old e.place < F.size f.now) entries.now }
    ensures { AddsEntries (F.size f.now) (F.num f.now c) entries.now sums.old sums.new }
{
    for entry in entries {
        let sum = f.from_num(u32::from(sums[entry.place as usize]));
        let term = f.mul(c, f.from_num(u32::from(entry.value)));
        sums[entry.place as usize] = f.num(f.add(sum, term)) as u8;
    }
}
