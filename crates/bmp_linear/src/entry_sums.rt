//! Entries whose values are multiplied, and sums of two runs of entries.
ghost use Rattle.std.specs.Prelude.{◌≡◌, ℕ, ◌⊎◌, ◌<◌, ◌≤◌, ◌^◌, length, slice_index, map, OnOk, IfOk};
ghost use Rattle.bmp_linear.specs.SparseVectors.{IsSparse, FitsBelow, ValuesBelow, number_at};
ghost use Rattle.bmp_linear.specs.EntryChanges.{times_entry, after, IsNextEntry, IsEntrySum};

use crate::vector::Entry;
use bmp_field::Field;
use smallvec::SmallVec;
use std::alloc::{AllocError, Global};

/// How many entries a row keeps in place.
pub(crate) const INLINE: usize = 4;

/// The entries of the numbers that aren't 0, each at its place.
pub(crate) fn entries_in(
    alloc: Global,
    numbers: &[u8],
) -> Result<SmallVec<Entry, INLINE>, AllocError>
    requires { length numbers.now ≤ 2 ^ 32 }
    ensures sparse { IfOk result (λ entries. IsSparse entries.items) }
    ensures fits { IfOk result (λ entries. FitsBelow entries.items (length numbers.now)) }
    ensures numbers { IfOk result
        (λ entries. (j : ℕ) → j < length numbers.now → number_at entries.items j ≡ slice_index numbers.now j) }
{
    let mut entries = SmallVec::new(alloc);
    for (place, value) in numbers.iter().enumerate() {
        if *value != 0 {
            entries.push(Entry {
                place: place as u32,
                value: *value,
            })?;
        }
    }
    Ok(entries)
}

/// Multiplies the entries' values by `c`.
pub(crate) fn scale_entries<F: Field>(f: &F, c: F::E, entries: &mut [Entry])
    requires factor { F.is_value f.now c }
    requires values { ValuesBelow entries.old (F.size f.now) }
    ensures { entries.new ≡ map (times_entry (F.size f.now) (F.num f.now c)) entries.old }
{
    for entry in entries.iter_mut() {
        *entry = times(f, c, *entry);
    }
}

/// The entry with `c` times its value.
fn times<F: Field>(f: &F, c: F::E, entry: Entry) -> Entry
    requires factor { F.is_value f.now c }
    requires value { entry.value < F.size f.now }
    ensures { result ≡ times_entry (F.size f.now) (F.num f.now c) entry }
{
    let value = f.from_num(u32::from(entry.value));
    Entry {
        place: entry.place,
        value: f.num(f.mul(c, value)) as u8,
    }
}

/// The number at the lowest place where one of two runs has an entry, of the first and `c` times the
/// second.
fn next_entry<F: Field>(f: &F, c: F::E, first: &[Entry], second: &[Entry]) -> Entry
    requires factor { F.is_value f.now c }
    requires first { IsSparse first.now }
    requires second { IsSparse second.now }
    requires first_values { ValuesBelow first.now (F.size f.now) }
    requires second_values { ValuesBelow second.now (F.size f.now) }
    requires left { (0 < length first.now) ⊎ (0 < length second.now) }
    ensures { IsNextEntry (F.size f.now) (F.num f.now c) first.now second.now result }
{
    match (first, second) {
        ([a, ..], [b, ..]) => {
            if a.place < b.place {
                *a
            } else if b.place < a.place {
                times(f, c, *b)
            } else {
                let term = f.mul(c, f.from_num(u32::from(b.value)));
                let sum = f.add(f.from_num(u32::from(a.value)), term);
                Entry {
                    place: a.place,
                    value: f.num(sum) as u8,
                }
            }
        }
        ([a, ..], []) => *a,
        ([], [b, ..]) => times(f, c, *b),
        ([], []) => unreachable!(),
    }
}

/// The entries that are left once a place is passed.
fn left_after(entries: &[Entry], place: u32) -> &[Entry]
    ensures { result.now ≡ after entries.now place }
{
    match entries {
        [entry, rest @ ..] if entry.place == place => rest,
        _ => entries,
    }
}

/// Makes `sum` the entries of the sum of the first numbers and `c` times the second ones, in one pass over both
/// and in the room that there is. Where memory is wanting it may have any entries.
pub(crate) fn sum_of_entries<F: Field>(
    f: &F,
    c: F::E,
    first: &[Entry],
    second: &[Entry],
    sum: &mut SmallVec<Entry, INLINE>,
) -> Result<(), AllocError>
    requires factor { F.is_value f.now c }
    requires first { IsSparse first.now }
    requires second { IsSparse second.now }
    requires first_values { ValuesBelow first.now (F.size f.now) }
    requires second_values { ValuesBelow second.now (F.size f.now) }
    ensures { OnOk result (IsEntrySum (F.size f.now) (F.num f.now c) first.now second.now sum.new.items) }
{
    sum.clear();
    sum.reserve(first.len() + second.len())?;
    let mut first_left = first;
    let mut second_left = second;
    while !first_left.is_empty() || !second_left.is_empty() {
        let next = next_entry(f, c, first_left, second_left);
        if next.value != 0 {
            sum.push(next)?;
        }
        first_left = left_after(first_left, next.place);
        second_left = left_after(second_left, next.place);
    }
    Ok(())
}
