//! A part of the entries of a vector: those whose places are in a run.
ghost use Rattle.std.specs.Prelude.{◌≡◌, ℕ, ◌+◌, ◌*◌, ◌%◌, ◌^◌, ◌<◌, ◌≤◌, length, take, slice_index, slice_index_or};
ghost use Rattle.bmp_linear.specs.SparseVectors.{IsSparse, FitsBelow, number_at};

use bmp_field::Field;
use bmp_linear::{Entry, Scratch};

/// The first entry whose place is `place` or more.
fn first_from(entries: &[Entry], place: u64) -> usize
    requires { IsSparse entries.now }
    ensures within { result ≤ length entries.now }
    ensures passed { FitsBelow (take result entries.now) place }
    ensures reached { (d : Entry) → result < length entries.now → place ≤ (slice_index_or entries.now result d).place }
{
    entries.partition_point(|entry| u64::from(entry.place) < place)
}

/// The number at a place.
pub(crate) fn number_of(entries: &[Entry], place: u64) -> u8
    requires { IsSparse entries.now }
    ensures { result ≡ number_at entries.now place }
{
    let at = first_from(entries, place);
    if at < entries.len() && u64::from(entries[at].place) == place {
        entries[at].value
    } else {
        0
    }
}

/// Adds `factor` times the `len` numbers from place `start` on to the second row of the scratch.
pub(crate) fn add_run<F: Field>(
    f: &F,
    factor: F::E,
    entries: &[Entry],
    start: u64,
    len: u64,
    s: &mut Scratch,
)
    requires factor { F.is_value f.now factor }
    requires sparse { IsSparse entries.now }
    requires few { start + len < 2 ^ 64 }
    requires numbers { (c : ℕ) → c < len → number_at entries.now (start + c) < F.size f.now }
    requires room { len ≤ length s.old.second }
    requires sums { (c : ℕ) → c < len → slice_index s.old.second c < F.size f.now }
    ensures added { (c : ℕ) → c < len → slice_index s.new.second c
        ≡ (slice_index s.old.second c + F.num f.now factor * number_at entries.now (start + c)) % F.size f.now }
    ensures first { s.new.first ≡ s.old.first }
    ensures room { length s.new.second ≡ length s.old.second }
{
    let _ = s.len();
    let first = first_from(entries, start);
    let last = first_from(entries, start + len);
    for entry in &entries[first..last] {
        let c = u64::from(entry.place) - start;
        let sum = f.from_num(u32::from(s.get(true, c)));
        let term = f.mul(factor, f.from_num(u32::from(entry.value)));
        s.set(true, c, f.num(f.add(sum, term)) as u8);
    }
}
