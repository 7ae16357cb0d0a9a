//! Multiples of one row, added to the other rows.
ghost use Rattle.std.specs.Prelude.{◌≡◌, ◌<◌, ◌^◌, length, slice_index, OnOk};
ghost use Rattle.bmp_field.specs.Runs.{AreBelow};
ghost use Rattle.bmp_linear.specs.NumberRows.{HoldsRows, HaveLength, AreRowsSummedBelow};
ghost use Rattle.bmp_linear.specs.SparseVectors.{IsSparse, FitsBelow, ValuesBelow, number_at};

use crate::entry_sums::INLINE;
use crate::mixed_row::MixedRow;
use crate::multiples::{table_of, zeros_before};
use crate::vector::Entry;
use bmp_field::Field;
use smallvec::SmallVec;
use std::alloc::{AllocError, Global};

/// Adds to each row but `from` its factor times a row of entries.
pub(crate) fn add_entries_to_each<F: Field>(
    alloc: Global,
    f: &F,
    rows: &mut [MixedRow],
    more: &[Entry],
    from: usize,
    factors: &[u8],
    spare: &mut SmallVec<Entry, INLINE>,
    cols: u32,
) -> Result<(), AllocError>
    requires sparse { IsSparse more.now }
    requires fits { FitsBelow more.now cols }
    requires values { ValuesBelow more.now (F.size f.now) }
    requires rows { HoldsRows (F.size f.now) cols rows.old }
    requires as_many { length factors.now ≡ length rows.old }
    requires factors { AreBelow (F.size f.now) factors.now }
    ensures ok { OnOk result (AreRowsSummedBelow (length rows.old) (F.size f.now) from (slice_index factors.now)
        (number_at more.now) rows.old rows.new) }
    ensures sized { HaveLength cols rows.new }
    ensures count { length rows.new ≡ length rows.old }
{
    let _ = cols;
    for i in 0..rows.len() {
        if i != from && factors[i] != 0 {
            let c = f.from_num(u32::from(factors[i]));
            rows[i].add_entries(alloc, f, c, more, spare)?;
        }
    }
    Ok(())
}

/// The same of a row of numbers, whose multiples are made once.
pub(crate) fn add_numbers_to_each<F: Field>(
    alloc: Global,
    f: &F,
    rows: &mut [MixedRow],
    more: &[u8],
    from: usize,
    factors: &[u8],
) -> Result<(), AllocError>
    requires more { AreBelow (F.size f.now) more.now }
    requires limit { length more.now < 2 ^ 32 }
    requires rows { HoldsRows (F.size f.now) (length more.now) rows.old }
    requires as_many { length factors.now ≡ length rows.old }
    requires factors { AreBelow (F.size f.now) factors.now }
    ensures ok { OnOk result (AreRowsSummedBelow (length rows.old) (F.size f.now) from (slice_index factors.now)
        (slice_index more.now) rows.old rows.new) }
    ensures sized { HaveLength (length more.now) rows.new }
    ensures count { length rows.new ≡ length rows.old }
{
    let table = table_of(alloc, f, more)?;
    let start = zeros_before(more);
    let len = more.len();
    for i in 0..rows.len() {
        if i != from && factors[i] != 0 {
            let multiple = factors[i] as usize * len;
            rows[i].add_numbers(alloc, f, f.one(), &table[multiple..multiple + len], start)?;
        }
    }
    Ok(())
}
