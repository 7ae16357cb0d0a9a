//! Rows of bits in words of their own.
ghost use Rattle.std.specs.Prelude.{◌≡◌, ◌<◌, ◌*◌, length, slice_index, EachIndex, OnOk, OnErr};
ghost use Rattle.bmp_field.specs.Runs.{AreBelow};
ghost use Rattle.bmp_linear.specs.SparseVectors.{IsSparse, FitsBelow, ValuesBelow, number_at};
ghost use Rattle.bmp_packed.specs.Words.{width_of, HasRowBits, AreRowBitsAdded, IsRowAppended};

use crate::words::{add_bits, with_bit, word_of};
use bmp_linear::Entry;
use std::alloc::AllocError;

/// How many words a row of so many columns has.
pub(crate) fn width(cols: u32) -> usize
    ensures { result ≡ width_of cols }
{
    (cols as usize + 63) / 64
}

/// Adds the bits of words to as many numbers as a row has.
pub(crate) fn add_row_bits(words: &[u64], numbers: &mut [u8])
    requires width { length words.now ≡ width_of (length numbers.old) }
    requires bits { AreBelow 2 numbers.old }
    ensures { AreRowBitsAdded words.now numbers.old numbers.new }
{
    let len = numbers.len();
    for (k, word) in words.iter().enumerate() {
        let start = 64 * k;
        let end = len.min(start + 64);
        add_bits(*word, &mut numbers[start..end]);
    }
}

/// Makes the bits of words the numbers of a row.
pub(crate) fn write_numbers(numbers: &[u8], words: &mut [u64])
    requires width { length words.old ≡ width_of (length numbers.now) }
    requires bits { AreBelow 2 numbers.now }
    ensures sized { length words.new ≡ length words.old }
    ensures bits { HasRowBits (slice_index numbers.now) words.new }
{
    let len = numbers.len();
    for (k, word) in words.iter_mut().enumerate() {
        let start = 64 * k;
        let end = len.min(start + 64);
        *word = word_of(&numbers[start..end]);
    }
}

/// Makes the bits of words, which are all 0, the numbers of a row that is kept as its entries.
pub(crate) fn write_entries(entries: &[Entry], words: &mut [u64])
    requires sparse { IsSparse entries.now }
    requires fits { FitsBelow entries.now (64 * length words.old) }
    requires values { ValuesBelow entries.now 2 }
    requires clear { EachIndex words.old (λ k. slice_index words.old k ≡ 0) }
    ensures sized { length words.new ≡ length words.old }
    ensures bits { HasRowBits (number_at entries.now) words.new }
{
    for entry in entries {
        let k = (entry.place / 64) as usize;
        words[k] = with_bit(words[k], entry.place % 64);
    }
}

/// Appends the words of a row of numbers.
pub(crate) fn append_numbers(
    words: &mut Vec<u64>,
    cols: u32,
    numbers: &[u8],
) -> Result<(), AllocError>
    requires sized { length numbers.now ≡ cols }
    requires bits { AreBelow 2 numbers.now }
    ensures ok { OnOk result (IsRowAppended (slice_index numbers.now) cols words.old.items words.new.items) }
    ensures err { OnErr result (words.new.items ≡ words.old.items) }
{
    let start = words.len();
    words.resize(start + width(cols), 0)?;
    write_numbers(numbers, &mut words.as_mut_slice()[start..]);
    Ok(())
}

/// Appends the words of a row that is kept as its entries.
pub(crate) fn append_entries(
    words: &mut Vec<u64>,
    cols: u32,
    entries: &[Entry],
) -> Result<(), AllocError>
    requires sparse { IsSparse entries.now }
    requires fits { FitsBelow entries.now cols }
    requires values { ValuesBelow entries.now 2 }
    ensures ok { OnOk result (IsRowAppended (number_at entries.now) cols words.old.items words.new.items) }
    ensures err { OnErr result (words.new.items ≡ words.old.items) }
{
    let start = words.len();
    words.resize(start + width(cols), 0)?;
    write_entries(entries, &mut words.as_mut_slice()[start..]);
    Ok(())
}
