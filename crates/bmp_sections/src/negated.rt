//! Minus the entries of a row.
ghost use Rattle.std.specs.Prelude.{◌≡◌, ℕ, ◌*◌, ◌%◌, ◌<◌, All, length, slice_index, sum_by};
ghost use Rattle.bmp_linear.specs.SparseVectors.{IsSparse, FitsBelow, ValuesBelow};
ghost use Rattle.bmp_linear.specs.RowChanges.{AddsEntries};
ghost use Rattle.bmp_sections.specs.RowParts.{negated};

use bmp_field::Field;
use bmp_linear::Entry;

/// The sum of minus the entries' values, modulo `p`, times the numbers at their places.
pub(crate) fn negated_value<F: Field>(f: &F, p: u8, entries: &[Entry], numbers: &[u8]) -> F::E
    requires sparse { IsSparse entries.now }
    requires values { ValuesBelow entries.now p }
    requires negated { ValuesBelow (negated p entries.now) (F.size f.now) }
    requires fits { FitsBelow entries.now (length numbers.now) }
    requires numbers { All (λ e. slice_index numbers.now e.place < F.size f.now) entries.now }
    ensures value { F.is_value f.now result }
    ensures number { F.num f.now result
        ≡ sum_by (λ e. e.value * slice_index numbers.now e.place) (negated p entries.now) % F.size f.now }
{
    let mut sum = f.zero();
    for entry in entries {
        let factor = f.from_num(u32::from(p - entry.value));
        let number = f.from_num(u32::from(numbers[entry.place as usize]));
        sum = f.add(sum, f.mul(factor, number));
    }
    sum
}

/// Adds `c` times minus the entries, modulo `p`, to the numbers at their places.
pub(crate) fn add_negated<F: Field>(f: &F, c: F::E, p: u8, entries: &[Entry], sums: &mut [u8])
    requires factor { F.is_value f.now c }
    requires sparse { IsSparse entries.now }
    requires values { ValuesBelow entries.now p }
    requires negated { ValuesBelow (negated p entries.now) (F.size f.now) }
    requires fits { FitsBelow entries.now (length sums.old) }
    requires sums { All (λ e. slice_index sums.old e.place < F.size f.now) entries.now }
    ensures { AddsEntries (F.size f.now) (F.num f.now c) (negated p entries.now) sums.old sums.new }
{
    for entry in entries {
        let sum = f.from_num(u32::from(sums[entry.place as usize]));
        let term = f.mul(c, f.from_num(u32::from(p - entry.value)));
        sums[entry.place as usize] = f.num(f.add(sum, term)) as u8;
    }
}
