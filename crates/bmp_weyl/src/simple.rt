//! The matrix of a product with one simple reflection on the right.
ghost use Rattle.std.specs.Prelude.{◌≡◌, ◌<◌, ◌≤◌, ℕ, length, pos, slice_index_or, ◌-ℤ◌, ◌*ℤ◌};
ghost use Rattle.bmp_math.specs.Integers.{IsWithin};
ghost use Rattle.bmp_math.specs.IntegerSums.{integer_unit};
ghost use Rattle.bmp_roots.specs.RootPairs.{HasCartanForm, pairing};
ghost use Rattle.bmp_weyl.specs.Matrices.{cell, HasSmallCells};
ghost use Rattle.bmp_weyl.specs.SimpleProducts.{tabulated, times_cell};

use crate::matrix::Entries;
use bmp_roots::Cartan;

// The values of the simple coroot k, from 0, on the simple roots, and 0 past the rank.
fn simple_values(cartan: &Cartan, k: usize) -> [i32; 6]
    requires form { HasCartanForm cartan.now }
    requires row { k < cartan.now.rank }
    ensures values { (j : ℕ) → slice_index_or result j (pos 0) ≡ pairing cartan.now (integer_unit k) (integer_unit j) }
    ensures within { (j : ℕ) → IsWithin 6144 (slice_index_or result j (pos 0)) }
{
    let rank = cartan.rank();
    let mut values = [0; 6];
    for j in 0..rank {
        values[j] = cartan.entry(k as u8 + 1, j as u8 + 1) as i32;
    }
    values
}

#[inline]
fn scaled(value: i32, entry: i8) -> i32
    requires value { IsWithin 6144 value }
    requires entry { IsWithin 32 entry }
    ensures product { result ≡ value *ℤ entry }
    ensures within { IsWithin 196608 result }
{
    value * entry as i32
}

// An entry, less the value of the coroot times the entry of column k in its row.
#[inline]
fn moved_entry(here: i8, value: i32, there: i8) -> i8
    requires here { IsWithin 32 here }
    requires value { IsWithin 6144 value }
    requires there { IsWithin 32 there }
    requires fits { IsWithin 32 (here -ℤ value *ℤ there) }
    ensures { result ≡ here -ℤ value *ℤ there }
{
    (here as i32 - scaled(value, there)) as i8
}

/// The matrix x with the simple reflection k, from 0, behind it, where that is small as well: column j loses the value of the
/// coroot k on the simple root j times column k.
pub fn times_entries(cartan: &Cartan, x: &Entries, k: usize) -> Entries
    requires form { HasCartanForm cartan.now }
    requires column { k < cartan.now.rank }
    requires x { HasSmallCells x.now }
    requires fits { (i j : ℕ) → i < 6 → j < 6 → IsWithin 32 (times_cell cartan.now x.now k i j) }
    ensures places { length result ≡ 36 }
    ensures cells { (i j : ℕ) → i < 6 → j < 6 → cell result i j ≡ times_cell cartan.now x.now k i j }
{
    let values = simple_values(cartan, k);
    let mut entries = [0; 36];
    for i in 0..6 {
        let there = x[i * 6 + k];
        for j in 0..6 {
            entries[i * 6 + j] = moved_entry(x[i * 6 + j], values[j], there);
        }
    }
    entries
}
