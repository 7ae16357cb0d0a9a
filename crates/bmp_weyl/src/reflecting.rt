//! The matrix of the reflection of a root pair.
ghost use Rattle.std.specs.Prelude.{◌≡◌, ◌<◌, ◌≤◌, ℕ, length, pos, slice_index_or, ◌-ℤ◌, ◌*ℤ◌};
ghost use Rattle.bmp_math.specs.Integers.{IsWithin};
ghost use Rattle.bmp_math.specs.IntegerSums.{integer_unit};
ghost use Rattle.bmp_roots.specs.RootPairs.{HasCartanForm, pairing, across, entry};
ghost use Rattle.bmp_roots.specs.Pairs.{coordinates, root_pair};
ghost use Rattle.bmp_weyl.specs.Matrices.{cell};

use crate::matrix::{Entries, unit_entry};
use bmp_roots::Cartan;

#[inline]
fn value_product(a: i64, b: i16) -> i32
    requires a { IsWithin 32 a }
    requires b { IsWithin 32 b }
    ensures value { result ≡ b *ℤ a }
    ensures within { IsWithin 1024 result }
{
    a as i32 * b as i32
}

// The value of a coroot on the simple root j.
fn coroot_value(cartan: &Cartan, coroot: &[i16; 6], j: usize) -> i32
    requires form { HasCartanForm cartan.now }
    requires small { (i : ℕ) → IsWithin 32 (coordinates coroot.now i) }
    requires column { j < cartan.now.rank }
    ensures value { result ≡ pairing cartan.now (coordinates coroot.now) (integer_unit j) }
    ensures within { IsWithin 6144 result }
{
    let rank = cartan.rank();
    let mut sum = 0;
    for i in 0..rank {
        sum += value_product(cartan.entry(i as u8 + 1, j as u8 + 1), coroot[i]);
    }
    sum
}

// The values of a coroot on the simple roots, and 0 past the rank.
fn coroot_values(cartan: &Cartan, coroot: &[i16; 6]) -> [i32; 6]
    requires form { HasCartanForm cartan.now }
    requires small { (i : ℕ) → IsWithin 32 (coordinates coroot.now i) }
    ensures values { (j : ℕ) → slice_index_or result j (pos 0) ≡ pairing cartan.now (coordinates coroot.now)
        (integer_unit j) }
    ensures within { (j : ℕ) → IsWithin 6144 (slice_index_or result j (pos 0)) }
{
    let rank = cartan.rank();
    let mut values = [0; 6];
    for j in 0..rank {
        values[j] = coroot_value(cartan, coroot, j);
    }
    values
}

#[inline]
fn scaled(coordinate: i16, value: i32) -> i32
    requires coordinate { IsWithin 32 coordinate }
    requires value { IsWithin 6144 value }
    ensures product { result ≡ value *ℤ coordinate }
    ensures within { IsWithin 196608 result }
{
    value * coordinate as i32
}

// The entry at row i and column j, from the value of the coroot on the simple root j and the coordinate i of the root.
#[inline]
fn reflected_entry(value: i32, coordinate: i16, i: usize, j: usize) -> i8
    requires value { IsWithin 6144 value }
    requires coordinate { IsWithin 32 coordinate }
    requires fits { IsWithin 32 (integer_unit j i -ℤ value *ℤ coordinate) }
    ensures { result ≡ integer_unit j i -ℤ value *ℤ coordinate }
{
    (unit_entry(i, j) as i32 - scaled(coordinate, value)) as i8
}

/// The matrix of the reflection of a pair whose reflection has small entries.
pub fn reflection_entries(cartan: &Cartan, root: &[i16; 6], coroot: &[i16; 6]) -> Entries
    requires form { HasCartanForm cartan.now }
    requires root { (i : ℕ) → IsWithin 32 (coordinates root.now i) }
    requires coroot { (i : ℕ) → IsWithin 32 (coordinates coroot.now i) }
    requires fits { (i j : ℕ) → IsWithin 32 (across cartan.now (root_pair root.now coroot.now) (integer_unit j) i) }
    ensures places { length result ≡ 36 }
    ensures cells { (i j : ℕ) → i < 6 → j < 6
        → cell result i j ≡ across cartan.now (root_pair root.now coroot.now) (integer_unit j) i }
{
    let values = coroot_values(cartan, coroot);
    let mut entries = [0; 36];
    for place in 0..36 {
        let (i, j) = (place / 6, place % 6);
        entries[place] = reflected_entry(values[j], root[i], i, j);
    }
    entries
}
