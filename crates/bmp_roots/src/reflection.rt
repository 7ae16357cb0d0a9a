//! A simple reflection of a pair.
ghost use Rattle.std.specs.Prelude.{◌≡◌, ◌+◌, ◌-◌, ◌*◌, ◌<◌, ◌≤◌, ◌↔◌, ℕ, ℤ, pos, length, IsTrue, ◌+ℤ◌, ◌-ℤ◌, ◌*ℤ◌};
ghost use Rattle.bmp_math.specs.Integers.{IsWithin};
ghost use Rattle.bmp_math.specs.IntegerSums.{integer_sum, integer_unit};
ghost use Rattle.bmp_roots.specs.RootPairs.{CartanMatrix, Vector, HasCartanForm, entry, minus_times, pairing, IsSmall, mirrored, simple_pair};
ghost use Rattle.bmp_roots.specs.Pairs.{coordinates, pair_of};

use crate::cartan_matrix::Cartan;
use crate::root_pair::Pair;

fn small_product(a: i64, b: i16) -> i32
    requires a { IsWithin 32 a }
    requires b { IsWithin 32 b }
    ensures value { result ≡ a *ℤ b }
    ensures within { IsWithin 1024 result }
{
    a as i32 * b as i32
}

// The value of the simple coroot k on a root.
fn row_value(cartan: &Cartan, k: usize, v: &[i16; 6]) -> i32
    requires row { k < cartan.now.rank }
    requires small { (j : ℕ) → IsWithin 32 (coordinates v.now j) }
    ensures value { result ≡ pairing cartan.now (integer_unit k) (coordinates v.now) }
    ensures within { IsWithin 6144 result }
{
    let rank = cartan.rank();
    let mut sum = 0;
    for j in 0..rank {
        sum += small_product(cartan.at(k, j), v[j]);
    }
    sum
}

// The value of a coroot on the simple root k.
fn column_value(cartan: &Cartan, k: usize, v: &[i16; 6]) -> i32
    requires column { k < cartan.now.rank }
    requires small { (i : ℕ) → IsWithin 32 (coordinates v.now i) }
    ensures value { result ≡ pairing cartan.now (coordinates v.now) (integer_unit k) }
    ensures within { IsWithin 6144 result }
{
    let rank = cartan.rank();
    let mut sum = 0;
    for i in 0..rank {
        sum += small_product(cartan.at(i, k), v[i]);
    }
    sum
}

fn difference(a: i16, value: i32) -> i16
    requires small { IsWithin 32 a }
    requires within { IsWithin 6144 value }
    ensures { result ≡ a -ℤ value }
{
    (a as i32 - value) as i16
}

// The vector less `value` at k.
fn lowered(v: &[i16; 6], k: usize, value: i32) -> [i16; 6]
    requires place { k < 6 }
    requires small { (j : ℕ) → IsWithin 32 (coordinates v.now j) }
    requires within { IsWithin 6144 value }
    ensures { coordinates result ≡ minus_times (coordinates v.now) value (integer_unit k) }
{
    let mut moved = *v;
    moved[k] = difference(moved[k], value);
    moved
}

impl Cartan {
    /// The value of the simple coroot i, from 1, on a root whose coordinates are from -32 to 32: the sum of the entries
    /// of row i times the coordinates.
    pub fn value(&self, i: u8, root: &[i16; 6]) -> i32
        requires row { (1 ≤ i) × (i ≤ self.now.rank) }
        requires small { (j : ℕ) → IsWithin 32 (coordinates root.now j) }
        ensures value { result ≡ pairing self.now (integer_unit (i - 1)) (coordinates root.now) }
        ensures within { IsWithin 6144 result }
    {
        row_value(self, i as usize - 1, root)
    }
}

/// What the simple reflection k, from 0, makes of a pair.
pub fn moved(cartan: &Cartan, k: usize, pair: &Pair) -> Pair
    requires form { HasCartanForm cartan.now }
    requires letter { k < cartan.now.rank }
    requires small { IsSmall (pair_of pair.now) }
    ensures { pair_of result ≡ mirrored cartan.now (simple_pair k) (pair_of pair.now) }
{
    let root = lowered(&pair.root, k, row_value(cartan, k, &pair.root));
    let coroot = lowered(&pair.coroot, k, column_value(cartan, k, &pair.coroot));
    Pair { root, coroot }
}
