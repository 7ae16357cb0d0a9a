//! The sums q_x from their parts, by one product with v - v^-1 for each power.
ghost use Rattle.std.specs.Prelude.{◌≡◌, ◌+◌, ◌*◌, ◌^◌, ◌<◌, ◌≤◌, nat_lt, if◌then◌else◌, ℕ, ℤ, pos, length, slice_index_or, ◌+ℤ◌, ◌-ℤ◌};
ghost use Rattle.bmp_math.specs.Integers.{IsWithin};
ghost use Rattle.bmp_hecke.specs.Combinations.{value_in};
ghost use Rattle.bmp_kl.specs.PartLists.{part_value};
ghost use Rattle.bmp_kl.specs.Powers.{horner};
ghost use Rattle.bmp_kl.specs.HornerRows.{after, IsMultiplied};

// The part of q_x at the power d and the i-th exponent from -72 on.
fn part_at(parts: &[i128], x: usize, d: usize, i: usize) -> i128
    requires inside { x * 1369 + 1369 ≤ length parts.now }
    requires power { d ≤ 36 }
    requires place { i < 145 }
    ensures { result ≡ part_value parts.now x d (pos i -ℤ pos 72) }
{
    if i < 36 || i > 72 {
        0
    } else {
        parts[x * 1369 + (72 - i) * 37 + d]
    }
}

// The coefficient after the i-th.
fn after(row: &[i128], i: usize) -> i128
    requires long { length row.now ≡ 145 }
    requires place { i < 145 }
    ensures { result ≡ after row.now i }
{
    if i < 144 { row[i + 1] } else { 0 }
}

#[inline]
fn multiplied(part: i128, before: i128, after: i128) -> i128
    requires part { IsWithin (2 ^ 69) part }
    requires before { IsWithin (2 ^ 106) before }
    requires after { IsWithin (2 ^ 106) after }
    ensures { result ≡ part +ℤ (before -ℤ after) }
{
    part + (before - after)
}

// The coefficients from the exponent -72 to 72 times v - v^-1, and the part at the power d added.
fn multiply(parts: &[i128], x: usize, d: usize, row: &mut [i128])
    requires inside { x * 1369 + 1369 ≤ length parts.now }
    requires power { d ≤ 36 }
    requires long { length row.old ≡ 145 }
    requires small { (e : ℤ) → IsWithin (2 ^ 69) (part_value parts.now x d e) }
    requires fits { (i : ℕ) → IsWithin (2 ^ 106) (slice_index_or row.old i (pos 0)) }
    ensures { IsMultiplied (part_value parts.now x d) 145 row.old row.new }
{
    let mut before = 0;
    for i in 0..145 {
        let here = row[i];
        row[i] = multiplied(part_at(parts, x, d, i), before, after(row, i));
        before = here;
    }
}

/// The sum of the parts of vertex x times the powers of v - v^-1, from the exponent -72 to 72.
pub fn sum_of_parts(parts: &[i128], x: usize, row: &mut [i128])
    requires inside { x * 1369 + 1369 ≤ length parts.now }
    requires long { length row.old ≡ 145 }
    requires small { (d : ℕ) (e : ℤ) → d ≤ 36 → IsWithin (2 ^ 69) (part_value parts.now x d e) }
    ensures long { length row.new ≡ 145 }
    ensures value { (e : ℤ) → value_in row.new 0 e ≡ horner 36 (part_value parts.now x) e }
{
    for i in 0..145 {
        row[i] = 0;
    }
    for j in 0..37 {
        multiply(parts, x, 36 - j, row);
    }
}
