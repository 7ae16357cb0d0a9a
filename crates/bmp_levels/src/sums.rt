//! Sums of multiples of numbers below a prime, one sum for each member. They have sixteen bits, and are replaced by
//! their remainders before one could pass these.
//!
//! Each loop is free of divisions and of tests that leave it, so that it runs on many numbers at once. None is inlined:
//! in a loop over entries the compiler would ask at each whether the numbers are apart from the sums.
ghost use Rattle.std.specs.Prelude.{◌≡◌, ℕ, ◌+◌, ◌*◌, ◌/◌, ◌%◌, ◌^◌, ◌<◌, ◌≤◌, IsTrue, EachIndex, length, slice_index};
ghost use Rattle.bmp_levels.specs.Agreement.{AreWithin};

/// The remainder of a sum, by a reciprocal of 16 bits, which gives the quotient or one less.
fn remainder(p: u8, reciprocal: u32, sum: u16) -> u16
    requires prime { 1 ≤ p }
    requires reciprocal { reciprocal ≡ 2 ^ 16 / p }
    ensures { result ≡ sum % p }
{
    let number = u32::from(sum);
    let quotient = number * reciprocal / (1 << 16);
    let rest = (number - quotient * u32::from(p)) as u16;
    if rest < u16::from(p) {
        rest
    } else {
        rest - u16::from(p)
    }
}

/// Replaces the sums by their remainders.
#[inline(never)]
fn reduce(p: u8, sums: &mut [u16])
    requires { 1 ≤ p }
    ensures remainders { (j : ℕ) → j < length sums.new → slice_index sums.new j ≡ slice_index sums.old j % p }
    ensures sums { length sums.new ≡ length sums.old }
{
    let reciprocal = (1 << 16) / u32::from(p);
    for sum in sums.iter_mut() {
        *sum = remainder(p, reciprocal, *sum);
    }
}

/// Writes 0 everywhere.
pub(crate) fn clear(sums: &mut [u16])
    ensures zeros { EachIndex sums.new (λ j. slice_index sums.new j ≡ 0) }
    ensures sums { length sums.new ≡ length sums.old }
{
    sums.fill(0);
}

/// Adds `factor` times the numbers to as many of the sums.
#[inline(never)]
pub(crate) fn add_multiples(factor: u8, numbers: &[u8], sums: &mut [u16])
    requires few { length numbers.now ≤ length sums.old }
    requires room { (j : ℕ) → j < length numbers.now
        → slice_index sums.old j + factor * slice_index numbers.now j < 2 ^ 16 }
    ensures added { (j : ℕ) → j < length numbers.now
        → slice_index sums.new j ≡ slice_index sums.old j + factor * slice_index numbers.now j }
    ensures kept { (j : ℕ) → length numbers.now ≤ j → slice_index sums.new j ≡ slice_index sums.old j }
    ensures sums { length sums.new ≡ length sums.old }
{
    for (j, number) in numbers.iter().enumerate() {
        sums[j] += u16::from(factor) * u16::from(*number);
    }
}

/// Adds `factor` times the numbers to as many of the sums, modulo the prime. No sum was above `most`, and none is above
/// the result.
pub(crate) fn add_reduced(p: u8, most: u32, factor: u8, numbers: &[u8], sums: &mut [u16]) -> u32
    requires prime { 1 ≤ p }
    requires numbers { (j : ℕ) → j < length numbers.now → slice_index numbers.now j < p }
    requires few { length numbers.now ≤ length sums.old }
    requires within { AreWithin most sums.old }
    ensures added { (j : ℕ) → j < length sums.old
        → slice_index sums.new j % p ≡ (slice_index sums.old j + factor * slice_index numbers.now j) % p }
    ensures within { AreWithin result sums.new }
    ensures sums { length sums.new ≡ length sums.old }
{
    let step = u32::from(factor) * u32::from(p - 1);
    let room = most_for(p, most, step, sums);
    add_multiples(factor, numbers, sums);
    room + step
}

/// Reduces the sums where something up to `step` could not be added to each. None is then above the result.
fn most_for(p: u8, most: u32, step: u32, sums: &mut [u16]) -> u32
    requires prime { 1 ≤ p }
    requires step { step ≤ 255 * 254 }
    requires within { AreWithin most sums.old }
    ensures same { (j : ℕ) → j < length sums.old → slice_index sums.new j % p ≡ slice_index sums.old j % p }
    ensures within { AreWithin result sums.new }
    ensures room { result + step < 2 ^ 16 }
    ensures sums { length sums.new ≡ length sums.old }
{
    if most + step < 1 << 16 {
        return most;
    }
    reduce(p, sums);
    u32::from(p - 1)
}

/// Whether all sums are multiples of the prime.
#[inline(never)]
pub(crate) fn are_multiples(p: u8, sums: &[u16]) -> bool
    requires { 1 ≤ p }
    ensures { IsTrue result → (j : ℕ) → j < length sums.now → slice_index sums.now j % p ≡ 0 }
{
    let reciprocal = (1 << 16) / u32::from(p);
    let mut greatest = 0;
    for sum in sums {
        greatest = remainder(p, reciprocal, *sum).max(greatest);
    }
    greatest == 0
}
