//! Multiples of runs of numbers modulo a prime, added place by place.
//!
//! Each loop is free of divisions and of tests that leave it, so that it runs on many numbers at once.
//! None is inlined: in a loop over rows the compiler would ask once whether all of the rows that are
//! read are apart from the one that is written, which they never are.
ghost use Rattle.std.specs.Prelude.{◌≡◌, ℕ, ◌+◌, ◌-◌, ◌*◌, ◌%◌, ◌<◌, ◌≤◌, length};
ghost use Rattle.bmp_field.specs.Runs.{AreBelow, IsMultipleAdded};
ghost use Rattle.bmp_field.specs.Tables.{IsReciprocal};

/// A sum of two numbers below `p`, less `p` where it isn't below it.
pub(crate) fn reduced(p: u8, sum: u8) -> u8
    requires { sum < 2 * p }
    ensures { result ≡ sum % p }
{
    if sum < p { sum } else { sum - p }
}

/// The remainder of `sum` by `p`. A reciprocal of 16 bits gives the quotient or one less.
fn remainder(p: u8, reciprocal: u32, sum: u16) -> u8
    requires least { 2 ≤ p }
    requires greatest { p ≤ 61 }
    requires reciprocal { IsReciprocal p reciprocal }
    requires sum { sum ≤ 3660 }
    ensures { result ≡ sum % p }
{
    let short = (reciprocal / 4) as u16;
    let quotient = (u32::from(sum) * u32::from(short) / (1 << 16)) as u16;
    reduced(p, (sum - quotient * u16::from(p)) as u8)
}

/// Adds the numbers `from`.
#[inline(never)]
pub(crate) fn add_once(p: u8, from: &[u8], into: &mut [u8])
    requires greatest { p ≤ 61 }
    requires as_many { length from.now ≡ length into.old }
    requires numbers { AreBelow p from.now }
    requires sums { AreBelow p into.old }
    ensures { IsMultipleAdded p 1 from.now into.old into.new }
{
    for (j, number) in into.iter_mut().enumerate() {
        *number = reduced(p, *number + from[j]);
    }
}

/// Subtracts the numbers `from`.
#[inline(never)]
pub(crate) fn subtract_once(p: u8, from: &[u8], into: &mut [u8])
    requires greatest { p ≤ 61 }
    requires as_many { length from.now ≡ length into.old }
    requires numbers { AreBelow p from.now }
    requires sums { AreBelow p into.old }
    ensures { IsMultipleAdded p (p - 1) from.now into.old into.new }
{
    for (j, number) in into.iter_mut().enumerate() {
        *number = reduced(p, *number + (p - from[j]));
    }
}

/// Adds `c` times the numbers `from`.
#[inline(never)]
pub(crate) fn add_products(p: u8, reciprocal: u32, c: u8, from: &[u8], into: &mut [u8])
    requires least { 2 ≤ p }
    requires greatest { p ≤ 61 }
    requires reciprocal { IsReciprocal p reciprocal }
    requires factor { c < p }
    requires as_many { length from.now ≡ length into.old }
    requires numbers { AreBelow p from.now }
    requires sums { AreBelow p into.old }
    ensures { IsMultipleAdded p c from.now into.old into.new }
{
    for (j, number) in into.iter_mut().enumerate() {
        let sum = u16::from(*number) + u16::from(c) * u16::from(from[j]);
        *number = remainder(p, reciprocal, sum);
    }
}
