//! Canonical decimal numbers: `0`, or an optional `-`, a digit from 1 to 9 and further digits.
ghost use Rattle.std.specs.Prelude.{◌≡◌, ◌≤◌, ◌^◌, ◌++◌, ◌∷◌, MatchOption, Some, OnOk, OnErr, true, pos, negsuc, ◌-◌, ◌<◌};
ghost use Rattle.std.specs.Fmt.{decimal, signed_decimal};
ghost use Rattle.std.specs.List.{list_all};
ghost use Rattle.std.specs.Char.{is_ascii_digit};
ghost use Rattle.std.specs.Str.Parse.{digits_value};
ghost use Rattle.bmp_text.specs.Numerals.{is_positive_numeral, numeral_value, signed_value, Spells};

use crate::NumberFault;
use itoa::Buffer;
use std::alloc::AllocError;

// Whether all bytes are digits.
fn all_digits(bytes: &[u8]) -> bool
    ensures { result ≡ list_all is_ascii_digit bytes.now }
{
    bytes.iter().all(|b| b.is_ascii_digit())
}

// Whether there are digits, the first of them not 0.
fn is_positive_numeral(digits: &[u8]) -> bool
    ensures { result ≡ is_positive_numeral digits.now }
{
    match digits {
        [first, rest @ ..] => *first >= b'1' && *first <= b'9' && all_digits(rest),
        [] => false,
    }
}

// The value of digits, where it fits.
fn digits_value(digits: &[u8]) -> Option<u64>
    requires { list_all is_ascii_digit digits.now ≡ true }
    ensures { MatchOption result
        (2 ^ 64 ≤ digits_value 10 digits.now)
        (λ n. n ≡ digits_value 10 digits.now) }
{
    let mut n: u64 = 0;
    for digit in digits {
        n = n.checked_mul(10)?.checked_add(u64::from(*digit - b'0'))?;
    }
    Some(n)
}

// The number n, where it fits.
fn positive(n: u64) -> Result<i64, NumberFault>
    ensures { Spells result (Some (pos n)) }
{
    if n > i64::MAX as u64 {
        return Err(NumberFault::TooBig);
    }
    Ok(n as i64)
}

// The number -n, where it fits.
fn negative(n: u64) -> Result<i64, NumberFault>
    requires { 0 < n }
    ensures { Spells result (Some (negsuc (n - 1))) }
{
    if n > 1 << 63 {
        return Err(NumberFault::TooBig);
    }
    Ok(-1 - ((n - 1) as i64))
}

// The number of a sign and digits.
fn signed_value(minus: bool, digits: &[u8]) -> Result<i64, NumberFault>
    ensures { Spells result (signed_value minus digits.now) }
{
    if !is_positive_numeral(digits) {
        return Err(NumberFault::NotANumber);
    }
    let Some(n) = digits_value(digits) else {
        return Err(NumberFault::TooBig);
    };
    if minus { negative(n) } else { positive(n) }
}

/// Reads a canonical decimal number. `NotANumber` comes exactly where the word has no such form,
/// and `TooBig` exactly where the number doesn't fit an `i64`.
#[tactic(auto, unfolding(crate::specs::Numerals::numeral_value))]
pub fn read_int(word: &[u8]) -> Result<i64, NumberFault>
    ensures { Spells result (numeral_value word.now) }
{
    match word {
        [] => Err(NumberFault::NotANumber),
        [b'0'] => Ok(0),
        [b'0', ..] => Err(NumberFault::NotANumber),
        [b'-', digits @ ..] => signed_value(true, digits),
        _ => signed_value(false, word),
    }
}

/// Appends the canonical form of a number. Where memory is wanting, nothing is appended.
pub fn push_int(out: &mut Vec<u8>, n: i128) -> Result<(), AllocError>
    ensures ok { OnOk result (out.new.items ≡ out.old.items ++ signed_decimal n) }
    ensures err { OnErr result (out.new.items ≡ out.old.items) }
{
    let mut buffer = Buffer::new();
    out.extend_from_slice(buffer.format(n).as_bytes())
}

/// Appends a space and a number. Where memory is wanting, nothing is appended.
pub fn push_number(out: &mut Vec<u8>, n: u64) -> Result<(), AllocError>
    ensures ok { OnOk result (out.new.items ≡ out.old.items ++ (32 ∷ decimal n)) }
    ensures err { OnErr result (out.new.items ≡ out.old.items) }
{
    let before = out.len();
    out.push(b' ')?;
    match push_int(out, i128::from(n)) {
        Ok(()) => Ok(()),
        Err(error) => {
            out.truncate(before);
            Err(error)
        }
    }
}
