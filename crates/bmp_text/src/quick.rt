//! A number read in one pass over its digits, with no copy of the word and no second look at it.
ghost use Rattle.std.specs.Prelude.{◌≡◌, option_map, ◌^◌, ◌<◌, ◌∷◌, ◌++◌, IfSome};
ghost use Rattle.std.specs.Fmt.{decimal};
ghost use Rattle.bmp_text.specs.Words.{words, words_of};

/// The number that stands first, and what is left behind its digits. `None` says only that none stands there
/// in its one form; a number near 2^63 may be cut off.
pub(crate) fn quick_digits(bytes: &[u8]) -> Option<(u64, &[u8])>
    ensures digits { IfSome result (λ x. bytes.now ≡ decimal x.0 ++ x.1.now) }
    ensures small { IfSome result (λ x. x.0 < 2 ^ 63) }
{
    let mut n: u64 = 0;
    let mut size = 0;
    'digits: while size < bytes.len()
        && bytes[size].is_ascii_digit()
        && n < 922_337_203_685_477_580
    {
        n = n * 10 + u64::from(bytes[size] - b'0');
        size += 1;
    }
    if size == 0 || (size > 1 && bytes[0] == b'0') {
        return None;
    }
    let (_, rest) = bytes.split_at(size);
    Some((n, rest))
}

/// The first word's number, and what is left behind it. `None` says only that the word isn't simple: a fault
/// of the word and a number near 2^63 are left to the exact reader.
pub(crate) fn quick_natural(bytes: &[u8]) -> Option<(u64, Option<&[u8]>)>
    ensures word { IfSome result (λ x. words bytes.now ≡ decimal x.0 ∷ words_of (option_map (λ s. s.now) x.1)) }
    ensures small { IfSome result (λ x. x.0 < 2 ^ 63) }
{
    let (n, behind) = quick_digits(bytes)?;
    match behind {
        [] => Some((n, None)),
        [b' ', rest @ ..] => Some((n, Some(rest))),
        _ => None,
    }
}
