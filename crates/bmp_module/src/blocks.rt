//! The coordinates of one generator: a block of coefficients.
ghost use Rattle.std.specs.Prelude.{◌≡◌, ℕ, ◌<◌, ◌≤◌, ◌+◌, ◌-◌, All, OnOk, IfOk, MatchOption, false, true, length, sum};
ghost use Rattle.bmp_poly.specs.Exponents.{IsMonomial, count, place, exponents};
ghost use Rattle.bmp_poly.specs.Coefficients.{coefficient};
ghost use Rattle.bmp_poly.specs.Shifts.{contains, less, shift};
ghost use Rattle.bmp_graded.specs.Modules.{moved, polynomials};
ghost use Rattle.bmp_module.specs.Appended.{IsAppended};

use bmp_field::Field;
use bmp_poly::monomials;
use std::alloc::{AllocError, Global};

/// How many monomials of the degree there are in `rank` variables. In none there is 1 alone.
pub(crate) fn count(rank: u8, degree: u32) -> u32
    requires rank { rank ≤ 6 }
    requires degree { degree ≤ 6 }
    ensures number { result ≡ count rank degree }
    ensures most { result ≤ 462 }
{
    if rank > 0 {
        monomials::count(rank, degree)
    } else if degree == 0 {
        1
    } else {
        0
    }
}

/// How many coordinates of degree `degree` a generator of degree `generator` has.
pub(crate) fn block_length(rank: u8, generator: u32, degree: u32) -> u32
    requires rank { rank ≤ 6 }
    requires degree { degree ≤ 6 }
    ensures { result ≡ (moved generator (polynomials rank)).dim degree }
{
    if generator <= degree {
        count(rank, degree - generator)
    } else {
        0
    }
}

/// The degree of a monomial.
pub(crate) fn degree_of(m: &[u8; 6]) -> u32
    requires { sum m.now ≤ 6 }
    ensures { result ≡ sum m.now }
{
    let mut degree = 0;
    for exponent in m {
        degree += u32::from(*exponent);
    }
    degree
}

/// The monomial `e` divided by `m`, if `m` divides it.
pub(crate) fn divided(e: &[u8; 6], m: &[u8; 6]) -> Option<[u8; 6]>
    ensures { MatchOption result (contains e.now m.now ≡ false)
        (λ rest. (contains e.now m.now ≡ true) × (rest ≡ less e.now m.now)) }
{
    let mut rest = *e;
    for k in 0..6 {
        if rest[k] < m[k] {
            return None;
        }
        rest[k] -= m[k];
    }
    Some(rest)
}

/// The coefficient at place `i` in degree `degree` of `m` times the polynomial with the coefficients `block`.
pub(crate) fn multiple_at<F: Field>(
    f: &F,
    rank: u8,
    degree: u32,
    i: u32,
    m: &[u8; 6],
    block: &[F::E],
) -> F::E
    requires rank { rank ≤ 6 }
    requires degree { degree ≤ 6 }
    requires place { i < count rank degree }
    requires monomial { IsMonomial 6 rank (sum m.now) m.now }
    requires sized { (d : ℕ) → d + sum m.now ≡ degree → length block.now ≡ count rank d }
    requires values { All (F.is_value f.now) block.now }
    ensures value { F.is_value f.now result }
    ensures number { F.num f.now result ≡
        shift m.now (λ e. coefficient (F.num f.now) block.now (place rank e)) (exponents 6 rank degree i) }
{
    let e = monomials::monomial_at(rank, degree, i);
    match divided(&e, m) {
        Some(rest) => block[monomials::place_of(rank, degree - degree_of(m), &rest) as usize],
        None => f.zero(),
    }
}

/// Appends the coordinates of `m` times an element whose coordinates at one generator are `block`.
pub(crate) fn push_multiple<F: Field>(
    f: &F,
    rank: u8,
    generator: u32,
    degree: u32,
    m: &[u8; 6],
    block: &[F::E],
    numbers: &mut Vec<F::E>,
) -> Result<(), AllocError>
    requires rank { rank ≤ 6 }
    requires degree { degree + sum m.now ≤ 6 }
    requires monomial { IsMonomial 6 rank (sum m.now) m.now }
    requires sized { length block.now ≡ (moved generator (polynomials rank)).dim degree }
    requires values { All (F.is_value f.now) block.now }
    requires numbers { All (F.is_value f.now) numbers.old.items }
    ensures { let M = moved generator (polynomials rank) in
        OnOk result (IsAppended (F.is_value f.now) (F.num f.now) numbers.old.items numbers.new.items
        (M.dim (degree + sum m.now))
        (M.act m.now degree (degree + sum m.now) (coefficient (F.num f.now) block.now))) }
{
    let raised = degree + degree_of(m);
    if generator > raised {
        return Ok(());
    }
    let rest = raised - generator;
    for i in 0..count(rank, rest) {
        numbers.push(multiple_at(f, rank, rest, i, m, block))?;
    }
    Ok(())
}
