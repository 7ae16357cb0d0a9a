//! Monomials without one variable, which are the monomials in one variable fewer.
ghost use Rattle.std.specs.Prelude.{◌≡◌, ◌-◌, ◌<◌, ◌≤◌, slice_index, take};
ghost use Rattle.bmp_poly.specs.Exponents.{count, exponents};
ghost use Rattle.bmp_graded.specs.Quotients.{insert};

use bmp_poly::monomials;

/// The monomial with a further variable at `at`, of exponent 0. The last exponent, which is 0, falls off.
pub(crate) fn with_variable(m: &[u8; 6], at: u8) -> [u8; 6]
    requires variable { at < 6 }
    requires last { slice_index m.now 5 ≡ 0 }
    ensures { result ≡ insert at (take 5 m.now) }
{
    let mut wider = *m;
    wider[at as usize..].rotate_right(1);
    wider
}

/// The monomial without the variable at `at` that stands at place `i` among those of its degree.
pub(crate) fn monomial_without(rank: u8, at: u8, degree: u32, i: u32) -> [u8; 6]
    requires rank { rank ≤ 6 }
    requires variable { at < rank }
    requires degree { degree ≤ 6 }
    requires place { i < count (rank - 1) degree }
    ensures { result ≡ insert at (exponents 5 (rank - 1) degree i) }
{
    with_variable(&monomials::monomial_at(rank - 1, degree, i), at)
}
