//! The monomials of a degree in at most 6 variables, and their places in the listing.
//!
//! The listing goes by the exponents from the first variable on, the larger first. A place is found
//! by sums of counts, which a constant table holds, and not by a search.
ghost use Rattle.std.specs.Prelude.{◌≡◌, ℕ, ◌+◌, ◌-◌, ◌*◌, ◌<◌, ◌≤◌, ◌↔◌, IsTrue, IsNone, IfSome, IfOk, sum};
ghost use Rattle.bmp_math.specs.Sums.{sum_below};
ghost use Rattle.bmp_poly.specs.Exponents.{IsMonomial, count, place, level, exponents};
ghost use Rattle.bmp_poly.specs.Shifts.{joined};
ghost use Rattle.bmp_poly.specs.Listings.{IsListing};

use std::alloc::{AllocError, Global};

/// How many monomials of a degree below `s` there are in `n` variables, at `8 * n + s`.
static BEFORE: [u32; 48] = [
    0, 1, 1, 1, 1, 1, 1, 1, 0, 1, 2, 3, 4, 5, 6, 7, 0, 1, 3, 6, 10, 15, 21, 28, 0, 1, 4, 10, 20,
    35, 56, 84, 0, 1, 5, 15, 35, 70, 126, 210, 0, 1, 6, 21, 56, 126, 252, 462,
];

/// How many monomials of a degree below `s` there are in `n` variables.
fn before(n: u8, s: u32) -> u32
    requires variables { n < 6 }
    requires degree { s < 8 }
    ensures { result ≡ sum_below (count n) s }
{
    BEFORE[n as usize * 8 + s as usize]
}

/// How many monomials of the degree there are in `rank` variables.
pub fn count(rank: u8, degree: u32) -> u32
    requires some { 0 < rank }
    requires rank { rank ≤ 6 }
    requires degree { degree ≤ 6 }
    ensures number { result ≡ count rank degree }
    ensures most { result ≤ 462 }
{
    before(rank - 1, degree + 1)
}

/// The place of a monomial of the degree in the listing.
pub fn place_of(rank: u8, degree: u32, m: &[u8; 6]) -> u32
    requires rank { rank ≤ 6 }
    requires degree { degree ≤ 6 }
    requires monomial { IsMonomial 6 rank degree m.now }
    ensures place { result ≡ place rank m.now }
    ensures below { result < count rank degree }
{
    let mut before_it = 0;
    let mut rest = degree;
    for k in 0..rank {
        rest -= u32::from(m[k as usize]);
        before_it += before(rank - 1 - k, rest);
    }
    before_it
}

/// The greatest degree `j` up to `d` with at most `i` monomials of lower degree in `n` variables.
fn level(n: u8, d: u32, i: u32) -> u32
    requires variables { n < 6 }
    requires degree { d ≤ 6 }
    ensures { result ≡ level (count n) i d }
{
    let mut j = d;
    while j > 0 && before(n, j) > i {
        j -= 1;
    }
    j
}

/// The exponents of the monomial at a place of the listing.
pub fn monomial_at(rank: u8, degree: u32, i: u32) -> [u8; 6]
    requires rank { rank ≤ 6 }
    requires degree { degree ≤ 6 }
    requires place { i < count rank degree }
    ensures exponents { result ≡ exponents 6 rank degree i }
    ensures monomial { IsMonomial 6 rank degree result }
    ensures place { place rank result ≡ i }
{
    let mut m = [0; 6];
    let mut rest = degree;
    let mut later = i;
    for k in 0..rank {
        let next = level(rank - 1 - k, rest, later);
        m[k as usize] = (rest - next) as u8;
        later -= before(rank - 1 - k, next);
        rest = next;
    }
    m
}

/// Whether the exponents sum to the degree, those past the rank being 0.
pub fn is_monomial(rank: u8, degree: u32, m: &[u8; 6]) -> bool
    ensures { IsTrue result ↔ IsMonomial 6 rank degree m.now }
{
    let mut size = 0;
    for k in 0..6 {
        let exponent = m[k as usize];
        if k >= rank && exponent > 0 {
            return false;
        }
        size += u32::from(exponent);
    }
    size == degree
}

/// The product of two monomials of at most degree 6 together.
pub fn joined(m: &[u8; 6], n: &[u8; 6]) -> [u8; 6]
    requires { sum m.now + sum n.now ≤ 6 }
    ensures { result ≡ joined m.now n.now }
{
    let mut product = *m;
    for k in 0..6 {
        product[k] += n[k];
    }
    product
}

/// All monomials of a degree, in the order of the listing.
#[derive(Debug, Drop)]
pub struct Monomials {
    rank: u8,
    degree: u32,
    listing: Vec<[u8; 6]>,
    pub ghost listed: { IsListing rank degree listing.items },
}

impl Monomials {
    ghost use Rattle.bmp_poly.specs.Monomials.{rank_of, degree_of};

    /// Lists the monomials of the degree, from 0 to 6, in `rank` variables.
    pub fn new(alloc: Global, rank: u8, degree: u32) -> Result<Monomials, AllocError>
        requires some { 0 < rank }
        requires rank { rank ≤ 6 }
        requires degree { degree ≤ 6 }
        ensures rank { IfOk result (λ ms. rank_of ms ≡ rank) }
        ensures degree { IfOk result (λ ms. degree_of ms ≡ degree) }
    {
        let members = count(rank, degree);
        let mut listing = Vec::with_capacity(alloc, members as usize)?;
        for i in 0..members {
            listing.push(monomial_at(rank, degree, i))?;
        }
        Ok(Monomials {
            rank,
            degree,
            listing,
        })
    }

    /// The number of variables.
    pub fn rank(&self) -> u8
        ensures rank { result ≡ rank_of self.now }
        ensures range { (0 < rank_of self.now) × (rank_of self.now ≤ 6) }
    {
        self.rank
    }

    /// The degree of each monomial.
    pub fn degree(&self) -> u32
        ensures degree { result ≡ degree_of self.now }
        ensures range { degree_of self.now ≤ 6 }
    {
        self.degree
    }

    /// How many monomials there are.
    pub fn count(&self) -> u32
        ensures { result ≡ count (rank_of self.now) (degree_of self.now) }
    {
        count(self.rank, self.degree)
    }

    /// The exponents of the monomial at place `i`. Those past the rank are 0.
    pub fn at(&self, i: u32) -> [u8; 6]
        requires { i < count (rank_of self.now) (degree_of self.now) }
        ensures monomial { IsMonomial 6 (rank_of self.now) (degree_of self.now) result }
        ensures place { place (rank_of self.now) result ≡ i }
    {
        self.listing[i as usize]
    }

    /// The place of a monomial. There is none where the exponents do not sum to the degree,
    /// or one past the rank is not 0.
    pub fn index(&self, exponents: [u8; 6]) -> Option<u32>
        ensures none { IsNone result ↔ ¬ IsMonomial 6 (rank_of self.now) (degree_of self.now) exponents }
        ensures place { IfSome result (λ i. i ≡ place (rank_of self.now) exponents) }
    {
        if is_monomial(self.rank, self.degree, &exponents) {
            Some(place_of(self.rank, self.degree, &exponents))
        } else {
            None
        }
    }
}
