//! Normal forms by a label, in one pass along the listing and in place.
//!
//! A term that holds the label's leading variable is replaced by the later terms that equal it modulo
//! the label. Their places follow from one another by counts, so none is searched for.
ghost use Rattle.std.specs.Prelude.{◌≡◌, ℕ, ◌+◌, ◌-◌, ◌*◌, ◌%◌, ◌<◌, ◌≤◌, ◌↔◌, List, length, All, slice_index, IsTrue, sum, drop};
ghost use Rattle.bmp_poly.specs.Exponents.{count, place, IsMonomial};
ghost use Rattle.bmp_poly.specs.Coefficients.{form};
ghost use Rattle.bmp_poly.specs.Polynomials.{form_of, IsShaped};
ghost use Rattle.bmp_poly.specs.Steps.{IsTermReplaced};
ghost use Rattle.bmp_poly.specs.Labels.{prime_of, rank_of, coordinate_of, leading_of, IsNormalFormBy, DividesForm};

use crate::label::Label;
use crate::monomials;
use crate::poly::Poly;
use bmp_field::Field;

/// The sum of the exponents of a monomial from the variable at place `k` on.
fn size_from(degree: u32, m: &[u8; 6], k: u8) -> u32
    requires place { k ≤ 6 }
    requires degree { sum m.now ≡ degree }
    ensures { result ≡ sum (drop k m.now) }
{
    let mut rest = degree;
    for j in 0..k {
        rest -= u32::from(m[j as usize]);
    }
    rest
}

impl Label {
    /// Replaces the term at place `i`, whose monomial `e` holds the leading variable.
    ///
    /// `inverse` is that of the leading coordinate.
    fn replace_term<F: Field>(
        &self,
        f: &F,
        degree: u32,
        coefficients: &mut [F::E],
        inverse: F::E,
        i: u32,
        e: &[u8; 6],
    )
        requires prime { F.size f.now ≡ prime_of self.now }
        requires degree { degree ≤ 6 }
        requires sized { length coefficients.old ≡ count (rank_of self.now) degree }
        requires values { All (F.is_value f.now) coefficients.old }
        requires inverse { F.is_value f.now inverse }
        requires inverted { (coordinate_of self.now (leading_of self.now) * F.num f.now inverse) % F.size f.now ≡ 1 }
        requires monomial { IsMonomial 6 (rank_of self.now) degree e.now }
        requires place { place (rank_of self.now) e.now ≡ i }
        requires leading { 0 < slice_index e.now (leading_of self.now) }
        ensures values { All (F.is_value f.now) coefficients.new }
        ensures replaced { IsTermReplaced (F.size f.now) 6 (rank_of self.now) degree
            (coordinate_of self.now) (leading_of self.now) e.now
            (form (F.num f.now) (rank_of self.now) coefficients.old)
            (form (F.num f.now) (rank_of self.now) coefficients.new) }
    {
        let factor = f.neg(f.mul(coefficients[i as usize], inverse));
        coefficients[i as usize] = f.zero();
        let mut later = i;
        let mut rest = size_from(degree, e, self.leading + 1);
        for k in self.leading + 1..self.rank {
            later += monomials::count(self.rank - k, rest);
            rest -= u32::from(e[k as usize]);
            let product = f.mul(factor, f.from_num(u32::from(self.coords[k as usize])));
            coefficients[later as usize] = f.add(coefficients[later as usize], product);
        }
    }
}

impl Label {
    /// Makes the coefficients of a polynomial of the degree those of its normal form.
    ///
    /// Terms that are 0 and terms without the leading variable are passed over. Takes no memory.
    pub fn reduce_coefficients<F: Field>(&self, f: &F, degree: u32, coefficients: &mut [F::E])
        requires prime { F.size f.now ≡ prime_of self.now }
        requires degree { degree ≤ 6 }
        requires sized { length coefficients.old ≡ count (rank_of self.now) degree }
        requires values { All (F.is_value f.now) coefficients.old }
        ensures values { All (F.is_value f.now) coefficients.new }
        ensures normal { IsNormalFormBy self.now degree (form (F.num f.now) (rank_of self.now) coefficients.old)
            (form (F.num f.now) (rank_of self.now) coefficients.new) }
    {
        let leading = self.leading as usize;
        let inverse = f.inv(f.from_num(u32::from(self.coords[leading])));
        for i in 0..monomials::count(self.rank, degree) {
            if f.num(coefficients[i as usize]) == 0 {
                continue;
            }
            let e = monomials::monomial_at(self.rank, degree, i);
            if e[leading] == 0 {
                continue;
            }
            self.replace_term(f, degree, coefficients, inverse, i, &e);
        }
    }

    /// Makes the polynomial its normal form: no monomial holds the leading variable, and the label
    /// divides the difference.
    pub fn reduce_in<F: Field>(&self, f: &F, a: &mut Poly<F>)
        requires prime { F.size f.now ≡ prime_of self.now }
        requires rank { a.old.rank ≡ rank_of self.now }
        requires values { All (F.is_value f.now) a.old.coefficients }
        ensures rank { a.new.rank ≡ a.old.rank }
        ensures degree { a.new.degree ≡ a.old.degree }
        ensures shape { IsShaped a.new }
        ensures values { All (F.is_value f.now) a.new.coefficients }
        ensures normal { IsNormalFormBy self.now a.old.degree
            (form_of (F.num f.now) a.old) (form_of (F.num f.now) a.new) }
    {
        self.reduce_coefficients(f, a.degree, &mut a.coefficients);
    }

    /// Whether the polynomial is the label times some polynomial. In degree 0 only zero is.
    pub fn divides<F: Field>(&self, f: &F, a: Poly<F>) -> bool
        requires prime { F.size f.now ≡ prime_of self.now }
        requires rank { a.rank ≡ rank_of self.now }
        requires values { All (F.is_value f.now) a.coefficients }
        ensures { IsTrue result ↔ DividesForm self.now a.degree (form_of (F.num f.now) a) }
    {
        let mut rest = a;
        self.reduce_in(f, &mut rest);
        rest.is_zero(f)
    }
}
