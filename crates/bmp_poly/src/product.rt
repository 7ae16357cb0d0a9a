//! Products of polynomials: each term of one factor shifts the other.
ghost use Rattle.std.specs.Prelude.{◌≡◌, ℕ, ◌+◌, ◌*◌, ◌%◌, ◌<◌, ◌≤◌, length, All, IfOk};
ghost use Rattle.bmp_poly.specs.Exponents.{count, IsMonomial};
ghost use Rattle.bmp_poly.specs.Coefficients.{form};
ghost use Rattle.bmp_poly.specs.Steps.{IsShiftAdded};
ghost use Rattle.bmp_poly.specs.Products.{IsProduct};
ghost use Rattle.bmp_poly.specs.Polynomials.{form_of, IsShaped};
ghost use Rattle.bmp_poly.specs.Monomials.{rank_of, degree_of};

use crate::monomials::Monomials;
use crate::poly::Poly;
use crate::{monomials, poly};
use bmp_field::Field;
use std::alloc::{AllocError, Global};

/// Adds `c` times the monomial `m` times a polynomial, whose monomials are listed, to a polynomial
/// of the degree of both together.
fn add_shifted<F: Field>(
    f: &F,
    degree: u32,
    sums: &mut [F::E],
    c: F::E,
    m: &[u8; 6],
    listed: &Monomials,
    others: &[F::E],
)
    requires monomial { IsMonomial 6 (rank_of listed.now) degree m.now }
    requires degree { degree + degree_of listed.now ≤ 6 }
    requires sized { length sums.old ≡ count (rank_of listed.now) (degree + degree_of listed.now) }
    requires others_sized { length others.now ≡ count (rank_of listed.now) (degree_of listed.now) }
    requires factor { F.is_value f.now c }
    requires values { All (F.is_value f.now) sums.old }
    requires others { All (F.is_value f.now) others.now }
    ensures values { All (F.is_value f.now) sums.new }
    ensures added { IsShiftAdded (F.size f.now) 6 (rank_of listed.now) (degree + degree_of listed.now) (F.num f.now c)
        m.now (form (F.num f.now) (rank_of listed.now) others.now)
        (form (F.num f.now) (rank_of listed.now) sums.old) (form (F.num f.now) (rank_of listed.now) sums.new) }
{
    let total = degree + listed.degree();
    for j in 0..listed.count() {
        let product = monomials::joined(m, &listed.at(j));
        let place = monomials::place_of(listed.rank(), total, &product) as usize;
        sums[place] = f.add(sums[place], f.mul(c, others[j as usize]));
    }
}

impl<F: Field> Poly<F> {
    /// The product of two polynomials in the same variables, of at most degree 6 together.
    pub fn mul(&self, alloc: Global, f: &F, other: &Poly<F>) -> Result<Poly<F>, AllocError>
        requires rank { self.now.rank ≡ other.now.rank }
        requires degree { self.now.degree + other.now.degree ≤ 6 }
        requires values { All (F.is_value f.now) self.now.coefficients }
        requires others { All (F.is_value f.now) other.now.coefficients }
        ensures rank { IfOk result (λ a. a.rank ≡ self.now.rank) }
        ensures degree { IfOk result (λ a. a.degree ≡ self.now.degree + other.now.degree) }
        ensures shape { IfOk result IsShaped }
        ensures values { IfOk result (λ a. All (F.is_value f.now) a.coefficients) }
        ensures product { IfOk result (λ a. IsProduct (F.size f.now) self.now.rank self.now.degree other.now.degree
            (form_of (F.num f.now) self.now) (form_of (F.num f.now) other.now) (form_of (F.num f.now) a)) }
    {
        let degree = self.degree + other.degree;
        let listed = Monomials::new(alloc, self.rank, other.degree)?;
        let mut coefficients = poly::zeros(alloc, f, self.rank, degree)?;
        for i in 0..monomials::count(self.rank, self.degree) {
            let c = self.coefficients[i as usize];
            if f.num(c) == 0 {
                continue;
            }
            let m = monomials::monomial_at(self.rank, self.degree, i);
            add_shifted(
                f,
                self.degree,
                &mut coefficients,
                c,
                &m,
                &listed,
                &other.coefficients,
            );
        }
        Ok(Poly {
            rank: self.rank,
            degree,
            coefficients,
        })
    }
}
