//! Homogeneous polynomials in at most 6 variables over a field.
ghost use Rattle.std.specs.Prelude.{◌≡◌, ℕ, ◌+◌, ◌*◌, ◌%◌, ◌<◌, ◌≤◌, ◌↔◌, List, length, All, Some, IsTrue, IfOk, slice_get, slice_set};
ghost use Rattle.bmp_poly.specs.Exponents.{count};
ghost use Rattle.bmp_poly.specs.Coefficients.{coefficient};
ghost use Rattle.bmp_poly.specs.Polynomials.{Polynomial, form_of, HasShape, IsShaped, IsSum, IsMultiple};

use crate::{monomials, sums};
use bmp_field::Field;
use std::alloc::{AllocError, Global};
use std::marker::Model;

/// A homogeneous polynomial of a degree from 0 to 6 in 1 to 6 variables.
///
/// It has one coefficient for each monomial of its degree, in the order of the listing.
#[derive(Drop)]
pub struct Poly<F: Field> {
    pub(crate) rank: u8,
    pub(crate) degree: u32,
    pub(crate) coefficients: Vec<F::E>,
}

impl<F: Field> Model for Poly<F> {
    ghost Value = { Polynomial F.E };

    ghost view = { λ a. record { rank = a.rank; degree = a.degree; coefficients = a.coefficients.items } };

    ghost invariant = { λ a. HasShape a.rank a.degree a.coefficients.items };
}

/// As many zeros as there are monomials of the degree.
pub(crate) fn zeros<F: Field>(
    alloc: Global,
    f: &F,
    rank: u8,
    degree: u32,
) -> Result<Vec<F::E>, AllocError>
    requires some { 0 < rank }
    requires rank { rank ≤ 6 }
    requires degree { degree ≤ 6 }
    ensures sized { IfOk result (λ xs. length xs.items ≡ count rank degree) }
    ensures values { IfOk result (λ xs. All (F.is_value f.now) xs.items) }
    ensures zero { IfOk result (λ xs. All (λ c. F.num f.now c ≡ 0) xs.items) }
{
    let members = monomials::count(rank, degree);
    let mut coefficients = Vec::with_capacity(alloc, members as usize)?;
    for _ in 0..members {
        coefficients.push(f.zero())?;
    }
    Ok(coefficients)
}

impl<F: Field> Poly<F> {
    /// The zero of the degree.
    pub fn zero(alloc: Global, f: &F, rank: u8, degree: u32) -> Result<Poly<F>, AllocError>
        requires some { 0 < rank }
        requires rank { rank ≤ 6 }
        requires degree { degree ≤ 6 }
        ensures rank { IfOk result (λ a. a.rank ≡ rank) }
        ensures degree { IfOk result (λ a. a.degree ≡ degree) }
        ensures shape { IfOk result IsShaped }
        ensures values { IfOk result (λ a. All (F.is_value f.now) a.coefficients) }
        ensures zero { IfOk result (λ a. All (λ c. F.num f.now c ≡ 0) a.coefficients) }
    {
        let coefficients = zeros(alloc, f, rank, degree)?;
        Ok(Poly {
            rank,
            degree,
            coefficients,
        })
    }

    /// The number of variables.
    pub fn rank(&self) -> u8
        ensures rank { result ≡ self.now.rank }
        ensures shape { IsShaped self.now }
    {
        self.rank
    }

    /// The degree, of which the whole polynomial is.
    pub fn degree(&self) -> u32
        ensures degree { result ≡ self.now.degree }
        ensures shape { IsShaped self.now }
    {
        self.degree
    }

    /// How many coefficients there are: one for each monomial of the degree.
    pub fn terms(&self) -> u32
        ensures { result ≡ length self.now.coefficients }
    {
        monomials::count(self.rank, self.degree)
    }

    /// The coefficient of the monomial at place `i` of the listing.
    pub fn coefficient(&self, i: u32) -> F::E
        requires { i < length self.now.coefficients }
        ensures { slice_get self.now.coefficients i ≡ Some result }
    {
        self.coefficients[i as usize]
    }

    /// Replaces the coefficient of the monomial at place `i` of the listing.
    pub fn set(&mut self, i: u32, c: F::E)
        requires { i < length self.old.coefficients }
        ensures rank { self.new.rank ≡ self.old.rank }
        ensures degree { self.new.degree ≡ self.old.degree }
        ensures shape { IsShaped self.new }
        ensures coefficients { self.new.coefficients ≡ slice_set self.old.coefficients i c }
    {
        self.coefficients[i as usize] = c;
    }

    /// Whether each coefficient is zero.
    pub fn is_zero(&self, f: &F) -> bool
        requires { All (F.is_value f.now) self.now.coefficients }
        ensures { IsTrue result ↔ All (λ c. F.num f.now c ≡ 0) self.now.coefficients }
    {
        for i in 0..self.coefficients.len() {
            if f.num(self.coefficients[i]) != 0 {
                return false;
            }
        }
        true
    }

    /// Adds another polynomial of the same rank and degree.
    pub fn add_in(&mut self, f: &F, other: &Poly<F>)
        requires rank { self.old.rank ≡ other.now.rank }
        requires degree { self.old.degree ≡ other.now.degree }
        requires values { All (F.is_value f.now) self.old.coefficients }
        requires others { All (F.is_value f.now) other.now.coefficients }
        ensures rank { self.new.rank ≡ self.old.rank }
        ensures degree { self.new.degree ≡ self.old.degree }
        ensures shape { IsShaped self.new }
        ensures values { All (F.is_value f.now) self.new.coefficients }
        ensures sum { IsSum (F.size f.now) (form_of (F.num f.now) self.old) (form_of (F.num f.now) other.now)
            (form_of (F.num f.now) self.new) }
    {
        sums::add_coefficients(f, &mut self.coefficients, &other.coefficients);
    }

    /// Multiplies by a value of the field.
    pub fn scale_in(&mut self, f: &F, c: F::E)
        requires values { All (F.is_value f.now) self.old.coefficients }
        requires factor { F.is_value f.now c }
        ensures rank { self.new.rank ≡ self.old.rank }
        ensures degree { self.new.degree ≡ self.old.degree }
        ensures shape { IsShaped self.new }
        ensures values { All (F.is_value f.now) self.new.coefficients }
        ensures multiple { IsMultiple (F.size f.now) (F.num f.now c) (form_of (F.num f.now) self.old)
            (form_of (F.num f.now) self.new) }
    {
        sums::scale_coefficients(f, &mut self.coefficients, c);
    }
}
