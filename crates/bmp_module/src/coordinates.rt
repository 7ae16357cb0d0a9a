//! Elements that are one flat list of coordinates.
ghost use Rattle.std.specs.Prelude.{◌≡◌, ◌↔◌, ℕ, ◌<◌, IfOk, IsTrue, All, length};
ghost use Rattle.bmp_math.specs.Vectors.{unit};
ghost use Rattle.bmp_poly.specs.Coefficients.{coefficient};

use crate::normal;
use bmp_field::Field;
use std::alloc::{AllocError, Global};

/// `len` values, 1 at `place` and 0 elsewhere.
pub(crate) fn unit<F: Field>(
    alloc: Global,
    f: &F,
    len: u64,
    place: u64,
) -> Result<Vec<F::E>, AllocError>
    requires { place < len }
    ensures sized { IfOk result (λ xs. length xs.items ≡ len) }
    ensures values { IfOk result (λ xs. All (F.is_value f.now) xs.items) }
    ensures unit { IfOk result (λ xs. (i : ℕ) → coefficient (F.num f.now) xs.items i ≡ unit place i) }
{
    let mut values = Vec::new(alloc);
    for i in 0..len {
        let value = if i == place { f.one() } else { f.zero() };
        values.push(value)?;
    }
    Ok(values)
}

/// An element of a degree, by its coordinates in their order.
#[derive(Drop)]
pub struct Coordinates<F: Field> {
    pub(crate) degree: u32,
    pub(crate) numbers: Vec<F::E>,
}

impl<F: Field> Coordinates<F> {
    /// `len` coordinates 0.
    pub(crate) fn zero(
        alloc: Global,
        f: &F,
        degree: u32,
        len: u64,
    ) -> Result<Coordinates<F>, AllocError>
        ensures degree { IfOk result (λ e. e.degree ≡ degree) }
        ensures sized { IfOk result (λ e. length e.numbers.items ≡ len) }
        ensures values { IfOk result (λ e. All (F.is_value f.now) e.numbers.items) }
        ensures zero { IfOk result (λ e. (i : ℕ) → coefficient (F.num f.now) e.numbers.items i ≡ 0) }
    {
        let mut numbers = Vec::new(alloc);
        normal::push_zeros(f, len, &mut numbers)?;
        Ok(Coordinates { degree, numbers })
    }

    /// The coordinate at `i`.
    pub(crate) fn coordinate(&self, f: &F, i: u64) -> F::E
        requires values { All (F.is_value f.now) self.now.numbers.items }
        requires place { i < length self.now.numbers.items }
        ensures value { F.is_value f.now result }
        ensures number { F.num f.now result ≡ coefficient (F.num f.now) self.now.numbers.items i }
    {
        self.numbers[i as usize]
    }

    /// Whether all coordinates agree.
    pub(crate) fn same(&self, f: &F, other: &Coordinates<F>) -> bool
        requires sized { length self.now.numbers.items ≡ length other.now.numbers.items }
        requires values { All (F.is_value f.now) self.now.numbers.items }
        requires other { All (F.is_value f.now) other.now.numbers.items }
        ensures { IsTrue result ↔ ((i : ℕ) → i < length self.now.numbers.items →
            coefficient (F.num f.now) self.now.numbers.items i ≡
            coefficient (F.num f.now) other.now.numbers.items i) }
    {
        for i in 0..self.numbers.len() {
            if f.num(self.numbers[i]) != f.num(other.numbers[i]) {
                return false;
            }
        }
        true
    }
}
