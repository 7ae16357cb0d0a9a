//! Free graded modules.
ghost use Rattle.std.specs.Prelude.{◌≡◌, ◌↔◌, ℕ, ◌<◌, ◌≤◌, ◌^◌, ◌+◌, ◌*◌, ◌%◌, IfOk, IsTrue, List, length, sum, slice_index};
ghost use Rattle.bmp_poly.specs.Exponents.{IsMonomial};
ghost use Rattle.bmp_poly.specs.Coefficients.{coefficient};
ghost use Rattle.bmp_graded.specs.Graded.{Graded, IsModule};
ghost use Rattle.bmp_graded.specs.Modules.{free};
ghost use Rattle.bmp_module.specs.Elements.{IsElement};

use crate::blocks;
use crate::coordinates::{self, Coordinates};
use crate::graded::GradedModule;
use bmp_field::Field;
use bmp_poly::sums;
use std::alloc::{AllocError, Global};

/// The dimension in degree `d` of the free module in `rank` variables with generators of these degrees. It is also that
/// of the free module in one variable more modulo a label.
pub fn dimension(rank: u8, degrees: &[u32], d: u32) -> u64
    requires rank { rank ≤ 6 }
    requires degree { d ≤ 6 }
    requires few { length degrees.now < 2 ^ 32 }
    ensures { result ≡ (free rank degrees.now).dim d }
{
    let mut dim = 0;
    for g in degrees {
        dim += u64::from(blocks::block_length(rank, *g, d));
    }
    dim
}

/// A free module, with a generator of each of the degrees.
///
/// The coordinates of degree `d` are, for each generator in order whose degree `e` is at most `d`, the coefficients
/// of the monomials of degree `d - e` in order.
#[derive(Debug, Drop)]
pub struct Free {
    pub(crate) rank: u8,
    pub(crate) degrees: Vec<u32>,
    ghost some: { 0 < rank },
    ghost wide: { rank ≤ 6 },
    ghost few: { length degrees.items < 2 ^ 32 },
}

impl Free {
    ghost use Rattle.bmp_field.specs.Runs.{AreBelow};
    ghost use Rattle.bmp_module.specs.FreeModules.{rank_of, degrees_of};
    ghost use Rattle.bmp_graded.specs.Components.{IsGenerator};
    ghost use Rattle.bmp_graded.specs.Modules.{moved, polynomials};

    /// The free module in `rank` variables with a generator of each of the degrees, in their order.
    pub fn new(alloc: Global, rank: u8, degrees: &[u32]) -> Result<Free, AllocError>
        requires some { 0 < rank }
        requires rank { rank ≤ 6 }
        requires few { length degrees.now < 2 ^ 32 }
        ensures rank { IfOk result (λ s. rank_of s ≡ rank) }
        ensures degrees { IfOk result (λ s. degrees_of s ≡ degrees.now) }
    {
        let degrees = Vec::from_slice(alloc, degrees)?;
        Ok(Free { rank, degrees })
    }

    /// The number of variables.
    pub fn rank(&self) -> u8
        ensures rank { result ≡ rank_of self.now }
        ensures some { 0 < result }
        ensures wide { result ≤ 6 }
    {
        self.rank
    }

    /// The number of generators.
    pub fn generators(&self) -> u32
        ensures { result ≡ length (degrees_of self.now) }
    {
        self.degrees.len() as u32
    }

    /// The degrees of the generators, in their order.
    pub fn degrees(&self) -> &[u32]
        ensures { result.now ≡ degrees_of self.now }
    {
        &self.degrees
    }

    /// The degree of the generator `g`, counted from 0.
    pub fn degree_of(&self, g: u32) -> u32
        requires { g < length (degrees_of self.now) }
        ensures { result ≡ slice_index (degrees_of self.now) g }
    {
        self.degrees[g as usize]
    }

    /// How many coordinates of degree `d` the generator `g`, counted from 0, has: none where its degree is above `d`.
    pub fn coordinates_of(&self, g: u32, d: u32) -> u32
        requires generator { g < length (degrees_of self.now) }
        requires degree { d ≤ 6 }
        ensures { result ≡ (moved (slice_index (degrees_of self.now) g) (polynomials (rank_of self.now))).dim d }
    {
        blocks::block_length(self.rank, self.degrees[g as usize], d)
    }

    /// The element of the degree of generator `g` that is 1 at it and 0 at the others.
    pub fn generator<F: Field>(
        &self,
        alloc: Global,
        f: &F,
        g: u32,
    ) -> Result<Coordinates<F>, AllocError>
        requires generator { g < length (degrees_of self.now) }
        requires degree { slice_index (degrees_of self.now) g ≤ 6 }
        ensures degree { IfOk result (λ e. e.degree ≡ slice_index (degrees_of self.now) g) }
        ensures element { IfOk result (λ e. IsElement (F.is_value f.now) (free (rank_of self.now) (degrees_of self.now))
            e.degree e.numbers.items) }
        ensures generator { IfOk result (λ e. IsGenerator (rank_of self.now) (degrees_of self.now) g
            (coefficient (F.num f.now) e.numbers.items)) }
    {
        let degree = self.degrees[g as usize];
        let dim = dimension(self.rank, &self.degrees, degree);
        let start = dimension(self.rank, &self.degrees[..g as usize], degree);
        let numbers = coordinates::unit(alloc, f, dim, start)?;
        Ok(Coordinates { degree, numbers })
    }

    /// The element of degree `d` with these numbers as its coordinates.
    pub fn element<F: Field>(
        &self,
        alloc: Global,
        f: &F,
        d: u32,
        numbers: &[u8],
    ) -> Result<Coordinates<F>, AllocError>
        requires degree { d ≤ 6 }
        requires sized { length numbers.now ≡ (free (rank_of self.now) (degrees_of self.now)).dim d }
        requires below { AreBelow (F.size f.now) numbers.now }
        ensures degree { IfOk result (λ e. e.degree ≡ d) }
        ensures element { IfOk result (λ e. IsElement (F.is_value f.now) (free (rank_of self.now) (degrees_of self.now))
            e.degree e.numbers.items) }
        ensures numbers { IfOk result (λ e. (i : ℕ) → i < length numbers.now →
            coefficient (F.num f.now) e.numbers.items i ≡ slice_index numbers.now i) }
    {
        let mut values = Vec::with_capacity(alloc, numbers.len())?;
        for number in numbers {
            values.push(f.from_num(u32::from(*number)))?;
        }
        Ok(Coordinates {
            degree: d,
            numbers: values,
        })
    }
}

impl<F: Field> GradedModule<F> for Free {
    type Elem = Coordinates<F>;

    ghost use Rattle.bmp_graded.proofs.CoordinateLemmas.{coefficient_small};
    ghost use Rattle.bmp_graded.proofs.GradedLemmas.{free_is_module};
    ghost use Rattle.bmp_field.specs.FieldLaws.{FieldLaws};

    ghost graded = { λ s. free s.rank s.degrees.items };

    ghost rank = { λ s. s.rank };

    ghost fits = { λ s p. Unit {0} };

    ghost is_element = { λ s f e. IsElement (F.is_value f) (free s.rank s.degrees.items) e.degree e.numbers.items };

    ghost degree = { λ s e. e.degree };

    ghost coordinate = { λ s f e. coefficient (F.num f) e.numbers.items };

    fn dim(&self, d: u32) -> u64 {
        dimension(self.rank, &self.degrees, d)
    }

    fn degree(&self, e: &Coordinates<F>) -> u32 {
        e.degree
    }

    fn zero(&self, alloc: Global, f: &F, d: u32) -> Result<Coordinates<F>, AllocError> {
        let dim = <Free as GradedModule<F>>::dim(self, d);
        let zero = Coordinates::zero(alloc, f, d, dim)?;
        Ok(zero)
    }

    fn add_in(&self, f: &F, into: &mut Coordinates<F>, other: &Coordinates<F>) {
        sums::add_coefficients(f, &mut into.numbers, &other.numbers);
    }

    fn scale_in(&self, f: &F, into: &mut Coordinates<F>, c: F::E) {
        sums::scale_coefficients(f, &mut into.numbers, c);
    }

    fn act(
        &self,
        alloc: Global,
        f: &F,
        m: [u8; 6],
        e: &Coordinates<F>,
    ) -> Result<Coordinates<F>, AllocError> {
        let mut numbers = Vec::new(alloc);
        let mut start = 0;
        for g in &self.degrees {
            let end = start + blocks::block_length(self.rank, *g, e.degree) as usize;
            let block = &e.numbers[start..end];
            blocks::push_multiple(f, self.rank, *g, e.degree, &m, block, &mut numbers)?;
            start = end;
        }
        let degree = e.degree + blocks::degree_of(&m);
        Ok(Coordinates { degree, numbers })
    }

    fn coordinate(&self, f: &F, e: &Coordinates<F>, i: u64) -> F::E {
        e.coordinate(f, i)
    }

    fn same(&self, f: &F, a: &Coordinates<F>, b: &Coordinates<F>) -> bool {
        a.same(f, b)
    }

    ghost small = { λ s f e is. is.small };

    ghost numbers = { λ s f e is i below. coefficient_small (F.is_value f) (F.num f) (F.size f) e.numbers.items i
        (F.laws.below_size f) is.values (rw is.sized below) };

    ghost laws = { λ s f fits. free_is_module (F.size f) s.rank s.degrees.items s.wide };
}
