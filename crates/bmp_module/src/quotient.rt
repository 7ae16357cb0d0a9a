//! Free modules modulo a label.
ghost use Rattle.std.specs.Prelude.{◌≡◌, ◌↔◌, ℕ, ◌<◌, ◌≤◌, ◌^◌, ◌+◌, ◌-◌, ◌*◌, ◌%◌, IfOk, IsTrue, List, length, sum, slice_index};
ghost use Rattle.bmp_poly.specs.Exponents.{IsMonomial};
ghost use Rattle.bmp_poly.specs.Coefficients.{coefficient};
ghost use Rattle.bmp_graded.specs.Graded.{Graded, IsModule};
ghost use Rattle.bmp_graded.specs.Quotients.{quotient};
ghost use Rattle.bmp_module.specs.Elements.{IsElement};

use crate::coordinates::Coordinates;
use crate::free::{self, Free};
use crate::graded::GradedModule;
use crate::normal_table::NormalTable;
use crate::{blocks, tabled};
use bmp_field::Field;
use bmp_poly::{Label, sums};
use std::alloc::{AllocError, Global};

/// A free module modulo the label times itself.
///
/// The coordinates of degree `d` are, for each generator in order whose degree `e` is at most `d`, the coefficients
/// of those monomials of degree `d - e` that do not hold the label's leading variable, in order, of the normal form.
/// An element is kept as these, so two elements are the same exactly where they are equal. A monomial acts by a table
/// of normal forms that is made for the call; where many act, [`TabledQuotient`](crate::TabledQuotient) keeps one.
#[derive(Debug, Drop)]
pub struct Quotient {
    pub(crate) free: Free,
    pub(crate) label: Label,
    ghost agree: { free.rank ≡ label.rank },
}

impl Quotient {
    ghost use Rattle.bmp_poly.specs.Labels.{rank_of};
    ghost use Rattle.bmp_module.specs.FreeModules.{rank_of as free_rank_of, degrees_of};
    ghost use Rattle.bmp_module.specs.QuotientModules.{free_of, label_of};

    /// The free module modulo the label.
    pub fn new(alloc: Global, free: &Free, label: &Label) -> Result<Quotient, AllocError>
        requires { free_rank_of free.now ≡ rank_of label.now }
        ensures rank { IfOk result (λ s. free_rank_of (free_of s) ≡ free_rank_of free.now) }
        ensures degrees { IfOk result (λ s. degrees_of (free_of s) ≡ degrees_of free.now) }
        ensures label { IfOk result (λ s. label_of s ≡ label.now) }
    {
        let free = Free::new(alloc, free.rank, &free.degrees)?;
        Ok(Quotient {
            free,
            label: *label,
        })
    }

    /// The free module that this is a quotient of.
    pub fn free(&self) -> &Free
        ensures { result.now ≡ free_of self.now }
    {
        &self.free
    }

    /// The label.
    pub fn label(&self) -> &Label
        ensures { result.now ≡ label_of self.now }
    {
        &self.label
    }
}

impl<F: Field> GradedModule<F> for Quotient {
    type Elem = Coordinates<F>;

    ghost use Rattle.bmp_graded.proofs.CoordinateLemmas.{coefficient_small};
    ghost use Rattle.bmp_graded.proofs.PassLaws.{quotient_over};
    ghost use Rattle.bmp_field.specs.FieldLaws.{FieldLaws};

    ghost graded = { λ s. quotient s.label.prime (s.label.rank - 1) s.label.leading (slice_index s.label.coords)
        s.free.degrees.items };

    ghost rank = { λ s. s.label.rank };

    ghost fits = { λ s p. p ≡ s.label.prime };

    ghost is_element = { λ s f e. IsElement (F.is_value f)
        (quotient s.label.prime (s.label.rank - 1) s.label.leading (slice_index s.label.coords) s.free.degrees.items)
        e.degree e.numbers.items };

    ghost degree = { λ s e. e.degree };

    ghost coordinate = { λ s f e. coefficient (F.num f) e.numbers.items };

    fn dim(&self, d: u32) -> u64 {
        free::dimension(self.free.rank - 1, &self.free.degrees, d)
    }

    fn degree(&self, e: &Coordinates<F>) -> u32 {
        e.degree
    }

    fn zero(&self, alloc: Global, f: &F, d: u32) -> Result<Coordinates<F>, AllocError> {
        let dim = <Quotient as GradedModule<F>>::dim(self, d);
        let zero = Coordinates::zero(alloc, f, d, dim)?;
        Ok(zero)
    }

    fn add_in(&self, f: &F, into: &mut Coordinates<F>, other: &Coordinates<F>) {
        sums::add_coefficients(f, &mut into.numbers, &other.numbers);
    }

    fn scale_in(&self, f: &F, into: &mut Coordinates<F>, c: F::E) {
        sums::scale_coefficients(f, &mut into.numbers, c);
    }

    fn act(
        &self,
        alloc: Global,
        f: &F,
        m: [u8; 6],
        e: &Coordinates<F>,
    ) -> Result<Coordinates<F>, AllocError> {
        let raised = e.degree + blocks::degree_of(&m);
        let table = NormalTable::new(alloc, f, &self.label, raised)?;
        let multiple = tabled::act_by_table(alloc, f, &table, self, m, e)?;
        Ok(multiple)
    }

    fn coordinate(&self, f: &F, e: &Coordinates<F>, i: u64) -> F::E {
        e.coordinate(f, i)
    }

    fn same(&self, f: &F, a: &Coordinates<F>, b: &Coordinates<F>) -> bool {
        a.same(f, b)
    }

    ghost small = { λ s f e is. is.small };

    ghost numbers = { λ s f e is i below. coefficient_small (F.is_value f) (F.num f) (F.size f) e.numbers.items i
        (F.laws.below_size f) is.values (rw is.sized below) };

    ghost laws = { λ s f fits. quotient_over (F.size f) s.label.prime s.label.rank s.label.leading s.label.coords
        s.free.degrees.items fits (F.laws.at_least_two f) (F.laws.inverse f) s.label.leads };
}
