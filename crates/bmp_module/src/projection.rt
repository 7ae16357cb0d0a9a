//! The map from a free module to a quotient of it.
ghost use Rattle.std.specs.Prelude.{◌≡◌, ℕ, ◌<◌, ◌≤◌, ◌-◌, ◌%◌, IfOk, List, slice_index};
ghost use Rattle.bmp_poly.specs.Coefficients.{coefficient};
ghost use Rattle.bmp_graded.specs.Graded.{Graded, IsModuleMap};
ghost use Rattle.bmp_graded.specs.Maps.{projection};

use crate::coordinates::Coordinates;
use crate::free::Free;
use crate::graded::GradedModule;
use crate::map::ModuleMap;
use crate::quotient::Quotient;
use crate::{blocks, normal};
use bmp_field::Field;
use std::alloc::{AllocError, Global};

/// The map from the free module of a quotient to the quotient, which sends an element to itself modulo the label.
#[derive(Clone, Copy, Debug)]
pub struct Projection<'a> {
    quotient: &'a Quotient,
}

impl<'a> Projection<'a> {
    ghost use Rattle.bmp_module.specs.Projections.{quotient_of};
    ghost use Rattle.std.specs.Prelude.{◌↔◌, IsTrue};
    ghost use Rattle.bmp_poly.specs.Labels.{prime_of, rank_of, coordinate_of};
    ghost use Rattle.bmp_graded.specs.Modules.{free};
    ghost use Rattle.bmp_graded.specs.Components.{IsSameModulo};
    ghost use Rattle.bmp_module.specs.Elements.{IsElement};
    ghost use Rattle.bmp_module.specs.FreeModules.{rank_of as free_rank_of, degrees_of};
    ghost use Rattle.bmp_module.specs.QuotientModules.{free_of, label_of};

    /// The map to the quotient.
    pub fn new(quotient: &'a Quotient) -> Projection<'a>
        ensures { quotient_of result ≡ quotient.now }
    {
        Projection { quotient }
    }

    /// Whether two elements of the free module, of one degree, are equal in the quotient: the label divides each
    /// component of their difference.
    pub fn same<F: Field>(
        &self,
        alloc: Global,
        f: &F,
        a: &Coordinates<F>,
        b: &Coordinates<F>,
    ) -> Result<bool, AllocError>
        requires prime { F.size f.now ≡ prime_of (label_of (quotient_of self.now)) }
        requires first { let s = free_of (quotient_of self.now) in
            IsElement (F.is_value f.now) (free (free_rank_of s) (degrees_of s)) a.now.degree a.now.numbers.items }
        requires second { let s = free_of (quotient_of self.now) in
            IsElement (F.is_value f.now) (free (free_rank_of s) (degrees_of s)) b.now.degree b.now.numbers.items }
        requires degree { a.now.degree ≡ b.now.degree }
        ensures { let x = label_of (quotient_of self.now) in IfOk result (λ same. IsTrue same ↔
            IsSameModulo (prime_of x) (rank_of x) (coordinate_of x) (degrees_of (free_of (quotient_of self.now)))
            a.now.degree
            (coefficient (F.num f.now) a.now.numbers.items) (coefficient (F.num f.now) b.now.numbers.items)) }
    {
        let first = self.apply(alloc, f, a)?;
        let second = self.apply(alloc, f, b)?;
        let same = self.quotient.same(f, &first, &second);
        Ok(same)
    }
}

impl<'a, F: Field> ModuleMap<F, Free, Quotient> for Projection<'a> {
    ghost use Rattle.bmp_graded.proofs.ProjectionMaps.{projection_over};
    ghost use Rattle.bmp_field.specs.FieldLaws.{FieldLaws};

    ghost from = { λ s. s.quotient.now.free };

    ghost into = { λ s. s.quotient.now };

    ghost map = { λ s f. projection s.quotient.now.label.prime (s.quotient.now.label.rank - 1)
        s.quotient.now.label.leading
        (slice_index s.quotient.now.label.coords) s.quotient.now.free.degrees.items };

    ghost is_map = { λ s f. F.size f ≡ s.quotient.now.label.prime };

    fn apply(
        &self,
        alloc: Global,
        f: &F,
        e: &Coordinates<F>,
    ) -> Result<Coordinates<F>, AllocError> {
        let free = &self.quotient.free;
        let mut numbers = Vec::new(alloc);
        let mut component = Vec::new(alloc);
        let mut start = 0;
        for g in &free.degrees {
            let end = start + blocks::block_length(free.rank, *g, e.degree) as usize;
            let block = &e.numbers[start..end];
            normal::push_component(
                f,
                &self.quotient.label,
                *g,
                e.degree,
                block,
                &mut component,
                &mut numbers,
            )?;
            start = end;
        }
        Ok(Coordinates {
            degree: e.degree,
            numbers,
        })
    }

    ghost laws = { λ s f fits. projection_over (F.size f) s.quotient.now.label.prime s.quotient.now.free.rank
        s.quotient.now.label.rank s.quotient.now.label.leading s.quotient.now.label.coords
        s.quotient.now.free.degrees.items fits s.quotient.now.agree (F.laws.at_least_two f) (F.laws.inverse f)
        s.quotient.now.label.leads };
}
