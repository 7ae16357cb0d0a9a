//! Finite direct sums of graded modules.
ghost use Rattle.std.specs.Prelude.{◌≡◌, ◌↔◌, ℕ, ◌<◌, ◌≤◌, ◌^◌, ◌+◌, ◌*◌, ◌%◌, IfOk, OnOk, OnErr, IsTrue, List, [], ◌∷◌, ◌++◌, map, sum};
ghost use Rattle.bmp_poly.specs.Exponents.{IsMonomial};
ghost use Rattle.bmp_graded.specs.Graded.{Graded, IsModule};
ghost use Rattle.bmp_graded.specs.Modules.{direct_sum};
ghost use Rattle.bmp_graded.specs.Tuples.{common_rank, FitEach, IsTuple, joined_coordinates};

use crate::blocks;
use crate::graded::GradedModule;
use bmp_field::Field;
use std::alloc::{AllocError, Global};

/// The direct sum of its parts, in their order.
///
/// The coordinates are those of the parts, part after part. The sum of no parts has dimension 0 and one element in
/// each degree; it is a module over all six variables.
#[derive(Debug, Drop)]
pub struct Tuple<M: Drop> {
    parts: Vec<M>,
}

/// An element of each part, all of one degree.
#[derive(Debug, Drop)]
pub struct TupleElement<E: Drop> {
    degree: u32,
    parts: Vec<E>,
}

impl<M: Drop> Tuple<M> {
    /// The sum of no parts. Takes no memory.
    pub fn new(alloc: Global) -> Tuple<M>
        ensures { result.parts.items ≡ [] }
    {
        Tuple {
            parts: Vec::new(alloc),
        }
    }

    /// Adds a part as the last one. Without memory the part is dropped, and the sum stays as it was.
    pub fn push(&mut self, part: M) -> Result<(), AllocError>
        ensures ok { OnOk result (self.new.parts.items ≡ self.old.parts.items ++ part ∷ []) }
        ensures err { OnErr result (self.new.parts.items ≡ self.old.parts.items) }
    {
        self.parts.push(part)?;
        Ok(())
    }
}

impl<F: Field, M: GradedModule<F> + Drop> GradedModule<F> for Tuple<M> {
    type Elem = TupleElement<M::Elem>;

    ghost use Rattle.bmp_graded.proofs.TupleLemmas.{tuple_numbers, tuple_laws};

    ghost graded = { λ s. direct_sum (map M.graded s.parts.items) };

    ghost rank = { λ s. common_rank (map M.rank s.parts.items) };

    ghost fits = { λ s p. FitEach (λ m. M.fits m p) M.rank s.parts.items };

    ghost is_element = { λ s f e. IsTuple (λ m a. M.is_element m f a) M.degree e.degree s.parts.items e.parts.items };

    ghost degree = { λ s e. e.degree };

    ghost coordinate = { λ s f e.
        joined_coordinates (λ m. (M.graded m).dim e.degree) (λ m a. M.coordinate m f a) s.parts.items
        e.parts.items };

    fn dim(&self, d: u32) -> u64 {
        let mut dim = 0;
        for k in 0..self.parts.len() {
            dim += self.parts[k].dim(d);
        }
        dim
    }

    fn degree(&self, e: &TupleElement<M::Elem>) -> u32 {
        e.degree
    }

    fn zero(&self, alloc: Global, f: &F, d: u32) -> Result<TupleElement<M::Elem>, AllocError> {
        let mut parts = Vec::new(alloc);
        for k in 0..self.parts.len() {
            let part = self.parts[k].zero(alloc, f, d)?;
            parts.push(part)?;
        }
        Ok(TupleElement { degree: d, parts })
    }

    fn add_in(&self, f: &F, into: &mut TupleElement<M::Elem>, other: &TupleElement<M::Elem>) {
        for k in 0..self.parts.len() {
            self.parts[k].add_in(f, &mut into.parts[k], &other.parts[k]);
        }
    }

    fn scale_in(&self, f: &F, into: &mut TupleElement<M::Elem>, c: F::E) {
        for k in 0..self.parts.len() {
            self.parts[k].scale_in(f, &mut into.parts[k], c);
        }
    }

    fn act(
        &self,
        alloc: Global,
        f: &F,
        m: [u8; 6],
        e: &TupleElement<M::Elem>,
    ) -> Result<TupleElement<M::Elem>, AllocError> {
        let mut parts = Vec::new(alloc);
        for k in 0..self.parts.len() {
            let part = self.parts[k].act(alloc, f, m, &e.parts[k])?;
            parts.push(part)?;
        }
        let degree = e.degree + blocks::degree_of(&m);
        Ok(TupleElement { degree, parts })
    }

    fn coordinate(&self, f: &F, e: &TupleElement<M::Elem>, i: u64) -> F::E {
        let mut place = i;
        for k in 0..self.parts.len() {
            let dim = self.parts[k].dim(e.degree);
            if place < dim {
                return self.parts[k].coordinate(f, &e.parts[k], place);
            }
            place -= dim;
        }
        f.zero()
    }

    fn same(&self, f: &F, a: &TupleElement<M::Elem>, b: &TupleElement<M::Elem>) -> bool {
        for k in 0..self.parts.len() {
            if !self.parts[k].same(f, &a.parts[k], &b.parts[k]) {
                return false;
            }
        }
        true
    }

    ghost small = { λ s f e is. is.small };

    ghost numbers = { λ s f e is. tuple_numbers (λ m a. M.is_element m f a) M.degree M.graded
        (λ m a. M.coordinate m f a) (F.size f)
        e.degree s.parts.items e.parts.items (λ m a. M.numbers m f a) is };

    ghost laws = { λ s f fits. tuple_laws (λ m. M.fits m (F.size f)) M.rank M.graded (F.size f) s.parts.items
        (λ m. M.laws m f) fits };
}
