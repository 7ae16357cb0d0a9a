//! Combinations of elements with Laurent polynomials as coefficients.
ghost use Rattle.std.specs.Prelude.{◌≡◌, ◌+◌, ◌-◌, ◌*◌, ◌^◌, ◌<◌, ◌≤◌, ℕ, ℤ, pos, List, length, IfOk, IfSome, OnOk};
ghost use Rattle.std.specs.Option.{ForSome};
ghost use Rattle.bmp_roots.specs.RootSystems.{matrix_of};
ghost use Rattle.bmp_weyl.specs.Elements.{IsElement, IsLetter};

use crate::elements::{add, identity, is_descent};
use crate::steps::{exponent_at, step_value, unit_value};
use bmp_roots::Roots;
use bmp_weyl::Elem;
use indexmap::IndexSet;
use std::alloc::{AllocError, Global};

/// A combination of elements: each has a Laurent polynomial in v, with exponents from -72 to 72.
#[derive(Drop)]
pub struct HeckeElem {
    elements: IndexSet<Elem>,
    coefficients: Vec<i128>,
    pub ghost places: { length coefficients.items ≡ length elements.keys * 145 },
}

impl HeckeElem {
    ghost use Rattle.std.specs.Prelude.{position, ◌++◌, ◌-ℤ◌};
    ghost use Rattle.bmp_math.specs.Integers.{IsWithin};
    ghost use Rattle.bmp_hecke.specs.Laurents.{times_difference};
    ghost use Rattle.bmp_hecke.specs.Bars.{identity_combination, times_generator};
    ghost use Rattle.bmp_hecke.specs.Weights.{WeighsAtMost};
    ghost use Rattle.bmp_math.specs.Lists.{Member};
    ghost use Rattle.bmp_hecke.specs.WeylGroups.{group_of};
    ghost use Rattle.bmp_weyl.specs.declared.elem.Elem.{Elem};
    ghost use Rattle.bmp_hecke.specs.ElementSets.{elem_eq};
    ghost use Rattle.bmp_hecke.specs.Combinations.{value_at, coefficient_of, HoldsElements, HasNarrow, IsLight, stepped, step_of, row_of, IsMoved};

    // The place of an element.
    fn place_of(&self, x: &Elem) -> Option<usize>
        ensures place { result ≡ position (elem_eq x.now) self.now.elements.keys }
        ensures within { IfSome result (λ p. p < length self.now.elements.keys) }
    {
        self.elements.get_index_of(x)
    }

    // The coefficient at a place and an exponent.
    fn value_at(&self, place: Option<usize>, exponent: i32) -> i128
        requires { ForSome place (λ p. p < length self.now.elements.keys) }
        ensures { result ≡ value_at self.now.coefficients.items place exponent }
    {
        match place {
            None => 0,
            Some(p) => {
                if exponent < -72 || exponent > 72 {
                    0
                } else {
                    self.coefficients[p * 145 + (exponent + 72) as usize]
                }
            }
        }
    }

    /// The coefficient of v to the power `exponent` at x. It is 0 where the combination does not list x.
    pub fn coefficient(&self, x: &Elem, exponent: i32) -> i128
        ensures { result ≡ coefficient_of self.now x.now exponent }
    {
        let place = self.place_of(x);
        self.value_at(place, exponent)
    }
    // The elements of this combination, and their products with the simple reflection k.
    fn moved_elements(
        &self,
        alloc: Global,
        roots: &Roots,
        k: u8,
    ) -> Result<IndexSet<Elem>, AllocError>
        requires letter { IsLetter (matrix_of roots.now).rank k }
        requires elements { HoldsElements (matrix_of roots.now) self.now }
        ensures { IfOk result (λ set. IsMoved (matrix_of roots.now) (k - 1)
            (length self.now.elements.keys) self.now.elements.keys set.keys) }
    {
        let mut set = IndexSet::new(alloc);
        let keys = self.elements.as_slice();
        for x in keys {
            add(&mut set, *x)?;
            add(&mut set, x.times_simple(roots, k))?;
        }
        Ok(set)
    }

    // A coefficient of the product, from the places of xk and of x.
    fn row_value(
        &self,
        there: Option<usize>,
        here: Option<usize>,
        i: usize,
        descends: bool,
        bar: bool,
    ) -> i128
        requires there { ForSome there (λ p. p < length self.now.elements.keys) }
        requires here { ForSome here (λ p. p < length self.now.elements.keys) }
        requires light_there { (e : ℤ)
            → IsWithin (5 * 10 ^ 37) (value_at self.now.coefficients.items there e) }
        requires light_here { (e : ℤ)
            → IsWithin (5 * 10 ^ 37) (value_at self.now.coefficients.items here e) }
        requires place { i < 145 }
        ensures { result ≡ stepped bar descends
            (value_at self.now.coefficients.items there (pos i -ℤ pos 72))
            (times_difference (value_at self.now.coefficients.items here) (pos i -ℤ pos 72)) }
    {
        let exponent = exponent_at(i);
        let at_moved = self.value_at(there, exponent);
        let low = self.value_at(here, exponent - 1);
        let high = self.value_at(here, exponent + 1);
        step_value(at_moved, low, high, descends, bar)
    }

    // Appends the coefficients of the product at x.
    fn push_row(
        &self,
        out: &mut Vec<i128>,
        roots: &Roots,
        x: &Elem,
        k: u8,
        bar: bool,
    ) -> Result<(), AllocError>
        requires letter { IsLetter (matrix_of roots.now).rank k }
        requires element { IsElement (matrix_of roots.now) x.now }
        requires light { IsLight (matrix_of roots.now) (5 * 10 ^ 37) self.now }
        ensures { OnOk result (out.new.items ≡ out.old.items
            ++ row_of (step_of bar (group_of roots.now) (coefficient_of self.now) (k - 1) x.now)) }
    {
        let moved = x.times_simple(roots, k);
        let descends = is_descent(roots, x, k);
        let here = self.place_of(x);
        let there = self.place_of(&moved);
        for i in 0..145 {
            out.push(self.row_value(there, here, i, descends, bar))?;
        }
        Ok(())
    }

    /// The product with H_k, or with H_k + v - v^-1 where `bar` is true.
    pub(crate) fn step(
        &self,
        alloc: Global,
        roots: &Roots,
        k: u8,
        bar: bool,
    ) -> Result<HeckeElem, AllocError>
        requires letter { IsLetter (matrix_of roots.now).rank k }
        requires elements { HoldsElements (matrix_of roots.now) self.now }
        requires light { IsLight (matrix_of roots.now) (5 * 10 ^ 37) self.now }
        requires narrow { HasNarrow (matrix_of roots.now) 71 self.now }
        ensures elements { IfOk result (HoldsElements (matrix_of roots.now)) }
        ensures value { IfOk result (λ h. (x : Elem) (e : ℤ) → IsElement (matrix_of roots.now) x
            → coefficient_of h x e
            ≡ step_of bar (group_of roots.now) (coefficient_of self.now) (k - 1) x e) }
    {
        let elements = self.moved_elements(alloc, roots, k)?;
        let mut coefficients = Vec::new(alloc);
        let keys = elements.as_slice();
        for x in keys {
            self.push_row(&mut coefficients, roots, x, k, bar)?;
        }
        Ok(HeckeElem {
            elements,
            coefficients,
        })
    }
    /// The identity: 1 at the element of length 0, which is the identity, and 0 elsewhere.
    pub fn one(alloc: Global, roots: &Roots) -> Result<HeckeElem, AllocError>
        ensures elements { IfOk result (HoldsElements (matrix_of roots.now)) }
        ensures value { IfOk result (λ h. (x : Elem) (e : ℤ) → IsElement (matrix_of roots.now) x
            → coefficient_of h x e ≡ identity_combination (group_of roots.now) x e) }
    {
        let mut elements = IndexSet::new(alloc);
        add(&mut elements, identity(roots))?;
        let mut coefficients = Vec::new(alloc);
        for i in 0..145 {
            coefficients.push(unit_value(i))?;
        }
        Ok(HeckeElem {
            elements,
            coefficients,
        })
    }

    /// The product with H_k, k from 1. Its weight is at most three times that of this combination, and its exponents are at
    /// most one larger in size.
    pub fn times_hs(&self, alloc: Global, roots: &Roots, k: u8) -> Result<HeckeElem, AllocError>
        requires letter { IsLetter (matrix_of roots.now).rank k }
        requires elements { HoldsElements (matrix_of roots.now) self.now }
        requires weight { WeighsAtMost (IsElement (matrix_of roots.now)) (5 * 10 ^ 37)
            (coefficient_of self.now) }
        requires narrow { HasNarrow (matrix_of roots.now) 71 self.now }
        ensures elements { IfOk result (HoldsElements (matrix_of roots.now)) }
        ensures value { IfOk result (λ h. (x : Elem) (e : ℤ) → IsElement (matrix_of roots.now) x
            → coefficient_of h x e
            ≡ times_generator (group_of roots.now) (coefficient_of self.now) (k - 1) x e) }
        ensures weight { IfOk result (λ h. (w : ℕ)
            → WeighsAtMost (IsElement (matrix_of roots.now)) w (coefficient_of self.now)
            → WeighsAtMost (IsElement (matrix_of roots.now)) (3 * w) (coefficient_of h)) }
        ensures narrow { IfOk result (λ h. (n : ℕ) → HasNarrow (matrix_of roots.now) n self.now
            → HasNarrow (matrix_of roots.now) (n + 1) h) }
    {
        let product = self.step(alloc, roots, k, false)?;
        Ok(product)
    }
}
