//! The bar of an element.
ghost use Rattle.std.specs.Prelude.{◌≡◌, ◌≢◌, ◌^◌, ◌≤◌, ℤ, pos, IfOk};
ghost use Rattle.bmp_roots.specs.RootSystems.{matrix_of, positive_roots_of};
ghost use Rattle.bmp_weyl.specs.Elements.{IsElement, element_length};
ghost use Rattle.bmp_weyl.specs.declared.elem.Elem.{Elem};
ghost use Rattle.bmp_hecke.specs.WeylGroups.{group_of};
ghost use Rattle.bmp_hecke.specs.Bars.{bar_of};
ghost use Rattle.bmp_hecke.specs.Laurents.{constant_one};
ghost use Rattle.bmp_hecke.specs.Weights.{WeighsAtMost};
ghost use Rattle.bmp_hecke.specs.Combinations.{coefficient_of, HoldsElements, HasNarrow};

use crate::combination::HeckeElem;
use bmp_roots::Roots;
use bmp_weyl::Elem;
use std::alloc::{AllocError, Global};

/// The bar of H_x, by the least right descent: H_x, and multiples of shorter elements. With n the length of x, its weight is at
/// most 3^n, and its exponents are from -n to n.
pub fn bar_of(alloc: Global, roots: &Roots, x: &Elem) -> Result<HeckeElem, AllocError>
    requires { IsElement (matrix_of roots.now) x.now }
    ensures elements { IfOk result (HoldsElements (matrix_of roots.now)) }
    ensures value { IfOk result (λ h. (z : Elem) (e : ℤ) → IsElement (matrix_of roots.now) z
        → coefficient_of h z e ≡ bar_of (group_of roots.now) x.now z e) }
    ensures itself { IfOk result (λ h. (e : ℤ) → coefficient_of h x.now e ≡ constant_one e) }
    ensures shorter { IfOk result (λ h. (z : Elem) (e : ℤ) → IsElement (matrix_of roots.now) z → z ≢ x.now
        → element_length (positive_roots_of roots.now) x.now ≤ element_length (positive_roots_of roots.now) z
        → coefficient_of h z e ≡ pos 0) }
    ensures weight { IfOk result (λ h. WeighsAtMost (IsElement (matrix_of roots.now))
        (3 ^ element_length (positive_roots_of roots.now) x.now) (coefficient_of h)) }
    ensures narrow { IfOk result (HasNarrow (matrix_of roots.now)
        (element_length (positive_roots_of roots.now) x.now)) }
{
    match x.least_right_descent(roots) {
        None => {
            let one = HeckeElem::one(alloc, roots)?;
            Ok(one)
        }
        Some(k) => {
            let shorter = x.times_simple(roots, k);
            let bar = bar_of(alloc, roots, &shorter)?;
            let product = bar.step(alloc, roots, k, true)?;
            Ok(product)
        }
    }
}
