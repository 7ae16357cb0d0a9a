//! What a map of graded modules is.
ghost use Rattle.std.specs.Prelude.{◌≡◌, ℕ, ◌<◌, ◌≤◌, ◌%◌, IfOk};
ghost use Rattle.bmp_graded.specs.Graded.{Graded, IsModuleMap};

use crate::graded::GradedModule;
use bmp_field::Field;
use std::alloc::{AllocError, Global};

/// A map of graded modules, from one of type `M` to one of type `N`.
///
/// It keeps the degree, sums, multiples by numbers and by monomials, and sends elements that are the same to such.
pub trait ModuleMap<F: Field, M: GradedModule<F>, N: GradedModule<F>> {
    /// The module whose elements are sent.
    ghost from: { Self → M };

    /// The module that they are sent to.
    ghost into: { Self → N };

    /// What the map does to the coordinates of an element of a degree.
    ghost map: { Self → F → ℕ → (ℕ → ℕ) → ℕ → ℕ };

    /// Both modules are modules over the field, and the parts of the map are elements over it.
    ghost is_map: { Self → F → Type 0 };

    /// The image of an element.
    fn apply(&self, alloc: Global, f: &F, e: &M::Elem) -> Result<N::Elem, AllocError>
        requires map { is_map self.now f.now }
        requires element { M.is_element (from self.now) f.now e.now }
        ensures element { IfOk result (λ r. N.is_element (into self.now) f.now r) }
        ensures degree { IfOk result (λ r. N.degree (into self.now) r ≡ M.degree (from self.now) e.now) }
        ensures image { let d = M.degree (from self.now) e.now in
            IfOk result (λ r. (i : ℕ) → i < (N.graded (into self.now)).dim d →
            N.coordinate (into self.now) f.now r i ≡
            map self.now f.now d (M.coordinate (from self.now) f.now e.now) i % F.size f.now) };

    /// The laws of a module map.
    ghost laws: { (s : Self) (f : F) → is_map s f →
        IsModuleMap (F.size f) (M.rank (from s)) (M.graded (from s)) (N.graded (into s)) (map s f) };
}
