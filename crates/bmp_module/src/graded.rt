//! What a graded module is.
ghost use Rattle.std.specs.Prelude.{◌≡◌, ◌↔◌, ℕ, ◌<◌, ◌≤◌, ◌^◌, ◌+◌, ◌*◌, ◌%◌, IfOk, IsTrue, List, sum};
ghost use Rattle.bmp_poly.specs.Exponents.{IsMonomial};
ghost use Rattle.bmp_graded.specs.Graded.{Graded, IsModule};

use bmp_field::Field;
use std::alloc::{AllocError, Global};

/// A graded module over the polynomials in some variables, whose elements are known by their coordinates.
///
/// In each degree the elements, up to [`same`](GradedModule::same), are a vector space with the coordinates as
/// coordinates. An element is an element for a field, whose size is the prime of every label in the module.
pub trait GradedModule<F: Field> {
    type Elem: Drop;

    /// The dimensions, and how monomials act on coordinates.
    ghost graded: { Self → Graded };

    /// The number of variables.
    ghost rank: { Self → ℕ };

    /// The number is the prime of every label in the module.
    ghost fits: { Self → ℕ → Type 0 };

    /// An element of the module, over the field.
    ghost is_element: { Self → F → Self.Elem → Type 0 };

    ghost degree: { Self → Self.Elem → ℕ };

    /// The coordinates of an element, as numbers below the size of the field.
    ghost coordinate: { Self → F → Self.Elem → ℕ → ℕ };

    /// The dimension in degree `d`.
    fn dim(&self, d: u32) -> u64
        requires degree { d ≤ 6 }
        requires small { (graded self.now).dim d < 2 ^ 64 }
        ensures { result ≡ (graded self.now).dim d };

    /// The degree of an element.
    fn degree(&self, e: &Self::Elem) -> u32
        ensures { result ≡ degree self.now e.now };

    /// The element 0 of degree `d`.
    fn zero(&self, alloc: Global, f: &F, d: u32) -> Result<Self::Elem, AllocError>
        requires fits { fits self.now (F.size f.now) }
        requires degree { d ≤ 6 }
        ensures element { IfOk result (λ e. is_element self.now f.now e) }
        ensures degree { IfOk result (λ e. degree self.now e ≡ d) }
        ensures zero { IfOk result (λ e. (i : ℕ) → i < (graded self.now).dim d →
            coordinate self.now f.now e i ≡ 0) };

    /// Adds `other` to `into`; both have one degree.
    fn add_in(&self, f: &F, into: &mut Self::Elem, other: &Self::Elem)
        requires fits { fits self.now (F.size f.now) }
        requires into { is_element self.now f.now into.old }
        requires other { is_element self.now f.now other.now }
        requires degree { degree self.now into.old ≡ degree self.now other.now }
        ensures element { is_element self.now f.now into.new }
        ensures degree { degree self.now into.new ≡ degree self.now into.old }
        ensures sum { (i : ℕ) → i < (graded self.now).dim (degree self.now into.old) →
            coordinate self.now f.now into.new i ≡
            (coordinate self.now f.now into.old i + coordinate self.now f.now other.now i) % F.size f.now };

    /// Multiplies `into` by `c`.
    fn scale_in(&self, f: &F, into: &mut Self::Elem, c: F::E)
        requires fits { fits self.now (F.size f.now) }
        requires into { is_element self.now f.now into.old }
        requires value { F.is_value f.now c }
        ensures element { is_element self.now f.now into.new }
        ensures degree { degree self.now into.new ≡ degree self.now into.old }
        ensures product { (i : ℕ) → i < (graded self.now).dim (degree self.now into.old) →
            coordinate self.now f.now into.new i ≡
            (F.num f.now c * coordinate self.now f.now into.old i) % F.size f.now };

    /// The monomial with the exponents `m` times `e`. Its degree is that of `e` and the sum of the exponents.
    fn act(
        &self,
        alloc: Global,
        f: &F,
        m: [u8; 6],
        e: &Self::Elem,
    ) -> Result<Self::Elem, AllocError>
        requires fits { fits self.now (F.size f.now) }
        requires element { is_element self.now f.now e.now }
        requires monomial { IsMonomial 6 (rank self.now) (sum m) m }
        requires degree { degree self.now e.now + sum m ≤ 6 }
        ensures element { IfOk result (λ r. is_element self.now f.now r) }
        ensures degree { IfOk result (λ r. degree self.now r ≡ degree self.now e.now + sum m) }
        ensures multiple { let d = degree self.now e.now in let t = degree self.now e.now + sum m in
            IfOk result (λ r. (i : ℕ) → i < (graded self.now).dim t →
            coordinate self.now f.now r i ≡
            (graded self.now).act m d t (coordinate self.now f.now e.now) i % F.size f.now) };

    /// The coordinate `i` of an element, counted from 0.
    fn coordinate(&self, f: &F, e: &Self::Elem, i: u64) -> F::E
        requires fits { fits self.now (F.size f.now) }
        requires element { is_element self.now f.now e.now }
        requires small { (graded self.now).dim (degree self.now e.now) < 2 ^ 64 }
        requires place { i < (graded self.now).dim (degree self.now e.now) }
        ensures value { F.is_value f.now result }
        ensures number { F.num f.now result ≡ coordinate self.now f.now e.now i };

    /// Whether two elements of one degree are the same: all coordinates agree.
    fn same(&self, f: &F, a: &Self::Elem, b: &Self::Elem) -> bool
        requires fits { fits self.now (F.size f.now) }
        requires first { is_element self.now f.now a.now }
        requires second { is_element self.now f.now b.now }
        requires degree { degree self.now a.now ≡ degree self.now b.now }
        ensures { IsTrue result ↔ ((i : ℕ) → i < (graded self.now).dim (degree self.now a.now) →
            coordinate self.now f.now a.now i ≡ coordinate self.now f.now b.now i) };

    /// The degree of an element is at most 6.
    ghost small: { (s : Self) (f : F) (e : Self.Elem) → is_element s f e → degree s e ≤ 6 };

    /// Coordinates are numbers below the size of the field.
    ghost numbers: { (s : Self) (f : F) (e : Self.Elem) → is_element s f e →
        (i : ℕ) → i < (graded s).dim (degree s e) → coordinate s f e i < F.size f };

    /// The laws of a module.
    ghost laws: { (s : Self) (f : F) → fits s (F.size f) → IsModule (F.size f) (rank s) (graded s) };
}
