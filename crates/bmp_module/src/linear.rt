//! Maps from a free module that are given by images of its generators.
ghost use Rattle.std.specs.Prelude.{◌≡◌, ℕ, ◌<◌, ◌≤◌, ◌+◌, ◌*◌, ◌%◌, IfOk, OnOk, All, List, length, sum};
ghost use Rattle.bmp_poly.specs.Exponents.{IsMonomial};
ghost use Rattle.bmp_poly.specs.Coefficients.{coefficient};
ghost use Rattle.bmp_graded.specs.Graded.{Graded, IsModuleMap};
ghost use Rattle.bmp_graded.specs.Modules.{moved, polynomials};
ghost use Rattle.bmp_graded.specs.Maps.{multiples, extension};
ghost use Rattle.bmp_module.specs.Images.{AreImages, image_coordinates};

use crate::blocks;
use crate::coordinates::Coordinates;
use crate::free::Free;
use crate::graded::GradedModule;
use crate::map::ModuleMap;
use bmp_field::Field;
use bmp_poly::monomials;
use std::alloc::{AllocError, Global};

/// The map from a free module that sends its generators to the images, in their order.
///
/// An element is sent to the sum of its polynomials times the images.
#[derive(Drop)]
pub struct Linear<'a, F: Field, N: GradedModule<F>> {
    pub(crate) from: &'a Free,
    pub(crate) into: &'a N,
    pub(crate) images: &'a [N::Elem],
}

impl<'a, F: Field, N: GradedModule<F>> Linear<'a, F, N> {
    /// The map with these images. Each is to be an element of `into` of its generator's degree, and `into` a module
    /// over the variables of `from`, maybe over more. Takes no memory.
    pub fn new(from: &'a Free, into: &'a N, images: &'a [N::Elem]) -> Linear<'a, F, N>
        ensures from { result.from.now ≡ from.now }
        ensures into { result.into.now ≡ into.now }
        ensures images { result.images.now ≡ images.now }
    {
        Linear { from, into, images }
    }
}

/// Adds `c` times the monomial `m` times `image` to `sum`.
fn add_multiple<F: Field, N: GradedModule<F>>(
    alloc: Global,
    f: &F,
    into: &N,
    m: [u8; 6],
    c: F::E,
    image: &N::Elem,
    total: &mut N::Elem,
) -> Result<(), AllocError>
    requires fits { N.fits into.now (F.size f.now) }
    requires monomial { IsMonomial 6 (N.rank into.now) (sum m) m }
    requires value { F.is_value f.now c }
    requires image { N.is_element into.now f.now image.now }
    requires total { N.is_element into.now f.now total.old }
    requires degree { N.degree into.now total.old ≡ N.degree into.now image.now + sum m }
    ensures element { OnOk result (N.is_element into.now f.now total.new) }
    ensures degree { OnOk result (N.degree into.now total.new ≡ N.degree into.now total.old) }
    ensures added { let d = N.degree into.now image.now in let t = N.degree into.now total.old in
        OnOk result ((j : ℕ) → j < (N.graded into.now).dim t →
        N.coordinate into.now f.now total.new j ≡
        (N.coordinate into.now f.now total.old j
        + F.num f.now c * (N.graded into.now).act m d t (N.coordinate into.now f.now image.now) j) % F.size f.now) }
{
    if f.num(c) == 0 {
        return Ok(());
    }
    let mut term = into.act(alloc, f, m, image)?;
    into.scale_in(f, &mut term, c);
    into.add_in(f, total, &term);
    Ok(())
}

/// Adds the polynomial with coefficients `block` times `image`, an element of degree `generator`, to `total`.
fn add_multiples<F: Field, N: GradedModule<F>>(
    alloc: Global,
    f: &F,
    into: &N,
    rank: u8,
    generator: u32,
    block: &[F::E],
    image: &N::Elem,
    total: &mut N::Elem,
) -> Result<(), AllocError>
    requires fits { N.fits into.now (F.size f.now) }
    requires rank { rank ≤ N.rank into.now }
    requires wide { rank ≤ 6 }
    requires image { N.is_element into.now f.now image.now }
    requires generator { N.degree into.now image.now ≡ generator }
    requires total { N.is_element into.now f.now total.old }
    requires sized { length block.now ≡ (moved generator (polynomials rank)).dim (N.degree into.now total.old) }
    requires values { All (F.is_value f.now) block.now }
    ensures element { OnOk result (N.is_element into.now f.now total.new) }
    ensures degree { OnOk result (N.degree into.now total.new ≡ N.degree into.now total.old) }
    ensures added { let d = N.degree into.now total.old in
        OnOk result ((j : ℕ) → j < (N.graded into.now).dim d →
        N.coordinate into.now f.now total.new j ≡
        (N.coordinate into.now f.now total.old j
        + multiples rank (N.graded into.now) generator (N.coordinate into.now f.now image.now) d
        (coefficient (F.num f.now) block.now) j) % F.size f.now) }
{
    let degree = into.degree(total);
    if generator > degree {
        return Ok(());
    }
    for i in 0..blocks::count(rank, degree - generator) {
        let m = monomials::monomial_at(rank, degree - generator, i);
        add_multiple(alloc, f, into, m, block[i as usize], image, total)?;
    }
    Ok(())
}

impl<'a, F: Field, N: GradedModule<F>> ModuleMap<F, Free, N> for Linear<'a, F, N> {
    ghost use Rattle.bmp_graded.proofs.ExtensionMaps.{extension_over};

    ghost from = { λ s. s.from.now };

    ghost into = { λ s. s.into.now };

    ghost map = { λ s f. extension s.from.now.rank (N.graded s.into.now) s.from.now.degrees.items
        (image_coordinates (N.coordinate s.into.now f) s.images.now) };

    ghost is_map = { λ s f. N.fits s.into.now (F.size f) × (s.from.now.rank ≤ N.rank s.into.now) ×
        AreImages (N.is_element s.into.now f) (N.degree s.into.now) s.from.now.degrees.items s.images.now };

    fn apply(&self, alloc: Global, f: &F, e: &Coordinates<F>) -> Result<N::Elem, AllocError> {
        let mut total = self.into.zero(alloc, f, e.degree)?;
        let mut start = 0;
        for h in 0..self.from.degrees.len() {
            let generator = self.from.degrees[h];
            let end = start + blocks::block_length(self.from.rank, generator, e.degree) as usize;
            let block = &e.numbers[start..end];
            add_multiples(
                alloc,
                f,
                self.into,
                self.from.rank,
                generator,
                block,
                &self.images[h],
                &mut total,
            )?;
            start = end;
        }
        Ok(total)
    }

    ghost laws = { λ s f is. extension_over (F.size f) s.from.now.rank (N.rank s.into.now) (N.graded s.into.now)
        s.from.now.degrees.items (image_coordinates (N.coordinate s.into.now f) s.images.now) is.1 s.from.now.wide
        (N.laws s.into.now f is.0) };
}
