//! The matrix of a map in one degree, column after column.
ghost use Rattle.std.specs.Prelude.{◌≡◌, ℕ, ◌+◌, ◌-◌, ◌*◌, ◌%◌, ◌^◌, ◌<◌, ◌≤◌, IfOk, OnOk, length};
ghost use Rattle.bmp_poly.specs.Exponents.{exponents};
ghost use Rattle.bmp_graded.specs.Graded.{Graded};
ghost use Rattle.bmp_graded.specs.Modules.{free, moved, polynomials};
ghost use Rattle.bmp_graded.specs.Maps.{extension};
ghost use Rattle.bmp_module.specs.Images.{AreImages, image_coordinates};
ghost use Rattle.bmp_module.specs.Columns.{HasColumns, HasColumnsOf, matrix_of_map};

use crate::blocks;
use crate::graded::GradedModule;
use crate::linear::Linear;
use bmp_field::Field;
use bmp_poly::monomials;
use std::alloc::{AllocError, Global};

/// Appends the numbers of the coordinates of an element.
fn push_coordinates<F: Field, N: GradedModule<F>>(
    f: &F,
    over: &N,
    e: &N::Elem,
    columns: &mut Vec<u8>,
) -> Result<(), AllocError>
    requires fits { N.fits over.now (F.size f.now) }
    requires element { N.is_element over.now f.now e.now }
    requires small { (N.graded over.now).dim (N.degree over.now e.now) < 2 ^ 64 }
    ensures { OnOk result (HasColumns ((N.graded over.now).dim (N.degree over.now e.now)) 1
        (λ j. N.coordinate over.now f.now e.now) columns.old.items columns.new.items) }
{
    for i in 0..over.dim(over.degree(e)) {
        columns.push(f.num(over.coordinate(f, e, i)) as u8)?;
    }
    Ok(())
}

/// Appends a column for each monomial that a generator of the image's degree has in degree `d`: the monomial times the
/// image.
fn push_multiples<F: Field, N: GradedModule<F>>(
    alloc: Global,
    f: &F,
    over: &N,
    rank: u8,
    image: &N::Elem,
    d: u32,
    columns: &mut Vec<u8>,
) -> Result<(), AllocError>
    requires fits { N.fits over.now (F.size f.now) }
    requires rank { rank ≤ N.rank over.now }
    requires wide { rank ≤ 6 }
    requires image { N.is_element over.now f.now image.now }
    requires degree { d ≤ 6 }
    requires small { (N.graded over.now).dim d < 2 ^ 64 }
    ensures { let a = N.degree over.now image.now in
        OnOk result (HasColumns ((N.graded over.now).dim d) ((moved a (polynomials rank)).dim d)
        (λ j i. (N.graded over.now).act (exponents 6 rank (d - a) j) a d (N.coordinate over.now f.now image.now) i
        % F.size f.now)
        columns.old.items columns.new.items) }
{
    let a = over.degree(image);
    if a > d {
        return Ok(());
    }
    for t in 0..blocks::count(rank, d - a) {
        let m = monomials::monomial_at(rank, d - a, t);
        let multiple = over.act(alloc, f, m, image)?;
        push_coordinates(f, over, &multiple, columns)?;
    }
    Ok(())
}

impl<'a, F: Field, N: GradedModule<F>> Linear<'a, F, N> {
    /// The matrix of the map in degree `d`, column after column.
    pub fn columns(&self, alloc: Global, f: &F, d: u32) -> Result<Vec<u8>, AllocError>
        requires fits { N.fits self.now.into.now (F.size f.now) }
        requires rank { self.now.from.now.rank ≤ N.rank self.now.into.now }
        requires images { AreImages (N.is_element self.now.into.now f.now) (N.degree self.now.into.now)
            self.now.from.now.degrees.items self.now.images.now }
        requires degree { d ≤ 6 }
        requires small { (N.graded self.now.into.now).dim d < 2 ^ 64 }
        ensures { let M = N.graded self.now.into.now in let gs = self.now.from.now.degrees.items in
            IfOk result (λ columns. HasColumnsOf (matrix_of_map (F.size f.now) (free self.now.from.now.rank gs) M
            (extension self.now.from.now.rank M gs
            (image_coordinates (N.coordinate self.now.into.now f.now) self.now.images.now)) d)
            columns.items) }
    {
        let mut columns = Vec::new(alloc);
        for h in 0..self.from.degrees.len() {
            push_multiples(
                alloc,
                f,
                self.into,
                self.from.rank,
                &self.images[h],
                d,
                &mut columns,
            )?;
        }
        Ok(columns)
    }
}
