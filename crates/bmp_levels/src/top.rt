//! The first family.
ghost use Rattle.std.specs.Prelude.{◌≤◌, ◌-◌, IfOk};
ghost use Rattle.bmp_graph.specs.Graph.{vertex_count, length_at};
ghost use Rattle.bmp_sheaf.specs.States.{sheaf_of};
ghost use Rattle.bmp_levels.specs.Levels.{level_vertices};
ghost use Rattle.bmp_levels.specs.Lists.{SameList};
ghost use Rattle.bmp_levels.specs.Families.{top_family};
ghost use Rattle.bmp_levels.specs.Runs.{AreUnits, list_of};
ghost use Rattle.bmp_levels.specs.Extensions.{HoldsLevel, HasTop};

use crate::family::Family;
use bmp_field::Field;
use bmp_linear::{Vector, Vectors};
use bmp_poly::monomials;
use bmp_sheaf::Sheaf;
use std::alloc::{AllocError, Global};

/// The vectors that are 1 at one of `n` places, in the order of the places.
fn units(alloc: Global, n: u32) -> Result<Vectors, AllocError>
    ensures { IfOk result (AreUnits n) }
{
    let mut units = Vectors::with_capacity(alloc, n as usize)?;
    for place in 0..n {
        units.push(Vector::unit(alloc, place)?)?;
    }
    Ok(units)
}

impl Family {
    /// The first family of degree `d`, over the greatest vertex: one member for each monomial, with that monomial as
    /// its value. The greatest vertex is the one longest, and its stalk has one generator, of degree 0.
    pub fn top<F: Field>(alloc: Global, sheaf: &Sheaf<F>, d: u32) -> Result<Family, AllocError>
        requires degree { d ≤ sheaf.now.degree }
        requires top { HasTop sheaf.now }
        ensures holds { let G = sheaf.now.graph in
            IfOk result (HoldsLevel sheaf.now (length_at G (vertex_count G - 1)) d) }
        ensures family { let G = sheaf.now.graph in let top = vertex_count G - 1 in
            IfOk result (λ f. SameList (level_vertices G (length_at G top)) (list_of f)
            (top_family G (sheaf_of sheaf.now) d top)) }
    {
        let graph = sheaf.graph();
        let mut family = Family::new(alloc, graph.vertices())?;
        let size = monomials::count(graph.rank(), d);
        let none = Vectors::new(alloc);
        family.add_vertex(size, &none, &units(alloc, size)?)?;
        Ok(family)
    }
}
