//! The vertices in the order of their numbers.
ghost use Rattle.std.specs.Prelude.{◌≡◌, ℕ, List, length, map, IfOk, OnOk, OnErr};
ghost use Rattle.bmp_math.specs.Lists.{Member, HasEachOnce};
ghost use Rattle.bmp_roots.specs.RootSystems.{matrix_of, positive_roots_of};
ghost use Rattle.bmp_weyl.specs.Elements.{IsElement};
ghost use Rattle.bmp_weyl.specs.declared.elem.Elem.{Elem};
ghost use Rattle.bmp_interval.specs.Numbering.{measured, vertex_cmp, elements_of, lengths_of, IsSortedList};

use crate::growth::add;
use bmp_roots::Roots;
use bmp_weyl::Elem;
use indexmap::IndexSet;
use std::alloc::{AllocError, Global};

/// A vertex with its length. Vertices are ordered by length, and then by matrix.
#[derive(Clone, Copy, Debug, PartialEq, Eq, PartialOrd, Ord)]
pub struct Vertex {
    pub length: u32,
    pub elem: Elem,
}

// The elements with their lengths.
fn measured_vertices(
    alloc: Global,
    roots: &Roots,
    found: &IndexSet<Elem>,
) -> Result<Vec<Vertex>, AllocError>
    requires { (e : Elem) → Member e found.now.keys → IsElement (matrix_of roots.now) e }
    ensures { IfOk result (λ vertices.
        vertices.items ≡ map (measured (positive_roots_of roots.now)) found.now.keys) }
{
    let mut vertices = Vec::with_capacity(alloc, found.len())?;
    let elems = found.as_slice();
    for elem in elems {
        let length = elem.length(roots);
        vertices.push(Vertex {
            length,
            elem: *elem,
        })?;
    }
    Ok(vertices)
}

/// The elements with their lengths, in the order of their numbers.
pub fn sorted_vertices(
    alloc: Global,
    roots: &Roots,
    found: &IndexSet<Elem>,
) -> Result<Vec<Vertex>, AllocError>
    requires elements { (e : Elem) → Member e found.now.keys → IsElement (matrix_of roots.now) e }
    requires once { HasEachOnce found.now.keys }
    ensures { IfOk result (λ vertices. IsSortedList (positive_roots_of roots.now) found.now.keys
        (elements_of vertices.items) (lengths_of vertices.items)) }
{
    let mut vertices = measured_vertices(alloc, roots, found)?;
    vertices.sort()?;
    Ok(vertices)
}

/// The set of the elements, in their order.
pub fn element_set(alloc: Global, vertices: &[Vertex]) -> Result<IndexSet<Elem>, AllocError>
    requires { HasEachOnce (elements_of vertices.now) }
    ensures { IfOk result (λ set. set.keys ≡ elements_of vertices.now) }
{
    let mut set = IndexSet::new(alloc);
    for vertex in vertices {
        add(&mut set, vertex.elem)?;
    }
    Ok(set)
}

/// The lengths, in their order.
pub fn length_table(alloc: Global, vertices: &[Vertex]) -> Result<Vec<u32>, AllocError>
    ensures { IfOk result (λ lengths. lengths.items ≡ lengths_of vertices.now) }
{
    vertices.iter().map(|vertex| vertex.length).collect(alloc)
}
