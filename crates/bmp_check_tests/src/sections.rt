//! The vertices above a vertex, the edge equations over them, the check that a tuple is a section, and its restriction.
ghost use Rattle.std.specs.Prelude.{◌≡◌, ◌<◌};
ghost use Rattle.bmp_graph.specs.Graph.{vertex_count};
ghost use Rattle.bmp_check.specs.declared.method.Method.TheVariants.{Spaces};
ghost use Rattle.bmp_check.specs.ShapedViews.{graph_in, method_at, cert_in, IsWhole};
ghost use Rattle.bmp_check.specs.Verdicts.{HasBlock};

use crate::fixtures::{WITH_SECOND, diagonal_square, square_parts};
use bmp_check::{Given, Shaped, scratch_for, shape};
use bmp_field::PrimeField;
use bmp_linear::{Entry, Rows, SparseRows, Vector};
use bmp_sections::compatible::compatible;
use bmp_sections::constraints::constraints;
use bmp_sections::restrict::restrict;
use bmp_sections::{EdgeFault, UpperSet};
use std::alloc::{AllocError, Global};
use std::test::Fail;

#[test]
fn vertices_above(rt: HostRuntime) -> Result<(), Fail> {
    let graph = diagonal_square(rt.alloc())?;
    for (x, wanted) in [
        (0, [false, true, true, true]),
        (1, [false, false, false, true]),
        (2, [false, false, false, true]),
        (3, [false, false, false, false]),
    ] {
        let set = UpperSet::above(rt.alloc(), &graph, x)?;
        let found = [set.has(0), set.has(1), set.has(2), set.has(3)];
        assert_eq!(rt; found, wanted, "above {x}");
    }
    Ok(())
}

#[test]
fn longer_vertices(rt: HostRuntime) -> Result<(), Fail> {
    let graph = diagonal_square(rt.alloc())?;
    for (l, wanted) in [
        (0, [false, true, true, true]),
        (1, [false, false, false, true]),
        (2, [false, false, false, false]),
    ] {
        let set = UpperSet::longer(rt.alloc(), &graph, l)?;
        let found = [set.has(0), set.has(1), set.has(2), set.has(3)];
        assert_eq!(rt; found, wanted, "longer than {l}");
    }
    Ok(())
}

/// The edge equations of a block.
fn equations_at(
    alloc: Global,
    s: &Shaped,
    x: u32,
    d: u32,
) -> Result<SparseRows<PrimeField>, AllocError>
    requires whole { IsWhole s.now }
    requires method { method_at s.now ≡ Spaces }
    requires block { HasBlock (graph_in s.now) (cert_in s.now) x d }
{
    let sheaf = s.sheaf();
    let mut scratch = scratch_for(alloc, s)?;
    scratch.index.fill(sheaf, x, d);
    constraints(alloc, sheaf, x, d, &scratch.index)
}

/// What the check answers of a tuple over the vertices above `x` with these numbers at its positions.
fn section_at(
    alloc: Global,
    s: &Shaped,
    x: u32,
    d: u32,
    numbers: [u8; 6],
) -> Result<Result<(), EdgeFault>, Fail>
    requires whole { IsWhole s.now }
    requires method { method_at s.now ≡ Spaces }
    requires block { HasBlock (graph_in s.now) (cert_in s.now) x d }
{
    let tuple = Vector::of_numbers(alloc, &numbers)?;
    let sizes = s.sizes().block(s.graph(), s.given(), x, d);
    if !tuple.fits(u32::try_from(sizes.columns)?) || !tuple.is_below(u32::from(s.graph().prime())) {
        return Err(Fail::new("the numbers make no tuple"));
    }
    let sheaf = s.sheaf();
    let mut scratch = scratch_for(alloc, s)?;
    scratch.index.fill(sheaf, x, d);
    Ok(compatible(sheaf, x, d, &scratch.index, &tuple, &mut scratch.numbers))
}

#[test]
fn equations_of_the_square(rt: HostRuntime) -> Result<(), Fail> {
    let graph = diagonal_square(rt.alloc())?;
    let cert = square_parts(rt.alloc(), WITH_SECOND)?;
    let given = Given {
        degree: 1,
        version: 1,
        parts: &cert.vertices,
    };
    let shaped = shape(rt.alloc(), &graph, &given)?;
    // In each degree one for the edge from 1 up to 3, and one for that from 2.
    for (d, cols, wanted) in [
        (0, 3, [[(0, 1), (2, 2)], [(1, 1), (2, 2)]]),
        (1, 6, [[(0, 1), (4, 2)], [(3, 1), (5, 2)]]),
    ] {
        let rows = equations_at(rt.alloc(), &shaped, 0, d)?;
        assert_eq!(rt; rows.cols(), cols, "degree {d}");
        assert_eq!(rt; rows.rows(), 2, "degree {d}");
        for i in 0..2 {
            let row = wanted[i as usize].map(|(place, value)| Entry { place, value });
            assert_eq!(rt; rows.row(i), row.as_slice(), "degree {d}, row {i}");
        }
    }
    let none = equations_at(rt.alloc(), &shaped, 1, 1)?;
    assert_eq!(rt;
        (none.cols(), none.rows()),
        (2, 0),
        "above 1 there is no edge"
    );
    Ok(())
}

/// In degree 1 a tuple over 1, 2 and 3 has two coordinates at each; equal on the edge 3 are the first ones at 1 and 3,
/// and on the edge 4 the second ones at 2 and 3.
#[test]
fn sections_of_the_square(rt: HostRuntime) -> Result<(), Fail> {
    let graph = diagonal_square(rt.alloc())?;
    let cert = square_parts(rt.alloc(), WITH_SECOND)?;
    let given = Given {
        degree: 1,
        version: 1,
        parts: &cert.vertices,
    };
    let shaped = shape(rt.alloc(), &graph, &given)?;
    for (numbers, wanted) in [
        ([0, 0, 0, 0, 0, 0], None),
        ([1, 0, 0, 0, 1, 0], None),
        ([0, 2, 1, 2, 0, 2], None),
        ([1, 0, 0, 0, 0, 0], Some((3, 1))),
        ([0, 0, 0, 0, 2, 0], Some((3, 1))),
        ([1, 0, 0, 0, 1, 1], Some((4, 2))),
        ([0, 0, 0, 1, 1, 0], Some((3, 2))),
    ] {
        let found = section_at(rt.alloc(), &shaped, 0, 1, numbers)?;
        let fault = wanted.map(|(edge, left)| EdgeFault {
            edge,
            place: 0,
            left,
            right: 0,
        });
        assert_eq!(rt; found.err(), fault, "{numbers:?}");
    }
    Ok(())
}

/// The restriction to the vertices above `y` of the tuple over those above 0 with these numbers at its positions.
fn restricted(alloc: Global, s: &Shaped, y: u32, d: u32, numbers: [u8; 6]) -> Result<Vector, Fail>
    requires whole { IsWhole s.now }
    requires method { method_at s.now ≡ Spaces }
    requires block { HasBlock (graph_in s.now) (cert_in s.now) 0 d }
    requires vertex { y < vertex_count (graph_in s.now) }
{
    let tuple = Vector::of_numbers(alloc, &numbers)?;
    let sizes = s.sizes().block(s.graph(), s.given(), 0, d);
    if !tuple.fits(u32::try_from(sizes.columns)?) || !tuple.is_below(u32::from(s.graph().prime())) {
        return Err(Fail::new("the numbers make no tuple"));
    }
    let sheaf = s.sheaf();
    let from = UpperSet::above(alloc, sheaf.graph(), 0)?;
    let to = UpperSet::above(alloc, sheaf.graph(), y)?;
    if !from.has(y) {
        return Err(Fail::new("the vertex isn't above 0"));
    }
    Ok(restrict(alloc, sheaf, &from, &to, d, &tuple)?)
}

/// In degree 1 the value at 3 stands at the places 4 and 5, and alone at 0 and 1.
#[test]
fn restrictions_on_the_square(rt: HostRuntime) -> Result<(), Fail> {
    let graph = diagonal_square(rt.alloc())?;
    let cert = square_parts(rt.alloc(), WITH_SECOND)?;
    let given = Given {
        degree: 1,
        version: 1,
        parts: &cert.vertices,
    };
    let shaped = shape(rt.alloc(), &graph, &given)?;
    for (numbers, wanted) in [
        ([1, 2, 1, 2, 0, 2], [0, 2]),
        ([0, 0, 0, 0, 2, 1], [2, 1]),
        ([2, 2, 2, 2, 0, 0], [0, 0]),
    ] {
        let found = restricted(rt.alloc(), &shaped, 1, 1, numbers)?;
        let value = Vector::of_numbers(rt.alloc(), &wanted)?;
        assert_eq!(rt; found.entries(), value.entries(), "{numbers:?}");
    }
    Ok(())
}
