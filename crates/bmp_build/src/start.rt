//! The greatest vertex: its part, its stalk, and the first families.
ghost use Rattle.std.specs.Prelude.{◌≡◌, ◌+◌, ◌<◌, ◌≤◌, All, length, IfOk, OnOk};
ghost use Rattle.bmp_field.specs.PrimeFields.{size_of};
ghost use Rattle.bmp_linear.specs.SparseVectors.{ValuesBelow};
ghost use Rattle.bmp_graph.specs.Graph.{vertex_count};
ghost use Rattle.bmp_sheaf.specs.States.{next_vertex, with_stalk};
ghost use Rattle.bmp_sheaf.specs.StalkFaults.{IsStalk};
ghost use Rattle.bmp_levels.specs.Extensions.{HasTop};
ghost use Rattle.bmp_check.specs.Accepted.{IsCheckableGraph};
ghost use Rattle.bmp_check.specs.Shaped.{cert_stalk};
ghost use Rattle.bmp_build.specs.BuiltGraphs.{top_part};
ghost use Rattle.bmp_build.specs.Building.{IsBegun, IsTopFamily, HasEach};

use bmp_cert::{Degrees, VertexPart};
use bmp_field::{Field, PrimeField};
use bmp_graph::MomentGraph;
use bmp_levels::Family;
use bmp_linear::{Blocks, Vectors};
use bmp_sheaf::{Sheaf, SheafFault};
use std::alloc::{AllocError, Global};

/// The part of the greatest vertex: one generator, of degree 0.
pub(crate) fn top_part(alloc: Global) -> Result<VertexPart, AllocError>
    ensures { IfOk result (λ part. part ≡ top_part) }
{
    let mut degrees = Degrees::new(alloc);
    degrees.push(0)?;
    Ok(VertexPart {
        degrees,
        edges: 0,
        lifts: Vectors::new(alloc),
        blocks: Blocks::new(alloc),
    })
}

/// Adds the stalk that a part writes down, at the greatest vertex whose stalk isn't there. Since it is one, memory
/// alone can be wanting.
pub(crate) fn push_part<F: Field>(sheaf: &mut Sheaf<F>, part: &VertexPart) -> Result<(), AllocError>
    requires left { length sheaf.old.stalks < vertex_count sheaf.old.graph }
    requires values { All (λ v. ValuesBelow v sheaf.old.graph.prime) part.now.lifts }
    requires stalk { IsStalk sheaf.old (next_vertex sheaf.old) part.now.degrees part.now.lifts }
    ensures { OnOk result (sheaf.new ≡ with_stalk sheaf.old (cert_stalk part.now)) }
{
    match sheaf.push_vertex(part.degrees.as_slice(), part.lifts.as_slice()) {
        Ok(()) => Ok(()),
        Err(SheafFault::Memory) => Err(AllocError),
        Err(_) => unreachable!(),
    }
}

/// The field of a graph's prime.
pub(crate) fn field_of(graph: &MomentGraph) -> PrimeField
    requires { IsCheckableGraph graph.now }
    ensures { size_of result ≡ graph.now.prime }
{
    match PrimeField::new(graph.prime()) {
        Ok(field) => field,
        Err(_) => unreachable!(),
    }
}

/// The sheaf on a graph, over its field, up to a degree, with the stalk of the greatest vertex alone.
pub(crate) fn begun<F: Field + Drop>(
    alloc: Global,
    graph: &MomentGraph,
    field: F,
    degree: u32,
    part: &VertexPart,
) -> Result<Sheaf<F>, AllocError>
    requires on { IsCheckableGraph graph.now }
    requires prime { F.size field ≡ graph.now.prime }
    requires degree { degree ≤ 6 }
    requires top { part.now ≡ top_part }
    ensures { IfOk result (IsBegun graph.now degree) }
{
    let mut sheaf = Sheaf::new(alloc, graph, field, degree)?;
    push_part(&mut sheaf, part)?;
    Ok(sheaf)
}

/// The families over the greatest vertex, one for each degree.
pub(crate) fn top_families<F: Field>(
    alloc: Global,
    sheaf: &Sheaf<F>,
) -> Result<Vec<Family>, AllocError>
    requires { HasTop sheaf.now }
    ensures { IfOk result
        (λ families. HasEach (IsTopFamily sheaf.now) (sheaf.now.degree + 1) families.items) }
{
    let mut families = Vec::new(alloc);
    'degrees: for d in 0..sheaf.degree() + 1 {
        let family = Family::top(alloc, sheaf, d)?;
        families.push(family)?;
    }
    Ok(families)
}
