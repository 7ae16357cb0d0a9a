//! The sheaf that parts write down, where all sizes pass.
ghost use Rattle.std.specs.Prelude.{◌≡◌, ◌<◌, ◌≤◌, ◌⊎◌, [], OnOk, IfErr, IfOk, All, length};
ghost use Rattle.bmp_linear.specs.SparseVectors.{ValuesBelow};
ghost use Rattle.bmp_graph.specs.Graph.{vertex_count};
ghost use Rattle.bmp_sheaf.specs.States.{next_vertex, with_stalk};
ghost use Rattle.bmp_sheaf.specs.StalkFaults.{IsStalk};
ghost use Rattle.bmp_check.specs.Accepted.{IsCheckableGraph, IsCheckable};
ghost use Rattle.bmp_check.specs.CheckErrors.{IsRefusedBy};
ghost use Rattle.bmp_check.specs.Shaped.{cert_stalk, IsSheafOf};
ghost use Rattle.bmp_check.specs.ShapedViews.{method_in, written_in, graph_in, version_in, cert_in, IsWhole};
ghost use Rattle.bmp_check.specs.SizeTables.{AreSizesOf};
ghost use Rattle.bmp_check.specs.Verdicts.{CountPasses, ShapePasses, IsCountRefusal, IsShapeRefusal};

use crate::given::Given;
use crate::refusal::CheckError;
use crate::shape_pass::{check_count, check_shape};
use crate::shaped::Shaped;
use crate::sizes::SizeTable;
use crate::stalk_tasks::add_stalks;
use bmp_cert::VertexPart;
use bmp_field::PrimeField;
use bmp_graph::MomentGraph;
use bmp_sheaf::{Sheaf, SheafFault};
use std::alloc::{AllocError, Global};
use std::thread::Threads;

/// Adds the stalk that a part writes down, at the greatest vertex whose stalk isn't there. Since it is one, memory
/// alone can be wanting.
pub(crate) fn push_part(sheaf: &mut Sheaf<PrimeField>, part: &VertexPart) -> Result<(), AllocError>
    requires left { length sheaf.old.stalks < vertex_count sheaf.old.graph }
    requires values { All (λ v. ValuesBelow v sheaf.old.graph.prime) part.now.lifts }
    requires stalk { IsStalk sheaf.old (next_vertex sheaf.old) part.now.degrees part.now.lifts }
    ensures { OnOk result (sheaf.new ≡ with_stalk sheaf.old (cert_stalk part.now)) }
{
    match sheaf.push_vertex(part.degrees.as_slice(), part.lifts.as_slice()) {
        Ok(()) => Ok(()),
        Err(SheafFault::Memory) => Err(AllocError),
        Err(_) => unreachable!(),
    }
}

/// The sheaf on a graph, over its field, of which no stalk is there yet.
fn empty_sheaf(
    alloc: Global,
    graph: &MomentGraph,
    degree: u32,
) -> Result<Sheaf<PrimeField>, AllocError>
    requires on { IsCheckableGraph graph.now }
    requires degree { degree ≤ 6 }
    ensures { IfOk result (λ s. (s.graph ≡ graph.now) × (s.degree ≡ degree) × (s.stalks ≡ [])) }
{
    let field = match PrimeField::new(graph.prime()) {
        Ok(field) => field,
        Err(_) => unreachable!(),
    };
    Sheaf::new(alloc, graph, field, degree)
}

/// The sheaf that parts write down on a graph: its stalks come from the greatest vertex down.
fn sheaf_of(alloc: Global, graph: &MomentGraph, c: &Given) -> Result<Sheaf<PrimeField>, AllocError>
    requires checkable { IsCheckable graph.now c.now.version (written_in c.now) }
    requires count { CountPasses graph.now (written_in c.now) }
    requires shape { ShapePasses graph.now (method_in c.now) (written_in c.now) }
    ensures { IfOk result (IsSheafOf graph.now (written_in c.now)) }
{
    let mut sheaf = empty_sheaf(alloc, graph, c.degree)?;
    'parts: for i in 0..c.parts.len() {
        push_part(&mut sheaf, c.parts.at(i))?;
    }
    Ok(sheaf)
}

/// The same sheaf by so many workers: the stalks of the vertices of one length come at once.
pub(crate) fn sheaf_by(
    rt: &(impl Threads + Sync),
    alloc: Global,
    graph: &MomentGraph,
    c: &Given,
    workers: u32,
) -> Result<Sheaf<PrimeField>, AllocError>
    requires checkable { IsCheckable graph.now c.now.version (written_in c.now) }
    requires count { CountPasses graph.now (written_in c.now) }
    requires shape { ShapePasses graph.now (method_in c.now) (written_in c.now) }
    requires workers { (1 ≤ workers) × (workers ≤ 32) }
    ensures { IfOk result (IsSheafOf graph.now (written_in c.now)) }
{
    if workers == 1 {
        let one_by_one = sheaf_of(alloc, graph, c)?;
        return Ok(one_by_one);
    }
    let mut sheaf = empty_sheaf(alloc, graph, c.degree)?;
    add_stalks(rt, alloc, &mut sheaf, c, workers)?;
    Ok(sheaf)
}

/// Compares the number of parts with that of the vertices of the graph, and all sizes, before any sheaf is made. A
/// refusal is the first comparison that fails; where none does, the table of sizes comes.
pub(crate) fn check_sizes(
    alloc: Global,
    graph: &MomentGraph,
    c: &Given,
) -> Result<SizeTable, CheckError>
    requires checkable { IsCheckable graph.now c.now.version (written_in c.now) }
    ensures sizes { IfOk result (AreSizesOf graph.now (method_in c.now) (written_in c.now)) }
    ensures count { OnOk result (CountPasses graph.now (written_in c.now)) }
    ensures shape { OnOk result (ShapePasses graph.now (method_in c.now) (written_in c.now)) }
    ensures refused { let w = written_in c.now in
        IfErr result (IsRefusedBy (λ r. IsCountRefusal graph.now w r ⊎
        (CountPasses graph.now w × IsShapeRefusal graph.now (method_in c.now) w r))) }
{
    check_count(graph, c)?;
    let sizes = SizeTable::new(alloc, graph, c)?;
    check_shape(graph, c, &sizes)?;
    Ok(sizes)
}

/// Parts whose number and sizes all pass, by their table of sizes, with the sheaf that they write down.
pub(crate) fn shaped_of<'a>(
    graph: &'a MomentGraph,
    c: &Given<'a>,
    sizes: SizeTable,
    sheaf: Sheaf<PrimeField>,
) -> Shaped<'a>
    requires checkable { IsCheckable graph.now c.now.version (written_in c.now) }
    requires sizes { AreSizesOf graph.now (method_in c.now) (written_in c.now) sizes }
    requires count { CountPasses graph.now (written_in c.now) }
    requires shape { ShapePasses graph.now (method_in c.now) (written_in c.now) }
    requires sheaf { IsSheafOf graph.now (written_in c.now) sheaf }
    ensures whole { IsWhole result }
    ensures graph { graph_in result ≡ graph.now }
    ensures version { version_in result ≡ c.now.version }
    ensures cert { cert_in result ≡ written_in c.now }
{
    Shaped {
        graph,
        given: *c,
        sizes,
        sheaf,
    }
}

/// Compares the number of parts with that of the vertices of the graph, and all sizes, before any sheaf is made. A
/// refusal is the first comparison that fails; where none does, the parts come with the sheaf that they write down.
pub fn shape<'a>(
    alloc: Global,
    graph: &'a MomentGraph,
    c: &Given<'a>,
) -> Result<Shaped<'a>, CheckError>
    requires checkable { IsCheckable graph.now c.now.version (written_in c.now) }
    ensures whole { IfOk result IsWhole }
    ensures graph { IfOk result (λ s. graph_in s ≡ graph.now) }
    ensures version { IfOk result (λ s. version_in s ≡ c.now.version) }
    ensures cert { IfOk result (λ s. cert_in s ≡ written_in c.now) }
    ensures count { OnOk result (CountPasses graph.now (written_in c.now)) }
    ensures shape { OnOk result (ShapePasses graph.now (method_in c.now) (written_in c.now)) }
    ensures refused { let w = written_in c.now in
        IfErr result (IsRefusedBy (λ r. IsCountRefusal graph.now w r ⊎
        (CountPasses graph.now w × IsShapeRefusal graph.now (method_in c.now) w r))) }
{
    let sizes = check_sizes(alloc, graph, c)?;
    let sheaf = sheaf_of(alloc, graph, c)?;
    Ok(shaped_of(graph, c, sizes, sheaf))
}
