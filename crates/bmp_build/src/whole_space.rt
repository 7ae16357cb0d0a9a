//! The whole space of sections of one degree over the vertices above a vertex.
ghost use Rattle.std.specs.Prelude.{◌≡◌, ◌+◌, ◌^◌, ◌<◌, ◌≤◌, IfOk, OnOk};
ghost use Rattle.bmp_graph.specs.Graph.{vertex_count};
ghost use Rattle.bmp_sheaf.specs.States.{sheaf_of};
ghost use Rattle.bmp_sections.specs.Indexes.{AboveIsThere, IsIndexFor};
ghost use Rattle.bmp_build.specs.WholeSpaces.{positions_above, equations_above, IsWholeSpace};

use bmp_elim::kernel;
use bmp_field::Field;
use bmp_linear::KernelEvidence;
use bmp_sections::SectionIndex;
use bmp_sections::constraints::constraints;
use bmp_sheaf::Sheaf;
use std::alloc::{AllocError, Global};

/// A whole space of sections: where their positions stand, and a basis with evidence.
#[derive(Debug, Drop)]
pub(crate) struct WholeSpace {
    pub(crate) index: SectionIndex,
    pub(crate) kernel: KernelEvidence,
}

/// A sum, which wants memory where it is 2^32 or more.
fn sum_of(sum: u64, more: u64) -> Result<u64, AllocError>
    requires { sum < 2 ^ 32 }
    ensures { IfOk result (λ n. (n ≡ sum + more) × (n < 2 ^ 32)) }
{
    if more > u64::from(u32::MAX) - sum {
        return Err(AllocError);
    }
    Ok(sum + more)
}

/// How many edge equations there are over the vertices above `x`, in degree `d`. Wants memory where there are 2^32 or
/// more, or as many positions.
fn count_equations<F: Field>(sheaf: &Sheaf<F>, x: u32, d: u32) -> Result<u64, AllocError>
    requires vertex { x < vertex_count sheaf.now.graph }
    requires there { AboveIsThere sheaf.now x }
    requires degree { d ≤ sheaf.now.degree }
    ensures number { IfOk result (λ n. n ≡ equations_above sheaf.now.graph (sheaf_of sheaf.now) x d) }
    ensures few { IfOk result (λ n. n < 2 ^ 32) }
    ensures few_positions { OnOk result (positions_above sheaf.now.graph (sheaf_of sheaf.now) x d < 2 ^ 32) }
{
    let mut positions = 0;
    let mut equations = 0;
    'vertices: for y in 0..sheaf.graph().vertices() {
        if sheaf.graph().is_above(y, x) {
            positions = sum_of(positions, sheaf.stalk_len(y, d))?;
            equations = sum_of(equations, sheaf.boundary_len(y, d))?;
        }
    }
    Ok(equations)
}

/// The whole space of sections of degree `d` over the vertices above `x`: one elimination of the edge equations there.
pub(crate) fn whole_space<F: Field>(
    alloc: Global,
    sheaf: &Sheaf<F>,
    x: u32,
    d: u32,
) -> Result<WholeSpace, AllocError>
    requires vertex { x < vertex_count sheaf.now.graph }
    requires there { AboveIsThere sheaf.now x }
    requires degree { d ≤ sheaf.now.degree }
    ensures index { IfOk result (λ w. IsIndexFor sheaf.now x d w.index) }
    ensures kernel { IfOk result (λ w. IsWholeSpace sheaf.now.graph (sheaf_of sheaf.now) x d w.kernel) }
{
    let equations = count_equations(sheaf, x, d)?;
    let mut index = SectionIndex::new(alloc, sheaf.graph().vertices(), equations)?;
    index.fill(sheaf, x, d);
    let rows = constraints(alloc, sheaf, x, d, &index)?;
    let evidence = kernel(alloc, sheaf.field(), &rows)?;
    Ok(WholeSpace {
        index,
        kernel: evidence,
    })
}
