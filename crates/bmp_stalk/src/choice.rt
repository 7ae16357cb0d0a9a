//! One vertex and one degree: which tuples become generators, with the evidence.
ghost use Rattle.std.specs.Prelude.{IfOk};
ghost use Rattle.bmp_sheaf.specs.States.{sheaf_of};
ghost use Rattle.bmp_cover.specs.CoverInputs.{HasStalks, HasTuples};
ghost use Rattle.bmp_stalk.specs.Blocks.{AreChosenTuples, IsChosenAt};
ghost use Rattle.bmp_stalk.specs.Drafts.{AreFew};

use crate::joined::joined_boundary;
use bmp_elim::extend_columns;
use bmp_field::Field;
use bmp_linear::{CoverEvidence, DegreeBlock, Places, RowSpace, Vector, Vectors};
use bmp_sections::Sections;
use bmp_sheaf::Sheaf;
use std::alloc::{AllocError, Global};

/// The tuples that become generators, and the evidence: of covers, sources and dual forms, and of the kernel.
#[derive(Debug, Drop)]
pub struct Choice {
    pub chosen: Places,
    pub block: DegreeBlock,
}

/// For each chosen tuple the vector that is 1 at it.
fn sources_of(alloc: Global, chosen: &Places) -> Result<Vectors, AllocError>
    ensures { IfOk result (AreChosenTuples chosen.now) }
{
    let mut sources = Vectors::with_capacity(alloc, chosen.len() as usize)?;
    for place in chosen.as_slice() {
        let source = Vector::unit(alloc, *place)?;
        sources.push(source)?;
    }
    Ok(sources)
}

/// Chooses the tuples at `x` in degree `d` that become generators of this degree, by the boundaries of the generators
/// that are there, all of lower degree. The evidence is for the sheaf in which the chosen ones are generators too. One
/// elimination of a matrix with a row for each boundary coordinate, in rows that are kept as `rows` are.
pub fn choose_generators<F: Field, T: Sections, A: RowSpace<F>>(
    alloc: Global,
    sheaf: &Sheaf<F>,
    x: u32,
    d: u32,
    tuples: &T,
    rows: &A,
) -> Result<Choice, AllocError>
    requires stalks { HasStalks sheaf.now x d }
    requires tuples { HasTuples sheaf.now x d (T.list tuples.now) }
    requires few { AreFew sheaf.now.graph (sheaf_of sheaf.now) x d (T.list tuples.now).count }
    ensures { IfOk result
        (λ c. IsChosenAt sheaf.now.graph (sheaf_of sheaf.now) x d (T.list tuples.now) c.chosen c.block) }
{
    let f = sheaf.field();
    let o = joined_boundary(alloc, sheaf, x, d, tuples, rows)?;
    let split = sheaf.stalk_len(x, d) as u32;
    let e = extend_columns(alloc, f, o, split)?;
    let sources = sources_of(alloc, &e.chosen)?;
    let cover = CoverEvidence {
        covers: e.sums,
        sources,
        duals: e.duals,
    };
    Ok(Choice {
        chosen: e.chosen,
        block: DegreeBlock {
            kernel: e.kernel,
            cover,
        },
    })
}
