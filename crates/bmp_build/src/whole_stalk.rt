//! The stalk at the next vertex, degree by degree, with its evidence by whole spaces of sections.
ghost use Rattle.std.specs.Prelude.{◌≡◌, ℕ, ◌+◌, ◌<◌, ◌≤◌, OnOk, IfOk, length};
ghost use Rattle.bmp_graph.specs.Graph.{vertex_count};
ghost use Rattle.bmp_stalk.specs.Drafts.{under, IsDrafted, IsLonger};
ghost use Rattle.bmp_build.specs.WholeSpaces.{IsWholePart, IsSameSheaf, IsBuiltSpace};

use crate::whole_space::whole_space;
use bmp_cert::VertexPart;
use bmp_field::Field;
use bmp_linear::{Blocks, DegreeBlock, DenseRows};
use bmp_sections::Tuples;
use bmp_sheaf::Sheaf;
use bmp_stalk::{BuiltDegree, Draft, begin_stalk, build_degree};
use std::alloc::{AllocError, Global};

/// One degree at the vertex `x`, whose stalk so far stands on top of the sheaf as the draft: chooses which sections of
/// the whole space become generators. `above` is the sheaf without the draft, of which the sections are.
fn build_space<F: Field>(
    alloc: Global,
    above: &Sheaf<F>,
    sheaf: &mut Sheaf<F>,
    x: u32,
    d: u32,
    rows: &DenseRows<F>,
    draft: Draft,
) -> Result<BuiltDegree, AllocError>
    requires degree { d ≤ sheaf.old.degree }
    requires drafted { IsDrafted sheaf.old x d draft }
    requires above { IsSameSheaf above.now (under sheaf.old) }
    ensures drafted { IfOk result (λ b. IsDrafted sheaf.new x (d + 1) b.draft) }
    ensures under { OnOk result (under sheaf.new ≡ under sheaf.old) }
    ensures longer { IfOk result
        (λ b. (e : ℕ) → e < d → IsLonger sheaf.old.graph x e draft b.draft) }
    ensures built { IfOk result (λ b. IsBuiltSpace (under sheaf.old) x d b.block b.draft) }
{
    let space = whole_space(alloc, above, x, d)?;
    let sections = Tuples::over(above, x, d, &space.index, &space.kernel.basis);
    let built = build_degree(alloc, sheaf, x, d, &sections, rows, draft)?;
    Ok(BuiltDegree {
        draft: built.draft,
        block: DegreeBlock {
            kernel: space.kernel,
            cover: built.block.cover,
        },
    })
}

/// Builds the stalk at the next vertex of the sheaf, the greatest whose stalk isn't there, degree by degree: for each
/// degree with the whole space of sections over the vertices above it. `above` is the same sheaf in memory. Gives the
/// stalk as the part of a certificate, with the evidence of each degree. Where it wants memory the sheaf may have an
/// unfinished stalk.
pub(crate) fn build_whole_stalk<F: Field>(
    alloc: Global,
    above: &Sheaf<F>,
    sheaf: &mut Sheaf<F>,
) -> Result<VertexPart, AllocError>
    requires left { length sheaf.old.stalks < vertex_count sheaf.old.graph }
    requires above { IsSameSheaf above.now sheaf.old }
    ensures { IfOk result (IsWholePart sheaf.old sheaf.new) }
{
    let x = sheaf.graph().vertices() - 1 - sheaf.pushed();
    let (first, past) = sheaf.graph().up(x);
    let mut draft = begin_stalk(alloc, sheaf)?;
    let mut blocks = Blocks::new(alloc);
    let rows = DenseRows::new(alloc, 0);
    'degrees: for d in 0..sheaf.degree() + 1 {
        let built = build_space(alloc, above, sheaf, x, d, &rows, draft)?;
        draft = built.draft;
        blocks.push(built.block)?;
    }
    Ok(draft.into_part(past - first, blocks))
}
