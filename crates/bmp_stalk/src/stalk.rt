//! The stalk at the next vertex, degree by degree, with its evidence by levels.
ghost use Rattle.std.specs.Prelude.{◌≡◌, ℕ, ◌+◌, ◌<◌, ◌≤◌, OnOk, IfOk, length};
ghost use Rattle.bmp_graph.specs.Graph.{vertex_count};
ghost use Rattle.bmp_sheaf.specs.States.{IsThere, sheaf_of};
ghost use Rattle.bmp_cover.specs.CoverInputs.{HasTuples};
ghost use Rattle.bmp_stalk.specs.Drafts.{under, AreFew, IsDrafted, IsLonger, IsBuiltDegree};
ghost use Rattle.bmp_stalk.specs.BuiltParts.{list_at, HaveMembers, IsBuiltPart};

use crate::choice::choose_generators;
use crate::draft::{Draft, begin_stalk, next_draft};
use bmp_cert::VertexPart;
use bmp_field::Field;
use bmp_levels::Family;
use bmp_linear::{Blocks, DegreeBlock, RowSpace};
use bmp_sections::Sections;
use bmp_sheaf::Sheaf;
use std::alloc::{AllocError, Global};

/// The stalk with the generators of one degree more, and the evidence of this degree.
#[derive(Debug, Drop)]
pub struct BuiltDegree {
    pub draft: Draft,
    pub block: DegreeBlock,
}

/// Wants memory where there are 2^32 boundary coordinates or more, or as many stalk coordinates and tuples.
fn check_few<F: Field, T: Sections>(
    sheaf: &Sheaf<F>,
    x: u32,
    d: u32,
    tuples: &T,
) -> Result<(), AllocError>
    requires there { IsThere sheaf.now x }
    requires degree { d ≤ sheaf.now.degree }
    ensures { OnOk result (AreFew sheaf.now.graph (sheaf_of sheaf.now) x d (T.list tuples.now).count) }
{
    let most = u64::from(u32::MAX);
    let on_stalk = sheaf.stalk_len(x, d);
    let on_boundary = sheaf.boundary_len(x, d);
    let count = tuples.count();
    if on_boundary > most || on_stalk > most || count > most - on_stalk {
        return Err(AllocError);
    }
    Ok(())
}

/// One degree at the vertex `x`, whose stalk so far stands on top of the sheaf as the draft: chooses which tuples
/// become generators, adds them to the stalk, and gives the evidence. The tuples have values at the vertices above `x`.
/// It works in rows that are kept as `rows` are, which are not read.
pub fn build_degree<F: Field, T: Sections, A: RowSpace<F>>(
    alloc: Global,
    sheaf: &mut Sheaf<F>,
    x: u32,
    d: u32,
    tuples: &T,
    rows: &A,
    draft: Draft,
) -> Result<BuiltDegree, AllocError>
    requires degree { d ≤ sheaf.old.degree }
    requires drafted { IsDrafted sheaf.old x d draft }
    requires tuples { HasTuples (under sheaf.old) x d (T.list tuples.now) }
    ensures drafted { IfOk result (λ b. IsDrafted sheaf.new x (d + 1) b.draft) }
    ensures under { OnOk result (under sheaf.new ≡ under sheaf.old) }
    ensures longer { IfOk result
        (λ b. (e : ℕ) → e < d → IsLonger sheaf.old.graph x e draft b.draft) }
    ensures built { IfOk result
        (λ b. IsBuiltDegree (under sheaf.old) x d (T.list tuples.now) b.block b.draft) }
{
    check_few(sheaf, x, d, tuples)?;
    let choice = choose_generators(alloc, sheaf, x, d, tuples, rows)?;
    let longer = next_draft(alloc, sheaf, x, d, tuples, &choice.chosen, draft)?;
    Ok(BuiltDegree {
        draft: longer,
        block: choice.block,
    })
}

/// Builds the stalk at the next vertex of the sheaf, the greatest whose stalk isn't there, degree by degree: for each
/// degree with the first `counts[d]` members of `families[d]`. Gives the stalk as the part of a certificate, with the
/// evidence of each degree. Works in rows that are kept as `rows` are. Where it wants memory the sheaf may have an
/// unfinished stalk.
pub fn build_stalk<F: Field, A: RowSpace<F>>(
    alloc: Global,
    sheaf: &mut Sheaf<F>,
    families: &[Family],
    counts: &[u32],
    rows: &A,
) -> Result<VertexPart, AllocError>
    requires left { length sheaf.old.stalks < vertex_count sheaf.old.graph }
    requires families { length families.now ≡ sheaf.old.degree + 1 }
    requires counts { length counts.now ≡ sheaf.old.degree + 1 }
    requires members { HaveMembers sheaf.old families.now counts.now }
    ensures { IfOk result (IsBuiltPart sheaf.old sheaf.new (list_at families.now counts.now)) }
{
    let x = sheaf.graph().vertices() - 1 - sheaf.pushed();
    let (first, past) = sheaf.graph().up(x);
    let mut draft = begin_stalk(alloc, sheaf)?;
    let mut blocks = Blocks::new(alloc);
    for d in 0..sheaf.degree() + 1 {
        let members = families[d as usize].members(counts[d as usize]);
        let built = build_degree(alloc, sheaf, x, d, &members, rows, draft)?;
        draft = built.draft;
        blocks.push(built.block)?;
    }
    Ok(draft.into_part(past - first, blocks))
}
