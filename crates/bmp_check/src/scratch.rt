//! Room to work in for the check of blocks.
ghost use Rattle.std.specs.Prelude.{◌≡◌, ℕ, ◌≤◌, ◌<◌, IfOk, length};
ghost use Rattle.bmp_graph.specs.Graph.{vertex_count};
ghost use Rattle.bmp_sheaf.specs.Coordinates.{stalk_count, boundary_count};
ghost use Rattle.bmp_check.specs.declared.method.Method.TheVariants.{Spaces, Levels};
ghost use Rattle.bmp_check.specs.Shaped.{IsRoomFor};
ghost use Rattle.bmp_check.specs.ShapedViews.{graph_in, method_at, cert_in, IsWhole};
ghost use Rattle.bmp_check.specs.PartsSheaf.{parts_sheaf};
ghost use Rattle.bmp_check.specs.Sizes.{counts_at, largest};
ghost use Rattle.bmp_check.specs.Verdicts.{HasBlock};

use crate::blocks::{block_at, block_count};
use crate::method::Method;
use crate::shaped::Shaped;
use bmp_linear::Scratch;
use bmp_sections::SectionIndex;
use std::alloc::{AllocError, Global};

/// Room for the check of any block of a certificate: where its positions and equations stand by whole spaces, two rows
/// of numbers, and by levels a sum for each member of a family.
#[derive(Debug, Drop)]
pub struct BlockScratch {
    pub index: SectionIndex,
    pub numbers: Scratch,
    pub sums: Vec<u16>,
}

/// The most rows of a block, the largest of all sizes of blocks, and the most sections of one.
fn block_room(s: &Shaped) -> (u64, u64, u64)
    requires { IsWhole s.now }
    ensures rows { let G = graph_in s.now in let m = method_at s.now in let c = cert_in s.now in
        (x d : ℕ) → HasBlock G c x d → (counts_at G m c x d).rows ≤ result.0 }
    ensures sizes { let G = graph_in s.now in let m = method_at s.now in let c = cert_in s.now in
        (x d : ℕ) → HasBlock G c x d → largest (counts_at G m c x d) ≤ result.1 }
    ensures sections { let G = graph_in s.now in let m = method_at s.now in let c = cert_in s.now in
        (x d : ℕ) → HasBlock G c x d → (counts_at G m c x d).tuples ≤ result.2 }
{
    let graph = s.graph();
    let given = s.given();
    let vertices = graph.vertices();
    let degree = given.degree;
    let table = s.sizes();
    let mut rows = 0;
    let mut most = 0;
    let mut sections = 0;
    'each: for i in 0..block_count(vertices, degree) {
        let (x, d) = block_at(vertices, degree, i);
        let sizes = table.block(graph, given, x, d);
        rows = sizes.rows.max(rows);
        most = sizes.largest().max(most);
        sections = sizes.tuples.max(sections);
    }
    (rows, most, sections)
}

/// The most coordinates of a stalk or of a boundary, in any degree.
fn coordinate_room(s: &Shaped) -> u64
    requires { IsWhole s.now }
    ensures stalks { let G = graph_in s.now in let c = cert_in s.now in
        (x d : ℕ) → x < vertex_count G → d ≤ c.degree → stalk_count G.rank ((parts_sheaf G c).degrees x) d ≤ result }
    ensures boundaries { let G = graph_in s.now in let c = cert_in s.now in
        (x d : ℕ) → x < vertex_count G → d ≤ c.degree → boundary_count G (parts_sheaf G c) x d ≤ result }
{
    let sheaf = s.sheaf();
    let degree = sheaf.degree();
    let mut most = 0;
    'degrees: for d in 0..degree + 1 {
        most = sheaf.scratch_len(d).max(most);
    }
    most
}

/// Room for the places of the positions and of so many equations, by whole spaces.
fn index_for(alloc: Global, s: &Shaped, equations: u64) -> Result<SectionIndex, AllocError>
    ensures vertices { IfOk result (λ index. method_at s.now ≡ Spaces →
        vertex_count (graph_in s.now) ≤ length index.starts.items) }
    ensures equations { IfOk result (λ index. method_at s.now ≡ Spaces → equations ≤ length index.places.items) }
{
    match s.given().method() {
        Method::Spaces => SectionIndex::new(alloc, s.graph().vertices(), equations),
        Method::Levels => SectionIndex::new(alloc, 0, 0),
    }
}

/// So many sums, by levels.
fn sums_for(alloc: Global, s: &Shaped, sections: u64) -> Result<Vec<u16>, AllocError>
    ensures { IfOk result (λ sums. method_at s.now ≡ Levels → length sums.items ≡ sections) }
{
    match s.given().method() {
        Method::Spaces => Ok(Vec::new(alloc)),
        Method::Levels => no_sums(alloc, sections as usize),
    }
}

/// So many 0s.
fn no_sums(alloc: Global, len: usize) -> Result<Vec<u16>, AllocError>
    ensures { IfOk result (λ sums. length sums.items ≡ len) }
{
    vec![in alloc; 0; len]
}

/// What any block needs: as many numbers as the largest of all sizes, by whole spaces as many places as the most
/// equations, and by levels as many sums as the most sections.
pub fn scratch_for(alloc: Global, s: &Shaped) -> Result<BlockScratch, AllocError>
    requires { IsWhole s.now }
    ensures { IfOk result (IsRoomFor (graph_in s.now) (method_at s.now) (cert_in s.now)) }
{
    let (rows, largest, sections) = block_room(s);
    let numbers = coordinate_room(s).max(largest);
    Ok(BlockScratch {
        index: index_for(alloc, s, rows)?,
        numbers: Scratch::new(alloc, numbers)?,
        sums: sums_for(alloc, s, sections)?,
    })
}
