//! The check of one block.
ghost use Rattle.std.specs.Prelude.{◌≡◌, ◌≢◌, ◌≤◌, OnOk, IfErr, length};
ghost use Rattle.bmp_check.specs.declared.method.Method.TheVariants.{Spaces, Levels};
ghost use Rattle.bmp_check.specs.NumberedBlocks.{HasNumbered, PassesAt, IsRefusalAt};
ghost use Rattle.bmp_check.specs.Settings.{HoldsFamilies, shaped_in, IsSet};
ghost use Rattle.bmp_check.specs.Shaped.{HasWidth, IsRoomFor};
ghost use Rattle.bmp_check.specs.ShapedViews.{graph_in, method_at, cert_in, IsWhole};
ghost use Rattle.bmp_check.specs.Sizes.{counts_at};
ghost use Rattle.bmp_check.specs.Verdicts.{HasBlock, BlockPasses, IsBlockRefusal};

use crate::blocks::block_at;
use crate::evidence::{check_cover_at, check_kernel_at};
use crate::method::Method;
use crate::part::{block_of, part_of};
use crate::refusal::Refusal;
use crate::scratch::BlockScratch;
use crate::setting::Setting;
use crate::shaped::Shaped;
use bmp_levels::Family;
use bmp_linear::Scratch;
use bmp_sections::{Equations, Tuples};
use bmp_sheaf::BoundaryRows;

/// Makes the comparisons of a block by whole spaces: of kinds Section and Row with the edge equations over the vertices
/// above its vertex, and then of kinds Cover, Source and Dual with the sections of its own kernel evidence.
fn check_by_spaces(s: &Shaped, x: u32, d: u32, scratch: &mut BlockScratch) -> Result<(), Refusal>
    requires whole { IsWhole s.now }
    requires method { method_at s.now ≡ Spaces }
    requires block { HasBlock (graph_in s.now) (cert_in s.now) x d }
    requires room { IsRoomFor (graph_in s.now) (method_at s.now) (cert_in s.now) scratch.old }
    ensures ok { OnOk result (BlockPasses (graph_in s.now) (method_at s.now) (cert_in s.now) x d) }
    ensures first { IfErr result (IsBlockRefusal (graph_in s.now) (method_at s.now) (cert_in s.now) x d) }
    ensures differ { IfErr result (λ r. r.left ≢ r.right) }
    ensures room { IsRoomFor (graph_in s.now) (method_at s.now) (cert_in s.now) scratch.new }
{
    let sheaf = s.sheaf();
    let block = block_of(part_of(s.given(), x), d);
    scratch.index.fill(sheaf, x, d);
    let equations = Equations::over(sheaf, x, d, &scratch.index);
    check_kernel_at(s, x, d, &equations, &mut scratch.numbers)?;
    let tuples = Tuples::over(sheaf, x, d, &scratch.index, &block.kernel.basis);
    check_cover_at(s, x, d, &tuples, false, &mut scratch.numbers)
}

/// Makes the comparisons of a block by levels: of kinds Cover, Source and Dual with the members of the family over the
/// longer vertices, which are the first of those of a family over all vertices; and then of kind Kernel with the
/// boundary map at its vertex. The family's own values there are the covers: where these have the boundaries of all
/// members at once, no cover is compared for itself.
fn check_by_levels(
    s: &Shaped,
    family: &Family,
    x: u32,
    d: u32,
    numbers: &mut Scratch,
    sums: &mut [u16],
) -> Result<(), Refusal>
    requires whole { IsWhole s.now }
    requires method { method_at s.now ≡ Levels }
    requires family { HoldsFamilies (graph_in s.now) (cert_in s.now) d family.now }
    requires block { HasBlock (graph_in s.now) (cert_in s.now) x d }
    requires width { HasWidth (graph_in s.now) (method_at s.now) (cert_in s.now) (length numbers.old.first) }
    requires sums { (counts_at (graph_in s.now) (method_at s.now) (cert_in s.now) x d).tuples ≤ length sums.old }
    ensures ok { OnOk result (BlockPasses (graph_in s.now) (method_at s.now) (cert_in s.now) x d) }
    ensures first { IfErr result (IsBlockRefusal (graph_in s.now) (method_at s.now) (cert_in s.now) x d) }
    ensures differ { IfErr result (λ r. r.left ≢ r.right) }
    ensures width { length numbers.new.first ≡ length numbers.old.first }
    ensures sums { length sums.new ≡ length sums.old }
{
    let sheaf = s.sheaf();
    let block = block_of(part_of(s.given(), x), d);
    let count = block.cover.covers.len();
    let members = family.members(count);
    let known = members.agree_at(sheaf, x, d, &mut sums[..count as usize]);
    check_cover_at(s, x, d, &members, known, numbers)?;
    let boundary = BoundaryRows::of(sheaf, x, d);
    check_kernel_at(s, x, d, &boundary, numbers)
}

/// Makes the comparisons of the block number `i`, kind after kind. A refusal is the first that fails. Takes no memory,
/// and whatever the scratch holds before, the answer is the same.
pub fn check_block(s: &Setting, i: u32, scratch: &mut BlockScratch) -> Result<(), Refusal>
    requires set { IsSet s.now }
    requires block { HasNumbered (shaped_in s.now) i }
    requires room { let shaped = shaped_in s.now in
        IsRoomFor (graph_in shaped) (method_at shaped) (cert_in shaped) scratch.old }
    ensures ok { OnOk result (PassesAt (shaped_in s.now) i) }
    ensures first { IfErr result (IsRefusalAt (shaped_in s.now) i) }
    ensures differ { IfErr result (λ r. r.left ≢ r.right) }
    ensures room { let shaped = shaped_in s.now in
        IsRoomFor (graph_in shaped) (method_at shaped) (cert_in shaped) scratch.new }
{
    let shaped = s.shaped();
    let (x, d) = block_at(shaped.graph().vertices(), shaped.given().degree, i);
    match shaped.given().method() {
        Method::Spaces => check_by_spaces(shaped, x, d, scratch),
        Method::Levels => check_by_levels(
            shaped,
            s.family(d),
            x,
            d,
            &mut scratch.numbers,
            &mut scratch.sums,
        ),
    }
}
