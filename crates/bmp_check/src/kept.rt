//! The first block that is refused, of some of the blocks.
ghost use Rattle.std.specs.Prelude.{◌≡◌, ◌≤◌};
ghost use Rattle.bmp_check.specs.FirstRefusals.{earlier, IsOwn, KeepsFirst};
ghost use Rattle.bmp_check.specs.Settings.{shaped_in, IsSet};
ghost use Rattle.bmp_check.specs.Shaped.{IsRoomFor};
ghost use Rattle.bmp_check.specs.ShapedViews.{graph_in, method_at, cert_in};

use crate::block::check_block;
use crate::blocks::block_count;
use crate::refusal::Refusal;
use crate::scratch::BlockScratch;
use crate::setting::Setting;

/// A block that is refused, and its refusal.
#[derive(Clone, Copy, Debug)]
pub(crate) struct Kept {
    pub(crate) block: u32,
    pub(crate) refusal: Refusal,
}

/// The first block of a piece that is refused. They are gone through in their order.
pub(crate) fn first_refused(
    s: &Setting,
    workers: u32,
    number: u32,
    scratch: &mut BlockScratch,
) -> Option<Kept>
    requires some { 1 ≤ workers }
    requires set { IsSet s.now }
    requires room { let shaped = shaped_in s.now in
        IsRoomFor (graph_in shaped) (method_at shaped) (cert_in shaped) scratch.old }
    ensures first { KeepsFirst (shaped_in s.now) (IsOwn (shaped_in s.now) workers number) result }
    ensures room { let shaped = shaped_in s.now in
        IsRoomFor (graph_in shaped) (method_at shaped) (cert_in shaped) scratch.new }
{
    let shaped = s.shaped();
    let vertices = shaped.graph().vertices();
    let degree = shaped.given().degree;
    'each: for block in 0..block_count(vertices, degree) {
        if block / (degree + 1) % workers != number {
            continue;
        }
        if let Err(refusal) = check_block(s, block, scratch) {
            return Some(Kept { block, refusal });
        }
    }
    None
}

/// That of two kept blocks which comes first.
pub(crate) fn earlier_of(first: Option<Kept>, second: Option<Kept>) -> Option<Kept>
    ensures { result ≡ earlier first second }
{
    match (first, second) {
        (Some(a), Some(b)) => { if b.block < a.block { Some(b) } else { Some(a) } }
        (Some(a), None) => Some(a),
        (None, other) => other,
    }
}
