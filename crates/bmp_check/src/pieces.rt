//! The blocks dealt out to workers.
ghost use Rattle.std.specs.Prelude.{◌≡◌, ◌≢◌, ◌≤◌, ◌<◌, ◌^◌, ℕ, OnOk, IfOk, IfErr, length};
ghost use Rattle.bmp_check.specs.FirstRefusals.{IsOwn, IsOfFirst, KeepsFirst};
ghost use Rattle.bmp_check.specs.Pieces.{HaveRoom, EachKeeps};
ghost use Rattle.bmp_check.specs.Settings.{shaped_in, IsSet};
ghost use Rattle.bmp_check.specs.Shaped.{IsRoomFor};
ghost use Rattle.bmp_check.specs.ShapedViews.{graph_in, method_at, cert_in, IsWhole};
ghost use Rattle.bmp_check.specs.Verdicts.{BlocksPass, IsFirstBlockRefusal};
ghost use Rattle.bmp_check.specs.declared.shaped.Shaped.{Shaped};

use crate::kept::{Kept, earlier_of, first_refused};
use crate::refusal::Refusal;
use crate::scratch::{BlockScratch, scratch_for};
use crate::setting::Setting;
use crate::shaped::Shaped;
use bmp_par::Gate;
use std::alloc::{AllocError, Global};
use std::thread;
use std::thread::Threads;

/// What a worker has for itself: room to work in, and the first of its blocks that is refused.
#[derive(Drop)]
pub(crate) struct Piece {
    pub(crate) scratch: BlockScratch,
    pub(crate) kept: Option<Kept>,
}

/// A piece for each worker.
pub(crate) fn pieces_for(alloc: Global, s: &Shaped, workers: u32) -> Result<Vec<Piece>, AllocError>
    requires { IsWhole s.now }
    ensures count { IfOk result (λ pieces. length pieces.items ≡ workers) }
    ensures room { IfOk result (λ pieces. HaveRoom s.now pieces.items) }
{
    let mut pieces = Vec::new(alloc);
    'pieces: for _ in 0..workers {
        let scratch = scratch_for(alloc, s)?;
        pieces.push(Piece {
            scratch,
            kept: None,
        })?;
    }
    Ok(pieces)
}

/// Has each worker go through its blocks, those of every so many-th vertex. The gate is passed before each piece.
fn run_pieces<G: Gate>(
    rt: &(impl Threads + Sync),
    s: &Setting,
    workers: u32,
    pieces: &mut [Piece],
    gate: &G,
)
    requires some { 1 ≤ workers }
    requires set { IsSet s.now }
    requires room { HaveRoom (shaped_in s.now) pieces.old }
    requires few { length pieces.old < 2 ^ 32 }
    ensures keeps { EachKeeps (shaped_in s.now) workers pieces.new }
    ensures count { length pieces.new ≡ length pieces.old }
{
    thread::for_each_mut(
        rt,
        pieces,
        workers as usize,
        &|i: usize, piece: &mut Piece|
            requires some { 1 ≤ workers }
            requires set { IsSet s.now }
            requires number { i < 2 ^ 32 }
            requires room { let shaped = shaped_in s.now in
                IsRoomFor (graph_in shaped) (method_at shaped) (cert_in shaped) piece.now.scratch }
            ensures { KeepsFirst (shaped_in s.entry.now) (IsOwn (shaped_in s.entry.now) workers i)
                piece.exit.now.kept }
        {
            gate.pass(i as u32);
            piece.kept = first_refused(s, workers, i as u32, &mut piece.scratch);
        },
    );
}

/// The kept block that comes first.
fn first_kept(pieces: &[Piece]) -> Option<Kept>
    ensures { (s : Shaped) (workers : ℕ) → EachKeeps s workers pieces.now
        → KeepsFirst s (IsOfFirst s workers (length pieces.now)) result }
{
    let mut first = None;
    for piece in pieces {
        first = earlier_of(first, piece.kept);
    }
    first
}

/// Checks the blocks by so many workers. A refusal is that of the first block, in the order of the blocks, that is
/// refused, whatever the number of workers is.
pub(crate) fn check_blocks<G: Gate>(
    rt: &(impl Threads + Sync),
    s: &Setting,
    workers: u32,
    pieces: &mut [Piece],
    gate: &G,
) -> Result<(), Refusal>
    requires some { 1 ≤ workers }
    requires set { IsSet s.now }
    requires count { length pieces.old ≡ workers }
    requires room { HaveRoom (shaped_in s.now) pieces.old }
    ensures ok { let shaped = shaped_in s.now in
        OnOk result (BlocksPass (graph_in shaped) (method_at shaped) (cert_in shaped)) }
    ensures first { let shaped = shaped_in s.now in
        IfErr result (IsFirstBlockRefusal (graph_in shaped) (method_at shaped) (cert_in shaped)) }
    ensures differ { IfErr result (λ r. r.left ≢ r.right) }
{
    run_pieces(rt, s, workers, pieces, gate);
    match first_kept(pieces) {
        None => Ok(()),
        Some(kept) => Err(kept.refusal),
    }
}
