//! Pieces on places of their own.
ghost use Rattle.std.specs.Prelude.{◌≡◌, ◌≤◌, IfOk, vec_len};

use crate::gates::{Counter, Meeting};
use bmp_par::{Piece, run_pieces};
use std::test::Fail;

/// Counts how often it has run.
#[derive(Drop)]
struct Tally {
    runs: u32,
}

impl Piece for Tally {
    ghost leaves = { λ before after. before.runs ≤ after.runs };

    fn run(&mut self) {
        self.runs = self.runs.saturating_add(1);
    }
}

/// So many pieces, the one of number i with i runs.
fn tallies(rt: &impl AllocGlobal, n: u32) -> Result<Vec<Tally>, Fail>
    ensures { IfOk result (λ v. vec_len v ≡ n) }
{
    let mut pieces = Vec::new(rt.alloc());
    'pieces: for runs in 0..n {
        pieces.push(Tally { runs })?;
    }
    Ok(pieces)
}

#[test]
fn each_piece_runs_once(rt: HostRuntime) -> Result<(), Fail> {
    for n in [0u32, 1, 2, 7, 31, 32, 33, 100] {
        let gate = Counter::new();
        let mut pieces = tallies(&rt, n)?;
        run_pieces(&rt, &mut pieces, &gate);
        let once = pieces
            .iter()
            .enumerate()
            .all(|(i, piece)| u64::from(piece.runs) == i as u64 + 1);
        let passes = u64::from(n);
        let numbers = passes * passes.saturating_sub(1) / 2;
        assert_eq!(rt;
            (once, gate.seen()),
            (true, (passes, numbers)),
            "{n} pieces"
        );
    }
    Ok(())
}

#[test]
fn two_pieces_at_once(rt: HostRuntime) -> Result<(), Fail> {
    let gate = Meeting::new();
    let mut pieces = tallies(&rt, 2)?;
    run_pieces(&rt, &mut pieces, &gate);
    assert_eq!(rt; gate.met(), 2);
    Ok(())
}
