//! Pieces of work, each on a place of its own.
ghost use Rattle.std.specs.Prelude.{◌<◌, ◌^◌, length};
ghost use Rattle.bmp_par.specs.Outcomes.{AllLeft};

use crate::gate::Gate;
use std::thread;
use std::thread::Threads;

/// A part of some work with the place that it works on. Nobody else has the place while it runs.
pub trait Piece: Send {
    /// What the work may leave of a piece.
    ghost leaves: { Self → Self → Type 0 };

    /// Does the work.
    fn run(&mut self)
        ensures { leaves self.old self.new };
}

/// The most threads that pieces are spread over. Up to so many pieces each have one of their own.
const MOST_THREADS: usize = 32;

/// Runs each piece once. The gate is passed before each piece, with its number. Takes no memory.
pub fn run_pieces<P: Piece, G: Gate>(rt: &(impl Threads + Sync), pieces: &mut [P], gate: &G)
    requires { length pieces.old < 2 ^ 32 }
    ensures { AllLeft P.leaves pieces.old pieces.new }
{
    thread::for_each_mut(
        rt,
        pieces,
        MOST_THREADS,
        &|i: usize, piece: &mut P|
            requires { i < 2 ^ 32 }
            ensures { P.leaves piece.entry.now piece.exit.now }
        {
            gate.pass(i as u32);
            piece.run();
        },
    );
}
