//! Work by threads, with the answer of one thread: numbered tasks whose results are gathered in order, and pieces of
//! work that each stand on a place of their own.
//!
//! The threads share nothing that changes: no lock and no word that two of them write. A contract says of each result
//! and of each piece what it says of it under one thread; how many threads there are, and which of them runs what and
//! when, is in no clause. Where no thread can be made, the work is done by those that there are.
#![tactic(auto)]

mod gate;
mod piece;
mod task;

pub use gate::{Gate, OpenGate};
pub use piece::{Piece, run_pieces};
pub use task::{Task, run_tasks};
