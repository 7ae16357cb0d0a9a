//! Texts: lines of words and canonical numbers, read from the left with the exact first fault, and printed.
//!
//! A text is a list of lines, each of which ends with one line feed. A line is a list of words with single
//! spaces between them: a keyword, and canonical decimal numbers. `Lines` gives the lines of a text, and
//! `Line` the words of a line. After a fault a cursor stays before the offending word, or line.
//!
//! `specs/` has each step as a function from a cursor to a value and the cursor behind it, or to the first
//! fault (Cursor), the ways in which steps are put together (Readers, Sequence), and their printed forms
//! (Printing). `proofs/` has for each way one pair of laws: what is read is printed so, and what is printed
//! is read again (Pairs, LinePairs), and the lemmas for loops over a step (Loops, PrintingLoops).
#![tactic(auto)]

mod ahead;
mod fault;
pub mod laws;
mod line;
mod lines;
mod number;
mod quick;

pub use ahead::Ahead;
pub use fault::{NumberFault, TextFault, TextKind};
pub use line::Line;
pub use lines::Lines;
pub use number::{push_int, push_number, read_int};
