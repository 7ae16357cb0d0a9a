//! Elements of a finite Weyl group: products, lengths, descents and reduced words.
//!
//! An element is the integer matrix of what it makes of the simple roots: column j is the image of the simple root j. The
//! product of a word is taken left to right, so the word `1 2` is the simple reflection 1 after the simple reflection 2, and
//! reflections act on the left. The length is the number of positive roots that an element makes negative, which is the number
//! of letters of its shortest words.
//!
//! Letters, rows and columns count from 1 in the calls, and from 0 in `specs/`. `laws` has the laws of words and length.
//! Only `Elem::right_word` and `Letters` take memory.
#![tactic(auto)]

pub mod elem;
pub mod laws;
pub mod letters;
mod matrix;
mod reflecting;
mod simple;
pub mod word;

pub use elem::Elem;
pub use letters::Letters;
pub use word::{BadLetter, product};
