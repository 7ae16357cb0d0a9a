//! Rows of bits, 64 to a word, over the field of two elements.
//!
//! `BitField` meets `Field` and `PackedRows` meets `RowSpace` over it, so whatever works on the rows of any
//! field works on these. A row is added to another word by word.
#![tactic(auto)]

pub mod bit_field;
pub mod packed;
mod row_words;
mod runs;
mod words;

pub use bit_field::BitField;
pub use packed::PackedRows;
