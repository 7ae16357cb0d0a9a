//! Vectors, rows of numbers of a field, and the checks of evidence about them.
//!
//! The list types (`Places`, `Vector`, `Vectors`, `Blocks`) have fewer than 2^32 members each and are
//! seen as lists. `Rows` is what the checks read: rows in memory (`DenseRows`, `SparseRows`,
//! `MixedRows`) or a view that keeps none (`Turned`). The checks take no memory: they work in a `Scratch`.
#![tactic(auto)]

pub mod blocks;
pub mod combination;
pub mod copies;
pub mod dense;
pub mod dual;
pub mod entries;
mod entry_sums;
pub mod evidence;
pub mod fault;
pub mod kernel;
pub mod mixed;
mod mixed_row;
mod mixed_sums;
mod multiples;
pub mod places;
pub mod rows;
mod runs;
pub mod scratch;
pub mod sparse;
pub mod turned;
pub mod vector;
pub mod vectors;

pub use blocks::{Blocks, DegreeBlock};
pub use combination::{check_combination, combine_rows};
pub use copies::{row_vector, stored};
pub use dense::DenseRows;
pub use dual::check_dual;
pub use entries::{add_entries, value_of};
pub use evidence::{CoverEvidence, KernelEvidence};
pub use fault::RowFault;
pub use kernel::check_kernel;
pub use mixed::MixedRows;
pub use places::Places;
pub use rows::{RowSpace, Rows};
pub use scratch::Scratch;
pub use sparse::SparseRows;
pub use turned::Turned;
pub use vector::{Entry, Vector};
pub use vectors::Vectors;
