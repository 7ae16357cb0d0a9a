//! The check of a certificate: comparisons in a fixed order, and the first that fails.
//!
//! The verdict on a certificate is the first comparison that fails, with its numbers, or none
//! (`specs/Verdicts`). First come the number of vertices ([`check_count`]) and the sizes of all blocks
//! ([`check_shape`]), by a table that is made once ([`SizeTable`]); then the greatest vertex ([`check_top`]).
//! Blocks go by falling vertex and then by rising degree ([`block_at`]), each by [`check_block`]. [`check`] does all.
//!
//! Evidence is by whole spaces of sections or by levels ([`Method`]). What it is about differs (`specs/BlockData`), and
//! with it the sizes, the order of the kinds and the refusals of kernel evidence; all else is one.
#![tactic(auto)]

mod block;
mod blocks;
mod counts;
mod degree_blocks;
mod evidence;
mod given;
mod kept;
pub mod laws;
mod method;
mod need;
mod part;
mod pieces;
mod refusal;
mod scratch;
mod setting;
mod shape_pass;
mod shape_sizes;
mod shaped;
mod size_check;
mod size_rows;
mod sizes;
mod stalk_tasks;
mod top;
mod tuple_counts;
mod whole;
mod written;

pub use block::check_block;
pub use blocks::{block_at, block_count};
pub use given::Given;
pub use method::Method;
pub use refusal::{CheckError, Refusal, refusal_line};
pub use scratch::{BlockScratch, scratch_for};
pub use setting::Setting;
pub use shape_pass::{check_count, check_shape};
pub use shaped::Shaped;
pub use size_rows::SizeRows;
pub use sizes::{BlockSizes, SizeTable};
pub use top::check_top;
pub use tuple_counts::TupleCounts;
pub use whole::{check, check_graph, check_graph_with, check_with};
pub use written::shape;
