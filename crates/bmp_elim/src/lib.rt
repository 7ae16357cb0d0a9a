//! Elimination with a trace, over any field and any rows in memory.
//!
//! `reduce` brings rows to reduced echelon form and says how: its trace times the old rows gives the new
//! ones, and loses nothing. `echelon` does the same and keeps no trace. An elimination that is kept
//! (`eliminate_rows`) answers many questions: any number of right sides (`solve_by`), and what the rows
//! send to 0, with evidence that `check_kernel` of bmp_linear accepts (`evidence_by`); `solve` and `kernel`
//! ask one of these. `extend_columns` chooses columns that extend what the first ones span, with dual forms
//! and the sums that write every column; `extend_basis` does that for rows. `grow_basis` chooses from rows that
//! come one at a time, and keeps how the chosen ones combine to each reduced row, in a `Triangle`.
//! The one refusal of each call is want of memory. The laws hold without any memory.
#![tactic(auto)]

pub mod columns;
mod eliminate;
pub mod eliminated;
pub mod extensions;
pub mod growing;
pub mod kernels;
pub mod laws;
pub mod reduction;
mod row_vectors;
pub mod systems;
pub mod triangle;
mod unit_rows;

pub use columns::{ColumnExtension, extend_columns};
pub use eliminated::{Eliminated, eliminate_rows, evidence_by, solve_by};
pub use extensions::{Extension, extend_basis};
pub use growing::{GrowingBasis, eliminate_chosen, empty_basis, grow_basis, write_row};
pub use kernels::kernel;
pub use reduction::{EchelonRows, Reduced, echelon, reduce};
pub use systems::{Solution, solve};
pub use triangle::Triangle;
