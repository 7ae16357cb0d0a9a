//! The program: what its words ask for, the report that answers them, and the call that writes it.
#![tactic(auto)]

mod answer;
mod built_answer;
mod check;
mod compare_answer;
mod input;
mod job_answer;
pub mod laws;
mod program;
mod status;
mod table_answer;
mod words;

pub use program::{run, run_with};
pub use status::Status;
