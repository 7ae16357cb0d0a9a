//! The lines that the program prints: ranks, graphs, tables, summaries, and the faults of texts and jobs; and the jobs
//! of `sample`.
//!
//! Each item is one line that ends with a line feed; numbers are canonical, and words are separated by
//! single spaces. Each call gives exactly the text that `specs/` defines.
#![tactic(auto)]

mod compare;
mod faults;
mod graph;
pub mod laws;
mod ranks;
mod sample;
mod summary;
mod table;

pub use compare::compare_text;
pub use faults::{job_line, text_line};
pub use graph::{gkm_text, graph_text};
pub use ranks::ranks_text;
pub use sample::sample_job;
pub use summary::summary_text;
pub use table::{kl_text, limit_line};
