//! Jobs and certificates: their types, their texts, and the rules of a job.
//!
//! A job is a Cartan matrix, a prime, a word, a degree bound and a lattice. A certificate is a job with the part of each
//! vertex: the degrees of its generators, the lifts on its edges, and the evidence of each degree.
//! The grammar of both texts stands in `specs/` as readers (which give a value, or the first fault) with
//! printed forms (LatticeGrammar, JobGrammar, VectorGrammar, BlockGrammar, CertGrammar), the version of a certificate
//! being their parameter (Versions); `laws` says that each well formed value has one text, and each text one value.
#![tactic(auto)]

mod block;
mod cert;
mod cert_formed;
mod cert_print;
mod fault;
mod job;
mod job_fault;
mod job_formed;
mod job_reader;
mod lattice;
mod lattice_text;
pub mod laws;
mod line_counts;
mod lists;
mod part;
mod prepared;
mod print;
mod ranks;
mod rules;
mod vector;

pub use cert::{Cert, Parts, VertexPart, read_cert};
pub use cert_formed::{parts_formed, well_formed};
pub use cert_print::{print_cert, push_parts};
pub use fault::CertError;
pub use job::Job;
pub use job_fault::{JobError, JobFault};
pub use job_formed::well_formed_job;
pub use job_reader::{read_job, read_job_lines};
pub use lattice::Lattice;
pub use lists::{Degrees, Entries};
pub use part::read_parts;
pub use prepared::{Accepted, Prepared};
pub use print::{print_job, push_job_lines};
pub use ranks::Ranks;
pub use rules::{accept_job, prepare_job};
