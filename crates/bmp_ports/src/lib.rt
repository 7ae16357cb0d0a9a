//! Where bytes come from and where they go: sources and sinks, over memory and over readers and writers of std,
//! whose failures are counted; and the two calls that read all and write all.
//!
//! A contract speaks of the bytes that a source has left and of those that a sink took. A port may leave them untold,
//! as one over standard input does; then the contracts say nothing of bytes, and all else.
#![tactic(auto)]

mod memory;
mod port;
mod standard;
mod whole;

pub use memory::{MemSink, MemSource, SureSink, SureSource};
pub use port::{Failed, Sink, Source, WriteError};
pub use standard::{StdSink, StdSource};
pub use whole::{READ_LIMIT, ReadError, read_all, write_all};
