//! Sources and sinks in memory, for tests and for callers that hold all bytes.
ghost use Rattle.std.specs.Prelude.{◌≡◌, ◌==◌};
ghost use Rattle.std.specs.List.{list_any};

mod sink;
mod source;

pub use sink::{MemSink, SureSink};
pub use source::{MemSource, SureSource};

// Whether a call is one of those that fail.
fn is_listed(fails: &[u32], call: u64) -> bool
    ensures { result ≡ list_any (λ f. f == call) fails.now }
{
    fails.iter().any(|f| u64::from(*f) == call)
}
