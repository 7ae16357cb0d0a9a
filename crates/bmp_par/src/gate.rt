//! What is passed before each part of the work.

/// Something to pass before each task and each piece, as a counter or, in a test, a place to wait for another thread.
/// A pass returns.
pub trait Gate: Sync {
    /// Passes the gate before the task or the piece of that number.
    fn pass(&self, i: u32);
}

/// The gate at which nothing happens.
#[derive(Clone, Copy, Debug, Default, PartialEq, Eq)]
pub struct OpenGate;

impl Gate for OpenGate {
    fn pass(&self, _i: u32) {}
}
