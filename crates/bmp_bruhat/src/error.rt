//! Why an interval has no graph in a lattice.
ghost use Rattle.std.specs.Prelude.{◌≡◌};

use std::alloc::{AllocError, AllocFailed};
use thiserror::Error;

/// Why there is no graph.
#[derive(Clone, Copy, Debug, PartialEq, Eq, Error)]
pub enum BruhatError {
    /// The first edge, by lower and then by upper vertex, whose label would be zero.
    #[error("the label of the edge from vertex {lower} up to vertex {upper} is zero")]
    ZeroLabel { lower: u32, upper: u32 },
    /// There was no memory.
    #[error("there was no memory")]
    Memory,
}

impl From<AllocError> for BruhatError {
    ghost use Rattle.bmp_bruhat.specs.declared.error.BruhatError.TheVariants.{Memory};

    ghost from_gives = { λ _ e. e ≡ Memory };

    fn from(_: AllocError) -> Self {
        BruhatError::Memory
    }
}

impl<T: Drop> From<AllocFailed<T>> for BruhatError {
    ghost use Rattle.bmp_bruhat.specs.declared.error.BruhatError.TheVariants.{Memory};

    ghost from_gives = { λ _ e. e ≡ Memory };

    fn from(_: AllocFailed<T>) -> Self {
        BruhatError::Memory
    }
}
