//! Why degrees and lifts make no stalk.
ghost use Rattle.std.specs.Prelude.{◌≡◌};

use std::alloc::{AllocError, AllocFailed};
use thiserror::Error;

/// Why degrees and lifts make no stalk. A rule is tried after all earlier ones hold.
#[derive(Debug, Clone, Copy, PartialEq, Eq, Error)]
pub enum SheafFault {
    /// The first degree that is below the one before it.
    #[error("degree {index} is below the one before it")]
    DegreeOrder { index: u32 },
    /// The first degree that is above the bound.
    #[error("degree {index} is above the bound")]
    DegreeOverBound { index: u32 },
    /// The number of lifts, where it is wrong, and otherwise the first lift that doesn't fit its space.
    #[error("lift {index} doesn't fit, or the lifts are not as many as they should be")]
    LiftShape { index: u64 },
    /// There was no memory.
    #[error("no memory")]
    Memory,
}

impl From<AllocError> for SheafFault {
    ghost use Rattle.bmp_sheaf.specs.declared.fault.SheafFault.TheVariants.{Memory};

    ghost from_gives = { λ _ e. e ≡ Memory };

    fn from(_: AllocError) -> Self {
        SheafFault::Memory
    }
}

impl<T: Drop> From<AllocFailed<T>> for SheafFault {
    ghost use Rattle.bmp_sheaf.specs.declared.fault.SheafFault.TheVariants.{Memory};

    ghost from_gives = { λ _ e. e ≡ Memory };

    fn from(_: AllocFailed<T>) -> Self {
        SheafFault::Memory
    }
}
