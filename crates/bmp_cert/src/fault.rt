//! Why a text could not be read.
ghost use Rattle.std.specs.Prelude.{◌≡◌};
ghost use Rattle.bmp_cert.specs.declared.fault.CertError.TheVariants.{Text, Memory};

use bmp_text::TextFault;
use std::alloc::{AllocError, AllocFailed};
use thiserror::Error;

/// Why a text could not be read.
#[derive(Clone, Copy, Debug, PartialEq, Eq, Error)]
pub enum CertError {
    /// The bytes aren't in the grammar: the first fault in reading order.
    #[error("{0}")]
    Text(TextFault),
    /// Memory was wanting.
    #[error("no memory")]
    Memory,
}

impl From<TextFault> for CertError {
    ghost from_gives = { λ f e. e ≡ Text f };

    fn from(fault: TextFault) -> Self {
        CertError::Text(fault)
    }
}

impl From<AllocError> for CertError {
    ghost from_gives = { λ _ e. e ≡ Memory };

    fn from(_: AllocError) -> Self {
        CertError::Memory
    }
}

impl<T: Drop> From<AllocFailed<T>> for CertError {
    ghost from_gives = { λ _ e. e ≡ Memory };

    fn from(_: AllocFailed<T>) -> Self {
        CertError::Memory
    }
}
