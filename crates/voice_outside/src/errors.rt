//! Why a call of the outside was not done.

ghost use Rattle.std.specs.Prelude.{◌≡◌};
ghost use Rattle.voice_outside.specs.declared.errors.OutsideError.TheVariants.{NoMemory};

use std::alloc::{AllocError, AllocFailed};

/// Why a shelf or a sink did not do what was asked.
#[derive(Clone, Copy, Debug, PartialEq, Eq)]
pub enum OutsideError {
    /// The device failed, and its count of faults rose.
    Failed,
    NoMemory,
}

impl From<AllocError> for OutsideError {
    ghost from_gives = { λ _ e. e ≡ NoMemory };

    fn from(_error: AllocError) -> OutsideError {
        OutsideError::NoMemory
    }
}

impl<T: Drop> From<AllocFailed<T>> for OutsideError {
    ghost from_gives = { λ _ e. e ≡ NoMemory };

    fn from(_error: AllocFailed<T>) -> OutsideError {
        OutsideError::NoMemory
    }
}
