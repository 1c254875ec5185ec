//! Why a call of the journal was not done.

ghost use Rattle.std.specs.Prelude.{◌≡◌};
ghost use Rattle.voice_journal.specs.declared.errors.OpenError.TheVariants.{NoMemory};

use std::alloc::{AllocError, AllocFailed};

/// What a fault of the device left of a change.
#[derive(Clone, Copy, Debug, PartialEq, Eq)]
pub enum Fault {
    /// The change is not done and never will be.
    Before,
    /// The change is whole on the disk but for its gate, which may be open or closed.
    Doubt,
}

/// Why a disk was not opened.
#[derive(Clone, Copy, Debug, PartialEq, Eq)]
pub enum OpenError {
    /// The disk is damaged at this byte.
    BadDisk(u64),
    /// The device failed, and its count of faults rose.
    DiskFault,
    NoMemory,
}

impl From<AllocError> for OpenError {
    ghost from_gives = { λ _ e. e ≡ NoMemory };

    fn from(_error: AllocError) -> OpenError {
        OpenError::NoMemory
    }
}

impl<T: Drop> From<AllocFailed<T>> for OpenError {
    ghost from_gives = { λ _ e. e ≡ NoMemory };

    fn from(_error: AllocFailed<T>) -> OpenError {
        OpenError::NoMemory
    }
}
