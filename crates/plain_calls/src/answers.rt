//! Why a call has no reply of its own.

use std::alloc::{AllocError, AllocFailed};
use voice_model::Why;
use voice_units::NoMemory;

/// Why a call is not done.
#[derive(Clone, Copy, Debug, PartialEq, Eq)]
pub enum Undone {
    Refused(Why),
    /// The plain evaluator cannot do it.
    Strange,
    NoMemory,
}

impl From<Why> for Undone {
    fn from(why: Why) -> Undone {
        Undone::Refused(why)
    }
}

impl From<NoMemory> for Undone {
    fn from(_error: NoMemory) -> Undone {
        Undone::NoMemory
    }
}

impl From<AllocError> for Undone {
    fn from(_error: AllocError) -> Undone {
        Undone::NoMemory
    }
}

impl<T: Drop> From<AllocFailed<T>> for Undone {
    fn from(_error: AllocFailed<T>) -> Undone {
        Undone::NoMemory
    }
}
