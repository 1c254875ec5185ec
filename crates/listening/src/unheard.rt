//! Why samples were not heard.

ghost use Rattle.std.specs.Prelude.{◌≡◌};
ghost use Rattle.listening.specs.declared.unheard.Unheard.TheVariants.{DiskFault, NoMemory};

use std::alloc::AllocError;
use voice_units::Failed;

/// Why the samples of a rope were not heard to the end.
#[derive(Clone, Copy, Debug, PartialEq, Eq)]
pub enum Unheard {
    /// The device failed, and its count of faults rose.
    DiskFault,
    NoMemory,
}

impl From<AllocError> for Unheard {
    ghost from_gives = { λ _ e. e ≡ NoMemory };

    fn from(_error: AllocError) -> Unheard {
        Unheard::NoMemory
    }
}

impl From<voice_units::NoMemory> for Unheard {
    ghost from_gives = { λ _ e. e ≡ NoMemory };

    fn from(_error: voice_units::NoMemory) -> Unheard {
        Unheard::NoMemory
    }
}

impl From<Failed> for Unheard {
    ghost from_gives = { λ _ e. e ≡ DiskFault };

    fn from(_error: Failed) -> Unheard {
        Unheard::DiskFault
    }
}
