//! Why an index or a note is refused.

ghost use Rattle.std.specs.Prelude.{◌≡◌};
ghost use Rattle.voice_notes.specs.declared.errors.IndexError.TheVariants.{NoMemory as no_memory_for_index};
ghost use Rattle.voice_notes.specs.declared.errors.NoteError.TheVariants.{NoMemory as no_memory_for_note};

use std::alloc::{AllocError, AllocFailed};
use voice_units::NoMemory;

/// Why an index is refused.
#[derive(Clone, Copy, Debug, PartialEq, Eq)]
pub enum IndexError {
    /// The number, from 1, of the first line that is neither one FILE nor a comment nor empty, or that is line 65,536.
    BadIndex(u32),
    NoMemory,
}

/// Why a note is refused.
#[derive(Clone, Copy, Debug, PartialEq, Eq)]
pub enum NoteError {
    /// The first place, from 0, at which `[[voice:` stands and no anchor does.
    BadAnchor(u64),
    NoMemory,
}

impl From<AllocError> for IndexError {
    ghost from_gives = { λ _ e. e ≡ no_memory_for_index };

    fn from(_error: AllocError) -> IndexError {
        IndexError::NoMemory
    }
}

impl<T: Drop> From<AllocFailed<T>> for IndexError {
    ghost from_gives = { λ _ e. e ≡ no_memory_for_index };

    fn from(_error: AllocFailed<T>) -> IndexError {
        IndexError::NoMemory
    }
}

impl From<NoMemory> for NoteError {
    ghost from_gives = { λ _ e. e ≡ no_memory_for_note };

    fn from(_error: NoMemory) -> NoteError {
        NoteError::NoMemory
    }
}
