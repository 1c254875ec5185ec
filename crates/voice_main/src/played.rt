//! What follows the calls of a finished script: the files that its servings gave are set, and its history is printed.

ghost use Rattle.std.specs.Prelude.{ℕ, List, Some, ◌≡◌, ◌≤◌, ◌++◌, ◌⊎◌, IfSome, length, take};
ghost use Rattle.voice_model.specs.Text.{text_of};
ghost use Rattle.voice_outside.specs.Counters.{HasRisen};
ghost use Rattle.served_files.specs.Files.{AreEnough, queues_of};
ghost use Rattle.voice_main.specs.Statuses.{Finishes};
ghost use Rattle.voice_main.specs.Played.{FilesStand};

use crate::output::print;
use crate::status::Status;
use served_files::{Heard, set_files};
use std::alloc::Global;
use voice_model::Entry;
use voice_outside::{OutsideError, Shelf, Sink};

/// Sets the files of a finished script, and prints its history. Where a file can't be set, nothing is printed.
pub(crate) fn finish<K: Shelf, O: Sink>(
    alloc: Global,
    history: &[Entry],
    heard: &[Vec<Heard>],
    shelf: &mut K,
    out: &mut O,
) -> Status
    requires few { length heard.now ≤ 16 }
    requires enough { AreEnough history.now heard.now }
    ensures which { Finishes (HasRisen (K.faults shelf.old) (K.faults shelf.new)) (HasRisen (O.faults out.old) (O.faults out.new) ⊎ HasRisen (O.empty_takes out.old) (O.empty_takes out.new)) result }
    ensures files { IfSome (K.files shelf.old) (λ files. FilesStand history.now (queues_of heard.now) files (K.files shelf.new) result) }
    ensures unprinted { result ≡ Status.ShelfFault → O.contents out.new ≡ O.contents out.old }
    ensures done { result ≡ Status.Done → IfSome (O.contents out.old) (λ had. O.contents out.new ≡ Some (had ++ text_of history.now)) }
    ensures prefix { IfSome (O.contents out.old) (λ had. (n : ℕ) × (O.contents out.new ≡ Some (had ++ take n (text_of history.now)))) }
{
    match set_files(shelf, history, heard) {
        Ok(()) => print(alloc, history, out),
        Err(OutsideError::Failed) => Status::ShelfFault,
        Err(OutsideError::NoMemory) => Status::NoMemory,
    }
}
