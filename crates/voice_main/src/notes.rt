//! The keys that the notes of an index name.

ghost use Rattle.std.specs.Prelude.{[], ◌≡◌, ◌≤◌, IfOk, IfErr, IfSome, length};
ghost use Rattle.voice_outside.specs.Counters.{HasRisen};
ghost use Rattle.voice_model.specs.Valid.{Every};
ghost use Rattle.voice_notes.specs.Anchors.{bad_place};
ghost use Rattle.voice_main.specs.Load.{bytes_of};
ghost use Rattle.voice_main.specs.Notes.{keys_of, IsGood, IsIndex, AreNamed, NotesStop, NoteIs};
ghost use Rattle.voice_main.specs.Statuses.{note_status_of};

use crate::load::{file, files, load_status};
use crate::status::Status;
use std::alloc::Global;
use voice_model::KeyList;
use voice_notes::{IndexError, NameList, NoteError, anchors, index};
use voice_outside::Shelf;
use voice_units::Name;

// How many keys a census of notes has at most.
const MOST_KEYS: usize = 1024;

// The names of an index.
fn listed<K: Shelf>(alloc: Global, name: &Name, shelf: &mut K) -> Result<NameList, Status>
    ensures ok { IfOk result (λ names. IfSome (K.files shelf.old) (λ files. IsIndex files name.now names)) }
    ensures stops { IfErr result (NotesStop name.now (K.files shelf.old) (HasRisen (K.faults shelf.old) (K.faults shelf.new))) }
    ensures kept { K.files shelf.new ≡ K.files shelf.old }
    ensures later { K.faults shelf.old ≤ K.faults shelf.new }
{
    let bytes = match file(shelf, name) {
        Ok(bytes) => bytes,
        Err(e) => return Err(load_status(e)),
    };
    match index(alloc, &bytes) {
        Ok(names) => Ok(names),
        Err(IndexError::BadIndex(line)) => Err(Status::BadIndex(line)),
        Err(IndexError::NoMemory) => Err(Status::NoMemory),
    }
}

// The status of a note that is refused.
fn note_status(e: NoteError, name: &Name) -> Status
    ensures { result ≡ note_status_of name.now e }
{
    match e {
        NoteError::BadAnchor(place) => Status::BadNote(*name, place),
        NoteError::NoMemory => Status::NoMemory,
    }
}

// The keys of notes with these names, each once.
fn keys_in(alloc: Global, names: &[Name], notes: &[Vec<u8>]) -> Result<KeyList, Status>
    requires { length notes.now ≡ length names.now }
    ensures ok { IfOk result (λ keys. Every IsGood (bytes_of notes.now) × (keys ≡ keys_of (bytes_of notes.now))) }
    ensures err { IfErr result (NoteIs names.now (bytes_of notes.now)) }
{
    let mut keys = KeyList::of(Vec::new(alloc));
    for (i, name) in names.iter().enumerate() {
        match anchors(alloc, &notes[i], &mut keys) {
            Ok(()) => {}
            Err(e) => return Err(note_status(e, name)),
        }
    }
    Ok(keys)
}

/// The keys that the notes of an index name, each once, in order of first place. It is decided in this order: a file is absent, a note has a bad anchor, the keys are too many.
pub fn named<K: Shelf>(alloc: Global, name: &Name, shelf: &mut K) -> Result<KeyList, Status>
    ensures ok { IfOk result (λ keys. IfSome (K.files shelf.old) (λ files. AreNamed files name.now keys)) }
    ensures stops { IfErr result (NotesStop name.now (K.files shelf.old) (HasRisen (K.faults shelf.old) (K.faults shelf.new))) }
    ensures kept { K.files shelf.new ≡ K.files shelf.old }
    ensures later { K.faults shelf.old ≤ K.faults shelf.new }
{
    let names = match listed(alloc, name, shelf) {
        Ok(names) => names,
        Err(status) => return Err(status),
    };
    let notes = match files(alloc, shelf, names.items()) {
        Ok(notes) => notes,
        Err(e) => return Err(load_status(e)),
    };
    let keys = match keys_in(alloc, names.items(), &notes) {
        Ok(keys) => keys,
        Err(status) => return Err(status),
    };
    let count = keys.items().len();
    if count > MOST_KEYS {
        return Err(Status::TooManyKeys(count as u64));
    }
    Ok(keys)
}
