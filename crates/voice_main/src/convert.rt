//! Conversions between AU files and files of samples. They touch no disk.

ghost use Rattle.std.specs.Prelude.{ℕ, List, ◌≡◌, ◌≤◌, ◌+◌, Some, IfSome, length};
ghost use Rattle.std.specs.FinMap as map;
ghost use Rattle.voice_units.specs.Spots.{slice};
ghost use Rattle.voice_outside.specs.Counters.{HasRisen};
ghost use Rattle.voice_outside.specs.Files.{SameElsewhere};
ghost use Rattle.voice_main.specs.Conversions.{way_word, ConversionComes, BytesCome, PutComes, IsUnset};

use crate::load::{file, load_status};
use crate::status::Status;
use au_files::laws::reads_back;
use au_files::{Voice, read, write};
use std::alloc::Global;
use voice_outside::{OutsideError, Shelf};
use voice_units::Name;

/// Which way a conversion goes.
#[derive(Clone, Copy, Debug, PartialEq, Eq)]
pub enum Way {
    /// From an AU file to its samples.
    Import,
    /// From samples to an AU file of them.
    Export,
}

/// A conversion of a file into another, which may have the same name.
#[derive(Clone, Copy, Debug, PartialEq, Eq)]
pub struct Conversion {
    pub way: Way,
    pub source: Name,
    pub target: Name,
}

impl Way {
    /// The word that asks for it.
    pub fn word(self) -> &'static [u8]
        ensures { result.now ≡ way_word self }
    {
        match self {
            Way::Import => b"import",
            Way::Export => b"export",
        }
    }
}

// Sets a file of the shelf.
fn put<K: Shelf>(shelf: &mut K, name: &Name, bytes: &[u8]) -> Status
    ensures comes { PutComes (HasRisen (K.faults shelf.old) (K.faults shelf.new)) result }
    ensures done { result ≡ Status.Done → IfSome (K.files shelf.old) (λ files. K.files shelf.new ≡ Some (map.insert files name.now bytes.now)) }
    ensures elsewhere { IfSome (K.files shelf.old) (λ files. IfSome (K.files shelf.new) (SameElsewhere name.now files)) }
    ensures later { K.faults shelf.old ≤ K.faults shelf.new }
{
    match shelf.put(name, bytes) {
        Ok(()) => Status::Done,
        Err(OutsideError::Failed) => Status::ShelfFault,
        Err(OutsideError::NoMemory) => Status::NoMemory,
    }
}

// The samples of a file that lie there.
fn samples_at(bytes: &[u8], voice: Voice) -> &[u8]
    requires { voice.from + voice.len ≤ length bytes.now }
    ensures { result.now ≡ slice bytes.now voice.from voice.len }
{
    let from = voice.from as usize;
    let len = voice.len as usize;
    &bytes[from..from + len]
}

// Sets the target to the samples of the source's bytes.
fn import<K: Shelf>(shelf: &mut K, source: &Name, target: &Name, bytes: &[u8]) -> Status
    ensures comes { BytesCome Way.Import source.now target.now bytes.now (K.files shelf.old) (K.files shelf.new) (HasRisen (K.faults shelf.old) (K.faults shelf.new)) result }
    ensures elsewhere { IfSome (K.files shelf.old) (λ files. IfSome (K.files shelf.new) (SameElsewhere target.now files)) }
    ensures unset { IsUnset result → K.files shelf.new ≡ K.files shelf.old }
    ensures later { K.faults shelf.old ≤ K.faults shelf.new }
{
    let voice = match read(bytes) {
        Ok(voice) => voice,
        Err(cause) => return Status::BadAu(*source, cause),
    };
    put(shelf, target, samples_at(bytes, voice))
}

// Sets the target to an AU file of these samples.
fn export<K: Shelf>(alloc: Global, shelf: &mut K, target: &Name, bytes: &[u8]) -> Status
    ensures comes { (source : List ℕ) → BytesCome Way.Export source target.now bytes.now (K.files shelf.old) (K.files shelf.new) (HasRisen (K.faults shelf.old) (K.faults shelf.new)) result }
    ensures elsewhere { IfSome (K.files shelf.old) (λ files. IfSome (K.files shelf.new) (SameElsewhere target.now files)) }
    ensures unset { IsUnset result → K.files shelf.new ≡ K.files shelf.old }
    ensures later { K.faults shelf.old ≤ K.faults shelf.new }
{
    reads_back();
    let mut out = Vec::new(alloc);
    let Ok(()) = write(bytes, &mut out) else {
        return Status::NoMemory;
    };
    put(shelf, target, &out)
}

/// Makes one file of another: `Done`, `BadAu`, `NoFile`, `ShelfFault` or `NoMemory`. No file but the target changes, and before it is set none does.
pub fn convert<K: Shelf>(alloc: Global, asked: &Conversion, shelf: &mut K) -> Status
    ensures comes { ConversionComes asked.now.way asked.now.source asked.now.target (K.files shelf.old) (K.files shelf.new) (HasRisen (K.faults shelf.old) (K.faults shelf.new)) result }
    ensures elsewhere { IfSome (K.files shelf.old) (λ files. IfSome (K.files shelf.new) (SameElsewhere asked.now.target files)) }
    ensures unset { IsUnset result → K.files shelf.new ≡ K.files shelf.old }
    ensures later { K.faults shelf.old ≤ K.faults shelf.new }
{
    let bytes = match file(shelf, &asked.source) {
        Ok(bytes) => bytes,
        Err(e) => return load_status(e),
    };
    match asked.way {
        Way::Import => import(shelf, &asked.source, &asked.target, &bytes),
        Way::Export => export(alloc, shelf, &asked.target, &bytes),
    }
}
