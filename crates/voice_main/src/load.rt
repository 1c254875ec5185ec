//! The files that a run reads.

ghost use Rattle.std.specs.Prelude.{◌≡◌, ◌≤◌, IfOk, IfErr, IfSome, Some, None, length};
ghost use Rattle.std.specs.FinMap as map;
ghost use Rattle.voice_outside.specs.Counters.{HasRisen};
ghost use Rattle.voice_main.specs.Load.{bytes_of, AreFiles, FirstAbsent, LoadIs};
ghost use Rattle.voice_main.specs.Statuses.{load_status_of};

use crate::status::Status;
use std::alloc::Global;
use voice_outside::{OutsideError, Shelf};
use voice_units::Name;

/// Why a file wasn't read.
#[derive(Clone, Copy, Debug, PartialEq, Eq)]
pub enum LoadError {
    /// The shelf said that it is absent.
    NoFile(Name),
    ShelfFault,
    NoMemory,
}

/// The status of a run whose file wasn't read.
pub fn load_status(e: LoadError) -> Status
    ensures { result ≡ load_status_of e }
{
    match e {
        LoadError::NoFile(name) => Status::NoFile(name),
        LoadError::ShelfFault => Status::ShelfFault,
        LoadError::NoMemory => Status::NoMemory,
    }
}

/// The file of that name. It leaves the files of the shelf as they are.
pub fn file<K: Shelf>(shelf: &mut K, name: &Name) -> Result<Vec<u8>, LoadError>
    ensures ok { IfOk result (λ v. IfSome (K.files shelf.old) (λ files. map.get files name.now ≡ Some v.items)) }
    ensures err { IfErr result (LoadIs (λ missing. (missing ≡ name.now) × IfSome (K.files shelf.old) (λ files. map.get files name.now ≡ None)) (HasRisen (K.faults shelf.old) (K.faults shelf.new))) }
    ensures kept { K.files shelf.new ≡ K.files shelf.old }
    ensures later { K.faults shelf.old ≤ K.faults shelf.new }
{
    match shelf.get(name) {
        Ok(Some(bytes)) => Ok(bytes),
        Ok(None) => Err(LoadError::NoFile(*name)),
        Err(OutsideError::Failed) => Err(LoadError::ShelfFault),
        Err(OutsideError::NoMemory) => Err(LoadError::NoMemory),
    }
}

/// The files of these names, in order. `NoFile` names the first that is absent.
pub fn files<K: Shelf>(
    alloc: Global,
    shelf: &mut K,
    names: &[Name],
) -> Result<Vec<Vec<u8>>, LoadError>
    ensures ok { IfOk result (λ v. IfSome (K.files shelf.old) (λ files. AreFiles files names.now (bytes_of v.items))) }
    ensures len { IfOk result (λ v. length v.items ≡ length names.now) }
    ensures err { IfErr result (LoadIs (λ missing. IfSome (K.files shelf.old) (λ files. FirstAbsent files names.now missing)) (HasRisen (K.faults shelf.old) (K.faults shelf.new))) }
    ensures kept { K.files shelf.new ≡ K.files shelf.old }
    ensures later { K.faults shelf.old ≤ K.faults shelf.new }
{
    let mut all = Vec::new(alloc);
    for name in names {
        let bytes = match file(shelf, name) {
            Ok(bytes) => bytes,
            Err(e) => return Err(e),
        };
        if all.push(bytes).is_err() {
            return Err(LoadError::NoMemory);
        }
    }
    Ok(all)
}
