//! The census of the keys that notes name.

ghost use Rattle.std.specs.Prelude.{ℕ, List, [], Some, ◌≡◌, ◌≤◌, ◌++◌, ◌⊎◌, true, IfOk, IfErr, IfSome, take};
ghost use Rattle.voice_model.specs.Text.{text_of};
ghost use Rattle.voice_outside.specs.Counters.{HasRisen};
ghost use Rattle.voice_store.specs.Facts.{GoesOn};
ghost use Rattle.voice_main.specs.Outside.{outside, IsUnchanged};
ghost use Rattle.voice_main.specs.Ran.{Performed};
ghost use Rattle.voice_main.specs.Notes.{IsOneCensus, IsCensusSoFar};
ghost use Rattle.voice_main.specs.NotesPromise.{NotesPromise};
ghost use Rattle.voice_main.specs.Statuses.{Opens, Performs, IsEarly, IsSilent};

use crate::calling::Called;
use crate::notes::named;
use crate::output::print;
use crate::status::Status;
use crate::top_call::{Ended, open_status};
use std::alloc::Global;
use std::sync::Arc;
use voice_model::{Call, KeyList, Tapes};
use voice_outside::{Disk, Gate, Shelf, Sink};
use voice_store::Store;
use voice_units::Name;

// Opens the disk's store, and makes a census of these keys.
fn call_census<D: Disk, G: Gate>(
    alloc: Global,
    keys: KeyList,
    disk: D,
    gate: &G,
) -> Result<Called<D>, (Status, D)>
    ensures so_far { IfOk result (λ called. Performed [] (λ honest first. IsCensusSoFar keys honest first called.history.items) (D.told disk) (D.told called.disk) called.history.items) }
    ensures finished { IfOk result (λ called. called.is_finished ≡ true → Performed [] (λ honest first. IsOneCensus keys honest first called.history.items) (D.told disk) (D.told called.disk) called.history.items) }
    ensures opens { IfErr result (λ e. Opens (D.told disk) (D.told e.1) e.0) }
    ensures looks { IfErr result (λ e. IsUnchanged (D.told disk) (D.told e.1)) }
    ensures goes { IfOk result (λ called. GoesOn (D.told disk) (D.told called.disk)) }
    ensures goes_back { IfErr result (λ e. GoesOn (D.told disk) (D.told e.1)) }
{
    let Ok(tapes) = Arc::new(alloc, Tapes::new(Vec::new(alloc))) else {
        return Err((Status::NoMemory, disk));
    };
    let mut store = match Store::open(alloc, disk, tapes) {
        Ok(store) => store,
        Err((e, disk)) => return Err((open_status(e), disk)),
    };
    gate.before(1, 1, 0);
    let made = store.apply(1, Call::Census(keys));
    gate.after(1, 1);
    let (disk, history) = store.close();
    Ok(Called {
        disk,
        history,
        heard: Vec::new(alloc),
        is_finished: made.is_ok(),
    })
}

// Makes a census of these keys, and prints its entry.
fn counted<O: Sink, D: Disk, G: Gate>(
    alloc: Global,
    keys: KeyList,
    out: &mut O,
    disk: D,
    gate: &G,
) -> Ended<D>
    ensures so_far { ((result.history.items ≡ []) × IsUnchanged (D.told disk) (D.told result.disk)) ⊎ Performed [] (λ honest first. IsCensusSoFar keys honest first result.history.items) (D.told disk) (D.told result.disk) result.history.items }
    ensures whole { result.status ≡ Status.Done → Performed [] (λ honest first. IsOneCensus keys honest first result.history.items) (D.told disk) (D.told result.disk) result.history.items }
    ensures sink_fault { result.status ≡ Status.SinkFault → Performed [] (λ honest first. IsOneCensus keys honest first result.history.items) (D.told disk) (D.told result.disk) result.history.items }
    ensures which { Performs ⊥ (HasRisen (O.faults out.old) (O.faults out.new) ⊎ HasRisen (O.empty_takes out.old) (O.empty_takes out.new)) (D.told disk) (D.told result.disk) result.status }
    ensures done { result.status ≡ Status.Done → IfSome (O.contents out.old) (λ had. O.contents out.new ≡ Some (had ++ text_of result.history.items)) }
    ensures prefix { IfSome (O.contents out.old) (λ had. (n : ℕ) × (O.contents out.new ≡ Some (had ++ take n (text_of result.history.items)))) }
    ensures silent { IsSilent result.status → (result.history.items ≡ []) × (O.contents out.new ≡ O.contents out.old) }
    ensures goes { GoesOn (D.told disk) (D.told result.disk) }
{
    let called = match call_census(alloc, keys, disk, gate) {
        Ok(called) => called,
        Err((status, disk)) => return Ended {
            status,
            disk,
            history: Vec::new(alloc),
        },
    };
    if !called.is_finished {
        return Ended {
            status: Status::NoMemory,
            disk: called.disk,
            history: called.history,
        };
    }
    let status = print(alloc, &called.history, out);
    Ended {
        status,
        disk: called.disk,
        history: called.history,
    }
}

/// Makes one census, as caller 1, of the keys that the notes of an index name, and prints its entry. All that the files decide is decided before the disk is touched.
pub fn census<K: Shelf, O: Sink, D: Disk, G: Gate>(
    alloc: Global,
    index: &Name,
    shelf: &mut K,
    out: &mut O,
    disk: D,
    gate: &G,
) -> Ended<D>
    ensures promise { NotesPromise index.now (outside (K.files shelf.old) (K.faults shelf.old) (O.contents out.old) (O.faults out.old) (O.empty_takes out.old) (D.told disk)) (outside (K.files shelf.new) (K.faults shelf.new) (O.contents out.new) (O.faults out.new) (O.empty_takes out.new) (D.told result.disk)) result.status result.history.items }
    // What stands after any status: the front of the text that the sink took, and the files.
    ensures prefix { IfSome (O.contents out.old) (λ had. (n : ℕ) × (O.contents out.new ≡ Some (had ++ take n (text_of result.history.items)))) }
    ensures files { K.files shelf.new ≡ K.files shelf.old }
    // A status that is decided before the first call leaves no history and prints nothing; one that is decided before the disk is touched leaves the disk.
    ensures silent { IsSilent result.status → (result.history.items ≡ []) × (O.contents out.new ≡ O.contents out.old) }
    ensures early { IsEarly result.status → result.disk ≡ disk }
    // The shelf faults before the disk is touched.
    ensures shelf { result.status ≡ Status.ShelfFault → (result.disk ≡ disk) × (result.history.items ≡ []) × (O.contents out.new ≡ O.contents out.old) }
    // The disk keeps its size, and its counts never fall.
    ensures disk { GoesOn (D.told disk) (D.told result.disk) }
{
    match named(alloc, index, shelf) {
        Ok(keys) => counted(alloc, keys, out, disk, gate),
        Err(status) => Ended {
            status,
            disk,
            history: Vec::new(alloc),
        },
    }
}
