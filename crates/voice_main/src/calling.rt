//! The calls of a script over the store of a disk.

ghost use Rattle.std.specs.Prelude.{ℕ, [], ◌≡◌, ◌≤◌, ◌&&◌, not, true, false, IfOk, IfErr, length};
ghost use Rattle.std.specs.Arc.{arc_value};
ghost use Rattle.recovery.specs.Shown.{IsParts};
ghost use Rattle.script_lang.specs.Verbs.{is_built_verb};
ghost use Rattle.script_lang.specs.Whole.{IsWhole};
ghost use Rattle.served_files.specs.Files.{AreEnough, queues_of};
ghost use Rattle.voice_store.specs.Shown.{history_of, tapes_in};
ghost use Rattle.voice_store.specs.Facts.{GoesOn};
ghost use Rattle.voice_server.specs.Kept.{IsKept};
ghost use Rattle.voice_main.specs.Outside.{IsUnchanged};
ghost use Rattle.voice_main.specs.Ran.{Performed, Begun, MadeGiving};
ghost use Rattle.voice_main.specs.Statuses.{Opens};

use crate::script_lines::run_lines;
use crate::status::Status;
use crate::threads::share;
use crate::top_call::{Scripted, open_status};
use script_lang::Script;
use served_files::Heard;
use std::alloc::Global;
use std::sync::{Arc, Wait};
use std::thread::Threads;
use voice_model::{Entry, Tapes};
use voice_outside::{Disk, Gate};
use voice_store::Store;
use voice_units::NoMemory;

/// The disk and the history that the calls of a script left, and what each caller heard, that of caller 1 first.
#[derive(Drop)]
pub(crate) struct Called<D> {
    pub(crate) disk: D,
    pub(crate) history: Vec<Entry>,
    pub(crate) heard: Vec<Vec<Heard>>,
    pub(crate) is_finished: bool,
}

/// What a store leaves. The calls are finished where no caller wanted memory, and the store didn't.
pub(crate) fn closed<D: Disk>(store: Store<D>, heard: Vec<Vec<Heard>>, memory: bool) -> Called<D>
    ensures disk { result.disk ≡ store.disk }
    ensures history { result.history.items ≡ history_of store }
    ensures heard { result.heard.items ≡ heard.items }
    ensures finished { result.is_finished ≡ (memory && not store.wanted) }
{
    let is_finished = memory && !store.wanted();
    let (disk, history) = store.close();
    Called {
        disk,
        history,
        heard,
        is_finished,
    }
}

/// Opens the store of a disk, over the sample files of a script.
pub(crate) fn open_store<D: Disk>(
    alloc: Global,
    scripted: &Scripted,
    disk: D,
) -> Result<Store<D>, (Status, D)>
    ensures kept { IfOk result (λ s. IsKept D.told s) }
    ensures fresh { IfOk result (λ s. (s.origin ≡ disk) × (history_of s ≡ []) × (tapes_in s ≡ arc_value scripted.now.tapes)) }
    ensures parts { IfOk result (λ s. IsParts s.inside.journal.shape s.inside.parts) }
    ensures opens { IfErr result (λ e. Opens (D.told disk) (D.told e.1) e.0) }
    ensures looks { IfErr result (λ e. IsUnchanged (D.told disk) (D.told e.1)) }
    ensures looked { IfOk result (λ s. IsUnchanged (D.told disk) (D.told s.disk)) }
    ensures goes { IfErr result (λ e. GoesOn (D.told disk) (D.told e.1)) }
{
    let Ok(tapes) = Arc::try_clone(&scripted.tapes) else {
        return Err((Status::NoMemory, disk));
    };
    match Store::open(alloc, disk, tapes) {
        Ok(store) => Ok(store),
        Err((e, disk)) => Err((open_status(e), disk)),
    }
}

/// Makes the calls of a script in its order.
pub(crate) fn call_in_order<D: Disk, G: Gate>(
    alloc: Global,
    mut store: Store<D>,
    script: &Script,
    tapes: &Tapes,
    gate: &G,
) -> Called<D>
    requires kept { IsKept D.told store }
    requires fresh { history_of store ≡ [] }
    requires tapes { tapes_in store ≡ tapes.now }
    requires whole { IsWhole is_built_verb script.now }
    requires there { length tapes.now ≡ length script.now.samples }
    ensures so_far { (k : ℕ) × Performed tapes.now (Begun false tapes.now script.now k result.history.items) (D.told store.origin) (D.told result.disk) result.history.items }
    ensures finished { result.is_finished ≡ true → Performed tapes.now (MadeGiving false tapes.now script.now (D.told store.origin) (D.told result.disk) result.history.items (queues_of result.heard.items)) (D.told store.origin) (D.told result.disk) result.history.items }
    ensures enough { result.is_finished ≡ true → AreEnough result.history.items result.heard.items × (length result.heard.items ≤ 16) }
    ensures goes { GoesOn (D.told store.origin) (D.told result.disk) }
{
    match run_lines(alloc, &mut store, tapes, script, gate) {
        Ok(heard) => closed(store, heard, true),
        Err(NoMemory) => closed(store, Vec::new(alloc), false),
    }
}

/// Makes the calls of a script, on threads or in its order.
pub(crate) fn call_all<R: Threads + Wait + Sync, D: Disk, G: Gate>(
    rt: &R,
    alloc: Global,
    threads: bool,
    scripted: &Scripted,
    disk: D,
    gate: &G,
) -> Result<Called<D>, (Status, D)>
    requires whole { IsWhole is_built_verb scripted.now.script }
    requires there { length (arc_value scripted.now.tapes) ≡ length scripted.now.script.samples }
    ensures so_far { IfOk result (λ called. (k : ℕ) × Performed (arc_value scripted.now.tapes) (Begun threads (arc_value scripted.now.tapes) scripted.now.script k called.history.items) (D.told disk) (D.told called.disk) called.history.items) }
    ensures finished { IfOk result (λ called. called.is_finished ≡ true → Performed (arc_value scripted.now.tapes) (MadeGiving threads (arc_value scripted.now.tapes) scripted.now.script (D.told disk) (D.told called.disk) called.history.items (queues_of called.heard.items)) (D.told disk) (D.told called.disk) called.history.items) }
    ensures enough { IfOk result (λ called. called.is_finished ≡ true → AreEnough called.history.items called.heard.items × (length called.heard.items ≤ 16)) }
    ensures opens { IfErr result (λ e. Opens (D.told disk) (D.told e.1) e.0) }
    ensures looks { IfErr result (λ e. IsUnchanged (D.told disk) (D.told e.1)) }
    ensures goes { IfOk result (λ called. GoesOn (D.told disk) (D.told called.disk)) }
    ensures goes_back { IfErr result (λ e. GoesOn (D.told disk) (D.told e.1)) }
{
    let store = open_store(alloc, scripted, disk)?;
    if threads {
        return Ok(share(rt, alloc, store, &scripted.script, &scripted.tapes, gate));
    }
    Ok(call_in_order(alloc, store, &scripted.script, &scripted.tapes, gate))
}
