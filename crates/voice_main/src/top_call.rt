//! The top call.

ghost use Rattle.std.specs.Prelude.{ℕ, List, [], Some, ◌≡◌, ◌≤◌, ◌++◌, ◌⊎◌, IfOk, IfErr, IfSome, map, string_bytes, length, take};
ghost use Rattle.std.specs.Arc.{arc_value};
ghost use Rattle.voice_model.specs.Text.{text_of};
ghost use Rattle.voice_outside.specs.Counters.{HasRisen};
ghost use Rattle.script_lang.specs.Verbs.{is_built_verb};
ghost use Rattle.script_lang.specs.Whole.{IsWhole};
ghost use Rattle.voice_store.specs.Facts.{GoesOn};
ghost use Rattle.voice_main.specs.Words.{Command, Says, IsRefused, IsConversion, IsNoRun, IsNoConversion, IsNoAudit, IsNoNotes, IsNoMake, IsNoMirror, IsNoPromotion, IsNoPackets};
ghost use Rattle.voice_main.specs.declared.convert.Way.{Way as WayValue};
ghost use Rattle.voice_main.specs.Outside.{outside, IsUnchanged};
ghost use Rattle.voice_main.specs.Ran.{IsReady, Performed, Begun};
ghost use Rattle.voice_main.specs.Played.{Leaves};
ghost use Rattle.voice_main.specs.RunPromise.{RunPromise};
ghost use Rattle.voice_main.specs.Promises.{Comes, Promises};
ghost use Rattle.voice_main.specs.Obeyed.{Obeys};
ghost use Rattle.voice_main.specs.Statuses.{Stops, Performs, IsEarly, IsSilent, open_status_of, script_status_of};

use crate::assigned::assigned;
use crate::audited::audited;
use crate::calling::call_all;
use crate::census::census;
use crate::convert::convert;
use crate::format::format;
use crate::load::{file, files, load_status};
use crate::make::make;
use crate::mirror_calls::run_mirror_or_other;
use crate::options::format_numbers;
use crate::output::print;
use crate::packets::packets;
use crate::played::finish;
use crate::status::Status;
use crate::words::{conversion_words, is_audit, make_words, notes_words, packets_words, run_words};
use script_lang::{Script, ScriptError, parse};
use std::alloc::Global;
use std::sync::{Arc, Wait};
use std::thread::Threads;
use voice_model::{Entry, Tapes};
use voice_outside::{Disk, Gate, Shelf, Sink};
use voice_store::OpenError;
use voice_units::Name;

/// How a run ended, with the disk and the history.
#[derive(Drop)]
pub struct Ended<D> {
    pub status: Status,
    pub disk: D,
    pub history: Vec<Entry>,
}

/// A script with its sample files.
#[derive(Drop)]
pub(crate) struct Scripted {
    pub(crate) script: Script,
    pub(crate) tapes: Arc<Tapes, Global>,
}

fn script_status(e: ScriptError) -> Status
    ensures { result ≡ script_status_of e }
{
    match e {
        ScriptError::BadLine(line, cause) => Status::BadScript(line, cause),
        ScriptError::NoMemory => Status::NoMemory,
    }
}

pub(crate) fn open_status(e: OpenError) -> Status
    ensures { result ≡ open_status_of e }
{
    match e {
        OpenError::BadDisk(place) => Status::BadDisk(place),
        OpenError::DiskFault => Status::DiskFault,
        OpenError::NoMemory => Status::NoMemory,
    }
}

/// The script of that name, with its sample files.
pub(crate) fn prepared<K: Shelf>(
    alloc: Global,
    name: &Name,
    shelf: &mut K,
) -> Result<Scripted, Status>
    ensures ready { IfOk result (λ s. IfSome (K.files shelf.old) (λ files. IsReady files name.now s.script (arc_value s.tapes))) }
    ensures whole { IfOk result (λ s. IsWhole is_built_verb s.script) }
    ensures there { IfOk result (λ s. length (arc_value s.tapes) ≡ length s.script.samples) }
    ensures stops { IfErr result (Stops name.now (K.files shelf.old) (HasRisen (K.faults shelf.old) (K.faults shelf.new))) }
    ensures kept { K.files shelf.new ≡ K.files shelf.old }
    ensures later { K.faults shelf.old ≤ K.faults shelf.new }
{
    let bytes = match file(shelf, name) {
        Ok(bytes) => bytes,
        Err(e) => return Err(load_status(e)),
    };
    let script = match parse(alloc, &bytes) {
        Ok(script) => script,
        Err(e) => return Err(script_status(e)),
    };
    let tapes = match files(alloc, shelf, &script.samples) {
        Ok(tapes) => tapes,
        Err(e) => return Err(load_status(e)),
    };
    let Ok(tapes) = Arc::new(alloc, Tapes::new(tapes)) else {
        return Err(Status::NoMemory);
    };
    Ok(Scripted { script, tapes })
}

// Makes the calls of a script, sets the files that they gave, and prints their history.
fn perform<R: Threads + Wait + Sync, K: Shelf, O: Sink, D: Disk, G: Gate>(
    rt: &R,
    alloc: Global,
    threads: bool,
    scripted: &Scripted,
    shelf: &mut K,
    out: &mut O,
    disk: D,
    gate: &G,
) -> Ended<D>
    requires whole { IsWhole is_built_verb scripted.now.script }
    requires there { length (arc_value scripted.now.tapes) ≡ length scripted.now.script.samples }
    ensures so_far { ((result.history.items ≡ []) × IsUnchanged (D.told disk) (D.told result.disk)) ⊎ ((k : ℕ) × Performed (arc_value scripted.now.tapes) (Begun threads (arc_value scripted.now.tapes) scripted.now.script k result.history.items) (D.told disk) (D.told result.disk) result.history.items) }
    ensures left { IfSome (K.files shelf.old) (λ files. Leaves threads (arc_value scripted.now.tapes) scripted.now.script files (K.files shelf.new) (D.told disk) (D.told result.disk) result.history.items result.status) }
    ensures which { Performs (HasRisen (K.faults shelf.old) (K.faults shelf.new)) (HasRisen (O.faults out.old) (O.faults out.new) ⊎ HasRisen (O.empty_takes out.old) (O.empty_takes out.new)) (D.told disk) (D.told result.disk) result.status }
    ensures done { result.status ≡ Status.Done → IfSome (O.contents out.old) (λ had. O.contents out.new ≡ Some (had ++ text_of result.history.items)) }
    ensures prefix { IfSome (O.contents out.old) (λ had. (n : ℕ) × (O.contents out.new ≡ Some (had ++ take n (text_of result.history.items)))) }
    ensures unprinted { result.status ≡ Status.ShelfFault → O.contents out.new ≡ O.contents out.old }
    ensures silent { IsSilent result.status → (result.history.items ≡ []) × (O.contents out.new ≡ O.contents out.old) }
    ensures goes { GoesOn (D.told disk) (D.told result.disk) }
{
    let called = match call_all(rt, alloc, threads, scripted, disk, gate) {
        Ok(called) => called,
        Err((status, disk)) => return Ended {
            status,
            disk,
            history: Vec::new(alloc),
        },
    };
    if !called.is_finished {
        // as far as it goes: it may want memory too, or the sink may fail
        let _printed = print(alloc, &called.history, out);
        return Ended {
            status: Status::NoMemory,
            disk: called.disk,
            history: called.history,
        };
    }
    let status = finish(alloc, &called.history, &called.heard, shelf, out);
    Ended {
        status,
        disk: called.disk,
        history: called.history,
    }
}

// Runs the script of that name.
fn run_script<R: Threads + Wait + Sync, K: Shelf, O: Sink, D: Disk, G: Gate>(
    rt: &R,
    alloc: Global,
    threads: bool,
    name: &Name,
    shelf: &mut K,
    out: &mut O,
    disk: D,
    gate: &G,
) -> Ended<D>
    ensures promise { RunPromise threads name.now (outside (K.files shelf.old) (K.faults shelf.old) (O.contents out.old) (O.faults out.old) (O.empty_takes out.old) (D.told disk)) (outside (K.files shelf.new) (K.faults shelf.new) (O.contents out.new) (O.faults out.new) (O.empty_takes out.new) (D.told result.disk)) result.status result.history.items }
    // What stands after any status: the front of the text that the sink took.
    ensures prefix { IfSome (O.contents out.old) (λ had. (n : ℕ) × (O.contents out.new ≡ Some (had ++ take n (text_of result.history.items)))) }
    // A status that is decided before the first call leaves no history and prints nothing; one that is decided before the disk is touched leaves the disk.
    ensures silent { IsSilent result.status → (result.history.items ≡ []) × (O.contents out.new ≡ O.contents out.old) }
    ensures early { IsEarly result.status → result.disk ≡ disk }
    // A status of the shelf's fault prints nothing, also where it comes after the calls.
    ensures unprinted { result.status ≡ Status.ShelfFault → O.contents out.new ≡ O.contents out.old }
    // The disk keeps its size, and its counts never fall.
    ensures disk { GoesOn (D.told disk) (D.told result.disk) }
{
    match prepared(alloc, name, shelf) {
        Ok(scripted) => perform(rt, alloc, threads, &scripted, shelf, out, disk, gate),
        Err(status) => Ended {
            status,
            disk,
            history: Vec::new(alloc),
        },
    }
}

/// Runs a script or formats the disk, as the words say.
pub(crate) fn run_or_format<R: Threads + Wait + Sync, K: Shelf, O: Sink, D: Disk, G: Gate>(
    rt: &R,
    alloc: Global,
    words: &[String],
    shelf: &mut K,
    out: &mut O,
    disk: D,
    gate: &G,
) -> Ended<D>
    requires packets { IsNoPackets (map string_bytes words.now) }
    requires conversion { IsNoConversion (map string_bytes words.now) }
    requires audit { IsNoAudit (map string_bytes words.now) }
    requires notes { IsNoNotes (map string_bytes words.now) }
    requires make { IsNoMake (map string_bytes words.now) }
    requires mirror { IsNoMirror (map string_bytes words.now) }
    requires promotion { IsNoPromotion (map string_bytes words.now) }
    // What the words say is done.
    ensures { Obeys (map string_bytes words.now) (outside (K.files shelf.old) (K.faults shelf.old) (O.contents out.old) (O.faults out.old) (O.empty_takes out.old) (D.told disk)) (outside (K.files shelf.new) (K.faults shelf.new) (O.contents out.new) (O.faults out.new) (O.empty_takes out.new) (D.told result.disk)) disk result.disk result.status result.history.items }
{
    let Some(asked) = run_words(words) else {
        // The grammar decides which words are accepted, and clap assigns their numbers.
        let Some(_accepted) = format_numbers(words) else {
            return Ended {
                status: Status::Usage,
                disk,
                history: Vec::new(alloc),
            };
        };
        let Some(numbers) = assigned(alloc, words) else {
            return Ended {
                status: Status::NoMemory,
                disk,
                history: Vec::new(alloc),
            };
        };
        let (status, disk) = format(disk, numbers);
        return Ended {
            status,
            disk,
            history: Vec::new(alloc),
        };
    };
    run_script(
        rt,
        alloc,
        asked.threads,
        &asked.name,
        shelf,
        out,
        disk,
        gate,
    )
}

// Runs a generated script or one of a file, feeds or promotes a mirror, or formats the disk, as the words say.
fn run_make_or_other<R: Threads + Wait + Sync, K: Shelf, O: Sink, D: Disk, G: Gate>(
    rt: &R,
    alloc: Global,
    words: &[String],
    shelf: &mut K,
    out: &mut O,
    disk: D,
    gate: &G,
) -> Ended<D>
    requires packets { IsNoPackets (map string_bytes words.now) }
    requires conversion { IsNoConversion (map string_bytes words.now) }
    requires audit { IsNoAudit (map string_bytes words.now) }
    requires notes { IsNoNotes (map string_bytes words.now) }
    // What the words say is done.
    ensures { Obeys (map string_bytes words.now) (outside (K.files shelf.old) (K.faults shelf.old) (O.contents out.old) (O.faults out.old) (O.empty_takes out.old) (D.told disk)) (outside (K.files shelf.new) (K.faults shelf.new) (O.contents out.new) (O.faults out.new) (O.empty_takes out.new) (D.told result.disk)) disk result.disk result.status result.history.items }
{
    let Some(asked) = make_words(words) else {
        return run_mirror_or_other(rt, alloc, words, shelf, out, disk, gate);
    };
    make(alloc, asked, out, disk, gate)
}

// Makes a census of what notes name, runs a script, a generated one too, or formats the disk, as the words say.
fn run_notes_or_other<R: Threads + Wait + Sync, K: Shelf, O: Sink, D: Disk, G: Gate>(
    rt: &R,
    alloc: Global,
    words: &[String],
    shelf: &mut K,
    out: &mut O,
    disk: D,
    gate: &G,
) -> Ended<D>
    requires packets { IsNoPackets (map string_bytes words.now) }
    requires conversion { IsNoConversion (map string_bytes words.now) }
    requires audit { IsNoAudit (map string_bytes words.now) }
    // What the words say is done.
    ensures { Obeys (map string_bytes words.now) (outside (K.files shelf.old) (K.faults shelf.old) (O.contents out.old) (O.faults out.old) (O.empty_takes out.old) (D.told disk)) (outside (K.files shelf.new) (K.faults shelf.new) (O.contents out.new) (O.faults out.new) (O.empty_takes out.new) (D.told result.disk)) disk result.disk result.status result.history.items }
{
    let Some(index) = notes_words(words) else {
        return run_make_or_other(rt, alloc, words, shelf, out, disk, gate);
    };
    census(alloc, &index, shelf, out, disk, gate)
}

// Prints an audit, makes a census of what notes name, runs a script or formats the disk, as the words say.
fn run_audit_or_other<R: Threads + Wait + Sync, K: Shelf, O: Sink, D: Disk, G: Gate>(
    rt: &R,
    alloc: Global,
    words: &[String],
    shelf: &mut K,
    out: &mut O,
    disk: D,
    gate: &G,
) -> Ended<D>
    requires packets { IsNoPackets (map string_bytes words.now) }
    requires conversion { IsNoConversion (map string_bytes words.now) }
    // What the words say is done.
    ensures { Obeys (map string_bytes words.now) (outside (K.files shelf.old) (K.faults shelf.old) (O.contents out.old) (O.faults out.old) (O.empty_takes out.old) (D.told disk)) (outside (K.files shelf.new) (K.faults shelf.new) (O.contents out.new) (O.faults out.new) (O.empty_takes out.new) (D.told result.disk)) disk result.disk result.status result.history.items }
{
    if is_audit(words) {
        return audited(alloc, out, disk);
    }
    run_notes_or_other(rt, alloc, words, shelf, out, disk, gate)
}

// Makes one file of another, prints an audit, makes a census of what notes name, runs a script or formats the disk, as the words say.
fn run_conversion_or_other<R: Threads + Wait + Sync, K: Shelf, O: Sink, D: Disk, G: Gate>(
    rt: &R,
    alloc: Global,
    words: &[String],
    shelf: &mut K,
    out: &mut O,
    disk: D,
    gate: &G,
) -> Ended<D>
    requires { IsNoPackets (map string_bytes words.now) }
    // What the words say is done.
    ensures { Obeys (map string_bytes words.now) (outside (K.files shelf.old) (K.faults shelf.old) (O.contents out.old) (O.faults out.old) (O.empty_takes out.old) (D.told disk)) (outside (K.files shelf.new) (K.faults shelf.new) (O.contents out.new) (O.faults out.new) (O.empty_takes out.new) (D.told result.disk)) disk result.disk result.status result.history.items }
{
    let Some(asked) = conversion_words(words) else {
        return run_audit_or_other(rt, alloc, words, shelf, out, disk, gate);
    };
    let status = convert(alloc, &asked, shelf);
    Ended {
        status,
        disk,
        history: Vec::new(alloc),
    }
}

/// Does what the words say.
pub fn run<R: Threads + Wait + Sync, K: Shelf, O: Sink, D: Disk, G: Gate>(
    rt: &R,
    alloc: Global,
    words: &[String],
    shelf: &mut K,
    out: &mut O,
    disk: D,
    gate: &G,
) -> Ended<D>
    // The words are refused, or they say a command, whose promise holds.
    ensures comes { Comes (map string_bytes words.now) (outside (K.files shelf.old) (K.faults shelf.old) (O.contents out.old) (O.faults out.old) (O.empty_takes out.old) (D.told disk)) (outside (K.files shelf.new) (K.faults shelf.new) (O.contents out.new) (O.faults out.new) (O.empty_takes out.new) (D.told result.disk)) result.status result.history.items }
    // The promise of whatever command the words say holds.
    ensures promise { (command : Command) → Says (map string_bytes words.now) command → Promises command (outside (K.files shelf.old) (K.faults shelf.old) (O.contents out.old) (O.faults out.old) (O.empty_takes out.old) (D.told disk)) (outside (K.files shelf.new) (K.faults shelf.new) (O.contents out.new) (O.faults out.new) (O.empty_takes out.new) (D.told result.disk)) result.status result.history.items }
    // Usage comes exactly where the words are refused.
    ensures usage { IsRefused (map string_bytes words.now) → result.status ≡ Status.Usage }
    ensures refused { result.status ≡ Status.Usage → IsRefused (map string_bytes words.now) }
    // What stands after any status: the front of the text that the sink took, but for packets, an audit, a generated script and a mirror that takes packets, and the files, but for packets, a conversion and a run; their promises say what becomes of them.
    ensures prefix { IsNoPackets (map string_bytes words.now) → IsNoAudit (map string_bytes words.now) → IsNoMake (map string_bytes words.now) → IsNoMirror (map string_bytes words.now) → IfSome (O.contents out.old) (λ had. (n : ℕ) × (O.contents out.new ≡ Some (had ++ take n (text_of result.history.items)))) }
    ensures files { IsNoPackets (map string_bytes words.now) → IsNoConversion (map string_bytes words.now) → IsNoRun (map string_bytes words.now) → K.files shelf.new ≡ K.files shelf.old }
    // A status that is decided before the first call leaves no history and prints nothing; one that is decided before the disk is touched leaves the disk.
    ensures silent { IsSilent result.status → (result.history.items ≡ []) × (O.contents out.new ≡ O.contents out.old) }
    ensures early { IsEarly result.status → result.disk ≡ disk }
    // A status of the shelf's fault prints nothing, also where it comes after the calls.
    ensures unprinted { result.status ≡ Status.ShelfFault → O.contents out.new ≡ O.contents out.old }
    // Where no script is run, it comes before the disk is touched.
    ensures shelf { IsNoPackets (map string_bytes words.now) → IsNoRun (map string_bytes words.now) → result.status ≡ Status.ShelfFault → (result.disk ≡ disk) × (result.history.items ≡ []) × (O.contents out.new ≡ O.contents out.old) }
    // A conversion leaves the disk.
    ensures apart { (way : WayValue) (source target : List ℕ) → IsConversion way (map string_bytes words.now) source target → result.disk ≡ disk }
    // The disk keeps its size, and its counts never fall.
    ensures disk { GoesOn (D.told disk) (D.told result.disk) }
{
    let Some(asked) = packets_words(words) else {
        return run_conversion_or_other(rt, alloc, words, shelf, out, disk, gate);
    };
    packets(alloc, &asked, shelf, out, disk, gate)
}
