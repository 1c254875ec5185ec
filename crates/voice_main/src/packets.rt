//! A run of a script whose changes are written as packets, by which a mirror follows its disk.

ghost use Rattle.std.specs.Prelude.{ℕ, List, [], Bool, Some, ◌≡◌, ◌≤◌, ◌^◌, ◌++◌, ◌⊎◌, false, true, is_some, IsTrue, IfOk, IfErr, OnOk, IfSome, length, take};
ghost use Rattle.std.specs.Arc.{arc_value};
ghost use Rattle.recovery.specs.Shown.{IsParts};
ghost use Rattle.voice_model.specs.Image.{opened_from};
ghost use Rattle.voice_model.specs.State.{State};
ghost use Rattle.voice_model.specs.Text.{text_of};
ghost use Rattle.voice_outside.specs.Counters.{HasRisen};
ghost use Rattle.mirror_sender.specs.Abreast.{IsSound, IsAbreast, AreWithin};
ghost use Rattle.script_lang.specs.Verbs.{is_built_verb};
ghost use Rattle.script_lang.specs.Whole.{IsWhole};
ghost use Rattle.served_files.specs.Files.{AreEnough, queues_of};
ghost use Rattle.voice_server.specs.Kept.{IsKept};
ghost use Rattle.voice_store.specs.Shown.{history_of};
ghost use Rattle.voice_store.specs.Facts.{GoesOn};
ghost use Rattle.voice_main.specs.Outside.{outside, IsUnchanged};
ghost use Rattle.voice_main.specs.PacketsPromise.{PacketsPromise};
ghost use Rattle.voice_main.specs.Ran.{Performed, Begun, MadeGiving};
ghost use Rattle.voice_main.specs.Sent.{next_line, Spells, TellsNext, IsNext, MadeSpelled, PacketsStand, SentLeaves, GainsText, GainsFront};
ghost use Rattle.voice_main.specs.Statuses.{Opens, Finishes, Performs, IsEarly, IsSilent, shelf_status_of};

use crate::calling::{Called, call_in_order, open_store};
use crate::output::{history_text, print, print_text};
use crate::status::Status;
use crate::top_call::{Ended, Scripted, prepared};
use mirror_sender::Sender;
use next_ropes::copy_with_room;
use served_files::{Heard, set_files};
use std::alloc::Global;
use voice_model::{Entry, Tapes};
use voice_outside::{Disk, Gate, OutsideError, Shelf, Sink};
use voice_store::Store;
use voice_units::{Name, NoMemory};

/// The script that is run, the file that its packets are written to, and the number of the first one, from 1 to 2^47.
#[derive(Drop)]
pub struct Sending {
    pub script: Name,
    pub file: Name,
    pub first: u64,
}

// A sender that follows a store from its opening on.
fn started<D: Disk>(alloc: Global, store: &Store<D>, first: u64) -> Result<Sender, NoMemory>
    requires kept { IsKept D.told store.now }
    requires fresh { history_of store.now ≡ [] }
    requires parts { IsParts store.now.inside.journal.shape store.now.inside.parts }
    requires least { 1 ≤ first }
    requires most { first ≤ 2 ^ 47 }
    ensures sound { IfOk result (λ s. (tapes : List (List ℕ)) → IsSound tapes s) }
    ensures abreast { IfOk result (λ s. IsTrue (D.told store.now.origin).honest → (start : State) → opened_from (D.told store.now.origin).bytes ≡ Some start → (tapes : List (List ℕ)) → IsAbreast tapes s start) }
    ensures next { IfOk result (λ s. s.next ≡ first) }
{
    let parts = copy_with_room(store.parts(), 0)?;
    Ok(Sender::new(alloc, &store.shape(), parts, first))
}

// Appends the line that tells the number of the next packet.
fn put_next(sender: &Sender, text: &mut Vec<u8>) -> Result<(), NoMemory>
    ensures { OnOk result ((unsure : Bool) × (text.new.items ≡ text.old.items ++ next_line unsure sender.now.next) × ((tapes : List (List ℕ)) (s : State) → IsAbreast tapes sender.now s → unsure ≡ is_some s.doubt)) }
{
    if sender.in_doubt() {
        text.extend_from_slice(b"next unknown\n")?;
        return Ok(());
    }
    let alloc = *text.allocator();
    let next = sender.next();
    let line = format!(in alloc; "next {next}\n")?;
    text.extend_from_slice(line.as_bytes())?;
    Ok(())
}

// What is written behind the calls of a script: the packets, and the text with its last line.
#[derive(Drop)]
struct Written {
    packets: Vec<u8>,
    text: Vec<u8>,
}

// Follows a history, and spells what is written behind it.
fn spelled(
    alloc: Global,
    sender: &mut Sender,
    tapes: &Tapes,
    history: &[Entry],
) -> Result<Written, NoMemory>
    requires sound { IsSound tapes.now sender.old }
    requires within { AreWithin tapes.now history.now }
    ensures packets { IfOk result (λ w. Spells tapes.now sender.old history.now w.packets.items) }
    ensures text { IfOk result (λ w. (line : List ℕ) × (w.text.items ≡ text_of history.now ++ line) × TellsNext tapes.now sender.old history.now line) }
{
    let mut packets = Vec::new(alloc);
    sender.follow(tapes, history, &mut packets)?;
    let mut text = history_text(alloc, history)?;
    put_next(sender, &mut text)?;
    Ok(Written { packets, text })
}

// The status of an error of the shelf.
fn shelf_status(error: OutsideError) -> Status
    ensures { result ≡ shelf_status_of error }
{
    match error {
        OutsideError::Failed => Status::ShelfFault,
        OutsideError::NoMemory => Status::NoMemory,
    }
}

// Sets the files of a finished script and behind them that of the packets, and prints the text. Where a file can't be set, nothing is printed.
fn write_out<K: Shelf, O: Sink>(
    file: &Name,
    written: &Written,
    history: &[Entry],
    heard: &[Vec<Heard>],
    shelf: &mut K,
    out: &mut O,
) -> Status
    requires few { length heard.now ≤ 16 }
    requires enough { AreEnough history.now heard.now }
    ensures which { Finishes (HasRisen (K.faults shelf.old) (K.faults shelf.new)) (HasRisen (O.faults out.old) (O.faults out.new) ⊎ HasRisen (O.empty_takes out.old) (O.empty_takes out.new)) result }
    ensures files { IfSome (K.files shelf.old) (λ files. PacketsStand history.now (queues_of heard.now) file.now written.now.packets.items files (K.files shelf.new) result) }
    ensures unprinted { result ≡ Status.ShelfFault → O.contents out.new ≡ O.contents out.old }
    ensures done { result ≡ Status.Done → IfSome (O.contents out.old) (λ had. O.contents out.new ≡ Some (had ++ written.now.text.items)) }
    ensures prefix { IfSome (O.contents out.old) (λ had. (n : ℕ) × (O.contents out.new ≡ Some (had ++ take n written.now.text.items))) }
{
    match set_files(shelf, history, heard) {
        Ok(()) => {}
        Err(error) => return shelf_status(error),
    }
    match shelf.put(file, &written.packets) {
        Ok(()) => print_text(&written.text, out),
        Err(error) => shelf_status(error),
    }
}

// Follows a history whose calls are finished, and spells what is written behind it; `None` where they are not, or for want of memory.
fn follow_all(
    alloc: Global,
    is_finished: bool,
    mut sender: Sender,
    tapes: &Tapes,
    history: &[Entry],
) -> Option<Written>
    requires sound { IsSound tapes.now sender }
    requires within { is_finished ≡ true → AreWithin tapes.now history.now }
    ensures finished { IfSome result (λ w. is_finished ≡ true) }
    ensures packets { IfSome result (λ w. Spells tapes.now sender history.now w.packets.items) }
    ensures text { IfSome result (λ w. (line : List ℕ) × (w.text.items ≡ text_of history.now ++ line) × TellsNext tapes.now sender history.now line) }
{
    if !is_finished {
        return None;
    }
    match spelled(alloc, &mut sender, tapes, history) {
        Ok(written) => Some(written),
        Err(NoMemory) => None,
    }
}

// What the calls of a script left, and what is written behind them, if they are finished and there was memory for it.
#[derive(Drop)]
struct Followed<D> {
    called: Called<D>,
    written: Option<Written>,
}

// Opens the store of a disk, makes the calls of a script in its order, and follows them with a sender of the opening.
fn call_followed<D: Disk, G: Gate>(
    alloc: Global,
    first: u64,
    scripted: &Scripted,
    disk: D,
    gate: &G,
) -> Result<Followed<D>, (Status, D)>
    requires whole { IsWhole is_built_verb scripted.now.script }
    requires there { length (arc_value scripted.now.tapes) ≡ length scripted.now.script.samples }
    requires least { 1 ≤ first }
    requires most { first ≤ 2 ^ 47 }
    ensures so_far { IfOk result (λ f. (k : ℕ) × Performed (arc_value scripted.now.tapes) (Begun false (arc_value scripted.now.tapes) scripted.now.script k f.called.history.items) (D.told disk) (D.told f.called.disk) f.called.history.items) }
    ensures spelled { IfOk result (λ f. IfSome f.written (λ w. Performed (arc_value scripted.now.tapes) (MadeSpelled first (arc_value scripted.now.tapes) scripted.now.script (D.told disk) (D.told f.called.disk) f.called.history.items (queues_of f.called.heard.items) w.packets.items w.text.items) (D.told disk) (D.told f.called.disk) f.called.history.items)) }
    ensures enough { IfOk result (λ f. IfSome f.written (λ w. AreEnough f.called.history.items f.called.heard.items × (length f.called.heard.items ≤ 16))) }
    ensures opens { IfErr result (λ e. Opens (D.told disk) (D.told e.1) e.0) }
    ensures looks { IfErr result (λ e. IsUnchanged (D.told disk) (D.told e.1)) }
    ensures goes { IfOk result (λ f. GoesOn (D.told disk) (D.told f.called.disk)) }
    ensures goes_back { IfErr result (λ e. GoesOn (D.told disk) (D.told e.1)) }
{
    let store = open_store(alloc, scripted, disk)?;
    let Ok(sender) = started(alloc, &store, first) else {
        let (disk, _none) = store.close();
        return Err((Status::NoMemory, disk));
    };
    let called = call_in_order(alloc, store, &scripted.script, &scripted.tapes, gate);
    let written = follow_all(
        alloc,
        called.is_finished,
        sender,
        &scripted.tapes,
        &called.history,
    );
    Ok(Followed { called, written })
}

// Makes the calls of a script, sets the files that they gave and that of the packets, and prints the history.
fn send<K: Shelf, O: Sink, D: Disk, G: Gate>(
    alloc: Global,
    asked: &Sending,
    scripted: &Scripted,
    shelf: &mut K,
    out: &mut O,
    disk: D,
    gate: &G,
) -> Ended<D>
    requires whole { IsWhole is_built_verb scripted.now.script }
    requires there { length (arc_value scripted.now.tapes) ≡ length scripted.now.script.samples }
    requires least { 1 ≤ asked.now.first }
    requires most { asked.now.first ≤ 2 ^ 47 }
    ensures so_far { ((result.history.items ≡ []) × IsUnchanged (D.told disk) (D.told result.disk)) ⊎ ((k : ℕ) × Performed (arc_value scripted.now.tapes) (Begun false (arc_value scripted.now.tapes) scripted.now.script k result.history.items) (D.told disk) (D.told result.disk) result.history.items) }
    ensures left { IfSome (K.files shelf.old) (λ files. SentLeaves asked.now.file asked.now.first (arc_value scripted.now.tapes) scripted.now.script files (K.files shelf.new) (D.told disk) (D.told result.disk) result.history.items result.status) }
    ensures which { Performs (HasRisen (K.faults shelf.old) (K.faults shelf.new)) (HasRisen (O.faults out.old) (O.faults out.new) ⊎ HasRisen (O.empty_takes out.old) (O.empty_takes out.new)) (D.told disk) (D.told result.disk) result.status }
    ensures done { result.status ≡ Status.Done → GainsText (O.contents out.old) (O.contents out.new) result.history.items (λ line. Performed (arc_value scripted.now.tapes) (IsNext asked.now.first (arc_value scripted.now.tapes) result.history.items line) (D.told disk) (D.told result.disk) result.history.items) }
    ensures prefix { GainsFront (O.contents out.old) (O.contents out.new) result.history.items }
    ensures unprinted { result.status ≡ Status.ShelfFault → O.contents out.new ≡ O.contents out.old }
    ensures silent { IsSilent result.status → (result.history.items ≡ []) × (O.contents out.new ≡ O.contents out.old) }
    ensures goes { GoesOn (D.told disk) (D.told result.disk) }
{
    let Followed { called, written } = match call_followed(
        alloc,
        asked.first,
        scripted,
        disk,
        gate,
    ) {
        Ok(followed) => followed,
        Err((status, disk)) => return Ended {
            status,
            disk,
            history: Vec::new(alloc),
        },
    };
    let Some(written) = written else {
        // as far as it goes: it may want memory too, or the sink may fail
        let _printed = print(alloc, &called.history, out);
        return Ended {
            status: Status::NoMemory,
            disk: called.disk,
            history: called.history,
        };
    };
    let status = write_out(
        &asked.file,
        &written,
        &called.history,
        &called.heard,
        shelf,
        out,
    );
    Ended {
        status,
        disk: called.disk,
        history: called.history,
    }
}

/// Runs the script in the order of its lines, and behind the files of its servings writes the packets of its changes to a file. On an honest disk these are the changes of the history that it prints, numbered from the first number on, and a last line tells the number behind them, or that it is unknown, as a change is in doubt.
pub(crate) fn packets<K: Shelf, O: Sink, D: Disk, G: Gate>(
    alloc: Global,
    asked: &Sending,
    shelf: &mut K,
    out: &mut O,
    disk: D,
    gate: &G,
) -> Ended<D>
    requires least { 1 ≤ asked.now.first }
    requires most { asked.now.first ≤ 2 ^ 47 }
    ensures promise { PacketsPromise asked.now.script asked.now.file asked.now.first (outside (K.files shelf.old) (K.faults shelf.old) (O.contents out.old) (O.faults out.old) (O.empty_takes out.old) (D.told disk)) (outside (K.files shelf.new) (K.faults shelf.new) (O.contents out.new) (O.faults out.new) (O.empty_takes out.new) (D.told result.disk)) result.status result.history.items }
    // A status that is decided before the first call leaves no history and prints nothing; one that is decided before the disk is touched leaves the disk.
    ensures silent { IsSilent result.status → (result.history.items ≡ []) × (O.contents out.new ≡ O.contents out.old) }
    ensures early { IsEarly result.status → result.disk ≡ disk }
    // A status of the shelf's fault prints nothing, also where it comes after the calls.
    ensures unprinted { result.status ≡ Status.ShelfFault → O.contents out.new ≡ O.contents out.old }
    // The disk keeps its size, and its counts never fall.
    ensures disk { GoesOn (D.told disk) (D.told result.disk) }
{
    match prepared(alloc, &asked.script, shelf) {
        Ok(scripted) => send(alloc, asked, &scripted, shelf, out, disk, gate),
        Err(status) => Ended {
            status,
            disk,
            history: Vec::new(alloc),
        },
    }
}
