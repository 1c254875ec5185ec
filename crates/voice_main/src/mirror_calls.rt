//! What the words of a mirror say: its disk takes the packets of a file, or becomes a voice disk.

ghost use Rattle.std.specs.Prelude.{ℕ, List, [], Option, Some, ◌≡◌, map, string_bytes};
ghost use Rattle.voice_outside.specs.Files.{Files};
ghost use Rattle.mirror_packets.specs.Packets.{AreGood};
ghost use Rattle.mirror_packets.specs.Shown.{packets_of};
ghost use Rattle.voice_store.specs.Facts.{GoesOn};
ghost use Rattle.mirror_commands.specs.Feeding.{IsBounded};
ghost use Rattle.voice_main.specs.MirrorPromise.{Fed, MirrorPromise};
ghost use Rattle.voice_main.specs.Outside.{outside};
ghost use Rattle.voice_main.specs.PromotionPromise.{PromotionPromise};
ghost use Rattle.voice_main.specs.Obeyed.{Obeys};
ghost use Rattle.voice_main.specs.Statuses.{IsEarly, IsSilent, packets_status_of, refusal_status_of};
ghost use Rattle.voice_main.specs.Words.{IsNoConversion, IsNoAudit, IsNoNotes, IsNoMake, IsNoPackets};

use crate::load::{file, load_status};
use crate::output::print_text;
use crate::status::Status;
use crate::top_call::{Ended, open_status, run_or_format};
use crate::words::{is_promotion, mirror_words};
use mirror_commands::{Refusal, feed, promote};
use mirror_packets::{Packet, PacketError, parse};
use std::alloc::Global;
use std::sync::Wait;
use std::thread::Threads;
use voice_outside::{Disk, Gate, Shelf, Sink};
use voice_units::Name;

// The status of packets that are refused.
fn packets_status(e: PacketError) -> Status
    ensures { result ≡ packets_status_of e }
{
    match e {
        PacketError::BadPackets(place) => Status::BadPackets(place),
        PacketError::NoMemory => Status::NoMemory,
    }
}

// The status of a promotion that is refused.
fn refusal_status(e: Refusal) -> Status
    ensures { result ≡ refusal_status_of e }
{
    match e {
        Refusal::BadDisk(place) => Status::BadDisk(place),
        Refusal::EpochSpent => Status::EpochSpent,
        Refusal::JournalFull(need, left) => Status::JournalFull(need, left),
        Refusal::DiskFault => Status::DiskFault,
        Refusal::InDoubt => Status::InDoubt,
        Refusal::NoMemory => Status::NoMemory,
    }
}

// Feeds packets to the mirror of a disk, and prints what became of them.
fn fed<O: Sink, D: Disk>(alloc: Global, packets: &[Packet], out: &mut O, disk: D) -> (Status, D)
    requires good { AreGood (packets_of packets.now) }
    ensures fed { (files : Option Files) (old_faults new_faults : ℕ) → Fed (packets_of packets.now) (outside files old_faults (O.contents out.old) (O.faults out.old) (O.empty_takes out.old) (D.told disk)) (outside files new_faults (O.contents out.new) (O.faults out.new) (O.empty_takes out.new) (D.told result.1)) result.0 }
    ensures calls { IsBounded (packets_of packets.now) (D.told disk) (D.told result.1) }
    ensures goes { GoesOn (D.told disk) (D.told result.1) }
{
    let (told, disk) = feed(alloc, packets, disk);
    let status = match told {
        Ok(text) => print_text(&text, out),
        Err(e) => open_status(e),
    };
    (status, disk)
}

/// Feeds the packets of a file to the mirror of a disk, and prints a line for each that tells what became of it, and the position. The file is read whole before the disk is touched.
pub(crate) fn mirror<K: Shelf, O: Sink, D: Disk>(
    alloc: Global,
    name: &Name,
    shelf: &mut K,
    out: &mut O,
    disk: D,
) -> Ended<D>
    ensures promise { MirrorPromise name.now (outside (K.files shelf.old) (K.faults shelf.old) (O.contents out.old) (O.faults out.old) (O.empty_takes out.old) (D.told disk)) (outside (K.files shelf.new) (K.faults shelf.new) (O.contents out.new) (O.faults out.new) (O.empty_takes out.new) (D.told result.disk)) result.status result.history.items }
    // A status that is decided before the disk is opened prints nothing; one that is decided before it is touched leaves the disk.
    ensures silent { IsSilent result.status → (result.history.items ≡ []) × (O.contents out.new ≡ O.contents out.old) }
    ensures early { IsEarly result.status → result.disk ≡ disk }
    // The shelf is read before the disk is touched.
    ensures shelf { result.status ≡ Status.ShelfFault → (result.disk ≡ disk) × (result.history.items ≡ []) × (O.contents out.new ≡ O.contents out.old) }
    // The disk keeps its size, and its counts never fall.
    ensures disk { GoesOn (D.told disk) (D.told result.disk) }
{
    let bytes = match file(shelf, name) {
        Ok(bytes) => bytes,
        Err(e) => return Ended {
            status: load_status(e),
            disk,
            history: Vec::new(alloc),
        },
    };
    let packets = match parse(alloc, &bytes) {
        Ok(packets) => packets,
        Err(e) => return Ended {
            status: packets_status(e),
            disk,
            history: Vec::new(alloc),
        },
    };
    let (status, disk) = fed(alloc, &packets, out, disk);
    Ended {
        status,
        disk,
        history: Vec::new(alloc),
    }
}

/// Makes a mirror's disk a voice disk. It reads no file and prints nothing.
pub(crate) fn promoted<D: Disk>(alloc: Global, disk: D) -> Ended<D>
    ensures promise { (files : Option Files) (shelf_faults : ℕ) (contents : Option (List ℕ)) (sink_faults empty_takes : ℕ) → PromotionPromise (outside files shelf_faults contents sink_faults empty_takes (D.told disk)) (outside files shelf_faults contents sink_faults empty_takes (D.told result.disk)) result.status result.history.items }
    ensures silent { result.history.items ≡ [] }
    // No status is one that is decided before the disk is touched, or one of the shelf.
    ensures late { IsEarly result.status → ⊥ }
    ensures shelf { result.status ≡ Status.ShelfFault → ⊥ }
    // The disk keeps its size, and its counts never fall.
    ensures disk { GoesOn (D.told disk) (D.told result.disk) }
{
    let (promoted, disk) = promote(alloc, disk);
    let status = match promoted {
        Ok(()) => Status::Done,
        Err(e) => refusal_status(e),
    };
    Ended {
        status,
        disk,
        history: Vec::new(alloc),
    }
}

/// Feeds or promotes a mirror, runs a script or formats the disk, as the words say.
pub(crate) fn run_mirror_or_other<R: Threads + Wait + Sync, K: Shelf, O: Sink, D: Disk, G: Gate>(
    rt: &R,
    alloc: Global,
    words: &[String],
    shelf: &mut K,
    out: &mut O,
    disk: D,
    gate: &G,
) -> Ended<D>
    requires packets { IsNoPackets (map string_bytes words.now) }
    requires conversion { IsNoConversion (map string_bytes words.now) }
    requires audit { IsNoAudit (map string_bytes words.now) }
    requires notes { IsNoNotes (map string_bytes words.now) }
    requires make { IsNoMake (map string_bytes words.now) }
    // What the words say is done.
    ensures { Obeys (map string_bytes words.now) (outside (K.files shelf.old) (K.faults shelf.old) (O.contents out.old) (O.faults out.old) (O.empty_takes out.old) (D.told disk)) (outside (K.files shelf.new) (K.faults shelf.new) (O.contents out.new) (O.faults out.new) (O.empty_takes out.new) (D.told result.disk)) disk result.disk result.status result.history.items }
{
    if is_promotion(words) {
        return promoted(alloc, disk);
    }
    let Some(name) = mirror_words(words) else {
        return run_or_format(rt, alloc, words, shelf, out, disk, gate);
    };
    mirror(alloc, &name, shelf, out, disk)
}
