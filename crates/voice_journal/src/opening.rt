//! Opens a journal.

ghost use Rattle.std.specs.Prelude.{◌≡◌, ◌+◌, ◌≤◌, ◌<◌, ◌^◌, ℕ, List, length, not, IsTrue, IsErrOf, IsErrAnd, IfOk, IfErr, OnOk, None, Some, MatchResult};
ghost use Rattle.voice_outside.specs.Disk.{Now, segment};
ghost use Rattle.voice_outside.specs.Counters.{HasRisen};
ghost use Rattle.disk_areas.specs.Areas.{Journal as Reading};
ghost use Rattle.disk_areas.specs.Areas.{journal_in, by_head, current_head, JournalReading};
ghost use Rattle.voice_journal.specs.Readings.{Reads, extent};
ghost use Rattle.voice_journal.specs.Places.{area_start};
ghost use Rattle.voice_journal.specs.Parsed.{head_of, IsOther};
ghost use Rattle.voice_journal.specs.Looks.{Looks, Since};
ghost use Rattle.voice_journal.specs.Opens.{IfBad, IsBadAt, IsOpened};

use crate::device::{read_part, settle};
use crate::errors::OpenError;
use crate::heads::{Current, choose};
use crate::lists::RecordList;
use crate::parsing::{Parsed, read_records};
use crate::seats::{Journal, Seat, start_of};
use crate::superblocks::read_superblock;
use std::alloc::Global;
use voice_outside::Disk;
use voice_units::Shape;

/// A journal that was opened: the disk's shape, and the payloads of its records.
#[derive(Drop)]
pub struct Opened {
    pub shape: Shape,
    pub journal: Journal,
    pub payloads: RecordList,
}

// Syncs, and reads the shape.
fn read_shape<D: Disk>(disk: &mut D) -> Result<Shape, OpenError>
    ensures looks { Looks 2 (D.told disk.old) (D.told disk.new) }
    ensures cause { IsErrOf result OpenError.DiskFault → HasRisen (D.told disk.old).faults (D.told disk.new).faults }
    ensures fits { IfOk result (λ shape. extent shape ≤ (D.told disk.new).size) }
    ensures value { IsTrue (D.told disk.old).honest → IfOk result (λ shape. journal_in (D.told disk.old).bytes ≡ by_head shape (D.told disk.old).bytes (current_head shape (D.told disk.old).bytes)) }
    ensures bad { IsTrue (D.told disk.old).honest → IfErr result (IfBad (D.told disk.old).bytes) }
    ensures settled { IsTrue (D.told disk.old).honest → OnOk result (Now (D.told disk.new) (λ image. image ≡ (D.told disk.old).bytes)) }
    ensures moment { OnOk result ((D.told disk.old).calls + 1 ≤ (D.told disk.new).calls) }
    ensures since { IsTrue (D.told disk.old).honest → OnOk result (Since ((D.told disk.old).calls + 1) (D.told disk.new) (λ image. image ≡ (D.told disk.old).bytes)) }
{
    if settle(disk).is_err() {
        return Err(OpenError::DiskFault);
    }
    let size = disk.size();
    if size < 64 {
        return Err(OpenError::BadDisk(0));
    }
    let mut bytes = [0u8; 64];
    if read_part(disk, 0, &mut bytes).is_err() {
        return Err(OpenError::DiskFault);
    }
    match read_superblock(&bytes, size) {
        Ok(shape) => Ok(shape),
        Err(place) => Err(OpenError::BadDisk(place)),
    }
}

// Reads the heads of the two areas.
fn read_current<D: Disk>(disk: &mut D, shape: &Shape) -> Result<Current, OpenError>
    requires { extent shape.now ≤ (D.told disk.old).size }
    ensures looks { Looks 2 (D.told disk.old) (D.told disk.new) }
    ensures cause { IsErrOf result OpenError.DiskFault → HasRisen (D.told disk.old).faults (D.told disk.new).faults }
    ensures value { IsTrue (D.told disk.old).honest → IfOk result (λ x. current_head shape.now (D.told disk.old).bytes ≡ Some (head_of shape.now x.second x.epoch)) }
    ensures other { IsTrue (D.told disk.old).honest → IfOk result (λ x. IsOther x.is_closed (area_start shape.now (not x.second)) (D.told disk.old).bytes x.epoch) }
    ensures most { IfOk result (λ x. x.epoch ≤ 2 ^ 48) }
    ensures bad { IsTrue (D.told disk.old).honest → IfErr result (λ e. (place : ℕ) → e ≡ OpenError.BadDisk place → (place ≡ 64) × (current_head shape.now (D.told disk.old).bytes ≡ None)) }
{
    let mut first = [0u8; 16];
    let mut second = [0u8; 16];
    if read_part(disk, 64, &mut first).is_err() {
        return Err(OpenError::DiskFault);
    }
    if read_part(disk, 64 + u64::from(shape.area), &mut second).is_err() {
        return Err(OpenError::DiskFault);
    }
    match choose(&first, &second) {
        Some(current) => Ok(current),
        None => Err(OpenError::BadDisk(64)),
    }
}

impl Journal {
    /// Reads the journal of a disk, beginning with a sync. It changes nothing. `BadDisk` comes exactly where the disk's bytes are damaged, with the place, as far as the superblock, the heads and the lengths of records go; what a payload says is not looked at.
    pub fn open<D: Disk>(alloc: Global, disk: &mut D) -> Result<Opened, OpenError>
        ensures looks { Looks 5 (D.told disk.old) (D.told disk.new) }
        ensures cause { IsErrOf result OpenError.DiskFault → HasRisen (D.told disk.old).faults (D.told disk.new).faults }
        ensures fits { IfOk result (λ opened. extent opened.shape ≤ (D.told disk.new).size) }
        ensures few { IfOk result (λ opened. length opened.payloads < 2 ^ 24) }
        ensures same { IfOk result (λ opened. opened.journal.shape ≡ opened.shape) }
        ensures sure { IfOk result (λ opened. opened.journal.doubt ≡ None) }
        ensures moment { OnOk result ((D.told disk.old).calls + 1 ≤ (D.told disk.new).calls) }
        // From the first sync on, each crash leaves the bytes that were read.
        ensures since { IsTrue (D.told disk.old).honest → OnOk result (Since ((D.told disk.old).calls + 1) (D.told disk.new) (λ image. image ≡ (D.told disk.old).bytes)) }
        ensures reads { IsTrue (D.told disk.old).honest → IfOk result (λ opened. (r : Reading) × IsOpened (D.told disk.old).bytes (D.told disk.new) opened r) }
        ensures bad { IsTrue (D.told disk.old).honest → IfErr result (IfBad (D.told disk.old).bytes) }
        ensures damaged { IsTrue (D.told disk.old).honest → (place : ℕ) → journal_in (D.told disk.old).bytes ≡ JournalReading.Damaged place → IsErrAnd result (IsBadAt place) }
    {
        let shape = read_shape(disk)?;
        let current = read_current(disk, &shape)?;
        let start = start_of(&shape, current.second);
        let mut room = vec![in alloc; 0u8; shape.area as usize]?;
        if read_part(disk, start, &mut room).is_err() {
            return Err(OpenError::DiskFault);
        }
        match read_records(alloc, &room, start)? {
            Parsed::Broken(gate) => Err(OpenError::BadDisk(start + gate as u64)),
            Parsed::Sound(spans, gate) => {
                let bytes = room[..gate].to_vec(alloc)?;
                let payloads = RecordList { bytes, spans };
                let seat = Seat {
                    second: current.second,
                    epoch: current.epoch,
                    gate: gate as u32,
                };
                let journal = Journal {
                    shape,
                    seat,
                    doubt: None,
                    is_closed: current.is_closed,
                    room,
                };
                Ok(Opened {
                    shape,
                    journal,
                    payloads,
                })
            }
        }
    }
}
