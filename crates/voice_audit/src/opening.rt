//! Reads what a disk keeps.

ghost use Rattle.std.specs.Prelude.{◌≡◌, ◌+◌, ◌-◌, ◌<◌, ◌^◌, ℕ, length, slice_get, Some, IsTrue, IfOk, IfErr, OnOk};
ghost use Rattle.voice_outside.specs.Counters.{HasRisen};
ghost use Rattle.disk_areas.specs.Areas.{Record};
ghost use Rattle.voice_journal.specs.Looks.{Looks, Since};
ghost use Rattle.voice_model.specs.Replay.{Rebuilt, nothing_rebuilt};
ghost use Rattle.voice_model.specs.Image.{Reading, Replayed, reading, replayed};
ghost use Rattle.recovery.specs.Replayed.{records_of};
ghost use Rattle.recovery.specs.Shown.{Rebuilds, IsParts};
ghost use Rattle.voice_audit.specs.Opening.{OpensAs};

use recovery::{Parts, ReplayError, replay};
use std::alloc::Global;
use voice_journal::{Journal, OpenError, Opened, RecordList};
use voice_outside::Disk;
use voice_units::Shape;

/// What stands on a disk: its shape, the epoch and the room of its current area, and what the changes there rebuild.
#[derive(Drop)]
pub(crate) struct Standing {
    pub shape: Shape,
    pub epoch: u64,
    pub left: u64,
    pub parts: Parts,
}

/// The place of a payload's gate on the disk, 0 where there is no such payload.
fn place_of(payloads: &RecordList, k: u32) -> u64
    ensures { (one : Record) → slice_get payloads.now k ≡ Some one → result ≡ one.at }
{
    payloads.place(k).unwrap_or(0)
}

/// The parts that payloads rebuild. One that is refused is damage at its gate's place.
fn rebuild(alloc: Global, shape: &Shape, payloads: &RecordList) -> Result<Parts, OpenError>
    requires { length payloads.now < 2 ^ 32 - 1 }
    ensures ok { IfOk result (λ parts. (b : Rebuilt) × (replayed (nothing_rebuilt shape.now) (records_of payloads.now) ≡ Replayed.All b) × Rebuilds parts b) }
    ensures bad { IfErr result (λ e. (place : ℕ) → e ≡ OpenError.BadDisk place → (k : ℕ) × (replayed (nothing_rebuilt shape.now) (records_of payloads.now) ≡ Replayed.Refused k) × ((one : Record) → slice_get payloads.now k ≡ Some one → place ≡ one.at)) }
    ensures sound { IfErr result (λ e. ¬ (e ≡ OpenError.DiskFault)) }
{
    match replay(alloc, shape, payloads) {
        Ok(parts) => Ok(parts),
        Err(ReplayError::BadChange(k)) => Err(OpenError::BadDisk(place_of(payloads, k))),
        Err(ReplayError::NoMemory) => Err(OpenError::NoMemory),
    }
}

/// Reads what stands on a disk. It makes one sync and at most 4 reads, and changes nothing.
pub(crate) fn read<D: Disk>(alloc: Global, disk: &mut D) -> Result<Standing, OpenError>
    ensures looks { Looks 5 (D.told disk.old) (D.told disk.new) }
    ensures since { IsTrue (D.told disk.old).honest → OnOk result (Since ((D.told disk.old).calls + 1) (D.told disk.new) (λ image. image ≡ (D.told disk.old).bytes)) }
    ensures parts { IfOk result (λ standing. IsParts standing.shape standing.parts) }
    ensures opens { IsTrue (D.told disk.old).honest → IfOk result (λ standing. (b : Rebuilt) × OpensAs (D.told disk.old).bytes standing b) }
    ensures bad { IfErr result (λ e. (place : ℕ) → e ≡ OpenError.BadDisk place → IsTrue (D.told disk.old).honest → reading (D.told disk.old).bytes ≡ Reading.Bad place) }
    ensures fault { IfErr result (λ e. e ≡ OpenError.DiskFault → HasRisen (D.told disk.old).faults (D.told disk.new).faults) }
{
    let Opened {
        shape,
        journal,
        payloads,
    } = Journal::open(alloc, disk)?;
    let parts = rebuild(alloc, &shape, &payloads)?;
    Ok(Standing {
        shape,
        epoch: journal.epoch(),
        left: journal.left(),
        parts,
    })
}
