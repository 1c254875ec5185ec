//! Opens what a mirror's disk keeps.

ghost use Rattle.std.specs.Prelude.{◌≡◌, ◌≢◌, ◌+◌, ◌-◌, ◌<◌, ◌^◌, ℕ, length, slice_get, Some, IsTrue, IfOk, IfErr, OnOk};
ghost use Rattle.voice_outside.specs.Counters.{HasRisen};
ghost use Rattle.disk_areas.specs.Areas.{Record};
ghost use Rattle.voice_journal.specs.Looks.{Looks, Since};
ghost use Rattle.voice_model.specs.Replay.{Rebuilt, nothing_rebuilt};
ghost use Rattle.recovery.specs.Replayed.{records_of};
ghost use Rattle.recovery.specs.Shown.{Rebuilds};
ghost use Rattle.mirror_replay.specs.Numbered.{Numbered, numbered_replayed};
ghost use Rattle.mirror_readings.specs.Readings.{MirrorReading, mirror_reading};
ghost use Rattle.voice_mirror.specs.Shown.{IsOpened, IsRead, IsStanding, state_of};

use crate::front::refuse_first;
use crate::inside::Inside;
use mirror_laws::laws::foundations;
use mirror_replay::{Followed, replay};
use mirror_tables::Beside;
use recovery::ReplayError;
use std::alloc::Global;
use voice_journal::{Journal, OpenError, Opened, RecordList};
use voice_outside::Disk;
use voice_units::Shape;

// The place of a payload's gate on the disk, 0 where there is no such payload.
fn place_of(payloads: &RecordList, k: u32) -> u64
    ensures { (one : Record) → slice_get payloads.now k ≡ Some one → result ≡ one.at }
{
    payloads.place(k).unwrap_or(0)
}

// Refuses a disk of any version but 2, which only one that isn't honest still has here.
fn refuse_version(shape: &Shape) -> Result<(), OpenError>
    ensures ok { OnOk result (shape.now.version ≡ 2) }
    ensures bad { IfErr result (λ e. (e ≡ OpenError.BadDisk 8) × (shape.now.version ≢ 2)) }
{
    if shape.version != 2 {
        return Err(OpenError::BadDisk(8));
    }
    Ok(())
}

// What payloads rebuild, and the number of the last one. One that is refused is damage at its gate's place.
fn rebuild(alloc: Global, shape: &Shape, payloads: &RecordList) -> Result<Followed, OpenError>
    requires { length payloads.now < 2 ^ 32 - 1 }
    ensures ok { IfOk result (λ followed. (b : Rebuilt) × (numbered_replayed (nothing_rebuilt shape.now) (records_of payloads.now) ≡ Numbered.All b followed.position) × Rebuilds followed.parts b) }
    ensures bad { IfErr result (λ e. (place : ℕ) → e ≡ OpenError.BadDisk place → (k : ℕ) × (numbered_replayed (nothing_rebuilt shape.now) (records_of payloads.now) ≡ Numbered.Refused k) × ((one : Record) → slice_get payloads.now k ≡ Some one → place ≡ one.at)) }
    ensures sound { IfErr result (λ e. ¬ (e ≡ OpenError.DiskFault)) }
{
    match replay(alloc, shape, payloads) {
        Ok(followed) => Ok(followed),
        Err(ReplayError::BadChange(k)) => Err(OpenError::BadDisk(place_of(payloads, k))),
        Err(ReplayError::NoMemory) => Err(OpenError::NoMemory),
    }
}

/// Opens what a mirror's disk keeps. It makes at most 6 device calls, and changes nothing.
pub(crate) fn open<D: Disk>(alloc: Global, disk: &mut D) -> Result<Inside, OpenError>
    ensures looks { Looks 6 (D.told disk.old) (D.told disk.new) }
    ensures standing { IfOk result (IsStanding (D.told disk.new).size) }
    ensures since { IsTrue (D.told disk.old).honest → OnOk result (Since ((D.told disk.old).calls + 2) (D.told disk.new) (λ image. image ≡ (D.told disk.old).bytes)) }
    ensures reads { IsTrue (D.told disk.old).honest → IfOk result (λ inside. IsOpened (D.told disk.old).bytes (D.told disk.old).calls (D.told disk.new) (state_of inside)) }
    ensures read { IsTrue (D.told disk.old).honest → IfOk result (λ inside. IsRead (D.told disk.old).bytes (state_of inside)) }
    ensures bad { IsTrue (D.told disk.old).honest → IfErr result (λ e. (place : ℕ) → e ≡ OpenError.BadDisk place → mirror_reading (D.told disk.old).bytes ≡ MirrorReading.Bad place) }
    ensures fault { IfErr result (λ e. e ≡ OpenError.DiskFault → HasRisen (D.told disk.old).faults (D.told disk.new).faults) }
{
    foundations();
    refuse_first(disk)?;
    let Opened {
        shape,
        journal,
        payloads,
    } = Journal::open(alloc, disk)?;
    refuse_version(&shape)?;
    let Followed { parts, position } = rebuild(alloc, &shape, &payloads)?;
    Ok(Inside {
        alloc,
        journal,
        parts,
        beside: Beside::Nothing,
        position,
        pending: None,
    })
}
