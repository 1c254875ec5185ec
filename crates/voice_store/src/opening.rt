//! Opens what a disk keeps.

ghost use Rattle.std.specs.Prelude.{◌≡◌, ◌+◌, ◌-◌, ◌<◌, ◌^◌, ℕ, [], length, slice_get, Some, IsTrue, IfOk, IfErr, OnOk, replicate, None};
ghost use Rattle.voice_outside.specs.Counters.{HasRisen};
ghost use Rattle.disk_areas.specs.Areas.{Record};
ghost use Rattle.voice_journal.specs.Looks.{Since};
ghost use Rattle.voice_model.specs.State.{State};
ghost use Rattle.voice_model.specs.Replay.{Rebuilt, nothing_rebuilt};
ghost use Rattle.voice_model.specs.Image.{Reading, Replayed, reading, replayed, opened_from};
ghost use Rattle.recovery.specs.Replayed.{records_of};
ghost use Rattle.recovery.specs.Shown.{Rebuilds, IsParts};
ghost use Rattle.voice_store.specs.Stood.{Stood};
ghost use Rattle.listening.specs.Looks.{OnlyLooked};
ghost use Rattle.voice_store.specs.Facts.{Goes};

use crate::inside::Inside;
use crash_laws::laws::foundations;
use playing::Lanes;
use recording_calls::Recordings;
use recovery::{Parts, ReplayError, replay};
use std::alloc::Global;
use std::sync::Arc;
use voice_journal::{Journal, OpenError, Opened, RecordList};
use voice_model::Tapes;
use voice_outside::Disk;
use voice_units::Shape;

/// The place of a payload's gate on the disk, 0 where there is no such payload.
fn place_of(payloads: &RecordList, k: u32) -> u64
    ensures { (one : Record) → slice_get payloads.now k ≡ Some one → result ≡ one.at }
{
    payloads.place(k).unwrap_or(0)
}

/// The parts that payloads rebuild. One that is refused is damage at its gate's place.
fn rebuild(alloc: Global, shape: &Shape, payloads: &RecordList) -> Result<Parts, OpenError>
    requires { length payloads.now < 2 ^ 32 - 1 }
    ensures ok { IfOk result (λ parts. (b : Rebuilt) × (replayed (nothing_rebuilt shape.now) (records_of payloads.now) ≡ Replayed.All b) × Rebuilds parts b) }
    ensures bad { IfErr result (λ e. (place : ℕ) → e ≡ OpenError.BadDisk place → (k : ℕ) × (replayed (nothing_rebuilt shape.now) (records_of payloads.now) ≡ Replayed.Refused k) × ((one : Record) → slice_get payloads.now k ≡ Some one → place ≡ one.at)) }
    ensures sound { IfErr result (λ e. ¬ (e ≡ OpenError.DiskFault)) }
{
    match replay(alloc, shape, payloads) {
        Ok(parts) => Ok(parts),
        Err(ReplayError::BadChange(k)) => Err(OpenError::BadDisk(place_of(payloads, k))),
        Err(ReplayError::NoMemory) => Err(OpenError::NoMemory),
    }
}

impl Inside {
    /// Opens what a disk keeps. It makes at most 5 device calls, and changes nothing.
    pub(crate) fn open<D: Disk>(
        alloc: Global,
        disk: &mut D,
        tapes: Arc<Tapes, Global>,
    ) -> Result<Inside, OpenError>
        ensures goes { Goes 5 (D.told disk.old) (D.told disk.new) }
        ensures looks { IsTrue (D.told disk.old).honest → OnlyLooked (D.told disk.old) (D.told disk.new) }
        ensures since { IsTrue (D.told disk.old).honest → OnOk result (Since ((D.told disk.old).calls + 1) (D.told disk.new) (λ image. image ≡ (D.told disk.old).bytes)) }
        ensures fields { IfOk result (λ s. (s.tapes ≡ tapes) × (s.history.items ≡ [])) }
        ensures frames { IfOk result (λ s. (n : ℕ) × (s.lanes.frames.resident ≡ replicate n None)) }
        ensures parts { IfOk result (λ s. IsParts s.journal.shape s.parts) }
        ensures state { IfOk result (λ s. (first : State) × Stood first ((D.told disk.old).calls + 1) (D.told disk.new) s × (IsTrue (D.told disk.old).honest → opened_from (D.told disk.old).bytes ≡ Some first)) }
        ensures bad { IfErr result (λ e. (place : ℕ) → e ≡ OpenError.BadDisk place → IsTrue (D.told disk.old).honest → reading (D.told disk.old).bytes ≡ Reading.Bad place) }
        ensures fault { IfErr result (λ e. e ≡ OpenError.DiskFault → HasRisen (D.told disk.old).faults (D.told disk.new).faults) }
    {
        let Opened {
            shape,
            journal,
            payloads,
        } = Journal::open(alloc, disk)?;
        foundations();
        let parts = rebuild(alloc, &shape, &payloads)?;
        let Ok(lanes) = Lanes::new(alloc, shape.lanes, shape.block) else {
            return Err(OpenError::NoMemory);
        };
        let Ok(recordings) = Recordings::new(alloc, shape.lanes) else {
            return Err(OpenError::NoMemory);
        };
        Ok(Inside {
            alloc,
            tapes,
            journal,
            parts,
            lanes,
            made: 0,
            recordings,
            doubt: None,
            history: Vec::new(alloc),
        })
    }
}
