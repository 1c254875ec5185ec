//! What the payloads of a mirror's journal rebuild.

ghost use Rattle.std.specs.Prelude.{◌≡◌, ℕ, ◌-◌, ◌<◌, ◌^◌, length, IfOk, Err};
ghost use Rattle.voice_model.specs.Replay.{Rebuilt, nothing_rebuilt};
ghost use Rattle.recovery.specs.Shown.{Rebuilds};
ghost use Rattle.recovery.specs.Replayed.{records_of};
ghost use Rattle.mirror_replay.specs.Numbered.{numbered_replayed, Numbered};

use crate::stripping::{Stripped, strip};
use recovery::{Parts, ReplayError};
use std::alloc::Global;
use voice_journal::RecordList;
use voice_units::Shape;

/// What was rebuilt, and the number of the last record, 0 where there is none.
#[derive(Drop)]
pub struct Followed {
    pub parts: Parts,
    pub position: u64,
}

/// The parts that payloads rebuild on a disk of this shape, each taken as a number and the change behind it. `BadChange` comes exactly where a payload has no number, spells no change behind it, or has a number or a change that may not follow, and names the first one. It goes over each payload twice, and takes memory for their bytes once.
pub fn replay(alloc: Global, shape: &Shape, payloads: &RecordList) -> Result<Followed, ReplayError>
    requires { length payloads.now < 2 ^ 32 - 1 }
    ensures ok { IfOk result (λ followed. (r : Rebuilt) × (numbered_replayed (nothing_rebuilt shape.now) (records_of payloads.now) ≡ Numbered.All r followed.position) × Rebuilds followed.parts r) }
    ensures bad { (k : ℕ) → result ≡ Err (ReplayError.BadChange k) → numbered_replayed (nothing_rebuilt shape.now) (records_of payloads.now) ≡ Numbered.Refused k }
{
    let Stripped { list, course } = strip(alloc, payloads)?;
    let parts = recovery::replay(alloc, shape, &list)?;
    let Some(course) = course else {
        return Err(ReplayError::BadChange(list.len() as u32));
    };
    Ok(Followed {
        parts,
        position: course.position(),
    })
}
