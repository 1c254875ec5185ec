//! What the payloads of a journal rebuild.

ghost use Rattle.std.specs.Prelude.{◌≡◌, ℕ, ◌-◌, ◌<◌, ◌^◌, length, IfOk, OnOk, Ok, Err, true};
ghost use Rattle.voice_model.specs.Spelling.{change_in};
ghost use Rattle.voice_model.specs.Replay.{Rebuilt, nothing_rebuilt, finished};
ghost use Rattle.voice_model.specs.Image.{replayed, Replayed};
ghost use Rattle.recovery.specs.declared.replaying.ReplayError.TheVariants as errors;
ghost use Rattle.recovery.specs.Shown.{Rebuilds};
ghost use Rattle.recovery.specs.Building.{Builds, IsBuilding, IsTaken, is_allowed};
ghost use Rattle.recovery.specs.Replayed.{records_of};

use crate::building::Building;
use crate::parts::Parts;
use change_codec::{GetError, get};
use std::alloc::Global;
use voice_journal::RecordList;
use voice_units::{NoMemory, Shape};

/// Why a list of payloads is refused.
#[derive(Clone, Copy, Debug, PartialEq, Eq)]
pub enum ReplayError {
    /// The payload of this index, counted from 0, is the first that spells no change or one that may not follow.
    BadChange(u32),
    NoMemory,
}

impl From<NoMemory> for ReplayError {
    ghost from_gives = { λ _ e. e ≡ errors.NoMemory };

    fn from(_: NoMemory) -> Self {
        ReplayError::NoMemory
    }
}

/// Tries the change that bytes spell: false where they spell none, or one that may not follow. After false or want of memory replay ends.
fn take(
    building: &mut Building,
    alloc: Global,
    shape: &Shape,
    bytes: &[u8],
) -> Result<bool, NoMemory>
    requires { IsBuilding shape.now building.old }
    ensures legal { (r : Rebuilt) → Builds building.old r → r.shape ≡ shape.now → IfOk result (λ done. done ≡ is_allowed r (change_in bytes.now)) }
    ensures done { (r : Rebuilt) → Builds building.old r → r.shape ≡ shape.now → result ≡ Ok true → IsTaken building.new r bytes.now }
{
    match get(alloc, bytes) {
        Ok(change) => building.apply(alloc, shape, change),
        Err(GetError::NotAChange(_)) => Ok(false),
        Err(GetError::NoMemory) => Err(NoMemory),
    }
}

/// Takes payloads one after another.
fn take_all(
    building: &mut Building,
    alloc: Global,
    shape: &Shape,
    payloads: &RecordList,
) -> Result<(), ReplayError>
    requires count { length payloads.now < 2 ^ 32 - 1 }
    requires nothing { Builds building.old (nothing_rebuilt shape.now) }
    ensures ok { OnOk result ((r : Rebuilt) × Builds building.new r × (replayed (nothing_rebuilt shape.now) (records_of payloads.now) ≡ Replayed.All (finished r))) }
    ensures bad { (k : ℕ) → result ≡ Err (ReplayError.BadChange k) → replayed (nothing_rebuilt shape.now) (records_of payloads.now) ≡ Replayed.Refused k }
{
    let mut index = 0;
    while let Some(payload) = payloads.get(index) {
        if !take(building, alloc, shape, payload)? {
            return Err(ReplayError::BadChange(index));
        }
        index += 1;
    }
    Ok(())
}

/// The parts that payloads rebuild on a disk of this shape, each taken as the change that it spells; blocks that no live rope uses are free. `BadChange` comes exactly where a payload spells no change or one that may not follow, and names the first one. It goes over each payload once.
pub fn replay(alloc: Global, shape: &Shape, payloads: &RecordList) -> Result<Parts, ReplayError>
    requires { length payloads.now < 2 ^ 32 - 1 }
    ensures ok { IfOk result (λ parts. (r : Rebuilt) × (replayed (nothing_rebuilt shape.now) (records_of payloads.now) ≡ Replayed.All r) × Rebuilds parts r) }
    ensures bad { (k : ℕ) → result ≡ Err (ReplayError.BadChange k) → replayed (nothing_rebuilt shape.now) (records_of payloads.now) ≡ Replayed.Refused k }
{
    let mut building = Building::new(alloc, shape)?;
    take_all(&mut building, alloc, shape, payloads)?;
    building.finish();
    let Building {
        parts,
        stage: _,
        last_file: _,
        noted: _,
    } = building;
    Ok(parts)
}
