//! Where there is talk in a rope, and how loud it is, read off the disk.

ghost use Rattle.std.specs.Prelude.{◌≡◌, ◌≤◌, ◌<◌, ◌^◌, ◌++◌, ◌∷◌, [], ℕ, length, IsTrue, IsErrOf, IfOk, OnErr, vec_len, vec_capacity};
ghost use Rattle.voice_units.specs.Layout.{bytes_needed};
ghost use Rattle.voice_units.specs.Blocks.{BlockPair};
ghost use Rattle.voice_units.specs.Spots.{spots_of, samples_in, stretches};
ghost use Rattle.voice_outside.specs.Counters.{HasRisen};
ghost use Rattle.voice_model.specs.Heard.{unheard};
ghost use Rattle.voice_model.specs.State.{State};
ghost use Rattle.voice_model.specs.Step.{IsAtDevice};
ghost use Rattle.crash_laws.specs.Standing.{IsLater};
ghost use Rattle.listening.specs.Looks.{Looked};
ghost use Rattle.listening.specs.Heard.{HavePlaces, ArePlaces, bytes_on};
ghost use Rattle.voice_store.specs.Stood.{Stood, last_of, tapes_of};
ghost use Rattle.voice_store.specs.Facts.{IsFault, entry_of, stretches_of};
ghost use Rattle.voice_store.specs.Hearing.{IsHeardOf, call_for, sounding};
ghost use Rattle.voice_store.specs.Residing.{KeepsUsed};

use crate::inside::Inside;
use crate::replies::twice;
use crash_laws::laws::{disks_are_honest, foundations};
use listening::{Unheard, peaks_of, talk_of};
use rope_algebra::Pieces;
use std::alloc::Global;
use voice_blocks::BlockMap;
use voice_model::{Call, Reply, Why};
use voice_outside::Disk;
use voice_units::{NoMemory, RopeId, Shape};

/// What is asked of the samples of a rope.
#[derive(Clone, Copy)]
pub enum Sound {
    Talk,
    Peaks,
}

// The call that asks it of a rope.
fn call_for(sound: Sound, rope: RopeId) -> Call
    ensures { result ≡ call_for sound rope }
{
    match sound {
        Sound::Talk => Call::Describe(rope),
        Sound::Peaks => Call::Levels(rope),
    }
}

// The reply on a rope of these pieces, off the disk.
fn sound_of<D: Disk>(
    alloc: Global,
    disk: &mut D,
    shape: &Shape,
    blocks: &BlockMap,
    pieces: &Pieces,
    sound: Sound,
) -> Result<Reply, Unheard>
    requires fits { bytes_needed shape.now.block shape.now.blocks shape.now.area ≤ (D.told disk.old).size }
    requires count { length blocks.now.holders ≡ shape.now.blocks }
    requires placed { HavePlaces shape.now.block blocks.now.holders (spots_of pieces.now) }
    requires most { samples_in pieces.now ≤ 2 ^ 30 }
    ensures looked { Looked (length (stretches shape.now.block (spots_of pieces.now))) (D.told disk.old) (D.told disk.new) }
    ensures empty { samples_in pieces.now ≡ 0 → disk.new ≡ disk.old }
    ensures cause { IsErrOf result Unheard.DiskFault → HasRisen (D.told disk.old).faults (D.told disk.new).faults }
    ensures some { IsErrOf result Unheard.DiskFault → 1 ≤ samples_in pieces.now }
    ensures kind { IfOk result (λ reply. unheard (sounding sound []) ≡ unheard reply) }
    ensures answer { IsTrue (D.told disk.old).honest → IfOk result (λ reply. (address : BlockPair → ℕ) → ArePlaces shape.now.block blocks.now.holders (spots_of pieces.now) address → reply ≡ sounding sound (bytes_on (D.told disk.old).bytes shape.now address (spots_of pieces.now))) }
{
    match sound {
        Sound::Talk => Ok(Reply::Talk(talk_of(alloc, disk, shape, blocks, pieces)?)),
        Sound::Peaks => Ok(Reply::Peaks(peaks_of(alloc, disk, shape, blocks, pieces)?)),
    }
}

impl Inside {
    // The reply on a rope, off the disk; none exactly where the rope is not live.
    fn hear<D: Disk>(
        &self,
        disk: &mut D,
        rope: RopeId,
        sound: Sound,
    ) -> Result<Option<Reply>, Unheard>
        requires stood { (first : State) × (t0 : ℕ) × Stood first t0 (D.told disk.old) self.now }
        ensures looked { (first : State) (t0 : ℕ) → Stood first t0 (D.told disk.old) self.now → Looked (stretches_of (last_of first self.now) rope) (D.told disk.old) (D.told disk.new) }
        ensures moments { IsTrue (D.told disk.old).honest → IsLater (D.told disk.old) (D.told disk.new) }
        ensures cause { IsErrOf result Unheard.DiskFault → HasRisen (D.told disk.old).faults (D.told disk.new).faults }
        ensures at_device { (first : State) (t0 : ℕ) → Stood first t0 (D.told disk.old) self.now → IsErrOf result Unheard.DiskFault → IsAtDevice (last_of first self.now) (tapes_of self.now) (call_for sound rope) }
        ensures answer { (first : State) (t0 : ℕ) → Stood first t0 (D.told disk.old) self.now → IfOk result (IsHeardOf (D.told disk.old).honest (last_of first self.now) (tapes_of self.now) sound rope) }
    {
        foundations();
        disks_are_honest(disk);
        let Some(pieces) = self.parts.ropes.get(rope) else {
            return Ok(None);
        };
        let shape = self.journal.shape();
        let reply = sound_of(self.alloc, disk, &shape, &self.parts.blocks, pieces, sound);
        disks_are_honest(disk);
        Ok(Some(reply?))
    }

    /// Tells where there is talk in a rope, or how loud it is. It reads the disk; want of memory may come between its reads, and leaves all as it was.
    pub(crate) fn tell_sound<D: Disk>(
        &mut self,
        disk: &mut D,
        caller: u16,
        rope: RopeId,
        sound: Sound,
    ) -> Result<Reply, NoMemory>
        requires stood { (first : State) × (t0 : ℕ) × Stood first t0 (D.told disk.old) self.old }
        requires room { vec_len self.old.history < vec_capacity self.old.history }
        ensures looked { (first : State) (t0 : ℕ) → Stood first t0 (D.told disk.old) self.old → Looked (stretches_of (last_of first self.old) rope) (D.told disk.old) (D.told disk.new) }
        ensures cause { IfOk result (λ reply. IsFault reply → HasRisen (D.told disk.old).faults (D.told disk.new).faults) }
        ensures items { IfOk result (λ reply. self.new.history.items ≡ self.old.history.items ++ entry_of caller (call_for sound rope) reply (D.told disk.new).calls ∷ []) }
        ensures err { OnErr result (self.new.history.items ≡ self.old.history.items) }
        ensures tapes { self.new.tapes ≡ self.old.tapes }
        ensures pool { self.new.lanes.frames.keeper.pool ≡ self.old.lanes.frames.keeper.pool }
        ensures frames { KeepsUsed self.old self.new }
        ensures stood { (first : State) (t0 : ℕ) → Stood first t0 (D.told disk.old) self.old → Stood first t0 (D.told disk.new) self.new }
    {
        let call = call_for(sound, rope);
        match self.hear(disk, rope, sound) {
            Ok(Some(reply)) => {
                let replies = twice(self.alloc, reply)?;
                Ok(self.answer(disk, caller, call, replies))
            }
            Ok(None) => Ok(self.refuse(disk, caller, call, Why::UnknownRope(rope))),
            Err(Unheard::DiskFault) => Ok(self.note_fault(disk, caller, call)),
            Err(Unheard::NoMemory) => Err(NoMemory),
        }
    }
}
