//! Open recordings end.

ghost use Rattle.std.specs.Prelude.{◌≡◌, ◌+◌, ◌-◌, ◌≤◌, ◌<◌, ◌++◌, ◌∷◌, [], ℕ, None, length, drop, IsTrue, IfOk, OnOk, OnErr, vec_len, vec_capacity};
ghost use Rattle.voice_outside.specs.Disk.{MakesAtMost};
ghost use Rattle.voice_outside.specs.Counters.{HasRisen};
ghost use Rattle.voice_model.specs.State.{State};
ghost use Rattle.fillings.specs.Laws.{HasBytes};
ghost use Rattle.recording_writer.specs.Wrote.{WroteAt};
ghost use Rattle.crash_laws.specs.Standing.{IsLater};
ghost use Rattle.next_ropes.specs.declared.NextRope.{NextRope as RopeValue};
ghost use Rattle.voice_store.specs.Stood.{Stood, last_of, tapes_of};
ghost use Rattle.voice_store.specs.DeviceCalls.{change_calls};
ghost use Rattle.voice_store.specs.Facts.{GoesOn, IsFault, entry_of};
ghost use Rattle.voice_store.specs.Ends.{EndsRecording, EndsSo, HoldsEnding, GoesEnding, last_bytes, whole_in, last_addresses};
ghost use Rattle.voice_store.specs.Residing.{KeepsUsed};

use crate::committing::Plan;
use crate::editing::replies_of;
use crate::going::{Going, give_up};
use crate::inside::Inside;
use crate::ways::Way;
use crash_laws::laws::{disks_are_honest, foundations};
use next_ropes::NextRope;
use open_recordings::ready_ended;
use recording_writer::write_samples;
use voice_model::{Call, Reply, Why};
use voice_outside::Disk;
use voice_units::{Failed, Lane, NoMemory};

// The addresses from one of them on.
fn tail_of(addresses: &[u32], from: usize) -> &[u32]
    requires { from ≤ length addresses.now }
    ensures { result.now ≡ drop from addresses.now }
{
    &addresses[from..]
}

impl Inside {
    // Writes the last block of a lane's open recording, filled up, at its address, where it is not whole.
    fn write_last<D: Disk>(
        &self,
        disk: &mut D,
        lane: Lane,
        rope: &NextRope,
        last: &[u8],
        room: &mut [u8],
    ) -> Result<(), Failed>
        requires holds { (first : State) × (t0 : ℕ) × HoldsEnding first t0 (D.told disk.old) self.now lane rope.now × (last.now ≡ last_bytes (last_of first self.now) lane) }
        requires room { length room.old ≡ self.now.journal.shape.block }
        ensures made { MakesAtMost (length rope.now.addresses.items - whole_in self.now lane) (D.told disk.old) (D.told disk.new) result }
        ensures moments { IsTrue (D.told disk.old).honest → IsLater (D.told disk.old) (D.told disk.new) }
        ensures content { IsTrue (D.told disk.old).honest → WroteAt self.now.journal.shape (last_addresses self.now lane rope.now) (D.told disk.old) (D.told disk.new) }
        ensures written { IsTrue (D.told disk.old).honest → OnOk result (HasBytes (D.told disk.new).bytes self.now.journal.shape (last_addresses self.now lane rope.now) last.now) }
    {
        disks_are_honest(disk);
        let shape = self.journal.shape();
        let whole = (self.recordings.total(lane) / shape.block) as usize;
        let addresses = tail_of(&rope.addresses, whole);
        let result = write_samples(&shape, disk, addresses, last, room);
        disks_are_honest(disk);
        result
    }

    // Writes the last block of a recording whose rope is ready, and does its change.
    fn write_and_close<D: Disk>(
        &mut self,
        disk: &mut D,
        caller: u16,
        lane: Lane,
        going: Going,
        plan: Plan,
        last: &[u8],
        room: &mut [u8],
    ) -> Reply
        requires holds { (rope : RopeValue) × (going ≡ Going.Ending lane rope) × (first : State) × (t0 : ℕ) × GoesEnding first t0 (D.told disk.old) self.old lane last.now plan rope }
        requires room { length room.old ≡ self.old.journal.shape.block }
        requires history { vec_len self.old.history < vec_capacity self.old.history }
        ensures goes { GoesOn (D.told disk.old) (D.told disk.new) }
        ensures calls { (rope : RopeValue) → going ≡ Going.Ending lane rope → (first : State) (t0 : ℕ) → GoesEnding first t0 (D.told disk.old) self.old lane last.now plan rope → (D.told disk.new).calls ≤ (D.told disk.old).calls + change_calls (last_of first self.old) (tapes_of self.old) (Call.End lane) }
        ensures cause { IsFault result → HasRisen (D.told disk.old).faults (D.told disk.new).faults }
        ensures items { self.new.history.items ≡ self.old.history.items ++ entry_of caller (Call.End lane) result (D.told disk.new).calls ∷ [] }
        ensures tapes { self.new.tapes ≡ self.old.tapes }
        ensures pool { self.new.lanes.frames.keeper.pool ≡ self.old.lanes.frames.keeper.pool }
        ensures frames { KeepsUsed self.old self.new }
        ensures stood { (rope : RopeValue) → going ≡ Going.Ending lane rope → (first : State) (t0 : ℕ) → GoesEnding first t0 (D.told disk.old) self.old lane last.now plan rope → Stood first t0 (D.told disk.new) self.new }
    {
        foundations();
        let _most = self.journal.epoch();
        let Going::Ending(_, rope) = going else {
            unreachable!()
        };
        let replies = replies_of(&rope);
        let written = self.write_last(disk, lane, &rope, last, room);
        let going = Going::Ending(lane, rope);
        let Ok(()) = written else {
            return self.failed(disk, caller, Call::End(lane), going);
        };
        self.commit(disk, caller, Call::End(lane), replies, going, plan)
    }

    // Ends a recording, in this way.
    fn end_by<D: Disk>(
        &mut self,
        disk: &mut D,
        caller: u16,
        lane: Lane,
        way: Way,
    ) -> Result<Reply, NoMemory>
        requires way { (first : State) × (t0 : ℕ) × EndsSo first t0 (D.told disk.old) self.old lane way }
        requires room { vec_len self.old.history < vec_capacity self.old.history }
        ensures goes { GoesOn (D.told disk.old) (D.told disk.new) }
        ensures calls { (first : State) (t0 : ℕ) → EndsSo first t0 (D.told disk.old) self.old lane way → (D.told disk.new).calls ≤ (D.told disk.old).calls + change_calls (last_of first self.old) (tapes_of self.old) (Call.End lane) }
        ensures cause { IfOk result (λ reply. IsFault reply → HasRisen (D.told disk.old).faults (D.told disk.new).faults) }
        ensures items { IfOk result (λ reply. self.new.history.items ≡ self.old.history.items ++ entry_of caller (Call.End lane) reply (D.told disk.new).calls ∷ []) }
        ensures err { OnErr result (self.new.history.items ≡ self.old.history.items) }
        ensures still { OnErr result (disk.new ≡ disk.old) }
        ensures tapes { self.new.tapes ≡ self.old.tapes }
        ensures pool { self.new.lanes.frames.keeper.pool ≡ self.old.lanes.frames.keeper.pool }
        ensures frames { KeepsUsed self.old self.new }
        ensures stood { (first : State) (t0 : ℕ) → EndsSo first t0 (D.told disk.old) self.old lane way → Stood first t0 (D.told disk.new) self.new }
    {
        let shape = self.journal.shape();
        let mut room = vec![in self.alloc; 0u8; shape.block as usize]?;
        let last = self.recordings.last_block(self.alloc, lane)?;
        let len = self.recordings.total(lane);
        let rope = ready_ended(self.alloc, &mut self.parts, &shape, lane, len)?;
        let going = Going::Ending(lane, rope);
        let Ok(plan) = self.plan(&going, way) else {
            give_up(&mut self.parts, going);
            return Err(NoMemory);
        };
        Ok(self.write_and_close(disk, caller, lane, going, plan, &last, &mut room))
    }

    // Ends a recording, where nothing refuses it but perhaps the journal.
    fn end_unrefused<D: Disk>(
        &mut self,
        disk: &mut D,
        caller: u16,
        lane: Lane,
    ) -> Result<Reply, NoMemory>
        requires ends { (first : State) × (t0 : ℕ) × EndsRecording first t0 (D.told disk.old) self.old lane }
        requires room { vec_len self.old.history < vec_capacity self.old.history }
        ensures goes { GoesOn (D.told disk.old) (D.told disk.new) }
        ensures calls { (first : State) (t0 : ℕ) → EndsRecording first t0 (D.told disk.old) self.old lane → (D.told disk.new).calls ≤ (D.told disk.old).calls + change_calls (last_of first self.old) (tapes_of self.old) (Call.End lane) }
        ensures cause { IfOk result (λ reply. IsFault reply → HasRisen (D.told disk.old).faults (D.told disk.new).faults) }
        ensures items { IfOk result (λ reply. self.new.history.items ≡ self.old.history.items ++ entry_of caller (Call.End lane) reply (D.told disk.new).calls ∷ []) }
        ensures err { OnErr result (self.new.history.items ≡ self.old.history.items) }
        ensures still { OnErr result (disk.new ≡ disk.old) }
        ensures tapes { self.new.tapes ≡ self.old.tapes }
        ensures pool { self.new.lanes.frames.keeper.pool ≡ self.old.lanes.frames.keeper.pool }
        ensures frames { KeepsUsed self.old self.new }
        ensures stood { (first : State) (t0 : ℕ) → EndsRecording first t0 (D.told disk.old) self.old lane → Stood first t0 (D.told disk.new) self.new }
    {
        let len = self.recordings.total(lane);
        match self.recording_way(len)? {
            Way::Full(most, left) => {
                Ok(self.refuse(disk, caller, Call::End(lane), Why::JournalFull(most, left)))
            }
            way => self.end_by(disk, caller, lane, way),
        }
    }

    /// Ends the open recording of a lane, where nothing is in doubt: its last block is written, filled up with zero bytes, and it becomes a rope. It is refused where the lane is unknown, does not record, the numbers are spent, or the journal is full, in this order. After a fault before the change counts, and after a refusal, the recording stays open.
    pub(crate) fn end<D: Disk>(
        &mut self,
        disk: &mut D,
        caller: u16,
        lane: Lane,
    ) -> Result<Reply, NoMemory>
        requires stood { (first : State) × (t0 : ℕ) × Stood first t0 (D.told disk.old) self.old }
        requires sure { self.old.doubt ≡ None }
        requires room { vec_len self.old.history < vec_capacity self.old.history }
        ensures goes { GoesOn (D.told disk.old) (D.told disk.new) }
        ensures calls { (first : State) (t0 : ℕ) → Stood first t0 (D.told disk.old) self.old → (D.told disk.new).calls ≤ (D.told disk.old).calls + change_calls (last_of first self.old) (tapes_of self.old) (Call.End lane) }
        ensures cause { IfOk result (λ reply. IsFault reply → HasRisen (D.told disk.old).faults (D.told disk.new).faults) }
        ensures items { IfOk result (λ reply. self.new.history.items ≡ self.old.history.items ++ entry_of caller (Call.End lane) reply (D.told disk.new).calls ∷ []) }
        ensures err { OnErr result (self.new.history.items ≡ self.old.history.items) }
        ensures still { OnErr result (disk.new ≡ disk.old) }
        ensures tapes { self.new.tapes ≡ self.old.tapes }
        ensures pool { self.new.lanes.frames.keeper.pool ≡ self.old.lanes.frames.keeper.pool }
        ensures frames { KeepsUsed self.old self.new }
        ensures stood { (first : State) (t0 : ℕ) → Stood first t0 (D.told disk.old) self.old → Stood first t0 (D.told disk.new) self.new }
    {
        let shape = self.journal.shape();
        if let Some(why) = self.recordings.end_refused(&shape, lane, self.parts.next) {
            return Ok(self.refuse(disk, caller, Call::End(lane), why));
        }
        self.end_unrefused(disk, caller, lane)
    }
}
