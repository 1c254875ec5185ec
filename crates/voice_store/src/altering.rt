//! Changes of interests, of the moment and sweeps.

ghost use Rattle.std.specs.Prelude.{◌≡◌, ◌+◌, ◌≤◌, ◌<◌, ◌++◌, ◌∷◌, [], ℕ, None, Some, Ok, IsTrue, IfSome, IsOk, IfOk, OnErr, length, vec_len, vec_capacity};
ghost use Rattle.voice_outside.specs.Counters.{HasRisen};
ghost use Rattle.voice_model.specs.Samples.{Tagged};
ghost use Rattle.voice_model.specs.State.{State, Effect};
ghost use Rattle.voice_model.specs.Changes.{frame_size, base_size, changed};
ghost use Rattle.voice_model.specs.Replay.{Rebuilt, acted};
ghost use Rattle.voice_model.specs.Valid.{InRange};
ghost use Rattle.voice_model.specs.declared.Change.{Change};
ghost use Rattle.next_changes.specs.Next.{payload_of};
ghost use Rattle.row_calls.specs.Asked.{is_row_call, takes_no_memory, Grows};
ghost use Rattle.voice_store.specs.Stood.{Stood, IsSeated, last_of, tapes_of};
ghost use Rattle.voice_store.specs.Ways.{IsWay};
ghost use Rattle.voice_store.specs.Trying.{IsReadyIn};
ghost use Rattle.voice_store.specs.Altering.{Weighs, Alters};
ghost use Rattle.voice_store.specs.Spare.{FitsBehindOthers};
ghost use Rattle.voice_store.specs.DeviceCalls.{change_calls};
ghost use Rattle.voice_store.specs.Facts.{Goes, IsFault, Stays, entry_of};
ghost use Rattle.voice_store.specs.Residing.{KeepsUsed};

use crate::going::Going;
use crate::inside::Inside;
use crate::replies::twice;
use crate::ways::{LAST_EPOCH, Way};
use checkpoint::parts_size;
use crash_laws::laws::{disks_are_honest, foundations};
use next_changes::{NextChange, parts_after};
use ready_changes::ReadyChange;
use row_calls::{Asked, Growth, ask};
use voice_model::{Call, Reply, Why};
use voice_outside::Disk;
use voice_units::NoMemory;

// The bytes that a change's record takes, with its gate and its length.
fn frame_of(next: &NextChange) -> u64
    ensures { result ≡ 5 + length (payload_of next.now) }
{
    5 + next.payload().len() as u64
}

impl Inside {
    // How long a base gets as this change comes, by tables in which it is done.
    fn size_after(&self, next: &NextChange) -> Result<u128, NoMemory>
        requires { IsReadyIn self.now next.now }
        ensures { (b : Rebuilt) (c : Change) (s : State) (effect : Effect Tagged) → Weighs self.now b next.now c s effect → IfOk result (λ size. size ≡ base_size s.form (changed s.form s.kept effect)) }
    {
        let shape = self.journal.shape();
        let after = parts_after(self.alloc, &self.parts, &shape, next)?;
        Ok(parts_size(&after))
    }

    // How a change that makes the base no longer gets into the journal, where that is told without the base after it.
    fn way_at_once(&self, frame: u64, base: u128) -> Option<Way>
        ensures way { (s : State) (effect : Effect Tagged) → IsSeated self.now.journal s → base ≡ base_size s.form s.kept → frame ≡ frame_size s.form s.kept.shape.block effect → base_size s.form (changed s.form s.kept effect) ≤ base → IfSome result (IsWay s effect) }
        ensures behind { frame + self.now.journal.seat.gate + 1 ≤ self.now.journal.shape.area → result ≡ Some Way.Append }
    {
        let left = self.journal.left();
        if frame <= left {
            return Some(Way::Append);
        }
        if self.journal.epoch() == LAST_EPOCH {
            return Some(Way::Full(frame, left));
        }
        let area = u64::from(self.journal.shape().area) - 17;
        if base <= u128::from(area) {
            return Some(Way::Switch);
        }
        None
    }

    // How a change gets into the journal, by what it does to the base.
    fn way_of(&self, next: &NextChange, growth: Growth) -> Result<Way, NoMemory>
        requires { IsReadyIn self.now next.now }
        ensures way { (b : Rebuilt) (c : Change) (s : State) (effect : Effect Tagged) → Weighs self.now b next.now c s effect → Grows s effect growth → IfOk result (IsWay s effect) }
        ensures behind { growth ≡ Growth.NotLonger → 5 + length (payload_of next.now) + self.now.journal.seat.gate + 1 ≤ self.now.journal.shape.area → result ≡ Ok Way.Append }
    {
        let frame = frame_of(next);
        let base = parts_size(&self.parts);
        match growth {
            Growth::By(more) => self.way(frame, base, base + u128::from(more)),
            Growth::NotLonger => {
                if let Some(way) = self.way_at_once(frame, base) {
                    return Ok(way);
                }
                let need = self.size_after(next)?;
                self.way(frame, base, need)
            }
        }
    }

    // Sends a change that is ready to the journal, unless that is full.
    fn send<D: Disk>(
        &mut self,
        disk: &mut D,
        caller: u16,
        call: Call,
        replies: (Reply, Reply),
        ready: ReadyChange,
        growth: Growth,
    ) -> Result<Reply, NoMemory>
        requires alters { (first : State) × (t0 : ℕ) × Alters first t0 (D.told disk.old) self.old call ready replies.0 growth }
        requires twice { replies.1 ≡ replies.0 }
        requires plain { ¬ IsFault replies.1 }
        requires room { vec_len self.old.history < vec_capacity self.old.history }
        ensures goes { Goes 6 (D.told disk.old) (D.told disk.new) }
        ensures calls { (first : State) (t0 : ℕ) → Alters first t0 (D.told disk.old) self.old call ready replies.0 growth → (D.told disk.new).calls ≤ (D.told disk.old).calls + change_calls (last_of first self.old) (tapes_of self.old) call }
        ensures cause { IfOk result (λ reply. IsFault reply → HasRisen (D.told disk.old).faults (D.told disk.new).faults) }
        ensures items { IfOk result (λ reply. self.new.history.items ≡ self.old.history.items ++ entry_of caller call reply (D.told disk.new).calls ∷ []) }
        ensures err { OnErr result (self.new.history.items ≡ self.old.history.items) }
        ensures still { OnErr result (disk.new ≡ disk.old) }
        ensures tapes { self.new.tapes ≡ self.old.tapes }
        ensures pool { self.new.lanes.frames.keeper.pool ≡ self.old.lanes.frames.keeper.pool }
        ensures frames { KeepsUsed self.old self.new }
        ensures stood { (first : State) (t0 : ℕ) → Alters first t0 (D.told disk.old) self.old call ready replies.0 growth → Stood first t0 (D.told disk.new) self.new }
        ensures spare { growth ≡ Growth.NotLonger → 5 + length ready.payload.items + self.old.journal.seat.gate + 1 ≤ self.old.journal.shape.area → IsOk result }
    {
        foundations();
        disks_are_honest(disk);
        let _most = self.journal.epoch();
        let next = NextChange::Other(ready);
        match self.way_of(&next, growth)? {
            Way::Full(most, left) => {
                Ok(self.refuse(disk, caller, call, Why::JournalFull(most, left)))
            }
            way => {
                let going = Going::Change(next);
                let plan = self.plan(&going, way)?;
                Ok(self.commit(disk, caller, call, replies, going, plan))
            }
        }
    }

    /// Enters a call that alters nothing.
    pub(crate) fn answer<D: Disk>(
        &mut self,
        disk: &D,
        caller: u16,
        call: Call,
        replies: (Reply, Reply),
    ) -> Reply
        requires twice { replies.1 ≡ replies.0 }
        requires room { vec_len self.old.history < vec_capacity self.old.history }
        ensures items { self.new.history.items ≡ self.old.history.items ++ entry_of caller call result (D.told disk.now).calls ∷ [] }
        ensures rest { self.new ≡ record self.old { history = self.new.history } }
        ensures reply { result ≡ replies.1 }
        ensures stood { (first : State) (t0 : ℕ) → Stood first t0 (D.told disk.now) self.old → Stays (D.told disk.now).honest (last_of first self.old) (tapes_of self.old) caller call replies.0 → Stood first t0 (D.told disk.now) self.new }
    {
        self.note(disk, caller, call, replies.0);
        replies.1
    }

    /// Alters rows or the moment, or sweeps, where nothing is in doubt.
    pub(crate) fn alter<D: Disk>(
        &mut self,
        disk: &mut D,
        caller: u16,
        call: Call,
    ) -> Result<Reply, NoMemory>
        requires stood { (first : State) × (t0 : ℕ) × Stood first t0 (D.told disk.old) self.old }
        requires sure { self.old.doubt ≡ None }
        requires alters { IsTrue (is_row_call call) }
        requires range { InRange call }
        requires room { vec_len self.old.history < vec_capacity self.old.history }
        ensures goes { Goes 6 (D.told disk.old) (D.told disk.new) }
        ensures calls { (first : State) (t0 : ℕ) → Stood first t0 (D.told disk.old) self.old → (D.told disk.new).calls ≤ (D.told disk.old).calls + change_calls (last_of first self.old) (tapes_of self.old) call }
        ensures cause { IfOk result (λ reply. IsFault reply → HasRisen (D.told disk.old).faults (D.told disk.new).faults) }
        ensures items { IfOk result (λ reply. self.new.history.items ≡ self.old.history.items ++ entry_of caller call reply (D.told disk.new).calls ∷ []) }
        ensures err { OnErr result (self.new.history.items ≡ self.old.history.items) }
        ensures still { OnErr result (disk.new ≡ disk.old) }
        ensures tapes { self.new.tapes ≡ self.old.tapes }
        ensures pool { self.new.lanes.frames.keeper.pool ≡ self.old.lanes.frames.keeper.pool }
        ensures frames { KeepsUsed self.old self.new }
        ensures stood { (first : State) (t0 : ℕ) → Stood first t0 (D.told disk.old) self.old → Stood first t0 (D.told disk.new) self.new }
        ensures spare { (first : State) (t0 : ℕ) → Stood first t0 (D.told disk.old) self.old → IsTrue (takes_no_memory call) → FitsBehindOthers (last_of first self.old) (tapes_of self.old) call → IsOk result }
    {
        let graces = self.journal.shape().graces;
        match ask(self.alloc, &mut self.parts, &graces, &call)? {
            Asked::Refused(why) => Ok(self.refuse(disk, caller, call, why)),
            Asked::Answered(reply) => {
                let replies = twice(self.alloc, reply)?;
                Ok(self.answer(disk, caller, call, replies))
            }
            Asked::Changes(ready, reply, growth) => {
                let replies = twice(self.alloc, reply)?;
                self.send(disk, caller, call, replies, ready, growth)
            }
        }
    }
}
