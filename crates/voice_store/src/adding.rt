//! Recordings in parts: Begin and Add.

ghost use Rattle.std.specs.Prelude.{◌≡◌, ◌+◌, ◌<◌, ◌≤◌, ◌++◌, ◌∷◌, [], ℕ, None, length, IfOk, OnErr, vec_len, vec_capacity};
ghost use Rattle.voice_units.specs.Spots.{Spot};
ghost use Rattle.voice_outside.specs.Counters.{HasRisen};
ghost use Rattle.voice_model.specs.Samples.{Tagged};
ghost use Rattle.voice_model.specs.State.{State, lane_at};
ghost use Rattle.voice_model.specs.Step.{refusal};
ghost use Rattle.voice_model.specs.Tapes.{HasTake};
ghost use Rattle.lane_calls.specs.Lanes.{ShowsLanes};
ghost use Rattle.recording_calls.specs.Shown.{MayAdd};
ghost use Rattle.voice_store.specs.Stood.{Stood, last_of, tapes_of};
ghost use Rattle.voice_store.specs.DeviceCalls.{add_calls};
ghost use Rattle.voice_store.specs.Facts.{GoesOn, IsFault, entry_of};
ghost use Rattle.voice_store.specs.Residing.{KeepsUsed};

use crate::entering::enter;
use crate::inside::Inside;
use crash_laws::laws::{disks_are_honest, foundations};
use recording_adds::add;
use voice_model::{Call, Reply};
use voice_outside::Disk;
use voice_units::{Lane, NoMemory, Shape, Take};

impl Inside {
    // How many jobs a lane has; none where the lane is unknown.
    fn jobs_on(&self, shape: &Shape, lane: Lane) -> u32
        requires { shape.now.lanes ≡ length self.now.lanes.queues }
        ensures { (fill : Spot → Tagged) (made : ℕ) (s : State) → ShowsLanes fill self.now.lanes made s → result ≡ length (lane_at s lane).jobs }
    {
        if lane.0 >= shape.lanes {
            return 0;
        }
        self.lanes.queues().count(lane)
    }

    /// Opens a recording on a lane. It is refused where the lane is unknown, records, or has a job, in this order.
    pub(crate) fn begin<D: Disk>(
        &mut self,
        disk: &D,
        caller: u16,
        lane: Lane,
    ) -> Result<Reply, NoMemory>
        requires stood { (first : State) × (t0 : ℕ) × Stood first t0 (D.told disk.now) self.old }
        requires room { vec_len self.old.history < vec_capacity self.old.history }
        ensures items { IfOk result (λ reply. self.new.history.items ≡ self.old.history.items ++ entry_of caller (Call.Begin lane) reply (D.told disk.now).calls ∷ []) }
        ensures err { OnErr result (self.new ≡ self.old) }
        ensures plain { IfOk result (λ reply. ¬ IsFault reply) }
        ensures tapes { self.new.tapes ≡ self.old.tapes }
        ensures pool { self.new.lanes.frames.keeper.pool ≡ self.old.lanes.frames.keeper.pool }
        ensures frames { KeepsUsed self.old self.new }
        ensures stood { (first : State) (t0 : ℕ) → Stood first t0 (D.told disk.now) self.old → Stood first t0 (D.told disk.now) self.new }
    {
        let shape = self.journal.shape();
        let jobs = self.jobs_on(&shape, lane);
        let refused = self.recordings.begin(self.alloc, &shape, lane, jobs)?;
        let call = Call::Begin(lane);
        match refused {
            Some(why) => Ok(self.refuse(disk, caller, call, why)),
            None => {
                enter(&mut self.history, caller, call, Reply::Done, disk.calls());
                Ok(Reply::Done)
            }
        }
    }

    // Adds a take that nothing refuses.
    fn add_free<D: Disk>(
        &mut self,
        disk: &mut D,
        caller: u16,
        lane: Lane,
        take: Take,
    ) -> Result<Reply, NoMemory>
        requires free { (first : State) × (t0 : ℕ) × Stood first t0 (D.told disk.old) self.old × (refusal (last_of first self.old) (tapes_of self.old) (Call.Add lane take) ≡ None) }
        requires may { MayAdd self.old.recordings lane take.len }
        requires take { HasTake (tapes_of self.old) take }
        requires room { vec_len self.old.history < vec_capacity self.old.history }
        ensures goes { GoesOn (D.told disk.old) (D.told disk.new) }
        ensures calls { (first : State) (t0 : ℕ) → Stood first t0 (D.told disk.old) self.old → refusal (last_of first self.old) (tapes_of self.old) (Call.Add lane take) ≡ None → (D.told disk.new).calls ≤ (D.told disk.old).calls + add_calls (last_of first self.old) (tapes_of self.old) lane take }
        ensures cause { IfOk result (λ reply. IsFault reply → HasRisen (D.told disk.old).faults (D.told disk.new).faults) }
        ensures items { IfOk result (λ reply. self.new.history.items ≡ self.old.history.items ++ entry_of caller (Call.Add lane take) reply (D.told disk.new).calls ∷ []) }
        ensures err { OnErr result (self.new.history.items ≡ self.old.history.items) }
        ensures still { OnErr result (disk.new ≡ disk.old) }
        ensures tapes { self.new.tapes ≡ self.old.tapes }
        ensures pool { self.new.lanes.frames.keeper.pool ≡ self.old.lanes.frames.keeper.pool }
        ensures frames { KeepsUsed self.old self.new }
        ensures stood { (first : State) (t0 : ℕ) → Stood first t0 (D.told disk.old) self.old → refusal (last_of first self.old) (tapes_of self.old) (Call.Add lane take) ≡ None → Stood first t0 (D.told disk.new) self.new }
    {
        foundations();
        disks_are_honest(disk);
        let shape = self.journal.shape();
        let total = self.recordings.total(lane);
        let samples = self.tapes.samples(take);
        let added = add(
            self.alloc,
            &shape,
            disk,
            &mut self.parts,
            &mut self.recordings,
            lane,
            samples,
        );
        disks_are_honest(disk);
        if !added? {
            return Ok(self.note_fault(disk, caller, Call::Add(lane, take)));
        }
        let call = Call::Add(lane, take);
        let n = u64::from(total) + u64::from(take.len);
        enter(
            &mut self.history,
            caller,
            call,
            Reply::Number(n),
            disk.calls(),
        );
        Ok(Reply::Number(n))
    }

    /// Adds a take to the open recording of a lane, and writes the blocks that become whole, with no sync. It is refused where the lane is unknown, does not record, would record more than 2^30 bytes, or blocks are too few, in this order; after a device fault the recording is as it was, and its addresses are free again.
    pub(crate) fn add<D: Disk>(
        &mut self,
        disk: &mut D,
        caller: u16,
        lane: Lane,
        take: Take,
    ) -> Result<Reply, NoMemory>
        requires stood { (first : State) × (t0 : ℕ) × Stood first t0 (D.told disk.old) self.old }
        requires take { HasTake (tapes_of self.old) take }
        requires room { vec_len self.old.history < vec_capacity self.old.history }
        ensures goes { GoesOn (D.told disk.old) (D.told disk.new) }
        ensures calls { (first : State) (t0 : ℕ) → Stood first t0 (D.told disk.old) self.old → (D.told disk.new).calls ≤ (D.told disk.old).calls + add_calls (last_of first self.old) (tapes_of self.old) lane take }
        ensures cause { IfOk result (λ reply. IsFault reply → HasRisen (D.told disk.old).faults (D.told disk.new).faults) }
        ensures items { IfOk result (λ reply. self.new.history.items ≡ self.old.history.items ++ entry_of caller (Call.Add lane take) reply (D.told disk.new).calls ∷ []) }
        ensures err { OnErr result (self.new.history.items ≡ self.old.history.items) }
        ensures still { OnErr result (disk.new ≡ disk.old) }
        ensures tapes { self.new.tapes ≡ self.old.tapes }
        ensures pool { self.new.lanes.frames.keeper.pool ≡ self.old.lanes.frames.keeper.pool }
        ensures frames { KeepsUsed self.old self.new }
        ensures stood { (first : State) (t0 : ℕ) → Stood first t0 (D.told disk.old) self.old → Stood first t0 (D.told disk.new) self.new }
    {
        let shape = self.journal.shape();
        let free = self.parts.blocks.free();
        let refused = self.recordings.add_refused(&shape, lane, take.len, free);
        if let Some(why) = refused {
            return Ok(self.refuse(disk, caller, Call::Add(lane, take), why));
        }
        self.add_free(disk, caller, lane, take)
    }
}
