//! Feed: the next window of a lane's first job, or the job's end.

ghost use Rattle.std.specs.Prelude.{◌≡◌, ◌≢◌, ◌⊎◌, ◌+◌, ◌<◌, ◌≤◌, ◌++◌, ◌∷◌, [], ℕ, None, Some, Ok, true, false, length, IsTrue, IfOk, OnErr, vec_len, vec_capacity, if◌then◌else◌};
ghost use Rattle.voice_outside.specs.Counters.{HasRisen};
ghost use Rattle.voice_model.specs.State.{State};
ghost use Rattle.voice_model.specs.declared.calls.Why.{Why};
ghost use Rattle.play_queue.specs.Queued.{lane_of};
ghost use Rattle.playing.specs.Frames.{HasRead, missing};
ghost use Rattle.frame_pool.specs.Pool.{spent};
ghost use Rattle.listening.specs.Looks.{Looked};
ghost use Rattle.playing.specs.Lanes.{next_window, stopped_at, window_at};
ghost use Rattle.lane_calls.specs.Answers.{IsHandedOut, HasStopped};
ghost use Rattle.voice_store.specs.Feeding.{told, HasSamples};
ghost use Rattle.voice_store.specs.Stood.{Stood, last_of};
ghost use Rattle.voice_store.specs.Facts.{IsFault, entry_of};
ghost use Rattle.voice_store.specs.Turns.{unread_blocks, window_blocks};
ghost use Rattle.voice_store.specs.Residing.{HoldsWindow, MovesFrames};

use crate::entering::enter;
use crate::inside::Inside;
use frame_pool::Lease;
use lane_calls::{Fed, feed, serve};
use std::marker::Brand;
use std::sync::ledger::{Blank, Ledger};
use voice_model::{Call, Reply, Why};
use voice_outside::Disk;
use voice_units::{Lane, NoMemory, Steps};

// What a Feed is answered, as its entry has it.
fn told(fed: &Fed) -> Reply
    ensures { result ≡ told fed.now }
{
    match fed {
        Fed::Refused(why) => Reply::No(*why),
        Fed::Stopped(job, heard) => Reply::Stopped(*job, *heard),
        Fed::Ended(job, heard) => Reply::Ended(*job, *heard),
        Fed::Window(at, lease) => Reply::Window(*at, lease.len()),
        Fed::Fault => Reply::No(Why::DiskFault),
    }
}

impl Inside {
    // Asks for a window with a ledger for the steps.
    fn feed_by<D: Disk, L: Ledger>(
        &mut self,
        disk: &mut D,
        caller: u16,
        lane: Lane,
        blank: Blank,
    ) -> Result<Fed, NoMemory>
        requires name { blank.name ≡ L.name }
        requires count { blank.parts ≡ L.parts }
        requires one { blank.parts ≡ 1 }
        requires stood { (first : State) × (t0 : ℕ) × Stood first t0 (D.told disk.old) self.old }
        requires room { vec_len self.old.history < vec_capacity self.old.history }
        ensures items { IfOk result (λ fed. self.new.history.items ≡ self.old.history.items ++ entry_of caller (Call.Feed lane None) (told fed) (D.told disk.new).calls ∷ []) }
        ensures err { OnErr result (self.new.history.items ≡ self.old.history.items) }
        ensures cause { IfOk result (λ fed. IsFault (told fed) → HasRisen (D.told disk.old).faults (D.told disk.new).faults) }
        ensures made { HasRead (missing self.old.journal.shape.block self.old.lanes.frames.resident (next_window self.old.journal.shape.block 0 (lane_of self.old.lanes.queues lane))) (D.told disk.old) (D.told disk.new) }
        ensures still { stopped_at (lane_of self.old.lanes.queues lane) ≡ true → disk.new ≡ disk.old }
        ensures samples { IsTrue (D.told disk.old).honest → (first : State) (t0 : ℕ) → Stood first t0 (D.told disk.old) self.old → IfOk result (HasSamples (last_of first self.old) lane) }
        ensures holds { (first : State) (t0 : ℕ) → Stood first t0 (D.told disk.old) self.old → IfOk result (HoldsWindow (last_of first self.old) lane self.new.lanes.frames.resident) }
        ensures moves { (first : State) (t0 : ℕ) → Stood first t0 (D.told disk.old) self.old → MovesFrames (last_of first self.new) self.old.lanes.frames.resident self.new.lanes.frames.resident }
        ensures fresh { IfOk result (IsHandedOut self.old.lanes.frames.keeper.pool lane) }
        ensures tapes { self.new.tapes ≡ self.old.tapes }
        ensures pool { self.new.lanes.frames.keeper.pool ≡ self.old.lanes.frames.keeper.pool }
        ensures stood { (first : State) (t0 : ℕ) → Stood first t0 (D.told disk.old) self.old → Stood first t0 (D.told disk.new) self.new }
    {
        let shape = self.journal.shape();
        let mut steps = Steps::<L>::new(blank);
        let fed = feed(
            self.alloc,
            &shape,
            disk,
            &mut self.parts,
            &mut self.lanes,
            lane,
            &mut steps,
        )?;
        let call = Call::Feed(lane, None);
        enter(&mut self.history, caller, call, told(&fed), disk.calls());
        Ok(fed)
    }
}

impl Inside {
    /// Asks for the next window of a lane's first job, while no window comes back. It is refused where the lane is unknown, has no job, or has a window out, in this order. It reads each block of the window that no frame holds once; after `NoMemory` the jobs are as before.
    pub(crate) fn feed<D: Disk>(
        &mut self,
        disk: &mut D,
        caller: u16,
        lane: Lane,
    ) -> Result<Fed, NoMemory>
        requires stood { (first : State) × (t0 : ℕ) × Stood first t0 (D.told disk.old) self.old }
        requires room { vec_len self.old.history < vec_capacity self.old.history }
        ensures items { IfOk result (λ fed. self.new.history.items ≡ self.old.history.items ++ entry_of caller (Call.Feed lane None) (told fed) (D.told disk.new).calls ∷ []) }
        ensures err { OnErr result (self.new.history.items ≡ self.old.history.items) }
        ensures cause { IfOk result (λ fed. IsFault (told fed) → HasRisen (D.told disk.old).faults (D.told disk.new).faults) }
        ensures looks { Looked 4 (D.told disk.old) (D.told disk.new) }
        ensures reads { (first : State) (t0 : ℕ) → Stood first t0 (D.told disk.old) self.old → (D.told disk.new).calls ≤ (D.told disk.old).calls + unread_blocks (last_of first self.old) lane None self.old.lanes.frames.resident }
        ensures calls { (first : State) (t0 : ℕ) → Stood first t0 (D.told disk.old) self.old → (D.told disk.new).calls ≤ (D.told disk.old).calls + window_blocks (last_of first self.old) lane None }
        ensures samples { IsTrue (D.told disk.old).honest → (first : State) (t0 : ℕ) → Stood first t0 (D.told disk.old) self.old → IfOk result (HasSamples (last_of first self.old) lane) }
        ensures holds { (first : State) (t0 : ℕ) → Stood first t0 (D.told disk.old) self.old → IfOk result (HoldsWindow (last_of first self.old) lane self.new.lanes.frames.resident) }
        ensures moves { (first : State) (t0 : ℕ) → Stood first t0 (D.told disk.old) self.old → MovesFrames (last_of first self.new) self.old.lanes.frames.resident self.new.lanes.frames.resident }
        ensures fresh { IfOk result (IsHandedOut self.old.lanes.frames.keeper.pool lane) }
        ensures tapes { self.new.tapes ≡ self.old.tapes }
        ensures pool { self.new.lanes.frames.keeper.pool ≡ self.old.lanes.frames.keeper.pool }
        ensures stood { (first : State) (t0 : ℕ) → Stood first t0 (D.told disk.old) self.old → Stood first t0 (D.told disk.new) self.new }
    {
        self.feed_by::<D, Brand>(disk, caller, lane, Blank::new(1))
    }

    // Whether a window of so many samples is out on a lane.
    fn is_out(&self, lane: Lane, len: u32) -> bool
        requires { lane < length self.now.lanes.queues }
        ensures { result ≡ true → (0 < window_at (lane_of self.now.lanes.queues lane)) × (window_at (lane_of self.now.lanes.queues lane) ≡ len) }
    {
        let Some(job) = self.lanes.queues().head(lane) else {
            return false;
        };
        if job.window == 0 {
            return false;
        }
        job.window == len
    }

    // Brings a window back with a ledger for the steps.
    fn serve_by<D: Disk, L: Ledger>(
        &mut self,
        disk: &mut D,
        caller: u16,
        lease: &mut Lease,
        heard: u32,
        blank: Blank,
    ) -> Result<Fed, NoMemory>
        requires name { blank.name ≡ L.name }
        requires count { blank.parts ≡ L.parts }
        requires one { blank.parts ≡ 1 }
        requires stood { (first : State) × (t0 : ℕ) × Stood first t0 (D.told disk.old) self.old }
        requires room { vec_len self.old.history < vec_capacity self.old.history }
        requires pool { lease.old.pool ≡ self.old.lanes.frames.keeper.pool }
        requires most { heard ≤ lease.old.len }
        ensures items { IfOk result (λ fed. self.new.history.items ≡ self.old.history.items ++ entry_of caller (Call.Feed lease.old.lane (Some heard)) (told fed) (D.told disk.new).calls ∷ []) }
        ensures err { OnErr result (self.new.history.items ≡ self.old.history.items) }
        ensures lease { (lease.new ≡ lease.old) ⊎ (lease.new ≡ spent lease.old) }
        ensures back { IfOk result (λ fed. lease.new ≡ (if lease.old.taken then lease.old else spent lease.old)) }
        ensures hinted { lease.old.taken ≡ false → lease.old.hinted ≡ true → IfOk result HasStopped }
        ensures unrefused { IfOk result (λ fed. (reason : Why) → fed ≢ Fed.Refused reason) }
        ensures cause { IfOk result (λ fed. IsFault (told fed) → HasRisen (D.told disk.old).faults (D.told disk.new).faults) }
        ensures made { HasRead (missing self.old.journal.shape.block self.old.lanes.frames.resident (next_window self.old.journal.shape.block heard (lane_of self.old.lanes.queues lease.old.lane))) (D.told disk.old) (D.told disk.new) }
        ensures still { stopped_at (lane_of self.old.lanes.queues lease.old.lane) ≡ true → disk.new ≡ disk.old }
        ensures samples { IsTrue (D.told disk.old).honest → (first : State) (t0 : ℕ) → Stood first t0 (D.told disk.old) self.old → IfOk result (HasSamples (last_of first self.old) lease.old.lane) }
        ensures holds { (first : State) (t0 : ℕ) → Stood first t0 (D.told disk.old) self.old → IfOk result (HoldsWindow (last_of first self.old) lease.old.lane self.new.lanes.frames.resident) }
        ensures moves { (first : State) (t0 : ℕ) → Stood first t0 (D.told disk.old) self.old → MovesFrames (last_of first self.new) self.old.lanes.frames.resident self.new.lanes.frames.resident }
        ensures fresh { IfOk result (IsHandedOut self.old.lanes.frames.keeper.pool lease.old.lane) }
        ensures tapes { self.new.tapes ≡ self.old.tapes }
        ensures pool { self.new.lanes.frames.keeper.pool ≡ self.old.lanes.frames.keeper.pool }
        ensures stood { (first : State) (t0 : ℕ) → Stood first t0 (D.told disk.old) self.old → Stood first t0 (D.told disk.new) self.new }
    {
        let shape = self.journal.shape();
        let lane = lease.lane();
        if lane.0 >= shape.lanes {
            return Err(NoMemory);
        }
        if !self.is_out(lane, lease.len()) {
            return Err(NoMemory);
        }
        let mut steps = Steps::<L>::new(blank);
        let fed = serve(
            self.alloc,
            &shape,
            disk,
            &mut self.parts,
            &mut self.lanes,
            lane,
            lease,
            heard,
            &mut steps,
        )?;
        let call = Call::Feed(lane, Some(heard));
        enter(&mut self.history, caller, call, told(&fed), disk.calls());
        Ok(fed)
    }

    /// Brings the lease of a lane's window back, of which so much was heard, and asks for the next window of its first job. A lease that is not that of a window which is out is answered `NoMemory`, with all as before and no device call.
    pub(crate) fn serve<D: Disk>(
        &mut self,
        disk: &mut D,
        caller: u16,
        lease: &mut Lease,
        heard: u32,
    ) -> Result<Fed, NoMemory>
        requires stood { (first : State) × (t0 : ℕ) × Stood first t0 (D.told disk.old) self.old }
        requires room { vec_len self.old.history < vec_capacity self.old.history }
        requires pool { lease.old.pool ≡ self.old.lanes.frames.keeper.pool }
        requires most { heard ≤ lease.old.len }
        ensures items { IfOk result (λ fed. self.new.history.items ≡ self.old.history.items ++ entry_of caller (Call.Feed lease.old.lane (Some heard)) (told fed) (D.told disk.new).calls ∷ []) }
        ensures err { OnErr result (self.new.history.items ≡ self.old.history.items) }
        ensures lease { (lease.new ≡ lease.old) ⊎ (lease.new ≡ spent lease.old) }
        ensures back { IfOk result (λ fed. lease.new ≡ (if lease.old.taken then lease.old else spent lease.old)) }
        ensures hinted { lease.old.taken ≡ false → lease.old.hinted ≡ true → IfOk result HasStopped }
        ensures unrefused { IfOk result (λ fed. (reason : Why) → fed ≢ Fed.Refused reason) }
        ensures cause { IfOk result (λ fed. IsFault (told fed) → HasRisen (D.told disk.old).faults (D.told disk.new).faults) }
        ensures looks { Looked 4 (D.told disk.old) (D.told disk.new) }
        ensures reads { (first : State) (t0 : ℕ) → Stood first t0 (D.told disk.old) self.old → (D.told disk.new).calls ≤ (D.told disk.old).calls + unread_blocks (last_of first self.old) lease.old.lane (Some heard) self.old.lanes.frames.resident }
        ensures calls { (first : State) (t0 : ℕ) → Stood first t0 (D.told disk.old) self.old → (D.told disk.new).calls ≤ (D.told disk.old).calls + window_blocks (last_of first self.old) lease.old.lane (Some heard) }
        ensures samples { IsTrue (D.told disk.old).honest → (first : State) (t0 : ℕ) → Stood first t0 (D.told disk.old) self.old → IfOk result (HasSamples (last_of first self.old) lease.old.lane) }
        ensures holds { (first : State) (t0 : ℕ) → Stood first t0 (D.told disk.old) self.old → IfOk result (HoldsWindow (last_of first self.old) lease.old.lane self.new.lanes.frames.resident) }
        ensures moves { (first : State) (t0 : ℕ) → Stood first t0 (D.told disk.old) self.old → MovesFrames (last_of first self.new) self.old.lanes.frames.resident self.new.lanes.frames.resident }
        ensures fresh { IfOk result (IsHandedOut self.old.lanes.frames.keeper.pool lease.old.lane) }
        ensures tapes { self.new.tapes ≡ self.old.tapes }
        ensures pool { self.new.lanes.frames.keeper.pool ≡ self.old.lanes.frames.keeper.pool }
        ensures stood { (first : State) (t0 : ℕ) → Stood first t0 (D.told disk.old) self.old → Stood first t0 (D.told disk.new) self.new }
    {
        self.serve_by::<D, Brand>(disk, caller, lease, heard, Blank::new(1))
    }

    /// Takes the lease of a window back without a Feed, if its lane is one of the store. The window stays out, and the disk is not touched.
    pub(crate) fn take_back<D: Disk>(&mut self, _disk: &D, lease: &mut Lease)
        requires stood { (first : State) × (t0 : ℕ) × Stood first t0 (D.told _disk.now) self.old }
        requires pool { lease.old.pool ≡ self.old.lanes.frames.keeper.pool }
        ensures lease { (lease.new ≡ lease.old) ⊎ (lease.new ≡ spent lease.old) }
        ensures back { lease.old.lane < self.old.journal.shape.lanes → lease.new ≡ (if lease.old.taken then lease.old else spent lease.old) }
        ensures history { self.new.history ≡ self.old.history }
        ensures tapes { self.new.tapes ≡ self.old.tapes }
        ensures pool { self.new.lanes.frames.keeper.pool ≡ self.old.lanes.frames.keeper.pool }
        ensures frames { self.new.lanes.frames.resident ≡ self.old.lanes.frames.resident }
        ensures stood { (first : State) (t0 : ℕ) → Stood first t0 (D.told _disk.now) self.old → Stood first t0 (D.told _disk.now) self.new }
    {
        let lane = lease.lane();
        if lane.0 >= self.journal.shape().lanes {
            return;
        }
        let _is_the_window = self.lanes.bring_back(lane, lease);
    }
}
