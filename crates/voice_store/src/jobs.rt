//! The jobs of lanes: Play and Stop.

ghost use Rattle.std.specs.Prelude.{◌≡◌, ◌≤◌, ◌<◌, ◌++◌, ◌∷◌, [], ℕ, IfOk, OnErr, vec_len, vec_capacity};
ghost use Rattle.voice_model.specs.State.{State};
ghost use Rattle.voice_store.specs.Stood.{Stood};
ghost use Rattle.voice_store.specs.Facts.{IsFault, entry_of};
ghost use Rattle.voice_store.specs.Residing.{KeepsUsed};

use crate::entering::enter;
use crate::inside::Inside;
use lane_calls::{Played, play, stop};
use std::marker::Brand;
use std::sync::ledger::{Blank, Ledger};
use voice_model::{Call, Reply, Why};
use voice_outside::Disk;
use voice_units::{Lane, NoMemory, RopeId, Steps};

/// How many jobs a store makes at most.
const LAST_JOB: u64 = u64::MAX - 1;

/// What a Play asks for: the `len` samples of a rope from `start` on, on a lane.
#[derive(Clone, Copy)]
pub(crate) struct Passage {
    pub(crate) lane: Lane,
    pub(crate) rope: RopeId,
    pub(crate) start: u32,
    pub(crate) len: u32,
}

impl Inside {
    /// Asks for a job to come last on a lane. It is refused where the lane is unknown, the rope is not live, the lane records or has 8 jobs, or the interval ends behind the rope, in this order. More than 2^64 - 2 jobs count as want of memory.
    pub(crate) fn play<D: Disk>(
        &mut self,
        disk: &D,
        caller: u16,
        passage: Passage,
    ) -> Result<Reply, NoMemory>
        requires stood { (first : State) × (t0 : ℕ) × Stood first t0 (D.told disk.now) self.old }
        requires room { vec_len self.old.history < vec_capacity self.old.history }
        ensures items { IfOk result (λ reply. self.new.history.items ≡ self.old.history.items ++ entry_of caller (Call.Play passage.lane passage.rope passage.start passage.len) reply (D.told disk.now).calls ∷ []) }
        ensures err { OnErr result (self.new ≡ self.old) }
        ensures plain { IfOk result (λ reply. ¬ IsFault reply) }
        ensures tapes { self.new.tapes ≡ self.old.tapes }
        ensures pool { self.new.lanes.frames.keeper.pool ≡ self.old.lanes.frames.keeper.pool }
        ensures frames { KeepsUsed self.old self.new }
        ensures stood { (first : State) (t0 : ℕ) → Stood first t0 (D.told disk.now) self.old → Stood first t0 (D.told disk.now) self.new }
    {
        if self.made >= LAST_JOB {
            return Err(NoMemory);
        }
        let Passage {
            lane,
            rope,
            start,
            len,
        } = passage;
        let call = Call::Play(lane, rope, start, len);
        let shape = self.journal.shape();
        let recording = self.recordings.is_open(lane);
        let played = play(
            &mut self.parts,
            &mut self.lanes,
            &shape,
            self.made,
            recording,
            lane,
            rope,
            start,
            len,
        )?;
        match played {
            Played::Refused(why) => Ok(self.refuse(disk, caller, call, why)),
            Played::Job(id) => {
                self.made += 1;
                enter(
                    &mut self.history,
                    caller,
                    call,
                    Reply::Job(id),
                    disk.calls(),
                );
                Ok(Reply::Job(id))
            }
        }
    }

    // Stops every job of a lane, with a ledger for the steps.
    fn stop_by<D: Disk, L: Ledger>(
        &mut self,
        disk: &D,
        caller: u16,
        lane: Lane,
        blank: Blank,
    ) -> Reply
        requires name { blank.name ≡ L.name }
        requires count { blank.parts ≡ L.parts }
        requires one { blank.parts ≡ 1 }
        requires stood { (first : State) × (t0 : ℕ) × Stood first t0 (D.told disk.now) self.old }
        requires room { vec_len self.old.history < vec_capacity self.old.history }
        ensures items { self.new.history.items ≡ self.old.history.items ++ entry_of caller (Call.Stop lane) result (D.told disk.now).calls ∷ [] }
        ensures plain { ¬ IsFault result }
        ensures tapes { self.new.tapes ≡ self.old.tapes }
        ensures pool { self.new.lanes.frames.keeper.pool ≡ self.old.lanes.frames.keeper.pool }
        ensures frames { KeepsUsed self.old self.new }
        ensures stood { (first : State) (t0 : ℕ) → Stood first t0 (D.told disk.now) self.old → Stood first t0 (D.told disk.now) self.new }
    {
        let shape = self.journal.shape();
        let mut steps = Steps::<L>::new(blank);
        match stop(&mut self.parts, &mut self.lanes, &shape, lane, &mut steps) {
            Err(why) => self.refuse(disk, caller, Call::Stop(lane), why),
            Ok(n) => {
                let call = Call::Stop(lane);
                enter(
                    &mut self.history,
                    caller,
                    call,
                    Reply::Number(u64::from(n)),
                    disk.calls(),
                );
                Reply::Number(u64::from(n))
            }
        }
    }

    /// Stops every job of a lane; it is refused exactly where the lane is unknown.
    pub(crate) fn stop<D: Disk>(&mut self, disk: &D, caller: u16, lane: Lane) -> Reply
        requires stood { (first : State) × (t0 : ℕ) × Stood first t0 (D.told disk.now) self.old }
        requires room { vec_len self.old.history < vec_capacity self.old.history }
        ensures items { self.new.history.items ≡ self.old.history.items ++ entry_of caller (Call.Stop lane) result (D.told disk.now).calls ∷ [] }
        ensures plain { ¬ IsFault result }
        ensures tapes { self.new.tapes ≡ self.old.tapes }
        ensures pool { self.new.lanes.frames.keeper.pool ≡ self.old.lanes.frames.keeper.pool }
        ensures frames { KeepsUsed self.old self.new }
        ensures stood { (first : State) (t0 : ℕ) → Stood first t0 (D.told disk.now) self.old → Stood first t0 (D.told disk.now) self.new }
    {
        self.stop_by::<D, Brand>(disk, caller, lane, Blank::new(1))
    }
}
