//! One call of the store.

ghost use Rattle.std.specs.Prelude.{◌≡◌, ◌+◌, ◌≤◌, ◌<◌, ◌++◌, ◌∷◌, [], ℕ, None, true, false, is_some, IsTrue, IsOk, IfOk, OnErr, vec_len, vec_capacity};
ghost use Rattle.voice_outside.specs.Counters.{HasRisen};
ghost use Rattle.voice_model.specs.State.{State};
ghost use Rattle.voice_model.specs.Changes.{is_changing};
ghost use Rattle.voice_model.specs.Step.{landed};
ghost use Rattle.voice_model.specs.Valid.{InRange};
ghost use Rattle.row_calls.specs.Asked.{takes_no_memory};
ghost use Rattle.voice_store.specs.Asking.{IsAsking};
ghost use Rattle.voice_store.specs.Spare.{FitsBehindOthers};
ghost use Rattle.voice_store.specs.Stood.{Stood, last_of, tapes_of};
ghost use Rattle.listening.specs.Looks.{Looked};
ghost use Rattle.voice_store.specs.DeviceCalls.{change_calls, landing_calls, most_calls};
ghost use Rattle.voice_store.specs.Turns.{AddsLandingAt, AddsShortly};
ghost use Rattle.voice_store.specs.Facts.{Adds, AddsLanding, Goes, GoesOn, HasRopes, IsFault, Stays, TakesAreIn, entry_of, hears, only_tells, most_reads};
ghost use Rattle.voice_store.specs.Residing.{KeepsUsed, KeepsFrames};
ghost use Rattle.built_calls.specs.Built.{is_built};

use crate::hearing::Sound;
use crate::inside::Inside;
use crate::jobs::Passage;
use voice_model::{Call, Class, Key, Reply, Why};
use voice_outside::Disk;
use voice_units::{Lane, NoMemory, RopeId, Take};

/// What a call asks of the tables, of the lanes or of the disk, or that it is of a kind that makes changes.
enum Asks {
    Length(RopeId),
    Interest(Class, Key),
    Sound(Sound, RopeId),
    Job(Lane, RopeId, u32, u32),
    Stop(Lane),
    Begin(Lane),
    Add(Lane, Take),
    Change,
}

// What a call asks.
fn asked_of(call: &Call) -> Asks
    requires { IsTrue (is_built call.now) }
    ensures { IsAsking call.now result }
{
    match call {
        Call::Length(rope) => Asks::Length(*rope),
        Call::Lookup(class, key) => Asks::Interest(*class, *key),
        Call::Describe(rope) => Asks::Sound(Sound::Talk, *rope),
        Call::Levels(rope) => Asks::Sound(Sound::Peaks, *rope),
        Call::Play(lane, rope, start, len) => Asks::Job(*lane, *rope, *start, *len),
        Call::Stop(lane) => Asks::Stop(*lane),
        Call::Begin(lane) => Asks::Begin(*lane),
        Call::Add(lane, take) => Asks::Add(*lane, *take),
        _ => Asks::Change,
    }
}

impl Inside {
    // Lands what is in doubt, if anything is; false exactly where that failed.
    fn land_first<D: Disk>(&mut self, disk: &mut D) -> bool
        requires stood { (first : State) × (t0 : ℕ) × Stood first t0 (D.told disk.old) self.old }
        requires room { vec_len self.old.history + 2 ≤ vec_capacity self.old.history }
        ensures goes { Goes 2 (D.told disk.old) (D.told disk.new) }
        ensures calls { (first : State) (t0 : ℕ) → Stood first t0 (D.told disk.old) self.old → (D.told disk.new).calls ≤ (D.told disk.old).calls + landing_calls (last_of first self.old) }
        ensures landed { result ≡ true → (first : State) (t0 : ℕ) → Stood first t0 (D.told disk.old) self.old → last_of first self.new ≡ landed (last_of first self.old) }
        ensures cause { result ≡ false → HasRisen (D.told disk.old).faults (D.told disk.new).faults }
        ensures sure { result ≡ true → self.new.doubt ≡ None }
        ensures unsure { result ≡ false → (first : State) (t0 : ℕ) → Stood first t0 (D.told disk.old) self.old → IsTrue (is_some (last_of first self.new).doubt) }
        ensures failed { result ≡ false → self.new.history.items ≡ self.old.history.items }
        ensures history { AddsLandingAt (D.told disk.new).calls self.old.history.items self.new.history.items }
        ensures still { self.old.doubt ≡ None → (disk.new ≡ disk.old) × (self.new ≡ self.old) }
        ensures room { vec_len self.new.history < vec_capacity self.new.history }
        ensures tapes { self.new.tapes ≡ self.old.tapes }
        ensures pool { self.new.lanes.frames.keeper.pool ≡ self.old.lanes.frames.keeper.pool }
        ensures frames { KeepsUsed self.old self.new }
        ensures stood { (first : State) (t0 : ℕ) → Stood first t0 (D.told disk.old) self.old → Stood first t0 (D.told disk.new) self.new }
    {
        if self.doubt.is_none() {
            return true;
        }
        self.settle(disk)
    }

    /// Enters a call that a device fault ended.
    pub(crate) fn note_fault<D: Disk>(&mut self, disk: &D, caller: u16, call: Call) -> Reply
        requires room { vec_len self.old.history < vec_capacity self.old.history }
        ensures items { self.new.history.items ≡ self.old.history.items ++ entry_of caller call result (D.told disk.now).calls ∷ [] }
        ensures rest { self.new ≡ record self.old { history = self.new.history } }
        ensures stood { (first : State) (t0 : ℕ) → Stood first t0 (D.told disk.now) self.old → Stays (D.told disk.now).honest (last_of first self.old) (tapes_of self.old) caller call (Reply.No Why.DiskFault) → Stood first t0 (D.told disk.now) self.new }
    {
        self.note(disk, caller, call, Reply::No(Why::DiskFault));
        Reply::No(Why::DiskFault)
    }

    // Makes a change, where nothing is in doubt.
    fn change<D: Disk>(&mut self, disk: &mut D, caller: u16, call: Call) -> Result<Reply, NoMemory>
        requires stood { (first : State) × (t0 : ℕ) × Stood first t0 (D.told disk.old) self.old }
        requires sure { self.old.doubt ≡ None }
        requires built { IsTrue (is_built call) }
        requires changing { IsTrue (is_changing call) }
        requires takes { TakesAreIn (tapes_of self.old) call }
        requires ropes { HasRopes call }
        requires range { InRange call }
        requires room { vec_len self.old.history < vec_capacity self.old.history }
        ensures goes { GoesOn (D.told disk.old) (D.told disk.new) }
        ensures calls { (first : State) (t0 : ℕ) → Stood first t0 (D.told disk.old) self.old → (D.told disk.new).calls ≤ (D.told disk.old).calls + change_calls (last_of first self.old) (tapes_of self.old) call }
        ensures cause { IfOk result (λ reply. IsFault reply → HasRisen (D.told disk.old).faults (D.told disk.new).faults) }
        ensures items { IfOk result (λ reply. self.new.history.items ≡ self.old.history.items ++ entry_of caller call reply (D.told disk.new).calls ∷ []) }
        ensures err { OnErr result (self.new.history.items ≡ self.old.history.items) }
        ensures still { OnErr result (disk.new ≡ disk.old) }
        ensures tapes { self.new.tapes ≡ self.old.tapes }
        ensures pool { self.new.lanes.frames.keeper.pool ≡ self.old.lanes.frames.keeper.pool }
        ensures frames { KeepsUsed self.old self.new }
        ensures stood { (first : State) (t0 : ℕ) → Stood first t0 (D.told disk.old) self.old → Stood first t0 (D.told disk.new) self.new }
        ensures spare { (first : State) (t0 : ℕ) → Stood first t0 (D.told disk.old) self.old → IsTrue (takes_no_memory call) → FitsBehindOthers (last_of first self.old) (tapes_of self.old) call → IsOk result }
    {
        match call {
            Call::Record(take) => self.record(disk, caller, take),
            Call::End(lane) => self.end(disk, caller, lane),
            Call::Concat(ropes) => self.edit(disk, caller, Call::Concat(ropes)),
            Call::Sub(rope, start, len) => self.edit(disk, caller, Call::Sub(rope, start, len)),
            Call::Replace(rope, start, len, with) => {
                self.edit(disk, caller, Call::Replace(rope, start, len, with))
            }
            call => self.alter(disk, caller, call),
        }
    }

    // Makes a call of a kind that makes changes, once what is in doubt has landed.
    fn land_and_change<D: Disk>(
        &mut self,
        disk: &mut D,
        caller: u16,
        call: Call,
    ) -> Result<Reply, NoMemory>
        requires stood { (first : State) × (t0 : ℕ) × Stood first t0 (D.told disk.old) self.old }
        requires built { IsTrue (is_built call) }
        requires changing { IsTrue (is_changing call) }
        requires takes { TakesAreIn (tapes_of self.old) call }
        requires ropes { HasRopes call }
        requires range { InRange call }
        requires room { vec_len self.old.history + 2 ≤ vec_capacity self.old.history }
        ensures goes { GoesOn (D.told disk.old) (D.told disk.new) }
        ensures calls { (first : State) (t0 : ℕ) → Stood first t0 (D.told disk.old) self.old → (D.told disk.new).calls ≤ (D.told disk.old).calls + most_calls (last_of first self.old) (tapes_of self.old) call }
        ensures cause { IfOk result (λ reply. IsFault reply → HasRisen (D.told disk.old).faults (D.told disk.new).faults) }
        ensures entry { IfOk result (λ reply. Adds caller call reply (D.told disk.new).calls self.old.history.items self.new.history.items) }
        ensures err { OnErr result (AddsLanding self.old.history.items self.new.history.items) }
        ensures turns { (first : State) (t0 : ℕ) → Stood first t0 (D.told disk.old) self.old → IfOk result (λ reply. AddsShortly (last_of first self.old) (tapes_of self.old) (D.told disk.old).calls caller call reply (D.told disk.new).calls self.old.history.items self.new.history.items) }
        ensures few { (first : State) (t0 : ℕ) → Stood first t0 (D.told disk.old) self.old → OnErr result ((D.told disk.new).calls ≤ (D.told disk.old).calls + landing_calls (last_of first self.old)) }
        ensures still { self.old.doubt ≡ None → OnErr result ((disk.new ≡ disk.old) × (self.new.history.items ≡ self.old.history.items)) }
        ensures tapes { self.new.tapes ≡ self.old.tapes }
        ensures pool { self.new.lanes.frames.keeper.pool ≡ self.old.lanes.frames.keeper.pool }
        ensures frames { (first : State) (t0 : ℕ) → Stood first t0 (D.told disk.old) self.old → KeepsFrames (landed (last_of first self.old)) (last_of first self.new) self.old.lanes.frames.resident self.new.lanes.frames.resident }
        ensures stood { (first : State) (t0 : ℕ) → Stood first t0 (D.told disk.old) self.old → Stood first t0 (D.told disk.new) self.new }
        ensures spare { self.old.doubt ≡ None → (first : State) (t0 : ℕ) → Stood first t0 (D.told disk.old) self.old → IsTrue (takes_no_memory call) → FitsBehindOthers (last_of first self.old) (tapes_of self.old) call → IsOk result }
    {
        if !self.land_first(disk) {
            return Ok(self.note_fault(disk, caller, call));
        }
        self.change(disk, caller, call)
    }

    /// Makes a call for a caller, and adds its entry to the history, after a landing where a change was in doubt and the call is of a kind that makes changes. After `NoMemory` nothing of the call is done, but a change in doubt may have landed.
    pub(crate) fn apply<D: Disk>(
        &mut self,
        disk: &mut D,
        caller: u16,
        call: Call,
    ) -> Result<Reply, NoMemory>
        requires stood { (first : State) × (t0 : ℕ) × Stood first t0 (D.told disk.old) self.old }
        requires built { IsTrue (is_built call) }
        requires takes { TakesAreIn (tapes_of self.old) call }
        requires ropes { HasRopes call }
        requires range { InRange call }
        ensures entry { IfOk result (λ reply. Adds caller call reply (D.told disk.new).calls self.old.history.items self.new.history.items) }
        ensures err { OnErr result (AddsLanding self.old.history.items self.new.history.items) }
        ensures turns { (first : State) (t0 : ℕ) → Stood first t0 (D.told disk.old) self.old → IfOk result (λ reply. AddsShortly (last_of first self.old) (tapes_of self.old) (D.told disk.old).calls caller call reply (D.told disk.new).calls self.old.history.items self.new.history.items) }
        ensures few { (first : State) (t0 : ℕ) → Stood first t0 (D.told disk.old) self.old → OnErr result ((D.told disk.new).calls ≤ (D.told disk.old).calls + (landing_calls (last_of first self.old) + most_reads (last_of first self.old) call)) }
        ensures still { self.old.doubt ≡ None → OnErr result ((self.new.history.items ≡ self.old.history.items) × (hears call ≡ false → disk.new ≡ disk.old)) }
        ensures looks { IsTrue (hears call) → (first : State) (t0 : ℕ) → Stood first t0 (D.told disk.old) self.old → Looked (most_reads (last_of first self.old) call) (D.told disk.old) (D.told disk.new) }
        ensures spare { IsTrue (only_tells call) → vec_len self.old.history + 2 ≤ vec_capacity self.old.history → IsOk result }
        ensures behind { self.old.doubt ≡ None → (first : State) (t0 : ℕ) → Stood first t0 (D.told disk.old) self.old → IsTrue (takes_no_memory call) → FitsBehindOthers (last_of first self.old) (tapes_of self.old) call → vec_len self.old.history + 2 ≤ vec_capacity self.old.history → IsOk result }
        ensures cause { IfOk result (λ reply. IsFault reply → HasRisen (D.told disk.old).faults (D.told disk.new).faults) }
        ensures goes { GoesOn (D.told disk.old) (D.told disk.new) }
        ensures calls { (first : State) (t0 : ℕ) → Stood first t0 (D.told disk.old) self.old → (D.told disk.new).calls ≤ (D.told disk.old).calls + most_calls (last_of first self.old) (tapes_of self.old) call }
        ensures tapes { self.new.tapes ≡ self.old.tapes }
        ensures pool { self.new.lanes.frames.keeper.pool ≡ self.old.lanes.frames.keeper.pool }
        ensures frames { (first : State) (t0 : ℕ) → Stood first t0 (D.told disk.old) self.old → KeepsFrames (landed (last_of first self.old)) (last_of first self.new) self.old.lanes.frames.resident self.new.lanes.frames.resident }
        ensures stood { (first : State) (t0 : ℕ) → Stood first t0 (D.told disk.old) self.old → Stood first t0 (D.told disk.new) self.new }
    {
        self.reserve(2)?;
        match asked_of(&call) {
            Asks::Length(rope) => Ok(self.tell_length(disk, caller, rope)),
            Asks::Interest(class, key) => Ok(self.tell_interest(disk, caller, class, key)),
            Asks::Sound(sound, rope) => self.tell_sound(disk, caller, rope, sound),
            Asks::Job(lane, rope, start, len) => {
                self.play(
                    disk,
                    caller,
                    Passage {
                        lane,
                        rope,
                        start,
                        len,
                    },
                )
            }
            Asks::Stop(lane) => Ok(self.stop(disk, caller, lane)),
            Asks::Begin(lane) => self.begin(disk, caller, lane),
            Asks::Add(lane, take) => self.add(disk, caller, lane, take),
            Asks::Change => self.land_and_change(disk, caller, call),
        }
    }
}
