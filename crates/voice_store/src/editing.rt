//! Ropes made of other ropes.

ghost use Rattle.std.specs.Prelude.{◌≡◌, ◌+◌, ◌*◌, ◌≤◌, ◌<◌, ◌==◌, ◌++◌, ◌∷◌, [], ℕ, List, Some, None, Ok, false, cond, IsTrue, IfOk, OnErr, length, vec_len, vec_capacity};
ghost use Rattle.voice_units.specs.declared.Piece.{Piece};
ghost use Rattle.voice_units.specs.Spots.{samples_in};
ghost use Rattle.voice_outside.specs.Counters.{HasRisen};
ghost use Rattle.voice_model.specs.Samples.{Tagged};
ghost use Rattle.voice_model.specs.State.{State, Effect};
ghost use Rattle.voice_model.specs.Step.{is_journal_full};
ghost use Rattle.voice_model.specs.Valid.{IsState};
ghost use Rattle.voice_model.specs.Replay.{Rebuilt, acted};
ghost use Rattle.voice_model.specs.declared.Change.{Change};
ghost use Rattle.edits.specs.Shown.{ShowsState, IsMade};
ghost use Rattle.voice_store.specs.Stood.{Stood, last_of, tapes_of};
ghost use Rattle.voice_store.specs.Ways.{IsWay};
ghost use Rattle.voice_store.specs.Trying.{IsPlan};
ghost use Rattle.voice_store.specs.Going.{IsGoing, IsGoingIn};
ghost use Rattle.voice_store.specs.DeviceCalls.{change_calls};
ghost use Rattle.voice_store.specs.Facts.{Goes, HasRopes, IsFault, entry_of, is_edit};
ghost use Rattle.voice_store.specs.Keeping.{MakesRope, HasWay};
ghost use Rattle.voice_store.specs.Residing.{KeepsUsed};

use crate::committing::Plan;
use crate::going::{Going, give_up};
use crate::inside::Inside;
use crate::ways::Way;
use checkpoint::parts_size;
use crash_laws::laws::{disks_are_honest, foundations};
use edits::{Made, concat, replace, sub};
use next_changes::NextChange;
use next_ropes::{NextRope, ready_edit};
use rope_algebra::Pieces;
use voice_model::{Call, Reply, Why};
use voice_outside::Disk;
use voice_units::NoMemory;

// The bytes that a rope of so many pieces takes in a base.
pub(crate) fn rope_size(form: u8, pieces: u32) -> u64
    ensures { result ≡ 24 + cond (form == 2) 1 0 + 16 * pieces }
{
    let last = if form == 2 { 1 } else { 0 };
    24 + last + 16 * u64::from(pieces)
}

/// What the call of a rope that is ready is answered, twice.
pub(crate) fn replies_of(next: &NextRope) -> (Reply, Reply)
    ensures first { result.0 ≡ Reply.Rope next.now.id (samples_in next.now.pieces) }
    ensures second { result.1 ≡ Reply.Rope next.now.id (samples_in next.now.pieces) }
{
    let len = next.pieces.length();
    (Reply::Rope(next.id, len), Reply::Rope(next.id, len))
}

impl Inside {
    /// How a change that is ready gets into the journal, where that is not full.
    pub(crate) fn plan(&self, going: &Going, way: Way) -> Result<Plan, NoMemory>
        requires { IsGoingIn self.now.journal.shape self.now.parts going.now }
        ensures behind { way ≡ Way.Append → result ≡ Ok Plan.Append }
        ensures planned { (held : List (List Piece)) (takings more : List ℕ) (b : Rebuilt) (c : Change) (s : State) (effect : Effect Tagged) → IsGoing held takings more self.now.parts b going.now c → b.shape ≡ self.now.journal.shape → IsWay s effect way → is_journal_full s effect ≡ false → IfOk result (IsPlan self.now.journal s effect (acted b c)) }
    {
        let Way::Switch = way else {
            return Ok(Plan::Append);
        };
        let base = self.base_after(going)?;
        Ok(Plan::Switch(base))
    }

    // What an edit makes.
    fn make(&self, call: &Call) -> Result<Made, NoMemory>
        requires edits { IsTrue (is_edit call.now) }
        requires ropes { HasRopes call.now }
        ensures { (held : List (List Piece)) (s : State) (tapes : List (List ℕ)) → ShowsState held self.now.parts s → IsState s → IfOk result (λ made. IsMade made s tapes call.now) }
    {
        match call {
            Call::Concat(ropes) => concat(self.alloc, &self.parts, ropes.items()),
            Call::Sub(rope, start, len) => sub(&self.parts, *rope, *start, *len),
            Call::Replace(rope, start, len, with) => {
                replace(&self.parts, *rope, *start, *len, *with)
            }
            _ => unreachable!(),
        }
    }

    // Keeps a rope of these pieces, in this way.
    fn keep_by<D: Disk>(
        &mut self,
        disk: &mut D,
        caller: u16,
        call: Call,
        pieces: Pieces,
        way: Way,
    ) -> Result<Reply, NoMemory>
        requires way { (first : State) × (t0 : ℕ) × HasWay first t0 (D.told disk.old) self.old call pieces way }
        requires room { vec_len self.old.history < vec_capacity self.old.history }
        ensures goes { Goes 6 (D.told disk.old) (D.told disk.new) }
        ensures calls { (first : State) (t0 : ℕ) → HasWay first t0 (D.told disk.old) self.old call pieces way → (D.told disk.new).calls ≤ (D.told disk.old).calls + change_calls (last_of first self.old) (tapes_of self.old) call }
        ensures cause { IfOk result (λ reply. IsFault reply → HasRisen (D.told disk.old).faults (D.told disk.new).faults) }
        ensures items { IfOk result (λ reply. self.new.history.items ≡ self.old.history.items ++ entry_of caller call reply (D.told disk.new).calls ∷ []) }
        ensures err { OnErr result (self.new.history.items ≡ self.old.history.items) }
        ensures still { OnErr result (disk.new ≡ disk.old) }
        ensures tapes { self.new.tapes ≡ self.old.tapes }
        ensures pool { self.new.lanes.frames.keeper.pool ≡ self.old.lanes.frames.keeper.pool }
        ensures frames { KeepsUsed self.old self.new }
        ensures stood { (first : State) (t0 : ℕ) → HasWay first t0 (D.told disk.old) self.old call pieces way → Stood first t0 (D.told disk.new) self.new }
    {
        foundations();
        disks_are_honest(disk);
        let _most = self.journal.epoch();
        let rope = ready_edit(self.alloc, &mut self.parts, pieces)?;
        let replies = replies_of(&rope);
        let going = Going::Change(NextChange::Rope(rope));
        let Ok(plan) = self.plan(&going, way) else {
            give_up(&mut self.parts, going);
            return Err(NoMemory);
        };
        Ok(self.commit(disk, caller, call, replies, going, plan))
    }

    // Keeps a rope of these pieces, unless the journal has no room.
    fn keep<D: Disk>(
        &mut self,
        disk: &mut D,
        caller: u16,
        call: Call,
        pieces: Pieces,
    ) -> Result<Reply, NoMemory>
        requires makes { (first : State) × (t0 : ℕ) × MakesRope first t0 (D.told disk.old) self.old call pieces }
        requires room { vec_len self.old.history < vec_capacity self.old.history }
        ensures goes { Goes 6 (D.told disk.old) (D.told disk.new) }
        ensures calls { (first : State) (t0 : ℕ) → MakesRope first t0 (D.told disk.old) self.old call pieces → (D.told disk.new).calls ≤ (D.told disk.old).calls + change_calls (last_of first self.old) (tapes_of self.old) call }
        ensures cause { IfOk result (λ reply. IsFault reply → HasRisen (D.told disk.old).faults (D.told disk.new).faults) }
        ensures items { IfOk result (λ reply. self.new.history.items ≡ self.old.history.items ++ entry_of caller call reply (D.told disk.new).calls ∷ []) }
        ensures err { OnErr result (self.new.history.items ≡ self.old.history.items) }
        ensures still { OnErr result (disk.new ≡ disk.old) }
        ensures tapes { self.new.tapes ≡ self.old.tapes }
        ensures pool { self.new.lanes.frames.keeper.pool ≡ self.old.lanes.frames.keeper.pool }
        ensures frames { KeepsUsed self.old self.new }
        ensures stood { (first : State) (t0 : ℕ) → MakesRope first t0 (D.told disk.old) self.old call pieces → Stood first t0 (D.told disk.new) self.new }
    {
        let count = pieces.count();
        let base = parts_size(&self.parts);
        let more = u128::from(rope_size(self.parts.form, count));
        match self.way(16 + 16 * u64::from(count), base, base + more)? {
            Way::Full(most, left) => {
                Ok(self.refuse(disk, caller, call, Why::JournalFull(most, left)))
            }
            way => self.keep_by(disk, caller, call, pieces, way),
        }
    }

    /// Makes a rope of other ropes, where nothing is in doubt.
    pub(crate) fn edit<D: Disk>(
        &mut self,
        disk: &mut D,
        caller: u16,
        call: Call,
    ) -> Result<Reply, NoMemory>
        requires stood { (first : State) × (t0 : ℕ) × Stood first t0 (D.told disk.old) self.old }
        requires sure { self.old.doubt ≡ None }
        requires edits { IsTrue (is_edit call) }
        requires ropes { HasRopes call }
        requires room { vec_len self.old.history < vec_capacity self.old.history }
        ensures goes { Goes 6 (D.told disk.old) (D.told disk.new) }
        ensures calls { (first : State) (t0 : ℕ) → Stood first t0 (D.told disk.old) self.old → (D.told disk.new).calls ≤ (D.told disk.old).calls + change_calls (last_of first self.old) (tapes_of self.old) call }
        ensures cause { IfOk result (λ reply. IsFault reply → HasRisen (D.told disk.old).faults (D.told disk.new).faults) }
        ensures items { IfOk result (λ reply. self.new.history.items ≡ self.old.history.items ++ entry_of caller call reply (D.told disk.new).calls ∷ []) }
        ensures err { OnErr result (self.new.history.items ≡ self.old.history.items) }
        ensures still { OnErr result (disk.new ≡ disk.old) }
        ensures tapes { self.new.tapes ≡ self.old.tapes }
        ensures pool { self.new.lanes.frames.keeper.pool ≡ self.old.lanes.frames.keeper.pool }
        ensures frames { KeepsUsed self.old self.new }
        ensures stood { (first : State) (t0 : ℕ) → Stood first t0 (D.told disk.old) self.old → Stood first t0 (D.told disk.new) self.new }
    {
        match self.make(&call)? {
            Made::Refused(why) => Ok(self.refuse(disk, caller, call, why)),
            Made::Rope(pieces) => self.keep(disk, caller, call, pieces),
        }
    }
}
