//! The landing of a change in doubt.

ghost use Rattle.std.specs.Prelude.{◌≡◌, ◌+◌, ◌≤◌, ◌<◌, ℕ, List, [], None, true, false, IsTrue, vec_len, vec_capacity};
ghost use Rattle.voice_units.specs.declared.Piece.{Piece};
ghost use Rattle.voice_model.specs.State.{State};
ghost use Rattle.voice_model.specs.Replay.{Rebuilt, acted};
ghost use Rattle.voice_model.specs.declared.Change.{Change};
ghost use Rattle.voice_outside.specs.Counters.{HasRisen};
ghost use Rattle.running_tables.specs.Running.{Runs};
ghost use Rattle.next_ropes.specs.Addresses.{KeepsAddresses};
ghost use Rattle.next_changes.specs.Next.{IsNext};
ghost use Rattle.playing.specs.Frames.{HoldsBytes};
ghost use Rattle.lane_calls.specs.Answers.{HaveForgotten};
ghost use Rattle.voice_model.specs.Step.{landed};
ghost use Rattle.voice_store.specs.Stood.{Stood, in_form, last_of};
ghost use Rattle.voice_store.specs.Trying.{IsReadyIn};
ghost use Rattle.voice_store.specs.DeviceCalls.{landing_calls};
ghost use Rattle.voice_store.specs.Facts.{Goes};
ghost use Rattle.voice_store.specs.Turns.{AddsLandingAt};
ghost use Rattle.voice_store.specs.Residing.{KeepsUsed};

use crate::entering::enter;
use crate::inside::{Doubted, Inside};
use crash_laws::laws::foundations;
use next_changes::perform;
use voice_model::{Call, Reply};
use voice_outside::Disk;

impl Inside {
    // Does the change that has landed; frames forget the blocks that nothing uses any longer.
    fn take_in(&mut self, doubted: Doubted)
        requires { IsReadyIn self.old doubted.next }
        ensures tables { (held : List (List Piece)) (takings : List ℕ) (b : Rebuilt) (c : Change) → IsNext held takings self.old.parts b doubted.next c → b.shape ≡ self.old.journal.shape → Runs held [] takings (in_form b.form self.new.parts) (acted b c) }
        ensures kept { KeepsAddresses self.old.parts.blocks.holders self.new.parts.blocks.holders }
        ensures form { self.new.parts.form ≡ doubted.form }
        ensures lanes { HaveForgotten self.new.parts.ropes self.old.lanes self.new.lanes }
        ensures bytes { (bytes : ℕ → ℕ → List ℕ) → HoldsBytes bytes self.old.lanes.frames → HoldsBytes bytes self.new.lanes.frames }
        ensures rest { self.new ≡ record self.old { parts = self.new.parts; lanes = self.new.lanes } }
    {
        let shape = self.journal.shape();
        perform(&mut self.parts, &shape, doubted.next);
        self.lanes.forget_unused(&self.parts.ropes);
        self.parts.form = doubted.form;
    }

    /// Lands what is in doubt, if anything is. False exactly where a device call failed; then all is as before.
    pub(crate) fn settle<D: Disk>(&mut self, disk: &mut D) -> bool
        requires stood { (first : State) × (t0 : ℕ) × Stood first t0 (D.told disk.old) self.old }
        requires room { vec_len self.old.history < vec_capacity self.old.history }
        ensures goes { Goes 2 (D.told disk.old) (D.told disk.new) }
        ensures calls { (first : State) (t0 : ℕ) → Stood first t0 (D.told disk.old) self.old → (D.told disk.new).calls ≤ (D.told disk.old).calls + landing_calls (last_of first self.old) }
        ensures landed { result ≡ true → (first : State) (t0 : ℕ) → Stood first t0 (D.told disk.old) self.old → last_of first self.new ≡ landed (last_of first self.old) }
        ensures cause { result ≡ false → HasRisen (D.told disk.old).faults (D.told disk.new).faults }
        ensures sure { result ≡ true → self.new.doubt ≡ None }
        ensures failed { result ≡ false → self.new.history.items ≡ self.old.history.items }
        ensures history { AddsLandingAt (D.told disk.new).calls self.old.history.items self.new.history.items }
        ensures len { vec_len self.new.history ≤ vec_len self.old.history + 1 }
        ensures capacity { vec_capacity self.old.history ≤ vec_capacity self.new.history }
        ensures tapes { self.new.tapes ≡ self.old.tapes }
        ensures pool { self.new.lanes.frames.keeper.pool ≡ self.old.lanes.frames.keeper.pool }
        ensures frames { KeepsUsed self.old self.new }
        ensures stood { (first : State) (t0 : ℕ) → Stood first t0 (D.told disk.old) self.old → Stood first t0 (D.told disk.new) self.new }
    {
        if self.doubt.is_none() {
            return true;
        }
        foundations();
        if self.journal.land(disk).is_err() {
            return false;
        }
        let Some(doubted) = self.doubt.take() else {
            return true;
        };
        self.take_in(doubted);
        enter(
            &mut self.history,
            0,
            Call::Landed,
            Reply::Done,
            disk.calls(),
        );
        true
    }
}
