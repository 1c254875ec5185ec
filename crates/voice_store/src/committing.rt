//! A change that is ready gets into the journal, and its call is entered.

ghost use Rattle.std.specs.Prelude.{◌≡◌, ◌+◌, ◌≤◌, ◌<◌, ◌++◌, ◌∷◌, [], ℕ, List, None, Some, vec_len, vec_capacity, IsTrue, IfOk, IsErrOf, OnOk};
ghost use Rattle.voice_units.specs.declared.Piece.{Piece};
ghost use Rattle.voice_outside.specs.Counters.{HasRisen};
ghost use Rattle.voice_outside.specs.Disk.{MakesAtMost, Now, Leaves};
ghost use Rattle.disk_areas.specs.Areas.{Journal as Reading};
ghost use Rattle.voice_journal.specs.Readings.{extent, SameElsewhere, Without};
ghost use Rattle.voice_journal.specs.Places.{landed};
ghost use Rattle.voice_journal.specs.Stands.{Stands, StandsInDoubt};
ghost use Rattle.voice_model.specs.Samples.{Tagged};
ghost use Rattle.voice_model.specs.State.{State, Effect};
ghost use Rattle.voice_model.specs.Replay.{Rebuilt, acted};
ghost use Rattle.voice_model.specs.declared.Change.{Change};
ghost use Rattle.running_tables.specs.Running.{Runs};
ghost use Rattle.checkpoint.specs.Compact.{ShowsUsed};
ghost use Rattle.next_ropes.specs.Addresses.{KeepsAddresses};
ghost use Rattle.next_changes.specs.Next.{IsNext};
ghost use Rattle.voice_blocks.specs.Holders.{Holders};
ghost use Rattle.playing.specs.Frames.{HoldsBytes};
ghost use Rattle.lane_calls.specs.Answers.{HaveForgotten};
ghost use Rattle.crash_laws.specs.Calls.{StaysWithin};
ghost use Rattle.voice_store.specs.Stood.{Stood, last_of};
ghost use Rattle.voice_store.specs.Trying.{IsBaseOf, Trying, IsPlan, CanGo, place_of, records_after, form_after};
ghost use Rattle.voice_store.specs.Going.{counted_as, IsGoing, IsGoingIn, IsCounted, closed_in};
ghost use Rattle.voice_store.specs.DeviceCalls.{plan_calls};
ghost use Rattle.voice_store.specs.Facts.{Goes, IsFault, entry_of};
ghost use Rattle.voice_store.specs.Residing.{KeepsUsed};

use crate::entering::enter;
use crate::going::{Going, count, give_up, tables_after};
use crate::inside::{Doubted, Inside};
use checkpoint::compact_parts;
use crash_laws::laws::foundations;
use next_changes::perform;
use recovery::Parts;
use std::alloc::Global;
use voice_journal::{Fault, Journal, Payloads};
use voice_model::{Call, Reply, Why};
use voice_outside::Disk;
use voice_units::{NoMemory, Shape};

/// A base of the state after a change, in its form.
#[derive(Drop)]
pub(crate) struct Base {
    pub(crate) form: u8,
    pub(crate) payloads: Payloads,
}

/// How a change gets into the journal, with all that it takes: behind the other records, or within a base, in the other area.
#[derive(Drop)]
pub(crate) enum Plan {
    Append,
    Switch(Base),
}

// A base of these tables: in form 2 where that fits an area, or is the form already.
fn base_of(alloc: Global, shape: &Shape, parts: &Parts) -> Result<Base, NoMemory>
    requires { (r : Rebuilt) × ShowsUsed parts.now r }
    ensures { (r : Rebuilt) → ShowsUsed parts.now r → r.shape ≡ shape.now → IfOk result (IsBaseOf shape.now r) }
{
    let payloads = compact_parts(alloc, 2, parts)?;
    if parts.form == 2 || payloads.size() <= u64::from(shape.area) - 17 {
        return Ok(Base { form: 2, payloads });
    }
    Ok(Base {
        form: 1,
        payloads: compact_parts(alloc, 1, parts)?,
    })
}

impl Plan {
    // The form of the area once the change has landed.
    fn form_after(&self, form: u8) -> u8
        ensures { result ≡ form_after self.now form }
    {
        match self {
            Plan::Append => form,
            Plan::Switch(base) => base.form,
        }
    }
}

// Puts a change into the journal, as it is planned.
fn put<D: Disk>(
    journal: &mut Journal,
    disk: &mut D,
    going: &Going,
    plan: &Plan,
) -> Result<(), Fault>
    requires size { extent journal.old.shape ≤ (D.told disk.old).size }
    requires can { CanGo journal.old going.now plan.now }
    requires sure { journal.old.doubt ≡ None }
    ensures made { MakesAtMost 6 (D.told disk.old) (D.told disk.new) result }
    ensures calls { (D.told disk.new).calls ≤ (D.told disk.old).calls + plan_calls plan.now }
    ensures ok_state { OnOk result (journal.new ≡ record journal.old { seat = landed journal.old.seat (place_of going.now plan.now); is_closed = journal.new.is_closed }) }
    ensures before_state { IsErrOf result Fault.Before → journal.new ≡ record journal.old { is_closed = journal.new.is_closed } }
    ensures doubt_state { IsErrOf result Fault.Doubt → journal.new ≡ record journal.old { doubt = Some (place_of going.now plan.now); is_closed = journal.new.is_closed } }
    ensures ok { IsTrue (D.told disk.old).honest → (r : Reading) → Stands journal.old (D.told disk.old) r
        → OnOk result (Stands journal.new (D.told disk.new) (records_after going.now plan.now r) × Now (D.told disk.new) (SameElsewhere r.shape (D.told disk.old).bytes)) }
    ensures before { IsTrue (D.told disk.old).honest → (r : Reading) → Stands journal.old (D.told disk.old) r
        → IsErrOf result Fault.Before → Stands journal.new (D.told disk.new) r × Leaves (D.told disk.old) (D.told disk.new) (Without r (D.told disk.old)) }
    ensures doubt { IsTrue (D.told disk.old).honest → (r : Reading) → Stands journal.old (D.told disk.old) r
        → IsErrOf result Fault.Doubt → StandsInDoubt journal.new (D.told disk.new) r (records_after going.now plan.now r) × Now (D.told disk.new) (SameElsewhere r.shape (D.told disk.old).bytes) }
    ensures crash { IsTrue (D.told disk.old).honest → StaysWithin (records_after going.now plan.now) journal.old (D.told disk.old) (D.told disk.new) }
    ensures bytes { IsTrue (D.told disk.old).honest → SameElsewhere journal.old.shape (D.told disk.old).bytes (D.told disk.new).bytes }
{
    match plan {
        Plan::Append => journal.append(disk, going.payload()),
        Plan::Switch(base) => journal.switch(disk, &base.payloads),
    }
}

impl Inside {
    /// The base that a switch writes as this change comes.
    pub(crate) fn base_after(&self, going: &Going) -> Result<Base, NoMemory>
        requires { IsGoingIn self.now.journal.shape self.now.parts going.now }
        ensures { (held : List (List Piece)) (takings more : List ℕ) (b : Rebuilt) (c : Change) → IsGoing held takings more self.now.parts b going.now c → b.shape ≡ self.now.journal.shape → IfOk result (IsBaseOf self.now.journal.shape (acted b c)) }
    {
        let shape = self.journal.shape();
        let after = tables_after(self.alloc, &self.parts, &shape, going)?;
        base_of(self.alloc, &shape, &after)
    }

    // The change is done, frames forget the blocks that nothing uses any longer, and the call is entered.
    fn done<D: Disk>(&mut self, disk: &D, caller: u16, call: Call, reply: Reply, going: Going)
        requires ready { IsGoingIn self.old.journal.shape self.old.parts going }
        requires room { vec_len self.old.history < vec_capacity self.old.history }
        ensures tables { (held : List (List Piece)) (takings more : List ℕ) (b : Rebuilt) (c : Change) → IsGoing held takings more self.old.parts b going c → b.shape ≡ self.old.journal.shape → Runs held [] more self.new.parts (acted b c) }
        ensures kept { (counted : Holders) × IsCounted going self.old.parts.blocks.holders counted × KeepsAddresses counted self.new.parts.blocks.holders }
        ensures recordings { self.new.recordings ≡ closed_in going self.old.recordings }
        ensures items { self.new.history.items ≡ self.old.history.items ++ entry_of caller call reply (D.told disk.now).calls ∷ [] }
        ensures lanes { HaveForgotten self.new.parts.ropes self.old.lanes self.new.lanes }
        ensures bytes { (bytes : ℕ → ℕ → List ℕ) → HoldsBytes bytes self.old.lanes.frames → HoldsBytes bytes self.new.lanes.frames }
        ensures rest { self.new ≡ record self.old { parts = self.new.parts; lanes = self.new.lanes; recordings = self.new.recordings; history = self.new.history } }
    {
        let shape = self.journal.shape();
        let next = count(&mut self.parts, &mut self.recordings, going);
        perform(&mut self.parts, &shape, next);
        self.lanes.forget_unused(&self.parts.ropes);
        enter(&mut self.history, caller, call, reply, disk.calls());
    }

    /// A device call failed before the change could be done: it is given back, and the call is entered.
    pub(crate) fn failed<D: Disk>(
        &mut self,
        disk: &D,
        caller: u16,
        call: Call,
        going: Going,
    ) -> Reply
        requires ready { IsGoingIn self.old.journal.shape self.old.parts going }
        requires room { vec_len self.old.history < vec_capacity self.old.history }
        ensures tables { (held : List (List Piece)) (takings more : List ℕ) (b : Rebuilt) (c : Change) → IsGoing held takings more self.old.parts b going c → Runs held [] takings self.new.parts b }
        ensures kept { KeepsAddresses self.old.parts.blocks.holders self.new.parts.blocks.holders }
        ensures items { self.new.history.items ≡ self.old.history.items ++ entry_of caller call (Reply.No Why.DiskFault) (D.told disk.now).calls ∷ [] }
        ensures rest { self.new ≡ record self.old { parts = self.new.parts; history = self.new.history } }
        ensures reply { result ≡ Reply.No Why.DiskFault }
    {
        give_up(&mut self.parts, going);
        enter(
            &mut self.history,
            caller,
            call,
            Reply::No(Why::DiskFault),
            disk.calls(),
        );
        Reply::No(Why::DiskFault)
    }

    // It is in doubt whether the change is done: it waits, with the form of the area once it has landed, and the call is entered. A recording that ends is closed.
    fn wait<D: Disk>(&mut self, disk: &D, caller: u16, call: Call, going: Going, form: u8) -> Reply
        requires ready { IsGoingIn self.old.journal.shape self.old.parts going }
        requires room { vec_len self.old.history < vec_capacity self.old.history }
        ensures items { self.new.history.items ≡ self.old.history.items ++ entry_of caller call (Reply.No Why.InDoubt) (D.told disk.now).calls ∷ [] }
        ensures next { (held : List (List Piece)) (takings more : List ℕ) (b : Rebuilt) (c : Change) → IsGoing held takings more self.old.parts b going c → IsNext held more self.new.parts b (counted_as going) c }
        ensures addresses { IsCounted going self.old.parts.blocks.holders self.new.parts.blocks.holders }
        ensures tables { self.new.parts ≡ record self.old.parts { blocks = self.new.parts.blocks } }
        ensures recordings { self.new.recordings ≡ closed_in going self.old.recordings }
        ensures rest { self.new ≡ record self.old { parts = self.new.parts; recordings = self.new.recordings; doubt = Some (record { next = counted_as going; form = form }); history = self.new.history } }
        ensures reply { result ≡ Reply.No Why.InDoubt }
    {
        let next = count(&mut self.parts, &mut self.recordings, going);
        self.doubt = Some(Doubted { next, form });
        enter(
            &mut self.history,
            caller,
            call,
            Reply::No(Why::InDoubt),
            disk.calls(),
        );
        Reply::No(Why::InDoubt)
    }

    /// Does a change that is ready, and enters its call. The reply comes twice: one is entered, and one is answered.
    pub(crate) fn commit<D: Disk>(
        &mut self,
        disk: &mut D,
        caller: u16,
        call: Call,
        replies: (Reply, Reply),
        going: Going,
        plan: Plan,
    ) -> Reply
        requires size { extent self.old.journal.shape ≤ (D.told disk.old).size }
        requires can { CanGo self.old.journal going plan }
        requires twice { replies.1 ≡ replies.0 }
        requires plain { ¬ IsFault replies.1 }
        requires sure { self.old.journal.doubt ≡ None }
        requires ready { IsGoingIn self.old.journal.shape self.old.parts going }
        requires room { vec_len self.old.history < vec_capacity self.old.history }
        ensures goes { Goes 6 (D.told disk.old) (D.told disk.new) }
        ensures calls { (D.told disk.new).calls ≤ (D.told disk.old).calls + plan_calls plan }
        ensures cause { IsFault result → HasRisen (D.told disk.old).faults (D.told disk.new).faults }
        ensures items { self.new.history.items ≡ self.old.history.items ++ entry_of caller call result (D.told disk.new).calls ∷ [] }
        ensures tapes { self.new.tapes ≡ self.old.tapes }
        ensures pool { self.new.lanes.frames.keeper.pool ≡ self.old.lanes.frames.keeper.pool }
        ensures frames { KeepsUsed self.old self.new }
        ensures stood { (first : State) (t0 : ℕ) (b : Rebuilt) (c : Change) (effect : Effect Tagged) → Trying first t0 (D.told disk.old) self.old b going c effect caller call replies.0 → IsPlan self.old.journal (last_of first self.old) effect (acted b c) plan → Stood first t0 (D.told disk.new) self.new }
    {
        foundations();
        let form = plan.form_after(self.parts.form);
        match put(&mut self.journal, disk, &going, &plan) {
            Ok(()) => {
                self.done(disk, caller, call, replies.0, going);
                self.parts.form = form;
                replies.1
            }
            Err(Fault::Before) => self.failed(disk, caller, call, going),
            Err(Fault::Doubt) => self.wait(disk, caller, call, going, form),
        }
    }
}
