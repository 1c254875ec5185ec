//! Entries are followed: what was answered, and what is in doubt.

ghost use Rattle.std.specs.Prelude.{◌≡◌, ℕ, ◌+◌, ◌≤◌, ◌^◌, ◌++◌, List, IsTrue, IfOk, OnOk, OnErr, None, length, vec_capacity};
ghost use Rattle.voice_model.specs.Samples.{Tagged};
ghost use Rattle.voice_model.specs.State.{State, Durable, Effect};
ghost use Rattle.voice_model.specs.Changes.{effect_of, changed, is_changing};
ghost use Rattle.voice_model.specs.Step.{answered};
ghost use Rattle.voice_model.specs.Valid.{InRange};
ghost use Rattle.voice_model.specs.Tapes.{HasTake};
ghost use Rattle.voice_model.specs.declared.calls.Call.TheVariants as calls;
ghost use Rattle.row_calls.specs.Asked.{is_row_call};
ghost use Rattle.mirror_packets.specs.Packets.{packet_spelling};
ghost use Rattle.mirror_packets.specs.Effects.{packet_of_effect};
ghost use Rattle.mirror_sender.specs.Sent.{answered_effect};
ghost use Rattle.mirror_sender.specs.Told.{IsTold};
ghost use Rattle.mirror_sender.specs.Coming.{MayBeNextOf, IsMaybeNext, HasRoom, body_size, CanBeDone, is_edit};
ghost use Rattle.mirror_sender.specs.Abreast.{IsSound, IsSoundBy, IsAbreast, IsWithin, MayChange, MayAnswer, MayHold, HasChanged, Follows, course_of, doubted, is_quiet, only_changes, IsLeft};

use crate::coming::Next;
use crate::making::{make_edit, make_other, make_voice};
use crate::performing::{make_room, perform};
use crate::putting::append_packet;
use crate::recordings::{Added, others_than, takes_on};
use crate::sender::Sender;
use std::alloc::Global;
use voice_model::{Call, Reply, Tapes, Why};
use voice_units::{Lane, NoMemory, Take};

/// How a call went.
#[derive(Clone, Copy, Debug, PartialEq, Eq)]
pub enum Course {
    /// It was refused, or a device call failed before its change counted.
    Without,
    /// Its change is in doubt.
    Doubted,
    /// It was answered.
    Answered,
}

/// How a call went, by its reply.
pub(crate) fn course_by(reply: &Reply) -> Course
    ensures { result ≡ course_of reply.now }
{
    match reply {
        Reply::No(Why::InDoubt) => Course::Doubted,
        Reply::No(_) => Course::Without,
        _ => Course::Answered,
    }
}

// Whether a call makes a rope of others.
fn is_edit(call: &Call) -> bool
    ensures { result ≡ is_edit call.now }
{
    matches!(call, Call::Concat(..) | Call::Sub(..) | Call::Replace(..))
}

// Whether a call is one on rows, on the moment or a sweep.
fn is_row_call(call: &Call) -> bool
    ensures { result ≡ is_row_call call.now }
{
    matches!(
        call,
        Call::Retain(..) | Call::Forget(..) | Call::Census(..) | Call::Advance(..) | Call::Sweep(..)
    )
}

// Whether a call can make a change, and does nothing else.
fn only_changes(call: &Call) -> bool
    ensures { result ≡ only_changes call.now }
{
    matches!(
        call,
        Call::Record(..)
            | Call::Concat(..)
            | Call::Sub(..)
            | Call::Replace(..)
            | Call::Retain(..)
            | Call::Forget(..)
            | Call::Census(..)
            | Call::Advance(..)
            | Call::Sweep(..)
    )
}

// Whether nothing is followed of a call.
fn is_quiet(call: &Call) -> bool
    ensures { result ≡ is_quiet call.now }
{
    matches!(
        call,
        Call::Length(..)
            | Call::Describe(..)
            | Call::Levels(..)
            | Call::Lookup(..)
            | Call::Play(..)
            | Call::Feed(..)
            | Call::Stop(..)
            | Call::Begin(..)
    )
}

// Whether a call can make a change.
fn is_changing(call: &Call) -> bool
    ensures { result ≡ is_changing call.now }
{
    if matches!(call, Call::End(..)) {
        return true;
    }
    only_changes(call)
}

impl Sender {
    // The change of a call, made ready, unless the call is refused.
    fn make(&mut self, tapes: &Tapes, call: &Call) -> Result<Option<Next>, NoMemory>
        requires kind { IsTrue (is_changing call.now) }
        requires range { InRange call.now }
        requires within { IsWithin tapes.now call.now }
        requires sound { IsSound tapes.now self.old }
        ensures sound { (own : Durable Tagged) → IsSoundBy own tapes.now self.old → IfOk result (IsMaybeNext own tapes.now self.new.parts.form self.new.parts.interests.spare) }
        ensures made { (own : Durable Tagged) (s : State) → MayChange own tapes.now self.old s call.now → IfOk result (λ next. MayBeNextOf own tapes.now self.new.parts.interests.spare next (effect_of s tapes.now call.now)) }
        ensures told { (own : Durable Tagged) → IsTold own self.old.parts → IsTold own self.new.parts }
        ensures form { self.new.parts.form ≡ self.old.parts.form }
        ensures rest { self.new ≡ record self.old { parts = self.new.parts } }
    {
        if is_edit(call) {
            return make_edit(self.alloc, &self.parts, call);
        }
        if is_row_call(call) {
            let graces = self.shape.graces;
            return make_other(self.alloc, &mut self.parts, &graces, call);
        }
        match call {
            Call::Record(take) => {
                let takes = vec![in self.alloc; *take]?;
                make_voice(self.alloc, &self.parts, tapes, takes)
            }
            Call::End(lane) => {
                let takes = takes_on(self.alloc, &self.adds, *lane)?;
                make_voice(self.alloc, &self.parts, tapes, takes)
            }
            _ => unreachable!(),
        }
    }

    // A change that is ready is done and sent, for which there is room.
    fn send(&mut self, tapes: &Tapes, next: Next, out: &mut Vec<u8>)
        requires can { (own : Durable Tagged) × (effect : Effect Tagged) × CanBeDone own tapes.now self.old.shape self.old.parts next effect }
        requires room { HasRoom self.old.parts next }
        requires spare { length out.old.items + (12 + body_size next) ≤ vec_capacity out.old }
        requires number { self.old.next ≤ 2 ^ 48 }
        ensures bytes { (own : Durable Tagged) (effect : Effect Tagged) → CanBeDone own tapes.now self.old.shape self.old.parts next effect → out.new.items ≡ out.old.items ++ packet_spelling (packet_of_effect self.old.next effect) }
        ensures told { (own : Durable Tagged) (effect : Effect Tagged) → CanBeDone own tapes.now self.old.shape self.old.parts next effect → IsTold (changed self.old.parts.form own effect) self.new.parts }
        ensures form { self.new.parts.form ≡ self.old.parts.form }
        ensures rest { self.new ≡ record self.old { parts = self.new.parts; next = self.old.next + 1 } }
    {
        append_packet(out, self.next, tapes, self.parts.next, &next);
        perform(&mut self.parts, &self.shape, next);
        self.next += 1;
    }

    // The change of a call is done and sent, unless the call is refused.
    fn change(&mut self, tapes: &Tapes, call: &Call, out: &mut Vec<u8>) -> Result<(), NoMemory>
        requires kind { IsTrue (is_changing call.now) }
        requires range { InRange call.now }
        requires within { IsWithin tapes.now call.now }
        requires sound { IsSound tapes.now self.old }
        requires sure { self.old.doubt ≡ None }
        ensures sound { IsSound tapes.now self.new }
        ensures ok { (own : Durable Tagged) (s : State) → MayChange own tapes.now self.old s call.now → OnOk result (HasChanged own self.old self.new out.old.items out.new.items (effect_of s tapes.now call.now)) }
        ensures err { (own : Durable Tagged) → IsTold own self.old.parts → OnErr result (IsTold own self.new.parts × (self.new.parts.form ≡ self.old.parts.form)) }
        ensures unsent { OnErr result (out.new.items ≡ out.old.items) }
        ensures unmoved { OnErr result (self.new.next ≡ self.old.next) }
        ensures rest { self.new ≡ record self.old { parts = self.new.parts; next = self.new.next } }
    {
        let made = self.make(tapes, call)?;
        let Some(next) = made else {
            return Ok(());
        };
        make_room(&mut self.parts, &next, self.next, out)?;
        self.send(tapes, next, out);
        Ok(())
    }

    // The change in doubt is done and sent.
    fn land(&mut self, tapes: &Tapes, out: &mut Vec<u8>) -> Result<(), NoMemory>
        requires { IsSound tapes.now self.old }
        ensures sound { IsSound tapes.now self.new }
        ensures ok { (s : State) → MayAnswer tapes.now self.old s calls.Landed → OnOk result (Follows tapes.now self.old self.new (answered s tapes.now calls.Landed) out.old.items out.new.items (answered_effect s tapes.now calls.Landed)) }
        ensures err { (s : State) → IsAbreast tapes.now self.old s → OnErr result (IsAbreast tapes.now self.new s) }
        ensures unsent { OnErr result (out.new.items ≡ out.old.items) }
        ensures unmoved { OnErr result (self.new.next ≡ self.old.next) }
    {
        let Some(next) = &self.doubt else {
            return Ok(());
        };
        make_room(&mut self.parts, next, self.next, out)?;
        let Some(next) = self.doubt.take() else {
            return Ok(());
        };
        self.send(tapes, next, out);
        Ok(())
    }

    // A call is answered that can make a change, and does nothing else.
    fn alter(&mut self, tapes: &Tapes, call: &Call, out: &mut Vec<u8>) -> Result<(), NoMemory>
        requires kind { IsTrue (only_changes call.now) }
        requires range { InRange call.now }
        requires within { IsWithin tapes.now call.now }
        requires sound { IsSound tapes.now self.old }
        ensures sound { IsSound tapes.now self.new }
        ensures ok { (s : State) → MayAnswer tapes.now self.old s call.now → OnOk result (Follows tapes.now self.old self.new (answered s tapes.now call.now) out.old.items out.new.items (answered_effect s tapes.now call.now)) }
        ensures err { (s : State) → IsAbreast tapes.now self.old s → OnErr result (IsAbreast tapes.now self.new s) }
        ensures unsent { OnErr result (out.new.items ≡ out.old.items) }
        ensures unmoved { OnErr result (self.new.next ≡ self.old.next) }
    {
        if self.doubt.is_some() {
            return Ok(());
        }
        self.change(tapes, call, out)
    }

    // A take is added to the open recording of a lane.
    fn add(
        &mut self,
        tapes: &Tapes,
        lane: Lane,
        take: Take,
        out: &mut Vec<u8>,
    ) -> Result<(), NoMemory>
        requires take { HasTake tapes.now take }
        requires sound { IsSound tapes.now self.old }
        ensures sound { IsSound tapes.now self.new }
        ensures ok { (s : State) → MayAnswer tapes.now self.old s (calls.Add lane take) → OnOk result (Follows tapes.now self.old self.new (answered s tapes.now (calls.Add lane take)) out.old.items out.new.items (answered_effect s tapes.now (calls.Add lane take))) }
        ensures err { (s : State) → IsAbreast tapes.now self.old s → OnErr result (IsAbreast tapes.now self.new s) }
        ensures unsent { OnErr result (out.new.items ≡ out.old.items) }
        ensures unmoved { OnErr result (self.new.next ≡ self.old.next) }
    {
        self.adds.push(Added { lane, take })?;
        Ok(())
    }

    // The open recording of a lane becomes a rope.
    fn end(
        &mut self,
        tapes: &Tapes,
        lane: Lane,
        call: &Call,
        out: &mut Vec<u8>,
    ) -> Result<(), NoMemory>
        requires call { call.now ≡ calls.End lane }
        requires sound { IsSound tapes.now self.old }
        ensures sound { IsSound tapes.now self.new }
        ensures ok { (s : State) → MayAnswer tapes.now self.old s (calls.End lane) → OnOk result (Follows tapes.now self.old self.new (answered s tapes.now (calls.End lane)) out.old.items out.new.items (answered_effect s tapes.now (calls.End lane))) }
        ensures err { (s : State) → IsAbreast tapes.now self.old s → OnErr result (IsAbreast tapes.now self.new s) }
        ensures unsent { OnErr result (out.new.items ≡ out.old.items) }
        ensures unmoved { OnErr result (self.new.next ≡ self.old.next) }
    {
        if self.doubt.is_some() {
            return Ok(());
        }
        let others = others_than(self.alloc, &self.adds, lane)?;
        self.change(tapes, call, out)?;
        self.adds = others;
        Ok(())
    }

    /// A call was answered.
    pub(crate) fn answer(
        &mut self,
        tapes: &Tapes,
        call: &Call,
        out: &mut Vec<u8>,
    ) -> Result<(), NoMemory>
        requires range { InRange call.now }
        requires within { IsWithin tapes.now call.now }
        requires sound { IsSound tapes.now self.old }
        ensures sound { IsSound tapes.now self.new }
        ensures ok { (s : State) → MayAnswer tapes.now self.old s call.now → OnOk result (Follows tapes.now self.old self.new (answered s tapes.now call.now) out.old.items out.new.items (answered_effect s tapes.now call.now)) }
        ensures err { (s : State) → IsAbreast tapes.now self.old s → OnErr result (IsAbreast tapes.now self.new s) }
        ensures unsent { OnErr result (out.new.items ≡ out.old.items) }
        ensures unmoved { OnErr result (self.new.next ≡ self.old.next) }
    {
        if is_quiet(call) {
            return Ok(());
        }
        if only_changes(call) {
            return self.alter(tapes, call, out);
        }
        match call {
            Call::Landed => self.land(tapes, out),
            Call::Add(lane, take) => self.add(tapes, *lane, *take, out),
            Call::End(lane) => self.end(tapes, *lane, call, out),
            _ => unreachable!(),
        }
    }

    // What is left of what was added once a call's change is in doubt: an End closes its recording.
    fn left(&self, call: &Call) -> Result<Option<Vec<Added>>, NoMemory>
        ensures { IfOk result (IsLeft self.now.adds.items call.now) }
    {
        let Call::End(lane) = call else {
            return Ok(None);
        };
        let others = others_than(self.alloc, &self.adds, *lane)?;
        Ok(Some(others))
    }

    // The change of a call is in doubt, where nothing is yet.
    fn hold_first(&mut self, tapes: &Tapes, call: &Call) -> Result<(), NoMemory>
        requires kind { IsTrue (is_changing call.now) }
        requires range { InRange call.now }
        requires within { IsWithin tapes.now call.now }
        requires sound { IsSound tapes.now self.old }
        requires sure { self.old.doubt ≡ None }
        ensures sound { IsSound tapes.now self.new }
        ensures ok { (s : State) → MayHold tapes.now self.old s call.now → OnOk result (IsAbreast tapes.now self.new (doubted s tapes.now call.now)) }
        ensures err { (s : State) → IsAbreast tapes.now self.old s → OnErr result (IsAbreast tapes.now self.new s) }
        ensures next { self.new.next ≡ self.old.next }
    {
        let left = self.left(call)?;
        let made = self.make(tapes, call)?;
        self.doubt = made;
        let Some(others) = left else {
            return Ok(());
        };
        self.adds = others;
        Ok(())
    }

    /// The change of a call is in doubt.
    pub(crate) fn hold(&mut self, tapes: &Tapes, call: &Call) -> Result<(), NoMemory>
        requires range { InRange call.now }
        requires within { IsWithin tapes.now call.now }
        requires sound { IsSound tapes.now self.old }
        ensures sound { IsSound tapes.now self.new }
        ensures ok { (s : State) → MayHold tapes.now self.old s call.now → OnOk result (IsAbreast tapes.now self.new (doubted s tapes.now call.now)) }
        ensures err { (s : State) → IsAbreast tapes.now self.old s → OnErr result (IsAbreast tapes.now self.new s) }
        ensures next { self.new.next ≡ self.old.next }
    {
        if self.doubt.is_some() {
            return Ok(());
        }
        if !is_changing(call) {
            return Ok(());
        }
        self.hold_first(tapes, call)
    }
}
