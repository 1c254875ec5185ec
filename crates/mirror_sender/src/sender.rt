//! What has been sent of a history.

ghost use Rattle.std.specs.Prelude.{◌≡◌, ℕ, ◌≤◌, ◌^◌, [], List, OnOk, OnErr, is_some};
ghost use Rattle.voice_model.specs.State.{State};
ghost use Rattle.voice_model.specs.Step.{state_after, after, Legal};
ghost use Rattle.voice_model.specs.Replay.{Rebuilt};
ghost use Rattle.voice_model.specs.Valid.{InRange};
ghost use Rattle.row_calls.specs.Asked.{Tells};
ghost use Rattle.mirror_sender.specs.Sent.{sent, changes_of};
ghost use Rattle.mirror_sender.specs.Abreast.{IsSound, IsAbreast, IsWithin, AreWithin, Starts, MayNote, Follows, FollowsAll, FollowsSome};

use crate::coming::Next;
use crate::noting::{Course, course_by};
use crate::recordings::Added;
use recovery::Parts;
use std::alloc::Global;
use voice_model::{Entry, Tapes};
use voice_units::{NoMemory, Shape};

/// What has been sent of a history: the tables of its durable part, what was added to open recordings, the change in doubt, and the number of the next packet.
#[derive(Drop)]
pub struct Sender {
    pub(crate) alloc: Global,
    pub(crate) shape: Shape,
    pub(crate) parts: Parts,
    pub(crate) adds: Vec<Added>,
    pub(crate) doubt: Option<Next>,
    pub(crate) next: u64,
}

impl Sender {
    /// Follows a history from the state on that these tables show, as an opening rebuilds them. It takes no memory.
    pub fn new(alloc: Global, shape: &Shape, parts: Parts, first: u64) -> Sender
        requires parts { (b : Rebuilt) × Tells [] parts b × (b.shape ≡ shape.now) }
        requires least { 1 ≤ first }
        requires most { first ≤ 2 ^ 47 }
        ensures sound { (tapes : List (List ℕ)) → IsSound tapes result }
        ensures abreast { (tapes : List (List ℕ)) (s : State) → Starts shape.now parts s → IsAbreast tapes result s }
        ensures next { result.next ≡ first }
    {
        Sender {
            alloc,
            shape: *shape,
            parts,
            adds: Vec::new(alloc),
            doubt: None,
            next: first,
        }
    }

    /// The number of the next packet.
    pub fn next(&self) -> u64
        ensures { result ≡ self.now.next }
    {
        self.next
    }

    /// Whether a change is in doubt.
    pub fn in_doubt(&self) -> bool
        ensures { (tapes : List (List ℕ)) (s : State) → IsAbreast tapes self.now s → result ≡ is_some s.doubt }
    {
        self.doubt.is_some()
    }

    /// Follows an entry, and appends the packet of its change if it has one. After want of memory nothing is appended, and the sender follows what it followed. More than 2^48 packets count as want of memory.
    pub fn note(&mut self, tapes: &Tapes, entry: &Entry, out: &mut Vec<u8>) -> Result<(), NoMemory>
        requires sound { IsSound tapes.now self.old }
        requires range { InRange entry.now.call }
        requires within { IsWithin tapes.now entry.now.call }
        ensures sound { IsSound tapes.now self.new }
        ensures ok { (s : State) → MayNote tapes.now self.old s entry.now → OnOk result (Follows tapes.now self.old self.new (state_after s tapes.now entry.now) out.old.items out.new.items (sent s tapes.now entry.now)) }
        ensures err { (s : State) → IsAbreast tapes.now self.old s → OnErr result (IsAbreast tapes.now self.new s) }
        ensures unsent { OnErr result (out.new.items ≡ out.old.items) }
        ensures unmoved { OnErr result (self.new.next ≡ self.old.next) }
    {
        match course_by(&entry.reply) {
            Course::Without => Ok(()),
            Course::Doubted => self.hold(tapes, &entry.call),
            Course::Answered => self.answer(tapes, &entry.call, out),
        }
    }

    /// Follows a whole history, and appends the packets of its changes. After want of memory it follows the first entries, and the packets of their changes were appended. More than 2^48 packets count as want of memory.
    pub fn follow(
        &mut self,
        tapes: &Tapes,
        history: &[Entry],
        out: &mut Vec<u8>,
    ) -> Result<(), NoMemory>
        requires sound { IsSound tapes.now self.old }
        requires within { AreWithin tapes.now history.now }
        ensures sound { IsSound tapes.now self.new }
        ensures ok { (s : State) → IsAbreast tapes.now self.old s → Legal s tapes.now history.now → OnOk result (FollowsAll tapes.now self.old self.new (after s tapes.now history.now) out.old.items out.new.items (changes_of s tapes.now history.now)) }
        ensures err { (s : State) → IsAbreast tapes.now self.old s → Legal s tapes.now history.now → OnErr result (FollowsSome tapes.now self.old self.new s history.now out.old.items out.new.items) }
    {
        for entry in history {
            self.note(tapes, entry, out)?;
        }
        Ok(())
    }
}
