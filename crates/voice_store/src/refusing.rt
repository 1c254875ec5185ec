//! Calls that leave the state as it was: refusals, and the lengths of ropes.

ghost use Rattle.std.specs.Prelude.{◌≡◌, ◌<◌, ◌++◌, ◌∷◌, [], ℕ, Some, IsTrue, vec_len, vec_capacity};
ghost use Rattle.voice_model.specs.State.{State};
ghost use Rattle.voice_model.specs.Step.{refusal, nothing_to_land};
ghost use Rattle.edits.specs.Shown.{IsLength};
ghost use Rattle.voice_store.specs.Stood.{Stood, last_of, tapes_of};
ghost use Rattle.voice_store.specs.Facts.{IsFault, entry_of};
ghost use Rattle.voice_store.specs.Asking.{HasInterest};
ghost use Rattle.built_calls.specs.Built.{is_built};

use crate::inside::Inside;
use edits::length;
use voice_model::{Call, Class, Key, Note, Reply, Why};
use voice_outside::Disk;
use voice_units::RopeId;

impl Inside {
    /// Enters a call that is refused.
    pub(crate) fn refuse<D: Disk>(&mut self, disk: &D, caller: u16, call: Call, why: Why) -> Reply
        requires built { IsTrue (is_built call) }
        requires room { vec_len self.old.history < vec_capacity self.old.history }
        ensures items { self.new.history.items ≡ self.old.history.items ++ entry_of caller call (Reply.No why) (D.told disk.now).calls ∷ [] }
        ensures rest { self.new ≡ record self.old { history = self.new.history } }
        ensures reply { result ≡ Reply.No why }
        ensures stood { (first : State) (t0 : ℕ) → Stood first t0 (D.told disk.now) self.old → IsTrue (nothing_to_land (last_of first self.old) call) → refusal (last_of first self.old) (tapes_of self.old) call ≡ Some why → Stood first t0 (D.told disk.now) self.new }
    {
        let noted = why;
        self.note(disk, caller, call, Reply::No(noted));
        Reply::No(why)
    }

    // Enters the length of a rope.
    fn tell<D: Disk>(&mut self, disk: &D, caller: u16, rope: RopeId, len: u32) -> Reply
        requires room { vec_len self.old.history < vec_capacity self.old.history }
        ensures items { self.new.history.items ≡ self.old.history.items ++ entry_of caller (Call.Length rope) (Reply.Number len) (D.told disk.now).calls ∷ [] }
        ensures rest { self.new ≡ record self.old { history = self.new.history } }
        ensures reply { result ≡ Reply.Number len }
        ensures stood { (first : State) (t0 : ℕ) → Stood first t0 (D.told disk.now) self.old → IsLength (Some len) (last_of first self.old) (tapes_of self.old) rope → Stood first t0 (D.told disk.now) self.new }
    {
        let reply = Reply::Number(u64::from(len));
        self.note(disk, caller, Call::Length(rope), reply);
        Reply::Number(u64::from(len))
    }

    // Enters the rope and the note of an interest.
    fn tell_found<D: Disk>(
        &mut self,
        disk: &D,
        caller: u16,
        class: Class,
        key: Key,
        found: (RopeId, Note),
    ) -> Reply
        requires room { vec_len self.old.history < vec_capacity self.old.history }
        ensures items { self.new.history.items ≡ self.old.history.items ++ entry_of caller (Call.Lookup class key) (Reply.Found found.0 found.1) (D.told disk.now).calls ∷ [] }
        ensures rest { self.new ≡ record self.old { history = self.new.history } }
        ensures reply { result ≡ Reply.Found found.0 found.1 }
        ensures stood { (first : State) (t0 : ℕ) → Stood first t0 (D.told disk.now) self.old → HasInterest (last_of first self.old) class key found.0 found.1 → Stood first t0 (D.told disk.now) self.new }
    {
        let reply = Reply::Found(found.0, found.1);
        self.note(disk, caller, Call::Lookup(class, key), reply);
        Reply::Found(found.0, found.1)
    }

    /// Tells the rope and the note of an interest.
    pub(crate) fn tell_interest<D: Disk>(
        &mut self,
        disk: &D,
        caller: u16,
        class: Class,
        key: Key,
    ) -> Reply
        requires room { vec_len self.old.history < vec_capacity self.old.history }
        ensures items { self.new.history.items ≡ self.old.history.items ++ entry_of caller (Call.Lookup class key) result (D.told disk.now).calls ∷ [] }
        ensures rest { self.new ≡ record self.old { history = self.new.history } }
        ensures plain { ¬ IsFault result }
        ensures stood { (first : State) (t0 : ℕ) → Stood first t0 (D.told disk.now) self.old → Stood first t0 (D.told disk.now) self.new }
    {
        match self.parts.interests.find(class, &key).copied() {
            Some(row) => self.tell_found(disk, caller, class, key, (row.rope, row.note)),
            None => self.refuse(disk, caller, Call::Lookup(class, key), Why::NoInterest),
        }
    }

    /// Tells how long a rope is.
    pub(crate) fn tell_length<D: Disk>(&mut self, disk: &D, caller: u16, rope: RopeId) -> Reply
        requires room { vec_len self.old.history < vec_capacity self.old.history }
        ensures items { self.new.history.items ≡ self.old.history.items ++ entry_of caller (Call.Length rope) result (D.told disk.now).calls ∷ [] }
        ensures rest { self.new ≡ record self.old { history = self.new.history } }
        ensures plain { ¬ IsFault result }
        ensures stood { (first : State) (t0 : ℕ) → Stood first t0 (D.told disk.now) self.old → Stood first t0 (D.told disk.now) self.new }
    {
        match length(&self.parts, rope) {
            Some(len) => self.tell(disk, caller, rope, len),
            None => self.refuse(disk, caller, Call::Length(rope), Why::UnknownRope(rope)),
        }
    }
}
