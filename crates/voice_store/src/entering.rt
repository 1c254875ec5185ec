//! Entries of the history.

ghost use Rattle.std.specs.Prelude.{◌≡◌, ◌+◌, ◌≤◌, ◌<◌, ◌++◌, ◌∷◌, [], ℕ, vec_len, vec_capacity, IsOk, OnOk, OnErr};
ghost use Rattle.voice_model.specs.State.{State};
ghost use Rattle.voice_store.specs.Stood.{Stood, last_of, tapes_of};
ghost use Rattle.voice_store.specs.Facts.{Stays, entry_of};

use crate::inside::Inside;
use voice_model::{Call, Entry, Reply};
use voice_outside::Disk;
use voice_units::NoMemory;

/// Enters a call, where there is room.
pub(crate) fn enter(history: &mut Vec<Entry>, caller: u16, call: Call, reply: Reply, ack: u64)
    requires { vec_len history.old < vec_capacity history.old }
    ensures items { history.new.items ≡ history.old.items ++ entry_of caller call reply ack ∷ [] }
    ensures len { vec_len history.new ≡ vec_len history.old + 1 }
    ensures capacity { vec_capacity history.old ≤ vec_capacity history.new }
{
    let _ = history.push(Entry {
        caller,
        call,
        reply,
        ack,
    });
}

impl Inside {
    /// Makes room for so many entries.
    pub(crate) fn reserve(&mut self, n: u32) -> Result<(), NoMemory>
        ensures ok { OnOk result (vec_len self.new.history + n ≤ vec_capacity self.new.history) }
        ensures spare { vec_len self.old.history + n ≤ vec_capacity self.old.history → IsOk result }
        ensures items { self.new.history.items ≡ self.old.history.items }
        ensures rest { self.new ≡ record self.old { history = self.new.history } }
    {
        self.history.reserve(n as usize)?;
        Ok(())
    }

    /// Enters a call that leaves the state as it was.
    pub(crate) fn note<D: Disk>(&mut self, disk: &D, caller: u16, call: Call, reply: Reply)
        requires { vec_len self.old.history < vec_capacity self.old.history }
        ensures items { self.new.history.items ≡ self.old.history.items ++ entry_of caller call reply (D.told disk.now).calls ∷ [] }
        ensures rest { self.new ≡ record self.old { history = self.new.history } }
        ensures stood { (first : State) (t0 : ℕ) → Stood first t0 (D.told disk.now) self.old → Stays (D.told disk.now).honest (last_of first self.old) (tapes_of self.old) caller call reply → Stood first t0 (D.told disk.now) self.new }
    {
        enter(&mut self.history, caller, call, reply, disk.calls());
    }
}
