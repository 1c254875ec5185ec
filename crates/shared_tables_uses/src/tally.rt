// A value at which callers take turns.
ghost use Rattle.std.specs.Prelude.{◌≡◌, ◌+◌, ◌≤◌, length};
ghost use Rattle.shared_tables_uses.specs.Turns.{Counts};

use turnstile::Stands;
use voice_model::{Call, Entry, Reply};
use voice_units::RopeId;

/// A number that callers count up, and the entries of those who did.
#[derive(Drop)]
pub struct Tally {
    pub start: u64,
    pub total: u64,
    pub history: Vec<Entry>,
}

impl Stands for Tally {
    ghost use Rattle.std.specs.Prelude.{◌≡◌, ◌+◌, length};

    type Origin = u64;

    ghost origin = { λ t. t.start };

    ghost history = { λ t. t.history.items };

    ghost stands = { λ t. t.total ≡ t.start + length t.history.items };
}

impl Tally {
    /// Counts one up for a caller, and answers how many entries came: none where memory or the numbers are at an end.
    pub fn count(&mut self, caller: u16) -> u32
        requires { self.old.total ≡ self.old.start + length self.old.history.items }
        ensures start { self.new.start ≡ self.old.start }
        ensures stands { self.new.total ≡ self.new.start + length self.new.history.items }
        ensures turn { Counts caller self.old.history.items self.new.history.items result }
    {
        let Some(total) = self.total.checked_add(1) else {
            return 0;
        };
        let entry = Entry {
            caller,
            call: Call::Length(RopeId(1)),
            reply: Reply::Number(total),
            ack: 0,
        };
        let Ok(()) = self.history.push(entry) else {
            return 0;
        };
        self.total = total;
        1
    }
}
