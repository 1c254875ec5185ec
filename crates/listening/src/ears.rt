//! What can hear the samples of a rope.

ghost use Rattle.std.specs.Prelude.{◌≡◌, ◌+◌, ◌-◌, ◌^◌, ◌<◌, ◌≤◌, ℕ, List, ◌++◌, length, OnOk};
ghost use Rattle.silence_scan.specs.Scan.{HasScanned, fed_to};
ghost use Rattle.silence_scan.specs.Levels.{HasHeard};

use silence_scan::{Leveller, Scanner};
use voice_units::NoMemory;

/// What hears bytes that come in pieces.
pub(crate) trait Ear {
    /// It keeps what matters of these bytes.
    ghost knows: { List ℕ → Self → Type 0 };

    /// It can still take fewer bytes than so many.
    ghost limit: { Self → ℕ };

    /// Hears further bytes.
    fn hear(&mut self, bytes: &[u8]) -> Result<(), NoMemory>
        requires { length bytes.now < limit self.old }
        ensures known { OnOk result ((before : List ℕ) → knows before self.old → knows (before ++ bytes.now) self.new) }
        ensures limited { OnOk result (limit self.old ≤ limit self.new + length bytes.now) };
}

impl Ear for Scanner {
    ghost knows = { λ all s. HasScanned all s };

    ghost limit = { λ s. 2 ^ 30 + 1 - fed_to s };

    fn hear(&mut self, bytes: &[u8]) -> Result<(), NoMemory> {
        self.feed(bytes)
    }
}

impl Ear for Leveller {
    ghost knows = { λ all l. HasHeard all l };

    ghost limit = { λ _. 2 ^ 30 + 1 };

    fn hear(&mut self, bytes: &[u8]) -> Result<(), NoMemory> {
        self.feed(bytes)
    }
}
