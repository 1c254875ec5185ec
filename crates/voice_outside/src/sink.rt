//! Where the text of a history goes.

ghost use Rattle.std.specs.Prelude.{ℕ, List, Option, Some, ◌≡◌, ◌≤◌, ◌<◌, take, length, ◌++◌, IfOk, OnErr, IfSome};
ghost use Rattle.voice_outside.specs.Counters.{HasRisen};
ghost use Rattle.voice_outside.specs.Causes.{HasCause};

use crate::errors::OutsideError;

/// A sink of bytes.
pub trait Sink {
    /// The bytes that it has taken, where it tells them.
    ghost contents: { Self → Option (List ℕ) };

    /// How often it has failed.
    ghost faults: { Self → ℕ };

    /// How often it took nothing of a piece that wasn't empty.
    ghost empty_takes: { Self → ℕ };

    /// Takes some of the bytes from the front, and says how many. After an error it has taken none.
    fn write(&mut self, bytes: &[u8]) -> Result<usize, OutsideError>
        ensures count { IfOk result (λ n. n ≤ length bytes.now) }
        ensures told { IfOk result (λ n. IfSome (contents self.old) (λ had. contents self.new ≡ Some (had ++ take n bytes.now))) }
        ensures err { OnErr result (contents self.new ≡ contents self.old) }
        ensures cause { HasCause (faults self.old) (faults self.new) result }
        ensures empty_later { empty_takes self.old ≤ empty_takes self.new }
        ensures empty { result ≡ Ok 0 → 0 < length bytes.now → HasRisen (empty_takes self.old) (empty_takes self.new) };
}
