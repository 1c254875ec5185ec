//! The sample files of a script.

ghost use Rattle.std.specs.Prelude.{◌≡◌, ℕ, ◌+◌, ◌≤◌, ◌<◌, ◌↔◌, List, IsTrue, length, map};
ghost use Rattle.voice_model.specs.Tapes.{tape_of, taken, HasTake, whole_of};

use std::marker::Model;
use voice_units::Take;

// One sample more than the longest rope has: enough of a tape for its recording to be refused.
const MOST_TAKEN: u32 = (1 << 30) + 1;

/// The sample files of a run, which calls record from, numbered from 0. Contracts see the list of their bytes.
#[derive(Drop)]
pub struct Tapes {
    tapes: Vec<Vec<u8>>,
}

impl Model for Tapes {
    ghost use Rattle.std.specs.Prelude.{List, ℕ, map};

    ghost Value = { List (List ℕ) };

    ghost view = { λ t. map (λ tape. tape.items) t.tapes.items };
}

impl Tapes {
    /// Tapes, numbered from 0.
    pub fn new(tapes: Vec<Vec<u8>>) -> Tapes
        ensures { result ≡ map (λ tape. tape.items) tapes.items }
    {
        Tapes { tapes }
    }

    /// How many tapes there are.
    pub fn len(&self) -> usize
        ensures { result ≡ length self.now }
    {
        self.tapes.len()
    }

    /// Whether there is none.
    pub fn is_empty(&self) -> bool
        ensures { IsTrue result ↔ (length self.now ≡ 0) }
    {
        self.tapes.is_empty()
    }

    /// Whether the tape exists and the interval lies in it.
    pub fn has(&self, take: Take) -> bool
        ensures { IsTrue result ↔ HasTake self.now take }
    {
        let tape = take.tape as usize;
        if tape < self.tapes.len() {
            take.from as u64 + take.len as u64 <= self.tapes[tape].len() as u64
        } else {
            false
        }
    }

    /// The bytes of an interval.
    pub fn samples(&self, take: Take) -> &[u8]
        requires { HasTake self.now take }
        ensures { result.now ≡ taken self.now take }
    {
        let from = take.from as usize;
        &self.tapes[take.tape as usize][from..from + take.len as usize]
    }

    /// The whole tape; of one longer than 2^30 samples its first 2^30 + 1.
    pub fn whole(&self, tape: u32) -> Take
        requires { tape < length self.now }
        ensures { result ≡ whole_of self.now tape }
    {
        let len = self.tapes[tape as usize].len();
        let len = if len < MOST_TAKEN as usize {
            len as u32
        } else {
            MOST_TAKEN
        };
        Take { tape, from: 0, len }
    }
}
