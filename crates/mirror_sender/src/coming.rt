//! A change that is ready to be done and sent.

ghost use Rattle.std.specs.Prelude.{◌≡◌, ℕ, ◌+◌, ◌≤◌, List};
ghost use Rattle.voice_model.specs.Samples.{Tagged};
ghost use Rattle.voice_model.specs.State.{Durable, Effect};
ghost use Rattle.mirror_sender.specs.Coming.{IsNextOf, body_size};

use ready_changes::ReadyChange;
use rope_algebra::Pieces;
use voice_units::Take;

/// A change that is ready: a rope of these pieces, a recording of these takes and its pieces, or a change of rows, of the moment or a sweep.
#[derive(Drop)]
pub enum Next {
    Edit(Pieces),
    Voice(Pieces, Vec<Take>),
    Other(ReadyChange),
}

impl Next {
    /// How many bytes the body of its packet takes.
    pub(crate) fn body_size(&self) -> u32
        requires { (own : Durable Tagged) × (tapes : List (List ℕ)) × (spare : ℕ) × (effect : Effect Tagged) × IsNextOf own tapes spare self.now effect }
        ensures { result ≡ body_size self.now }
    {
        match self {
            Next::Edit(pieces) => 11 + 16 * pieces.count(),
            Next::Voice(pieces, _) => 9 + pieces.length(),
            Next::Other(ready) => ready.payload.as_slice().len() as u32,
        }
    }
}
