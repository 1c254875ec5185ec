//! Forget: the row of a class and key goes.

ghost use Rattle.std.specs.Prelude.{◌≡◌, ℕ, List};
ghost use Rattle.voice_units.specs.declared.Piece.{Piece};
ghost use Rattle.voice_units.specs.Spots.{Spot};
ghost use Rattle.voice_model.specs.Samples.{Tagged};
ghost use Rattle.voice_model.specs.State.{State};
ghost use Rattle.voice_model.specs.Replay.{Rebuilt};
ghost use Rattle.voice_model.specs.declared.calls.Call.TheVariants as calls;
ghost use Rattle.row_calls.specs.Asked.{IsAsked, IsBrief, Gives};

use crate::{Asked, Growth};
use ready_changes::{base_grows_by_rows, ready_forget};
use recovery::Parts;
use voice_model::{Class, Key, Reply, Why};

/// Asks for a row to go. It is refused where no row has that class and key. It takes no memory.
pub fn ask_forget(parts: &Parts, class: Class, key: &Key) -> Asked
    ensures asked { (held : List (List Piece)) (fill : Spot → Tagged) (b : Rebuilt) (s : State) (tapes : List (List ℕ)) → Gives held fill parts.now b s → IsAsked parts.now b s tapes (calls.Forget class key.now) result }
    ensures brief { IsBrief result }
{
    // The clauses of `bytes` say how long a key is.
    let _bytes = key.bytes();
    let Some(_row) = parts.interests.find(class, key) else {
        return Asked::Refused(Why::NoInterest);
    };
    base_grows_by_rows();
    let ready = ready_forget(class, key);
    Asked::Changes(ready, Reply::Done, Growth::NotLonger)
}
