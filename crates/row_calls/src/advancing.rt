//! Advance: the moment comes.

ghost use Rattle.std.specs.Prelude.{◌≡◌, ℕ, List};
ghost use Rattle.voice_units.specs.declared.Piece.{Piece};
ghost use Rattle.voice_units.specs.Spots.{Spot};
ghost use Rattle.voice_model.specs.Samples.{Tagged};
ghost use Rattle.voice_model.specs.State.{State};
ghost use Rattle.voice_model.specs.Replay.{Rebuilt};
ghost use Rattle.voice_model.specs.declared.calls.Call.TheVariants as calls;
ghost use Rattle.row_calls.specs.Asked.{IsAsked, IsBrief, Gives};

use crate::{Asked, Growth};
use ready_changes::{base_grows_by_rows, ready_advance};
use recovery::Parts;
use voice_model::Reply;
use voice_units::Moment;

/// Asks for the moment to come. It changes nothing exactly where it is not later. It takes no memory.
pub fn ask_advance(parts: &Parts, moment: Moment) -> Asked
    ensures asked { (held : List (List Piece)) (fill : Spot → Tagged) (b : Rebuilt) (s : State) (tapes : List (List ℕ)) → Gives held fill parts.now b s → IsAsked parts.now b s tapes (calls.Advance moment) result }
    ensures brief { IsBrief result }
{
    base_grows_by_rows();
    // The clause of `number` says what a moment is at most.
    let _number = moment.number();
    let later = ready_advance(parts.moment, moment);
    let Some(ready) = later else {
        return Asked::Answered(Reply::Done);
    };
    Asked::Changes(ready, Reply::Done, Growth::NotLonger)
}
