//! Census: the rows of class Listed go that it does not name.

ghost use Rattle.std.specs.Prelude.{◌≡◌, ℕ, true, List, length, IfOk};
ghost use Rattle.voice_units.specs.declared.Piece.{Piece};
ghost use Rattle.voice_units.specs.Spots.{Spot};
ghost use Rattle.voice_model.specs.Samples.{Tagged};
ghost use Rattle.voice_model.specs.State.{State};
ghost use Rattle.voice_model.specs.Spelling.{spelling, keeps_grammar};
ghost use Rattle.voice_model.specs.Replay.{Rebuilt};
ghost use Rattle.voice_model.specs.declared.calls.Call.TheVariants as calls;
ghost use Rattle.voice_model.specs.declared.changes.Change.TheVariants as changes;
ghost use Rattle.row_calls.specs.Asked.{IsAsked, Gives, Tells};

use crate::{Asked, Growth};
use ready_changes::{base_grows_by_rows, ready_census};
use recovery::Parts;
use std::alloc::Global;
use voice_model::{KeyList, Reply};
use voice_units::NoMemory;

/// How many keys the change of a census names, by the bytes that spell it.
fn keys_named(payload: &[u8]) -> u64
    ensures { (keys : List (List ℕ)) → payload.now ≡ spelling (changes.Census keys) → keeps_grammar (changes.Census keys) ≡ true → result ≡ length keys }
{
    if payload.len() < 3 {
        return 0;
    }
    payload[1] as u64 * 256 + payload[2] as u64
}

/// Asks for the first 65,535 rows of class Listed to go that the census does not name. It changes nothing exactly where there is no such row. It goes over the rows of class Listed alone.
pub fn ask_census(alloc: Global, parts: &Parts, keys: &KeyList) -> Result<Asked, NoMemory>
    requires { (held : List (List Piece)) × (b : Rebuilt) × Tells held parts.now b }
    ensures { (held : List (List Piece)) (fill : Spot → Tagged) (b : Rebuilt) (s : State) (tapes : List (List ℕ)) → Gives held fill parts.now b s → IfOk result (IsAsked parts.now b s tapes (calls.Census keys.now)) }
{
    let fewer = ready_census(alloc, &parts.interests, keys)?;
    let Some(ready) = fewer else {
        return Ok(Asked::Answered(Reply::Number(0)));
    };
    base_grows_by_rows();
    let dropped = keys_named(ready.payload.as_slice());
    Ok(Asked::Changes(ready, Reply::Number(dropped), Growth::NotLonger))
}
