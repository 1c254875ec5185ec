//! Ropes by their numbers: which is not live, and how long they are.

ghost use Rattle.std.specs.Prelude.{◌≡◌, ℕ, ◌≤◌, List, length};
ghost use Rattle.voice_units.specs.declared.Piece.{Piece};
ghost use Rattle.voice_units.specs.Spots.{samples_in};
ghost use Rattle.voice_model.specs.State.{State};
ghost use Rattle.voice_model.specs.Step.{if_unknown};
ghost use Rattle.edits.specs.Tables.{pieces_here, first_missing, length_joined};
ghost use Rattle.edits.specs.Shown.{ShowsState, IsLength};

use recovery::Parts;
use rope_table::RopeTable;
use voice_model::Why;
use voice_units::RopeId;

/// The refusal where a rope is not live: it names the first such one.
pub(crate) fn if_unknown(ropes: &RopeTable, ids: &[RopeId]) -> Option<Why>
    ensures { result ≡ if_unknown (first_missing ropes.now.ropes ids.now) }
{
    for id in ids {
        if ropes.get(*id).is_none() {
            return Some(Why::UnknownRope(*id));
        }
    }
    None
}

// The length of a rope, 0 where it is not live.
fn length_or_none(ropes: &RopeTable, id: RopeId) -> u32
    ensures { result ≡ samples_in (pieces_here ropes.now.ropes id) }
{
    let Some(pieces) = ropes.get(id) else {
        return 0;
    };
    pieces.length()
}

/// The length of ropes, one after another.
pub(crate) fn length_joined(ropes: &RopeTable, ids: &[RopeId]) -> u64
    requires { length ids.now ≤ 16 }
    ensures { result ≡ length_joined ropes.now.ropes ids.now }
{
    let mut total = 0;
    for id in ids {
        total += u64::from(length_or_none(ropes, *id));
    }
    total
}

/// How many samples a rope has; `None` exactly where it is not live.
pub fn length(parts: &Parts, rope: RopeId) -> Option<u32>
    ensures { (held : List (List Piece)) (s : State) (tapes : List (List ℕ)) → ShowsState held parts.now s → IsLength result s tapes rope }
{
    let Some(pieces) = parts.ropes.get(rope) else {
        return None;
    };
    Some(pieces.length())
}
