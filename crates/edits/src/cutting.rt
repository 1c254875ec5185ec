//! A part of a rope, and a rope with another in place of a part.

ghost use Rattle.std.specs.Prelude.{◌≡◌, ℕ, ◌+◌, ◌-◌, ◌≤◌, List, IfOk};
ghost use Rattle.voice_units.specs.declared.Piece.{Piece};
ghost use Rattle.voice_model.specs.State.{State};
ghost use Rattle.voice_model.specs.Valid.{IsState};
ghost use Rattle.voice_model.specs.declared.calls.Call.TheVariants as calls;
ghost use Rattle.edits.specs.Shown.{ShowsState, IsMade};

use super::made::{Made, if_long, if_many, if_outside, if_spent};
use recovery::Parts;
use voice_model::Why;
use voice_units::{NoMemory, RopeId};

/// The rope of the `len` samples of a rope from `start` on. It is refused where the rope is not live, where the interval ends behind it, or where no number is left, in this order.
pub fn sub(parts: &Parts, rope: RopeId, start: u32, len: u32) -> Result<Made, NoMemory>
    ensures { (held : List (List Piece)) (s : State) (tapes : List (List ℕ)) → ShowsState held parts.now s → IsState s → IfOk result (λ made. IsMade made s tapes (calls.Sub rope start len)) }
{
    let Some(whole) = parts.ropes.get(rope) else {
        return Ok(Made::Refused(Why::UnknownRope(rope)));
    };
    if let Some(why) = if_outside(start, len, whole.length()) {
        return Ok(Made::Refused(why));
    }
    // No rope of a valid state is so long.
    if let Some(why) = if_long(u64::from(len)) {
        return Ok(Made::Refused(why));
    }
    if let Some(why) = if_spent(parts.next) {
        return Ok(Made::Refused(why));
    }
    let pieces = whole.slice(start, len)?;
    Ok(Made::Rope(pieces))
}

// The length of a rope with another one in place of a part.
fn replaced_length(whole: u32, len: u32, other: u32) -> u64
    requires { len ≤ whole }
    ensures { result ≡ whole - len + other }
{
    u64::from(whole) - u64::from(len) + u64::from(other)
}

/// A rope with another one in place of the `len` samples from `start` on. It is refused where one of the two is not live, where the interval ends behind the first, where the new rope would have more than 2^30 samples or 4,096 pieces, or where no number is left, in this order.
pub fn replace(
    parts: &Parts,
    rope: RopeId,
    start: u32,
    len: u32,
    with: RopeId,
) -> Result<Made, NoMemory>
    ensures { (held : List (List Piece)) (s : State) (tapes : List (List ℕ)) → ShowsState held parts.now s → IsState s → IfOk result (λ made. IsMade made s tapes (calls.Replace rope start len with)) }
{
    let Some(whole) = parts.ropes.get(rope) else {
        return Ok(Made::Refused(Why::UnknownRope(rope)));
    };
    let Some(other) = parts.ropes.get(with) else {
        return Ok(Made::Refused(Why::UnknownRope(with)));
    };
    let length = whole.length();
    if let Some(why) = if_outside(start, len, length) {
        return Ok(Made::Refused(why));
    }
    if let Some(why) = if_long(replaced_length(length, len, other.length())) {
        return Ok(Made::Refused(why));
    }
    let pieces = whole.replace(start, len, other)?;
    if let Some(why) = if_many(&pieces) {
        return Ok(Made::Refused(why));
    }
    if let Some(why) = if_spent(parts.next) {
        return Ok(Made::Refused(why));
    }
    Ok(Made::Rope(pieces))
}
