//! The changes that calls make, made ready.

ghost use Rattle.std.specs.Prelude.{◌≡◌, ℕ, ◌≤◌, ◌^◌, ◌<◌, List, Some, IsTrue, IfOk, IfSome, IsNone, ◌↔◌, length};
ghost use Rattle.voice_model.specs.Samples.{Tagged, recording};
ghost use Rattle.voice_model.specs.State.{State, Durable};
ghost use Rattle.voice_model.specs.State.Effect.{Recorded};
ghost use Rattle.voice_model.specs.Changes.{effect_of};
ghost use Rattle.voice_model.specs.Valid.{IsState, InRange};
ghost use Rattle.edits.specs.Shown.{ShowsState, IsMade};
ghost use Rattle.voice_units.specs.declared.Piece.{Piece as PieceValue};
ghost use Rattle.row_calls.specs.Asked.{is_row_call};
ghost use Rattle.mirror_sender.specs.Told.{IsTold};
ghost use Rattle.mirror_sender.specs.Coming.{MayBeNextOf, IsMaybeNext, IsVoiceOf, HasTakes, bytes_taken, is_edit};
ghost use Rattle.mirror_sender.specs.Abreast.{Asks, IsWithin};

use crate::coming::Next;
use edits::{Made, concat, replace, sub};
use recovery::Parts;
use rope_algebra::Pieces;
use row_calls::{Asked, ask};
use std::alloc::Global;
use voice_model::{Call, Tapes};
use voice_units::{Graces, LAST_ROPE, MOST_SAMPLES, NoMemory, Piece, RopeId, Take};

// How many samples takes have; `None` exactly where they are too many for a rope.
fn samples_taken(tapes: &Tapes, takes: &[Take]) -> Option<u32>
    requires { HasTakes tapes.now takes.now }
    ensures some { IfSome result (λ n. n ≡ length (bytes_taken tapes.now takes.now)) }
    ensures most { IfSome result (λ n. n ≤ 2 ^ 30) }
    ensures none { IsNone result → 2 ^ 30 < length (bytes_taken tapes.now takes.now) }
{
    let mut total = 0u32;
    for take in takes {
        let samples = tapes.samples(*take);
        if samples.len() as u64 + u64::from(total) > MOST_SAMPLES {
            return None;
        }
        total += samples.len() as u32;
    }
    Some(total)
}

// A recording of these takes, which have so many samples.
fn voice_of(alloc: Global, id: RopeId, len: u32, takes: Vec<Take>) -> Result<Next, NoMemory>
    requires { len ≤ 2 ^ 30 }
    ensures { IfOk result (λ next. IsVoiceOf id len takes.items next) }
{
    let piece = Piece {
        file: id,
        from: 0,
        len,
    };
    let pieces = Pieces::one(alloc, piece)?;
    Ok(Next::Voice(pieces, takes))
}

/// A recording of these takes, unless they are too long or no number is left.
pub(crate) fn make_voice(
    alloc: Global,
    parts: &Parts,
    tapes: &Tapes,
    takes: Vec<Take>,
) -> Result<Option<Next>, NoMemory>
    requires { HasTakes tapes.now takes.items }
    ensures sound { (own : Durable Tagged) (spare : ℕ) → IsTold own parts.now → IfOk result (IsMaybeNext own tapes.now parts.now.form spare) }
    ensures made { (own : Durable Tagged) (spare : ℕ) → IsTold own parts.now → own.next ≤ 2 ^ 48 → length (bytes_taken tapes.now takes.items) ≤ 2 ^ 30 → IfOk result (λ next. MayBeNextOf own tapes.now spare next (Some (Recorded own.next (recording own.next (bytes_taken tapes.now takes.items))))) }
{
    if parts.next > LAST_ROPE {
        return Ok(None);
    }
    let Some(len) = samples_taken(tapes, &takes) else {
        return Ok(None);
    };
    let next = voice_of(alloc, RopeId(parts.next), len, takes)?;
    Ok(Some(next))
}

// What an edit makes.
fn edited(alloc: Global, parts: &Parts, call: &Call) -> Result<Made, NoMemory>
    requires edits { IsTrue (is_edit call.now) }
    requires within { (tapes : List (List ℕ)) × IsWithin tapes call.now }
    ensures { (held : List (List PieceValue)) (s : State) (tapes : List (List ℕ)) → ShowsState held parts.now s → IsState s → IfOk result (λ made. IsMade made s tapes call.now) }
{
    match call {
        Call::Concat(ropes) => concat(alloc, parts, ropes.items()),
        Call::Sub(rope, start, len) => sub(parts, *rope, *start, *len),
        Call::Replace(rope, start, len, with) => replace(parts, *rope, *start, *len, *with),
        _ => unreachable!(),
    }
}

/// The rope of an edit, unless it is refused.
pub(crate) fn make_edit(alloc: Global, parts: &Parts, call: &Call) -> Result<Option<Next>, NoMemory>
    requires edits { IsTrue (is_edit call.now) }
    requires within { (tapes : List (List ℕ)) × IsWithin tapes call.now }
    requires range { InRange call.now }
    ensures sound { (own : Durable Tagged) (tapes : List (List ℕ)) (spare : ℕ) → IsTold own parts.now → IfOk result (IsMaybeNext own tapes parts.now.form spare) }
    ensures made { (own : Durable Tagged) (tapes : List (List ℕ)) (s : State) (spare : ℕ) → IsTold own parts.now → Asks own parts.now tapes s call.now → IfOk result (λ next. MayBeNextOf own tapes spare next (effect_of s tapes call.now)) }
{
    let made = edited(alloc, parts, call)?;
    match made {
        Made::Rope(pieces) => Ok(Some(Next::Edit(pieces))),
        Made::Refused(_) => Ok(None),
    }
}

/// The change of a call on rows, on the moment or of a sweep, unless it is refused. The tables get room for it; they tell what they did, whatever the answer.
pub(crate) fn make_other(
    alloc: Global,
    parts: &mut Parts,
    graces: &Graces,
    call: &Call,
) -> Result<Option<Next>, NoMemory>
    requires rows { IsTrue (is_row_call call.now) }
    requires range { InRange call.now }
    requires told { (own : Durable Tagged) × IsTold own parts.old × (own.shape.graces ≡ graces.now) }
    ensures sound { (own : Durable Tagged) (tapes : List (List ℕ)) → IsTold own parts.old → own.shape.graces ≡ graces.now → IfOk result (IsMaybeNext own tapes parts.new.form parts.new.interests.spare) }
    ensures made { (own : Durable Tagged) (tapes : List (List ℕ)) (s : State) → IsTold own parts.old → own.shape.graces ≡ graces.now → Asks own parts.old tapes s call.now → IfOk result (λ next. MayBeNextOf own tapes parts.new.interests.spare next (effect_of s tapes call.now)) }
    ensures told { (own : Durable Tagged) → IsTold own parts.old → IsTold own parts.new }
    ensures form { parts.new.form ≡ parts.old.form }
{
    let asked = ask(alloc, parts, graces, call)?;
    match asked {
        Asked::Changes(ready, _, _) => Ok(Some(Next::Other(ready))),
        Asked::Refused(_) => Ok(None),
        Asked::Answered(_) => Ok(None),
    }
}
