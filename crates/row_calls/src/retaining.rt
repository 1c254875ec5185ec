//! Retain: a row comes.

ghost use Rattle.std.specs.Prelude.{◌≡◌, ℕ, ◌+◌, ◌≤◌, List, true, length, nat_le, IfOk};
ghost use Rattle.voice_units.specs.declared.Piece.{Piece};
ghost use Rattle.voice_units.specs.declared.Piece.{Piece};
ghost use Rattle.voice_units.specs.Spots.{Spot};
ghost use Rattle.voice_model.specs.Samples.{Tagged};
ghost use Rattle.disk_areas.specs.Numbers.{spelled_number};
ghost use Rattle.voice_model.specs.State.{State, Durable};
ghost use Rattle.voice_model.specs.Spelling.{is_key};
ghost use Rattle.voice_model.specs.Step.{first_of, is_bad_note};
ghost use Rattle.voice_model.specs.Replay.{Rebuilt};
ghost use Rattle.voice_model.specs.declared.calls.Call.TheVariants as calls;
ghost use Rattle.recovery.specs.Shown.{Shows};
ghost use Rattle.edits.specs.Shown.{ShowsState, before_journal};
ghost use Rattle.row_calls.specs.Asked.{IsAsked, Gives, Tells};

use crate::{Asked, Growth};
use ready_changes::{base_grows_by_rows, ready_retain};
use recovery::Parts;
use std::alloc::Global;
use voice_model::{Class, Reply, Row, Why};
use voice_units::{Moment, NoMemory};

/// Whether the number that bytes spell, the first byte highest, is at most a moment's.
fn spells_at_most(bytes: &[u8], moment: Moment) -> bool
    ensures { result ≡ nat_le (spelled_number bytes.now) moment }
{
    let most = moment.number();
    let mut number = 0u64;
    for byte in bytes {
        number = number * 256 + u64::from(*byte);
        if number > most {
            return false;
        }
    }
    true
}

/// Whether the note of a row is no moment of 8 bytes, where the class wants one.
fn is_bad_note(row: &Row) -> bool
    ensures { result ≡ is_bad_note row.now.class row.now.note }
{
    if !matches!(row.class, Class::Until) {
        return false;
    }
    if row.note.bytes().len() != 8 {
        return true;
    }
    !spells_at_most(row.note.bytes(), Moment(1 << 40))
}

/// Why a row may not come, the journal's room apart: its rope is not live, its note is bad, or its class and key stand, in this order.
fn refused(parts: &Parts, row: &Row) -> Option<Why>
    ensures { (held : List (List Piece)) (s : State) (tapes : List (List ℕ)) → ShowsState held parts.now s → result ≡ first_of (before_journal s tapes (calls.Retain row.now.class row.now.key row.now.rope row.now.note)) }
{
    let Some(_pieces) = parts.ropes.get(row.rope) else {
        return Some(Why::UnknownRope(row.rope));
    };
    if is_bad_note(row) {
        return Some(Why::BadData);
    }
    let Some(other) = parts.interests.find(row.class, &row.key) else {
        return None;
    };
    Some(Why::KeyTaken(other.rope))
}

/// By how much the base grows by a row.
fn size(row: &Row) -> u64
    ensures size { result ≡ 17 + length row.now.key + length row.now.note }
    ensures key { is_key row.now.key ≡ true }
    ensures note { length row.now.note ≤ 128 }
{
    17 + row.key.bytes().len() as u64 + row.note.bytes().len() as u64
}

/// Asks for a row to come. It is refused where its rope is not live, where the note of class Until is no moment of 8 bytes, or where its class and key stand, in this order. The tables get room for it. More than 2^32 - 2 rows count as want of memory.
pub fn ask_retain(alloc: Global, parts: &mut Parts, row: Row) -> Result<Asked, NoMemory>
    requires { (held : List (List Piece)) × (b : Rebuilt) × Tells held parts.old b }
    ensures asked { (held : List (List Piece)) (fill : Spot → Tagged) (b : Rebuilt) (s : State) (tapes : List (List ℕ)) → Gives held fill parts.old b s → IfOk result (IsAsked parts.new b s tapes (calls.Retain row.class row.key row.rope row.note)) }
    ensures same { (held : List (List Piece)) (d : Durable Spot) → Shows held parts.old d → Shows held parts.new d }
    ensures blocks { parts.new.blocks ≡ parts.old.blocks }
    ensures form { parts.new.form ≡ parts.old.form }
    ensures moment { parts.new.moment ≡ parts.old.moment }
    ensures next { parts.new.next ≡ parts.old.next }
{
    if let Some(why) = refused(parts, &row) {
        return Ok(Asked::Refused(why));
    }
    base_grows_by_rows();
    let growth = size(&row);
    let ready = ready_retain(alloc, parts, row)?;
    Ok(Asked::Changes(ready, Reply::Done, Growth::By(growth)))
}
