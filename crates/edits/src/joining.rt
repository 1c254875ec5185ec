//! Ropes one after another.

ghost use Rattle.std.specs.Prelude.{◌≡◌, ℕ, ◌^◌, ◌≤◌, List, ◌++◌, IfOk, OnOk, length};
ghost use Rattle.voice_units.specs.declared.Piece.{Piece};
ghost use Rattle.voice_units.specs.Spots.{pieces_of};
ghost use Rattle.rope_algebra.specs.Kept.{LieInFiles};
ghost use Rattle.voice_model.specs.State.{State};
ghost use Rattle.voice_model.specs.Valid.{IsState};
ghost use Rattle.voice_model.specs.declared.calls.Call.TheVariants as calls;
ghost use Rattle.edits.specs.Tables.{pieces_here, length_joined, spots_joined};
ghost use Rattle.edits.specs.Shown.{ShowsState, IsMade};

use super::lookups::{if_unknown, length_joined};
use super::made::{Made, if_long, if_many, if_spent};
use recovery::Parts;
use rope_algebra::Pieces;
use rope_table::RopeTable;
use std::alloc::Global;
use voice_units::{NoMemory, Piece, RopeId};

// Puts the pieces of a rope last, where it is live.
fn put_rope(list: &mut Vec<Piece>, ropes: &RopeTable, id: RopeId) -> Result<(), NoMemory>
    ensures pieces { OnOk result (list.new.items ≡ list.old.items ++ pieces_here ropes.now.ropes id) }
    ensures ends { OnOk result (LieInFiles list.old.items → LieInFiles list.new.items) }
{
    let Some(pieces) = ropes.get(id) else {
        return Ok(());
    };
    // The clause of `length` says that the pieces lie in their files.
    let _length = pieces.length();
    for k in 0..pieces.count() {
        let Some(piece) = pieces.piece(k) else {
            return Ok(());
        };
        list.push(piece)?;
    }
    Ok(())
}

// The pieces of ropes, one after another.
fn join(alloc: Global, ropes: &RopeTable, ids: &[RopeId]) -> Result<Pieces, NoMemory>
    requires { length_joined ropes.now.ropes ids.now ≤ 2 ^ 30 }
    ensures { IfOk result (λ pieces. pieces ≡ pieces_of (spots_joined ropes.now.ropes ids.now)) }
{
    let mut list = Vec::new(alloc);
    for id in ids {
        put_rope(&mut list, ropes, *id)?;
    }
    Pieces::of(alloc, &list)
}

/// The rope of at most 16 ropes, one after another. It is refused where one of them is not live, where it would have more than 2^30 samples or 4,096 pieces, or where no number is left, in this order. It goes over each piece twice.
pub fn concat(alloc: Global, parts: &Parts, ropes: &[RopeId]) -> Result<Made, NoMemory>
    requires { length ropes.now ≤ 16 }
    ensures { (held : List (List Piece)) (s : State) (tapes : List (List ℕ)) → ShowsState held parts.now s → IsState s → IfOk result (λ made. IsMade made s tapes (calls.Concat ropes.now)) }
{
    if let Some(why) = if_unknown(&parts.ropes, ropes) {
        return Ok(Made::Refused(why));
    }
    if let Some(why) = if_long(length_joined(&parts.ropes, ropes)) {
        return Ok(Made::Refused(why));
    }
    let pieces = join(alloc, &parts.ropes, ropes)?;
    if let Some(why) = if_many(&pieces) {
        return Ok(Made::Refused(why));
    }
    if let Some(why) = if_spent(parts.next) {
        return Ok(Made::Refused(why));
    }
    Ok(Made::Rope(pieces))
}
