//! Ropes made of blocks in use.

ghost use Rattle.std.specs.Prelude.{◌≡◌, ℕ, List, ◌≤◌, ◌^◌, [], length, IfOk};
ghost use Rattle.voice_units.specs.declared.Piece.{Piece};
ghost use Rattle.voice_units.specs.Spots.{samples_in};
ghost use Rattle.voice_model.specs.Replay.{Rebuilt};
ghost use Rattle.voice_model.specs.declared.changes.Change.TheVariants as changes;
ghost use Rattle.running_tables.specs.Running.{Runs};
ghost use Rattle.next_ropes.specs.Ready.{IsReady, AreLive, most_held};

use crate::NextRope;
use crate::payloads::edit_payload;
use crate::room::make_room;
use recovery::Parts;
use rope_algebra::Pieces;
use std::alloc::Global;
use voice_units::{NoMemory, RopeId};

/// Makes the next rope ready: one of these pieces, all of whose blocks live ropes use. It holds no block; after NoMemory too the tables show what they did.
pub fn ready_edit(alloc: Global, parts: &mut Parts, pieces: Pieces) -> Result<NextRope, NoMemory>
    requires parts { (held : List (List Piece)) × (takings : List ℕ) × (b : Rebuilt) × Runs held [] takings parts.old b }
    requires number { parts.old.next ≤ 2 ^ 48 }
    requires many { length pieces ≤ 4096 }
    requires long { samples_in pieces ≤ 2 ^ 30 }
    requires used { AreLive parts.old pieces }
    ensures ready { (held : List (List Piece)) (takings : List ℕ) (b : Rebuilt) → Runs held [] takings parts.old b → length held ≤ most_held → IfOk result (λ next. IsReady held takings parts.new b next (changes.Edited b.next pieces)) }
    ensures unheld { IfOk result (λ next. next.addresses.items ≡ []) }
    ensures same { (held : List (List Piece)) (takings : List ℕ) (b : Rebuilt) → Runs held [] takings parts.old b → Runs held [] takings parts.new b }
    ensures holders { parts.new.blocks.holders ≡ parts.old.blocks.holders }
{
    let id = RopeId(parts.next);
    let _length = pieces.length();
    let payload = edit_payload(alloc, id, &pieces)?;
    make_room(parts, 0)?;
    Ok(NextRope {
        id,
        pieces,
        recorded: false,
        addresses: Vec::new(alloc),
        payload,
    })
}
