//! Calls that can change rows, the moment or remove ropes.

ghost use Rattle.std.specs.Prelude.{◌≡◌, ℕ, List, IsOk, IfOk, IsTrue};
ghost use Rattle.voice_units.specs.declared.Piece.{Piece};
ghost use Rattle.voice_units.specs.Spots.{Spot};
ghost use Rattle.voice_model.specs.Samples.{Tagged, spot_of};
ghost use Rattle.voice_model.specs.State.{State, Durable};
ghost use Rattle.voice_model.specs.Replay.{Rebuilt, durable_by};
ghost use Rattle.voice_model.specs.Valid.{IsState};
ghost use Rattle.recovery.specs.Shown.{Shows};
ghost use Rattle.row_calls.specs.Asked.{is_row_call, takes_no_memory, IsAsked, IsBrief, Tells};

use crate::{Asked, ask_advance, ask_census, ask_forget, ask_retain, ask_sweep};
use recovery::Parts;
use std::alloc::Global;
use voice_model::{Call, Row};
use voice_units::{Graces, NoMemory};

/// Asks the tables for a call that can change rows, the moment or remove ropes. All memory that the change needs is taken, none for a Forget or an Advance; the tables show what they did, whatever the answer.
pub fn ask(
    alloc: Global,
    parts: &mut Parts,
    graces: &Graces,
    call: &Call,
) -> Result<Asked, NoMemory>
    requires call { IsTrue (is_row_call call.now) }
    requires shown { (held : List (List Piece)) × (b : Rebuilt) × Tells held parts.old b × (b.shape.graces ≡ graces.now) }
    ensures asked { (held : List (List Piece)) (fill : Spot → Tagged) (b : Rebuilt) (s : State) (tapes : List (List ℕ)) → ((x : Spot) → spot_of (fill x) ≡ x) → Tells held parts.old b → durable_by fill b.kept ≡ s.kept → b.form ≡ s.form → IsState s → s.shape.graces ≡ graces.now → IfOk result (IsAsked parts.new b s tapes call.now) }
    ensures spare { IsTrue (takes_no_memory call.now) → IsOk result }
    ensures brief { IsTrue (takes_no_memory call.now) → IfOk result IsBrief }
    ensures same { (held : List (List Piece)) (d : Durable Spot) → Shows held parts.old d → Shows held parts.new d }
    ensures blocks { parts.new.blocks ≡ parts.old.blocks }
    ensures form { parts.new.form ≡ parts.old.form }
    ensures moment { parts.new.moment ≡ parts.old.moment }
    ensures next { parts.new.next ≡ parts.old.next }
{
    match call {
        Call::Retain(class, key, rope, note) => {
            let row = Row {
                class: *class,
                key: *key,
                rope: *rope,
                note: *note,
            };
            ask_retain(alloc, parts, row)
        }
        Call::Forget(class, key) => Ok(ask_forget(parts, *class, key)),
        Call::Census(keys) => ask_census(alloc, parts, keys),
        Call::Advance(moment) => Ok(ask_advance(parts, *moment)),
        Call::Sweep(limit) => ask_sweep(alloc, parts, graces, *limit),
        _ => unreachable!(),
    }
}
