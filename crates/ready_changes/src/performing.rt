//! Changes that are ready are done.

ghost use Rattle.std.specs.Prelude.{◌≡◌, ℕ, ◌+◌, ◌<◌, ◌≤◌, ◌^◌, true, false, None, Some, List, length};
ghost use Rattle.voice_units.specs.declared.Piece.{Piece};
ghost use Rattle.voice_units.specs.Spots.{Spot};
ghost use Rattle.voice_model.specs.State.{Durable, is_live, row_at};
ghost use Rattle.voice_model.specs.State.Effect.{Retained, Swept};
ghost use Rattle.voice_model.specs.declared.Change.{Change};
ghost use Rattle.voice_model.specs.Changes.{changed};
ghost use Rattle.voice_model.specs.Replay.{Rebuilt, brings, is_legal, acted};
ghost use Rattle.voice_model.specs.declared.Class.{Class};
ghost use Rattle.interest_table.specs.Table.{expired_keys};
ghost use Rattle.recovery.specs.Shown.{Shows, IsOrderly, Rebuilds};
ghost use Rattle.recovery.specs.Gathered.{AreGoing};
ghost use Rattle.ready_changes.specs.Ready.{IsReady, after, AllInUse, FreesUnused, frees};

use crate::{Act, ReadyChange};
use recovery::{Going, Parts};
use voice_model::{Class, RopeList, Row};
use voice_units::{Graces, Shape};

/// A row comes for which there is room.
fn come(parts: &mut Parts, row: Row)
    requires few { length parts.old.interests.rows + 1 < 2 ^ 32 }
    ensures shows { (held : List (List Piece)) (form : ℕ) (d : Durable Spot) → Shows held parts.old d → is_live d.ropes row.rope ≡ true → row_at d.rows row.class row.key ≡ None → 1 ≤ parts.old.interests.spare → Shows held parts.new (changed form d (Retained row)) }
    ensures blocks { parts.new.blocks ≡ parts.old.blocks }
    ensures form { parts.new.form ≡ parts.old.form }
{
    let _done = parts.retain(row);
}

/// The expired rows go, and then these ropes, with the blocks that nothing uses any more.
fn sweep(parts: &mut Parts, graces: &Graces, going: &Going, ropes: &RopeList)
    ensures shows { (held : List (List Piece)) (d : Durable Spot) → Shows held parts.old d → IsOrderly parts.old.form d → d.shape.graces ≡ graces.now → AreGoing Class.Until (expired_keys d.moment d.rows) d.rows going.now → Shows held parts.new (changed parts.old.form d (Swept ropes.now)) }
    ensures blocks { (held : List (List Piece)) (d : Durable Spot) → Shows held parts.old d → IsOrderly parts.old.form d → d.shape.graces ≡ graces.now → AreGoing Class.Until (expired_keys d.moment d.rows) d.rows going.now → AllInUse parts.old → FreesUnused parts.old parts.new }
    ensures size { length parts.new.blocks.holders ≡ length parts.old.blocks.holders }
    ensures form { parts.new.form ≡ parts.old.form }
{
    parts.drop_gathered(graces, Class::Until, going);
    parts.remove_ropes(ropes.items());
}

/// The change is done, whatever passages are held. It takes no memory.
pub fn perform(parts: &mut Parts, shape: &Shape, ready: &ReadyChange)
    requires { (held : List (List Piece)) × (d : Durable Spot) × (c : Change) × Shows held parts.old d × IsReady parts.old.interests.spare d ready.now c }
    ensures shows { (held : List (List Piece)) (d : Durable Spot) (c : Change) → Shows held parts.old d → IsOrderly parts.old.form d → d.shape.graces ≡ shape.now.graces → IsReady parts.old.interests.spare d ready.now c → Shows held parts.new (after parts.old.form d (brings c)) }
    ensures blocks { (held : List (List Piece)) (d : Durable Spot) (c : Change) → Shows held parts.old d → IsOrderly parts.old.form d → d.shape.graces ≡ shape.now.graces → IsReady parts.old.interests.spare d ready.now c → AllInUse parts.old → FreesUnused parts.old parts.new }
    ensures stay { frees ready.now.act ≡ false → parts.new.blocks ≡ parts.old.blocks }
    ensures rebuilds { (r : Rebuilt) (c : Change) → Rebuilds parts.old r → r.shape ≡ shape.now → is_legal r c ≡ true → IsReady parts.old.interests.spare r.kept ready.now c → Rebuilds parts.new (acted r c) }
    ensures size { length parts.new.blocks.holders ≡ length parts.old.blocks.holders }
    ensures form { parts.new.form ≡ parts.old.form }
{
    match &ready.act {
        Act::Retain(row) => come(parts, *row),
        Act::Forget(class, key) => {
            parts.forget(&shape.graces, *class, key);
        }
        Act::Count(going) => parts.drop_gathered(&shape.graces, Class::Listed, going),
        Act::Sweep(going, ropes) => sweep(parts, &shape.graces, going, ropes),
        Act::Advance(moment) => parts.advance(*moment),
    }
}
