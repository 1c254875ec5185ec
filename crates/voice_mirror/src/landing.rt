//! The landing of a change in doubt.

ghost use Rattle.std.specs.Prelude.{◌≡◌, ◌+◌, ◌≤◌, ◌<◌, ◌^◌, ℕ, List, Option, Some, None, IsTrue, IsSome, IsOk, OnOk, OnErr};
ghost use Rattle.voice_outside.specs.Disk.{MakesAtMost};
ghost use Rattle.voice_model.specs.Samples.{Tagged};
ghost use Rattle.voice_model.specs.State.{Durable, Effect};
ghost use Rattle.mirror_laws.specs.Standing.{Took};
ghost use Rattle.mirror_tables.specs.Beside.{IsBeside, IsBehind};
ghost use Rattle.voice_mirror.specs.Shown.{Keeps, IsStanding, state_of};
ghost use Rattle.voice_mirror.specs.Taking.{settled, with_landed};

use crate::discarding::discard_beside;
use crate::inside::{Inside, Pending};
use mirror_laws::laws::foundations;
use mirror_tables::Beside;
use recovery::Parts;
use std::mem;
use voice_model::Change;
use voice_outside::Disk;
use voice_units::Failed;

// Puts other tables beside the parts.
pub(crate) fn put_beside(inside: &mut Inside, beside: Beside)
    ensures { inside.new ≡ record inside.old { beside = beside } }
{
    let old = mem::replace(&mut inside.beside, beside);
    discard_beside(old);
}

// Takes in tables that have a change; those without it stay beside them.
pub(crate) fn take_in(inside: &mut Inside, tables: Parts, change: Change)
    requires { inside.old.position < 2 ^ 48 }
    ensures { inside.new ≡ record inside.old { parts = tables; beside = Beside.Behind inside.old.parts change; position = inside.old.position + 1 } }
{
    let old = mem::replace(&mut inside.parts, tables);
    put_beside(inside, Beside::Behind(old, change));
    inside.position += 1;
}

// Takes in what was in doubt, if anything was.
fn take_pending(inside: &mut Inside)
    requires { inside.old.position < 2 ^ 48 }
    ensures none { inside.old.pending ≡ None → inside.new ≡ inside.old }
    ensures some { (p : Pending) → inside.old.pending ≡ Some p → inside.new ≡ record inside.old { parts = p.tables; beside = Beside.Behind inside.old.parts p.change; position = inside.old.position + 1; pending = None } }
{
    if let Some(Pending { tables, change }) = inside.pending.take() {
        take_in(inside, tables, change);
    }
}

/// Lands what is in doubt, if anything is. After `Failed` it is in doubt as before. It makes at most 2 device calls, and none where nothing is in doubt.
pub(crate) fn settle<D: Disk>(disk: &mut D, inside: &mut Inside) -> Result<(), Failed>
    requires { IsStanding (D.told disk.old).size inside.old }
    ensures made { MakesAtMost 2 (D.told disk.old) (D.told disk.new) result }
    ensures standing { IsStanding (D.told disk.new).size inside.new }
    ensures alloc { inside.new.alloc ≡ inside.old.alloc }
    ensures shape { inside.new.journal.shape ≡ inside.old.journal.shape }
    ensures quiet { inside.old.pending ≡ None → (disk.new ≡ disk.old) × (inside.new ≡ inside.old) × (IsOk result) }
    ensures ok { OnOk result (state_of inside.new ≡ settled (state_of inside.old)) }
    ensures sure { OnOk result (inside.new.journal.doubt ≡ None) }
    ensures failed { OnErr result ((inside.new ≡ inside.old) × IsSome inside.old.pending) }
    // Each crash leaves what was there before the change, or what is there after it.
    ensures kept { IsTrue (D.told disk.old).honest → (first : Durable Tagged) (from t0 : ℕ) (taken : List Took) (doubt : Option (Effect Tagged)) → Keeps first from t0 taken doubt (D.told disk.old) (state_of inside.old)
        → OnOk result (Keeps first from t0 (with_landed doubt (D.told disk.new).calls taken) None (D.told disk.new) (state_of inside.new)) }
    ensures stuck { IsTrue (D.told disk.old).honest → (first : Durable Tagged) (from t0 : ℕ) (taken : List Took) (doubt : Option (Effect Tagged)) → Keeps first from t0 taken doubt (D.told disk.old) (state_of inside.old)
        → OnErr result (Keeps first from t0 taken doubt (D.told disk.new) (state_of inside.new)) }
{
    foundations();
    if inside.pending.is_none() {
        return Ok(());
    }
    inside.journal.land(disk)?;
    take_pending(inside);
    Ok(())
}
