//! The tables after a change that is ready, as a copy.

ghost use Rattle.std.specs.Prelude.{◌≡◌, ℕ, List, [], IfOk};
ghost use Rattle.voice_units.specs.declared.Piece.{Piece};
ghost use Rattle.voice_model.specs.declared.Change.{Change};
ghost use Rattle.voice_model.specs.Replay.{Rebuilt, acted};
ghost use Rattle.running_tables.specs.Running.{Runs};
ghost use Rattle.next_changes.specs.Next.{IsNext, IsNextIn, IsOther};

use crate::NextChange;
use next_ropes::copy_with_room;
use ready_changes::ReadyChange;
use recovery::Parts;
use std::alloc::Global;
use voice_units::{NoMemory, Shape};

// The tables after a change that brings no rope.
fn after_other(parts: &Parts, shape: &Shape, ready: &ReadyChange) -> Result<Parts, NoMemory>
    requires { (held : List (List Piece)) × (takings : List ℕ) × (b : Rebuilt) × (c : Change) × IsOther held takings parts.now b ready.now c }
    ensures { (held : List (List Piece)) (takings : List ℕ) (b : Rebuilt) (c : Change) → IsOther held takings parts.now b ready.now c → b.shape ≡ shape.now → IfOk result (λ after. Runs held [] takings after (acted b c)) }
{
    let mut after = copy_with_room(parts, 0)?;
    // for the row that may come
    after.interests.reserve(1)?;
    ready_changes::perform(&mut after, shape, ready);
    Ok(after)
}

/// The tables after the change; these stay as they are. It goes over all tables.
pub fn parts_after(
    alloc: Global,
    parts: &Parts,
    shape: &Shape,
    next: &NextChange,
) -> Result<Parts, NoMemory>
    requires { IsNextIn shape.now parts.now next.now }
    ensures { (held : List (List Piece)) (takings : List ℕ) (b : Rebuilt) (c : Change) → IsNext held takings parts.now b next.now c → b.shape ≡ shape.now → IfOk result (λ after. Runs held [] takings after (acted b c)) }
{
    match next {
        NextChange::Rope(rope) => next_ropes::parts_after(alloc, parts, shape, rope),
        NextChange::Other(ready) => after_other(parts, shape, ready),
    }
}
