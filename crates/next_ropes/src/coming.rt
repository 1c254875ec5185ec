//! Ropes that are ready come, or are given back.

ghost use Rattle.std.specs.Prelude.{◌≡◌, ℕ, List, [], ◌≤◌, ◌<◌, ◌^◌, true, length, IfOk, if◌then◌else◌};
ghost use Rattle.voice_units.specs.declared.Piece.{Piece};
ghost use Rattle.voice_model.specs.declared.Change.{Change};
ghost use Rattle.voice_model.specs.Replay.{Rebuilt, acted};
ghost use Rattle.running_tables.specs.Running.{Runs};
ghost use Rattle.next_ropes.specs.Ready.{IsReady};
ghost use Rattle.next_ropes.specs.Copies.{IsAlike};
ghost use Rattle.next_ropes.specs.Addresses.{KeepsAddresses};

use crate::NextRope;
use recovery::Parts;
use std::alloc::Global;
use voice_blocks::Owner;
use voice_units::{NoMemory, Shape};

/// The rope comes. It takes no memory.
pub fn perform(parts: &mut Parts, shape: &Shape, next: NextRope)
    requires { (held : List (List Piece)) × (takings : List ℕ) × (b : Rebuilt) × (c : Change) × IsReady held takings parts.old b next c }
    ensures runs { (held : List (List Piece)) (takings : List ℕ) (b : Rebuilt) (c : Change) → IsReady held takings parts.old b next c → b.shape ≡ shape.now → Runs held [] takings parts.new (acted b c) }
    ensures blocks { parts.new.blocks ≡ parts.old.blocks }
{
    parts.add_rope(next.id, next.pieces, shape.graces.common);
}

/// The rope does not come, and its blocks are free again. It takes no memory.
pub fn give_back(parts: &mut Parts, next: NextRope)
    ensures runs { (held : List (List Piece)) (takings : List ℕ) (b : Rebuilt) (c : Change) → IsReady held takings parts.old b next c → Runs held [] takings parts.new b }
    ensures kept { KeepsAddresses parts.old.blocks.holders parts.new.blocks.holders }
{
    parts.blocks.drop_owner(Owner::File(next.id));
}

/// A copy of the tables with room for one more rope and so many blocks that nothing uses yet.
pub fn copy_with_room(parts: &Parts, blocks: u32) -> Result<Parts, NoMemory>
    ensures alike { IfOk result (λ copy. IsAlike parts.now copy) }
    ensures spare_ropes { IfOk result (λ copy. 1 ≤ copy.ropes.spare_ropes) }
    ensures spare_pairs { IfOk result (λ copy. blocks ≤ copy.ropes.spare_pairs) }
{
    let mut ropes = parts.ropes.copy()?;
    ropes.reserve(blocks)?;
    Ok(Parts {
        ropes,
        interests: parts.interests.copy()?,
        blocks: parts.blocks.copy()?,
        moment: parts.moment,
        next: parts.next,
        form: parts.form,
    })
}

/// How many blocks the rope brings.
fn new_blocks(next: &NextRope) -> u32
    requires { next.now.recorded ≡ true → length next.now.addresses.items < 2 ^ 32 }
    ensures { result ≡ (if next.now.recorded then length next.now.addresses.items else 0) }
{
    if next.recorded {
        next.addresses.len() as u32
    } else {
        0
    }
}

/// The tables after the rope has come; these stay as they are. It goes over all tables.
pub fn parts_after(
    alloc: Global,
    parts: &Parts,
    shape: &Shape,
    next: &NextRope,
) -> Result<Parts, NoMemory>
    requires { (held : List (List Piece)) × (takings : List ℕ) × (b : Rebuilt) × (c : Change) × IsReady held takings parts.now b next.now c }
    ensures { (held : List (List Piece)) (takings : List ℕ) (b : Rebuilt) (c : Change) → IsReady held takings parts.now b next.now c → b.shape ≡ shape.now → IfOk result (λ after. Runs held [] takings after (acted b c)) }
{
    let pieces = next.pieces.copy()?;
    let mut after = copy_with_room(parts, new_blocks(next))?;
    after.add_rope(next.id, pieces, shape.graces.common);
    Ok(after)
}
