//! Changes that are ready are done, or are given back.

ghost use Rattle.std.specs.Prelude.{◌≡◌, ℕ, List, []};
ghost use Rattle.voice_units.specs.declared.Piece.{Piece};
ghost use Rattle.voice_model.specs.declared.Change.{Change};
ghost use Rattle.voice_model.specs.Replay.{Rebuilt, acted};
ghost use Rattle.voice_model.specs.Spelling.{spelling};
ghost use Rattle.recovery.specs.declared.Parts.{Parts};
ghost use Rattle.running_tables.specs.Running.{Runs};
ghost use Rattle.next_ropes.specs.Addresses.{KeepsAddresses};
ghost use Rattle.next_changes.specs.Next.{IsNext, payload_of};

use crate::NextChange;
use recovery::Parts;
use voice_units::Shape;

impl NextChange {
    /// The change as the journal spells it.
    pub fn payload(&self) -> &[u8]
        ensures bytes { result.now ≡ payload_of self.now }
        ensures spelled { (held : List (List Piece)) (takings : List ℕ) (parts : Parts) (b : Rebuilt) (c : Change) → IsNext held takings parts b self.now c → result.now ≡ spelling c }
    {
        match self {
            NextChange::Rope(rope) => &rope.payload,
            NextChange::Other(ready) => ready.payload.as_slice(),
        }
    }
}

/// The change is done. It takes no memory.
pub fn perform(parts: &mut Parts, shape: &Shape, next: NextChange)
    requires { (held : List (List Piece)) × (takings : List ℕ) × (b : Rebuilt) × (c : Change) × IsNext held takings parts.old b next c }
    ensures runs { (held : List (List Piece)) (takings : List ℕ) (b : Rebuilt) (c : Change) → IsNext held takings parts.old b next c → b.shape ≡ shape.now → Runs held [] takings parts.new (acted b c) }
    ensures kept { (held : List (List Piece)) (takings : List ℕ) (b : Rebuilt) (c : Change) → IsNext held takings parts.old b next c → b.shape ≡ shape.now → KeepsAddresses parts.old.blocks.holders parts.new.blocks.holders }
{
    match next {
        NextChange::Rope(rope) => next_ropes::perform(parts, shape, rope),
        NextChange::Other(ready) => ready_changes::perform(parts, shape, &ready),
    }
}

/// The change is not done, and the blocks of a rope are free again. It takes no memory.
pub fn give_back(parts: &mut Parts, next: NextChange)
    ensures runs { (held : List (List Piece)) (takings : List ℕ) (b : Rebuilt) (c : Change) → IsNext held takings parts.old b next c → Runs held [] takings parts.new b }
    ensures kept { KeepsAddresses parts.old.blocks.holders parts.new.blocks.holders }
{
    match next {
        NextChange::Rope(rope) => next_ropes::give_back(parts, rope),
        NextChange::Other(_ready) => {}
    }
}
