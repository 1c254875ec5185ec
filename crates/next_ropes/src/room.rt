//! Memory for a rope that comes next.

ghost use Rattle.std.specs.Prelude.{◌≡◌, ℕ, List, [], ◌+◌, ◌<◌, ◌≤◌, ◌^◌, length, OnOk};
ghost use Rattle.voice_units.specs.declared.Piece.{Piece};
ghost use Rattle.running_tables.specs.Running.{Runs};
ghost use Rattle.next_ropes.specs.Ready.{most_held};
ghost use Rattle.voice_model.specs.Replay.{Rebuilt};

use recovery::Parts;
use voice_units::{MOST_ROPES, NoMemory};

/// Makes room for one more rope and so many blocks that nothing uses yet. After NoMemory too the tables show what they did. More than 2^32 - 2^16 - 3 ropes count as want of memory.
pub(crate) fn make_room(parts: &mut Parts, blocks: u32) -> Result<(), NoMemory>
    ensures few { OnOk result (length parts.new.ropes.ropes + most_held + 1 < 2 ^ 32) }
    ensures spare_ropes { OnOk result (1 ≤ parts.new.ropes.spare_ropes) }
    ensures spare_pairs { OnOk result (blocks ≤ parts.new.ropes.spare_pairs) }
    ensures spare_blocks { OnOk result (blocks ≤ parts.new.blocks.spare) }
    ensures same { (held : List (List Piece)) (takings : List ℕ) (b : Rebuilt) → Runs held [] takings parts.old b → Runs held [] takings parts.new b }
    ensures holders { parts.new.blocks.holders ≡ parts.old.blocks.holders }
    ensures form { parts.new.form ≡ parts.old.form }
{
    if parts.ropes.count() > MOST_ROPES {
        return Err(NoMemory);
    }
    parts.ropes.reserve(blocks)?;
    parts.blocks.reserve(blocks)?;
    Ok(())
}
