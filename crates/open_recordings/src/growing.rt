//! Open recordings take addresses, and give some back.

ghost use Rattle.std.specs.Prelude.{◌≡◌, ℕ, ◌+◌, ◌≤◌, List, IfOk, OnOk, OnErr};
ghost use Rattle.voice_units.specs.declared.Piece.{Piece};
ghost use Rattle.voice_model.specs.Replay.{Rebuilt};
ghost use Rattle.voice_blocks.specs.Holders.{open_in};
ghost use Rattle.voice_blocks.specs.declared.owner.Owner.TheVariants as owners;
ghost use Rattle.running_tables.specs.Running.{Runs, taken};
ghost use Rattle.running_tables.specs.Laws.{HasGrown};
ghost use Rattle.next_ropes.specs.Lowest.{lowest_open};
ghost use Rattle.next_ropes.specs.Addresses.{KeepsAddresses};
ghost use Rattle.open_recordings.specs.Blocks.{AreAddresses, HandsOut};

use crate::addresses::{addresses_of, blocks_taken, drop_blocks};
use recovery::Parts;
use std::alloc::Global;
use voice_blocks::Owner;
use voice_units::{Lane, NoMemory};

/// A lane's open recording takes the n lowest free addresses for its next n blocks, and gives them, rising. After NoMemory the tables show what they did.
pub fn grow(alloc: Global, parts: &mut Parts, lane: Lane, n: u32) -> Result<Vec<u32>, NoMemory>
    requires parts { (held : List (List Piece)) × (pledged : List (List Piece)) × (takings : List ℕ) × (b : Rebuilt) × Runs held pledged takings parts.old b }
    requires free { n ≤ open_in parts.old.blocks.holders }
    ensures grown { (held pledged : List (List Piece)) (takings more : List ℕ) (b : Rebuilt) → Runs held pledged takings parts.old b → HasGrown lane n takings more → IfOk result (λ addresses. Runs held pledged more parts.new b) }
    ensures lowest { IfOk result (λ addresses. addresses.items ≡ lowest_open n parts.old.blocks.holders) }
    ensures own { (held pledged : List (List Piece)) (takings : List ℕ) (b : Rebuilt) → Runs held pledged takings parts.old b → IfOk result (λ addresses. AreAddresses parts.new.blocks.holders (owners.Taking lane) (taken takings lane) n addresses.items) }
    ensures hands { OnOk result (HandsOut lane parts.old.blocks.holders parts.new.blocks.holders) }
    ensures stays { OnOk result (KeepsAddresses parts.new.blocks.holders parts.old.blocks.holders) }
    ensures err { (held pledged : List (List Piece)) (takings : List ℕ) (b : Rebuilt) → Runs held pledged takings parts.old b → OnErr result (Runs held pledged takings parts.new b) }
    ensures none { OnErr result (KeepsAddresses parts.old.blocks.holders parts.new.blocks.holders) }
    ensures rest { parts.new ≡ record parts.old { blocks = parts.new.blocks } }
{
    let list = Vec::with_capacity(alloc, n as usize)?;
    parts.blocks.reserve(n)?;
    let from = blocks_taken(&parts.blocks, lane);
    // so many are free
    let _taken = parts.blocks.take(Owner::Taking(lane), n);
    Ok(addresses_of(&parts.blocks, lane, from, n, list))
}

/// The last n blocks of a lane's open recording, from an index on, get free again. It takes no memory, and a step for each block.
pub fn shrink(parts: &mut Parts, lane: Lane, from: u32, n: u32)
    requires { (held : List (List Piece)) × (pledged : List (List Piece)) × (more : List ℕ) × (b : Rebuilt) × Runs held pledged more parts.old b × (taken more lane ≡ from + n) }
    ensures runs { (held pledged : List (List Piece)) (takings more : List ℕ) (b : Rebuilt) → Runs held pledged more parts.old b → taken takings lane ≡ from → HasGrown lane n takings more → Runs held pledged takings parts.new b }
    ensures kept { KeepsAddresses parts.old.blocks.holders parts.new.blocks.holders }
    ensures rest { parts.new ≡ record parts.old { blocks = parts.new.blocks } }
{
    drop_blocks(&mut parts.blocks, lane, from, n);
}
