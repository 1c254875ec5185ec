//! The blocks that go with ropes.

ghost use Rattle.std.specs.Prelude.{◌≡◌, ℕ, ◌+◌, ◌≤◌, ◌<◌, List, length, [], ◌∷◌};
ghost use Rattle.voice_units.specs.declared.Piece.{Piece};
ghost use Rattle.voice_units.specs.Spots.{spots_of, stretches};
ghost use Rattle.voice_units.specs.Blocks.{BlockPair, pairs_at, has_pair, same_pair};
ghost use Rattle.rope_table.specs.Table.{uses_at, pieces_at, pair_of, Counts};
ghost use Rattle.voice_blocks.specs.Holders.{EachBecomes, open_in};
ghost use Rattle.collector.specs.Freed.{IsReleased, gone_has, freed, stretches_at, stretches_of, without_all};

use rope_table::{Pieces, RopeTable};
use std::sync::ledger::Ledger;
use voice_blocks::{BlockMap, Owner};
use voice_model::RopeList;
use voice_units::{RopeId, Steps};

/// What a release freed.
#[derive(Clone, Copy, Debug, PartialEq, Eq)]
pub struct Freed {
    /// How many addresses became free.
    pub blocks: u32,
}

// Drops a block of a voice file, if nothing uses it.
fn drop_if_unused(table: &RopeTable, blocks: &mut BlockMap, file: RopeId, index: u32)
    ensures holders { EachBecomes (freed (same_pair (pair_of file index)) (uses_at table.now)) blocks.old.holders blocks.new.holders }
    ensures spare { blocks.new.spare ≡ blocks.old.spare }
{
    if table.uses(file, index) > 0 {
        return;
    }
    blocks.drop_block(Owner::File(file), index);
}

/// Drops the blocks of these pieces that nothing uses.
pub fn drop_unused<L: Ledger>(
    table: &RopeTable,
    blocks: &mut BlockMap,
    pieces: &Pieces,
    steps: &mut Steps<L>,
)
    ensures holders { EachBecomes (freed (has_pair (pairs_at table.now.block (spots_of pieces.now))) (uses_at table.now)) blocks.old.holders blocks.new.holders }
    ensures spare { blocks.new.spare ≡ blocks.old.spare }
    ensures steps { steps.new ≡ steps.old + length (stretches table.now.block (spots_of pieces.now)) }
{
    let block = table.block();
    let _length = pieces.length();
    for k in 0..pieces.count() {
        let Some(piece) = pieces.piece(k) else {
            return;
        };
        let file = piece.file;
        let indexes = piece.blocks(block);
        for index in indexes.start..indexes.end {
            steps.tick();
            drop_if_unused(table, blocks, file, index);
        }
    }
}

// Removes a rope, and drops its blocks that nothing uses then.
fn release_one<L: Ledger>(
    table: &mut RopeTable,
    blocks: &mut BlockMap,
    id: RopeId,
    steps: &mut Steps<L>,
)
    ensures released { IsReleased table.old table.new blocks.old.holders blocks.new.holders (id ∷ []) }
    ensures spare { blocks.new.spare ≡ blocks.old.spare }
    ensures steps { steps.new ≡ steps.old + 1 + stretches_at table.old.block (pieces_at table.old.ropes id) }
{
    steps.tick();
    let Some(pieces) = table.remove(id) else {
        return;
    };
    drop_unused(table, blocks, &pieces, steps);
}

// Removes ropes, and drops their blocks that nothing uses then.
fn release_all<L: Ledger>(
    table: &mut RopeTable,
    blocks: &mut BlockMap,
    ids: &[RopeId],
    steps: &mut Steps<L>,
)
    ensures released { IsReleased table.old table.new blocks.old.holders blocks.new.holders ids.now }
    ensures spare { blocks.new.spare ≡ blocks.old.spare }
    ensures steps { steps.new ≡ steps.old + length ids.now + stretches_of table.old.block table.old.ropes ids.now }
{
    for id in ids {
        release_one(table, blocks, *id, steps);
    }
}

/// Removes these ropes, and drops the blocks of theirs that nothing uses then: blocks of voice files, and not of recordings that aren't done. A number that is not live changes nothing. It takes no memory, and a step for each number and for each stretch of these ropes.
pub fn release<L: Ledger>(
    table: &mut RopeTable,
    blocks: &mut BlockMap,
    ropes: &RopeList,
    steps: &mut Steps<L>,
) -> Freed
    ensures ropes { table.new.ropes ≡ without_all ropes.now table.old.ropes }
    ensures block { table.new.block ≡ table.old.block }
    ensures counts { (held : List (List Piece)) → Counts table.old held → Counts table.new held }
    ensures holders { EachBecomes (freed (gone_has table.old.block table.old.ropes ropes.now) (uses_at table.new)) blocks.old.holders blocks.new.holders }
    ensures spare { blocks.new.spare ≡ blocks.old.spare }
    ensures freed { open_in blocks.new.holders ≡ open_in blocks.old.holders + result.blocks }
    ensures steps { steps.new ≡ steps.old + length ropes.now + stretches_of table.old.block table.old.ropes ropes.now }
{
    let before = blocks.free();
    release_all(table, blocks, ropes.items(), steps);
    Freed {
        blocks: blocks.free().saturating_sub(before),
    }
}
