//! The blocks that live ropes use.

ghost use Rattle.std.specs.Prelude.{◌≡◌, ◌≤◌, ◌<◌, ◌||◌, OnOk, IfOk};
ghost use Rattle.voice_units.specs.Spots.{spots_of};
ghost use Rattle.voice_units.specs.Blocks.{BlockPair, pairs_at, has_pair, same_pair};
ghost use Rattle.std.specs.BTreeSet.{IsOrdered};
ghost use Rattle.rope_table.specs.Table.{pair_of};
ghost use Rattle.voice_model.specs.Valid.{Every};
ghost use Rattle.checkpoint.specs.Blocks.{name_cmp, is_noted, spots_in_ropes};

use rope_algebra::Pieces;
use rope_table::RopeTable;
use std::alloc::Global;
use std::collections::BTreeSet;
use voice_units::{NoMemory, RopeId};

/// A block of a voice file, by the file and then by the index.
#[derive(Clone, Copy, Debug, PartialEq, Eq, PartialOrd, Ord)]
pub(crate) struct BlockName {
    pub file: RopeId,
    pub index: u32,
}

/// Notes a block.
fn note(noted: &mut BTreeSet<BlockName>, file: RopeId, index: u32) -> Result<(), NoMemory>
    ensures { OnOk result ((pair : BlockPair) → is_noted noted.new pair ≡ (is_noted noted.old pair || same_pair (pair_of file index) pair)) }
{
    noted.insert(BlockName { file, index })?;
    Ok(())
}

/// Notes the blocks of pieces. It takes a step for each block.
fn note_pieces(noted: &mut BTreeSet<BlockName>, block: u32, pieces: &Pieces) -> Result<(), NoMemory>
    requires { 0 < block }
    ensures { OnOk result ((pair : BlockPair) → is_noted noted.new pair ≡ (is_noted noted.old pair || has_pair (pairs_at block (spots_of pieces.now)) pair)) }
{
    let _length = pieces.length();
    for k in 0..pieces.count() {
        let Some(piece) = pieces.piece(k) else {
            return Ok(());
        };
        let file = piece.file;
        let blocks = piece.blocks(block);
        for index in blocks.start..blocks.end {
            note(noted, file, index)?;
        }
    }
    Ok(())
}

/// The blocks that live ropes use, each once, by file and index. It takes a step for each block of each piece, and no more memory than the blocks.
pub(crate) fn used_blocks(alloc: Global, table: &RopeTable) -> Result<BTreeSet<BlockName>, NoMemory>
    requires { Every (λ rope. 1 ≤ rope.id) table.now.ropes }
    ensures { IfOk result (λ noted. (pair : BlockPair) → is_noted noted pair ≡ has_pair (pairs_at table.now.block (spots_in_ropes table.now.ropes)) pair) }
{
    let block = table.block();
    let mut noted = BTreeSet::new(alloc);
    let mut last = 0;
    while let Some(id) = table.after(last) {
        let Some(pieces) = table.get(id) else {
            return Ok(noted);
        };
        note_pieces(&mut noted, block, pieces)?;
        last = id.number();
    }
    Ok(noted)
}

/// The noted blocks, by file and index.
pub(crate) fn list_names(
    alloc: Global,
    noted: &BTreeSet<BlockName>,
) -> Result<Vec<BlockName>, NoMemory>
    ensures items { IfOk result (λ names. names.items ≡ noted.now.keys) }
    ensures ordered { IsOrdered name_cmp noted.now }
{
    let names: Vec<BlockName> = noted.iter().copied().collect(alloc)?;
    Ok(names)
}
