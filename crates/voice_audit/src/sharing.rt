//! The blocks that more than one live rope uses.

ghost use Rattle.std.specs.Prelude.{◌≡◌, ◌≤◌, ◌<◌, ◌||◌, ◌&&◌, OnOk, IfOk};
ghost use Rattle.voice_units.specs.Spots.{spots_of};
ghost use Rattle.voice_units.specs.Blocks.{BlockPair, pairs_at, has_pair, same_pair};
ghost use Rattle.voice_model.specs.Valid.{Every};
ghost use Rattle.rope_table.specs.Table.{pair_of};
ghost use Rattle.checkpoint.specs.Blocks.{spots_in_ropes};
ghost use Rattle.voice_audit.specs.Sharing.{is_noted, is_shared, shared_in};

use rope_algebra::Pieces;
use rope_table::RopeTable;
use std::alloc::Global;
use std::collections::HashSet;
use voice_units::{NoMemory, RopeId};

/// A block of a voice file.
#[derive(Clone, Copy, Debug, PartialEq, Eq, Hash)]
pub(crate) struct BlockName {
    pub file: RopeId,
    pub index: u32,
}

/// Notes a block, where more than one live rope uses it.
fn note(
    noted: &mut HashSet<BlockName>,
    table: &RopeTable,
    file: RopeId,
    index: u32,
) -> Result<(), NoMemory>
    ensures { OnOk result ((pair : BlockPair) → is_noted noted.new pair ≡ (is_noted noted.old pair || (is_shared table.now pair && same_pair (pair_of file index) pair))) }
{
    if table.uses(file, index) < 2 {
        return Ok(());
    }
    noted.insert(BlockName { file, index })?;
    Ok(())
}

/// Notes those blocks of pieces that more than one live rope uses. It takes a step for each block.
fn note_pieces(
    noted: &mut HashSet<BlockName>,
    table: &RopeTable,
    pieces: &Pieces,
) -> Result<(), NoMemory>
    ensures { OnOk result ((pair : BlockPair) → is_noted noted.new pair ≡ (is_noted noted.old pair || (is_shared table.now pair && has_pair (pairs_at table.now.block (spots_of pieces.now)) pair))) }
{
    let block = table.block();
    let _length = pieces.length();
    for k in 0..pieces.count() {
        let Some(piece) = pieces.piece(k) else {
            return Ok(());
        };
        let file = piece.file;
        let blocks = piece.blocks(block);
        for index in blocks.start..blocks.end {
            note(noted, table, file, index)?;
        }
    }
    Ok(())
}

/// The blocks that more than one live rope uses, each once. It takes a step for each block of each piece, and no more memory than these blocks.
fn shared_blocks(alloc: Global, table: &RopeTable) -> Result<HashSet<BlockName>, NoMemory>
    requires { Every (λ rope. 1 ≤ rope.id) table.now.ropes }
    ensures { IfOk result (λ noted. (pair : BlockPair) → is_noted noted pair ≡ (is_shared table.now pair && has_pair (pairs_at table.now.block (spots_in_ropes table.now.ropes)) pair)) }
{
    let _block = table.block();
    let mut noted = HashSet::new(alloc);
    let mut last = 0;
    while let Some(id) = table.after(last) {
        let Some(pieces) = table.get(id) else {
            return Ok(noted);
        };
        note_pieces(&mut noted, table, pieces)?;
        last = id.number();
    }
    Ok(noted)
}

/// How many blocks more than one live rope uses, each counted once. It goes once over the pieces and their blocks.
pub(crate) fn shared_count(alloc: Global, table: &RopeTable) -> Result<usize, NoMemory>
    requires { Every (λ rope. 1 ≤ rope.id) table.now.ropes }
    ensures { IfOk result (λ count. count ≡ shared_in table.now) }
{
    let noted = shared_blocks(alloc, table)?;
    Ok(noted.len())
}
