//! Blocks that nothing uses any more.

ghost use Rattle.std.specs.Prelude.{◌≡◌, ◌≢◌, ◌≤◌, ℕ, true, List, not, filter, Some, length};
ghost use Rattle.voice_units.specs.declared.Piece.{Piece};
ghost use Rattle.voice_units.specs.Spots.{spots_in, spots_of};
ghost use Rattle.voice_units.specs.Blocks.{BlockPair, pairs_at, has_pair};
ghost use Rattle.voice_blocks.specs.declared.owner.Holder.{Holder};
ghost use Rattle.voice_blocks.specs.Holders.{holder_at, block_of};
ghost use Rattle.rope_table.specs.Table.{uses_at, pair_of, without_rope, Counts};
ghost use Rattle.recovery.specs.Placing.{in_use};
ghost use Rattle.voice_model.specs.State.{among};

use crate::parts::Parts;
use rope_algebra::Pieces;
use rope_table::RopeTable;
use voice_blocks::{BlockMap, Owner};
use voice_units::{Piece, RopeId};

/// Drops a block of a file if nothing uses it.
pub(crate) fn free_block(ropes: &RopeTable, blocks: &mut BlockMap, file: RopeId, index: u32)
    ensures only { (a : ℕ) → in_use ropes.now (holder_at blocks.new.holders a) ≡ in_use ropes.now (holder_at blocks.old.holders a) }
    ensures held { (a : ℕ) (h : Holder) → holder_at blocks.new.holders a ≡ Some h → holder_at blocks.old.holders a ≡ Some h }
    ensures gone { uses_at ropes.now (pair_of file index) ≡ 0 → (a : ℕ) → holder_at blocks.new.holders a ≢ Some (block_of (Owner.File file) index) }
    ensures size { length blocks.new.holders ≡ length blocks.old.holders }
{
    if ropes.uses(file, index) == 0 {
        blocks.drop_block(Owner::File(file), index);
    }
}

/// Drops the blocks of a piece that nothing uses. It takes a step for each block.
fn free_piece(ropes: &RopeTable, blocks: &mut BlockMap, piece: &Piece)
    ensures only { (a : ℕ) → in_use ropes.now (holder_at blocks.new.holders a) ≡ in_use ropes.now (holder_at blocks.old.holders a) }
    ensures held { (a : ℕ) (h : Holder) → holder_at blocks.new.holders a ≡ Some h → holder_at blocks.old.holders a ≡ Some h }
    ensures gone { (a : ℕ) (pair : BlockPair) → has_pair (pairs_at ropes.now.block (spots_in piece.now)) pair ≡ true → uses_at ropes.now pair ≡ 0 → holder_at blocks.new.holders a ≢ Some (block_of (Owner.File pair.file) pair.index) }
    ensures size { length blocks.new.holders ≡ length blocks.old.holders }
{
    let (_from, _len) = (piece.from, piece.len);
    let indexes = piece.blocks(ropes.block());
    for index in indexes.start..indexes.end {
        free_block(ropes, blocks, piece.file, index);
    }
}

/// Drops the blocks of pieces that nothing uses. It takes a step for each piece and block.
pub(crate) fn free_unused(ropes: &RopeTable, blocks: &mut BlockMap, pieces: &Pieces)
    ensures only { (a : ℕ) → in_use ropes.now (holder_at blocks.new.holders a) ≡ in_use ropes.now (holder_at blocks.old.holders a) }
    ensures held { (a : ℕ) (h : Holder) → holder_at blocks.new.holders a ≡ Some h → holder_at blocks.old.holders a ≡ Some h }
    ensures gone { (a : ℕ) (pair : BlockPair) → has_pair (pairs_at ropes.now.block (spots_of pieces.now)) pair ≡ true → uses_at ropes.now pair ≡ 0 → holder_at blocks.new.holders a ≢ Some (block_of (Owner.File pair.file) pair.index) }
    ensures size { length blocks.new.holders ≡ length blocks.old.holders }
{
    for k in 0..pieces.count() {
        let Some(piece) = pieces.piece(k) else {
            return;
        };
        free_piece(ropes, blocks, &piece);
    }
}

impl Parts {
    /// Takes out a rope, and the blocks that nothing uses then. It takes no memory.
    fn remove_rope(&mut self, id: RopeId)
        ensures ropes { self.new.ropes.ropes ≡ without_rope id self.old.ropes.ropes }
        ensures block { self.new.ropes.block ≡ self.old.ropes.block }
        ensures counts { (held : List (List Piece)) → Counts self.old.ropes held → Counts self.new.ropes held }
        ensures fewer { (pair : BlockPair) → uses_at self.new.ropes pair ≤ uses_at self.old.ropes pair }
        ensures holders { ((a : ℕ) → in_use self.old.ropes (holder_at self.old.blocks.holders a) ≡ holder_at self.old.blocks.holders a) → (a : ℕ) → holder_at self.new.blocks.holders a ≡ in_use self.new.ropes (holder_at self.old.blocks.holders a) }
        ensures size { length self.new.blocks.holders ≡ length self.old.blocks.holders }
        ensures interests { self.new.interests ≡ self.old.interests }
        ensures moment { self.new.moment ≡ self.old.moment }
        ensures next { self.new.next ≡ self.old.next }
        ensures form { self.new.form ≡ self.old.form }
    {
        let Some(pieces) = self.ropes.remove(id) else {
            return;
        };
        free_unused(&self.ropes, &mut self.blocks, &pieces);
    }

    /// Takes out ropes, and the blocks that nothing uses then. It takes no memory.
    pub fn remove_ropes(&mut self, ids: &[RopeId])
        ensures ropes { self.new.ropes.ropes ≡ filter (λ rope. not (among ids.now rope.id)) self.old.ropes.ropes }
        ensures block { self.new.ropes.block ≡ self.old.ropes.block }
        ensures counts { (held : List (List Piece)) → Counts self.old.ropes held → Counts self.new.ropes held }
        ensures holders { ((a : ℕ) → in_use self.old.ropes (holder_at self.old.blocks.holders a) ≡ holder_at self.old.blocks.holders a) → (a : ℕ) → holder_at self.new.blocks.holders a ≡ in_use self.new.ropes (holder_at self.old.blocks.holders a) }
        ensures size { length self.new.blocks.holders ≡ length self.old.blocks.holders }
        ensures interests { self.new.interests ≡ self.old.interests }
        ensures moment { self.new.moment ≡ self.old.moment }
        ensures next { self.new.next ≡ self.old.next }
        ensures form { self.new.form ≡ self.old.form }
    {
        for id in ids {
            self.remove_rope(*id);
        }
    }
}
