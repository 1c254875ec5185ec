//! The tables while a list of changes is replayed.

ghost use Rattle.std.specs.Prelude.{◌≡◌, ◌≢◌, ℕ, ◌+◌, ◌<◌, ◌^◌, true, length, is_some, Some, Ok, IfOk, OnOk};
ghost use Rattle.voice_units.specs.Blocks.{BlockPair};
ghost use Rattle.voice_blocks.specs.declared.owner.Holder.{Holder};
ghost use Rattle.voice_blocks.specs.Holders.{holder_at, block_of};
ghost use Rattle.rope_table.specs.Table.{uses_at};
ghost use Rattle.voice_model.specs.Spelling.{keeps_grammar};
ghost use Rattle.voice_model.specs.Replay.{Rebuilt, nothing_rebuilt, finished, is_legal, acted, brings, begun, is_begun};
ghost use Rattle.recovery.specs.Placing.{in_use};
ghost use Rattle.recovery.specs.Shown.{Rebuilds};
ghost use Rattle.recovery.specs.Building.{Builds, IsBuilding, is_noted};

use crate::freeing::free_block;
use crate::parts::Parts;
use rope_table::RopeTable;
use std::alloc::Global;
use voice_blocks::{BlockMap, Owner};
use voice_model::Change;
use voice_units::{Moment, NoMemory, Piece, RopeId, Shape};

/// What a list of changes may go on with: anything; the files of a base; its ropes; no base any more.
#[derive(Clone, Copy)]
pub(crate) enum Stage {
    Begun,
    Files,
    Ropes,
    Later,
}

/// A block of a voice file.
#[derive(Clone, Copy)]
pub(crate) struct Block {
    pub(crate) file: RopeId,
    pub(crate) index: u32,
}

/// The tables, the stage, the greatest number of a base's files so far, and the blocks of those files.
#[derive(Drop)]
pub(crate) struct Building {
    pub(crate) parts: Parts,
    pub(crate) stage: Stage,
    pub(crate) last_file: u64,
    pub(crate) noted: Vec<Block>,
}

/// Drops those of some blocks that nothing uses.
fn free_noted(ropes: &RopeTable, blocks: &mut BlockMap, noted: &[Block])
    ensures only { (a : ℕ) → in_use ropes.now (holder_at blocks.new.holders a) ≡ in_use ropes.now (holder_at blocks.old.holders a) }
    ensures held { (a : ℕ) (h : Holder) → holder_at blocks.new.holders a ≡ Some h → holder_at blocks.old.holders a ≡ Some h }
    ensures gone { (a : ℕ) (pair : BlockPair) → is_noted noted.now pair ≡ true → uses_at ropes.now pair ≡ 0 → holder_at blocks.new.holders a ≢ Some (block_of (Owner.File pair.file) pair.index) }
    ensures size { length blocks.new.holders ≡ length blocks.old.holders }
{
    for block in noted {
        free_block(ropes, blocks, block.file, block.index);
    }
}

impl Building {
    /// What replay begins with.
    pub(crate) fn new(alloc: Global, shape: &Shape) -> Result<Building, NoMemory>
        ensures { IfOk result (λ building. Builds building (nothing_rebuilt shape.now)) }
    {
        Ok(Building {
            parts: Parts::empty(alloc, shape)?,
            stage: Stage::Begun,
            last_file: 0,
            noted: Vec::new(alloc),
        })
    }

    /// The end of a list, or of its base: drops the blocks that nothing uses. It goes over the noted blocks, and then none is noted.
    pub(crate) fn finish(&mut self)
        ensures { (r : Rebuilt) → Builds self.old r → Rebuilds self.new.parts (finished r) }
    {
        free_noted(&self.parts.ropes, &mut self.parts.blocks, &self.noted);
        self.noted.clear();
    }

    /// Ends a base, where a change of a kind that a running server makes is to follow; want of memory where one more rope or row would be too many.
    fn end_base(&mut self) -> Result<(), NoMemory>
        ensures parts { (r : Rebuilt) → Builds self.old r → Rebuilds self.new.parts (finished r) }
        ensures few_ropes { OnOk result (length self.new.parts.ropes.ropes + 1 < 2 ^ 32) }
        ensures few_rows { OnOk result (length self.new.parts.interests.rows + 1 < 2 ^ 32) }
        ensures later { OnOk result (self.new.stage ≡ Stage.Later) }
    {
        self.finish();
        if self.parts.ropes.count() > 4_294_967_293 {
            return Err(NoMemory);
        }
        if self.parts.interests.is_full() {
            return Err(NoMemory);
        }
        self.stage = Stage::Later;
        Ok(())
    }

    /// Tries a change of a kind that a running server makes.
    fn go_on(&mut self, alloc: Global, shape: &Shape, change: &Change) -> Result<bool, NoMemory>
        requires grammar { keeps_grammar change.now ≡ true }
        requires kind { is_some (brings change.now) ≡ true }
        requires building { IsBuilding shape.now self.old }
        ensures legal { (r : Rebuilt) → Builds self.old r → r.shape ≡ shape.now → IfOk result (λ done. done ≡ is_legal r change.now) }
        ensures done { (r : Rebuilt) → Builds self.old r → r.shape ≡ shape.now → result ≡ Ok true → Builds self.new (acted r change.now) }
    {
        self.end_base()?;
        self.parts.apply(alloc, shape, change)
    }

    /// Tries an edited rope, whose pieces are moved into it.
    fn go_on_edited(
        &mut self,
        shape: &Shape,
        id: RopeId,
        pieces: Vec<Piece>,
    ) -> Result<bool, NoMemory>
        requires grammar { keeps_grammar (Change.Edited id pieces.items) ≡ true }
        requires building { IsBuilding shape.now self.old }
        ensures legal { (r : Rebuilt) → Builds self.old r → r.shape ≡ shape.now → IfOk result (λ done. done ≡ is_legal r (Change.Edited id pieces.items)) }
        ensures done { (r : Rebuilt) → Builds self.old r → r.shape ≡ shape.now → result ≡ Ok true → Builds self.new (acted r (Change.Edited id pieces.items)) }
    {
        self.end_base()?;
        self.parts.try_edited(shape, id, pieces)
    }

    // A base begins.
    fn begin(&mut self, form: u8, now: Moment, next: u64)
        ensures { (r : Rebuilt) (c : Change) → Builds self.old r → is_legal r c ≡ true → keeps_grammar c ≡ true → is_begun r.phase ≡ true → acted r c ≡ begun r form now next → Builds self.new (acted r c) }
    {
        self.parts.moment = now;
        self.parts.next = next;
        self.parts.form = form;
        self.stage = Stage::Files;
        self.last_file = 0;
    }

    /// Tries the begin of a base in form 1.
    pub(crate) fn try_base(&mut self, now: Moment, next: u64) -> bool
        requires { keeps_grammar (Change.Base now next) ≡ true }
        ensures legal { (r : Rebuilt) → Builds self.old r → result ≡ is_legal r (Change.Base now next) }
        ensures done { (r : Rebuilt) → Builds self.old r → result ≡ true → Builds self.new (acted r (Change.Base now next)) }
    {
        if self.parts.form != 1 {
            return false;
        }
        let Stage::Begun = self.stage else {
            return false;
        };
        self.begin(1, now, next);
        true
    }

    /// Tries the begin of a base in form 2.
    pub(crate) fn try_base2(&mut self, now: Moment, next: u64) -> bool
        requires { keeps_grammar (Change.Base2 now next) ≡ true }
        ensures legal { (r : Rebuilt) → Builds self.old r → result ≡ is_legal r (Change.Base2 now next) }
        ensures done { (r : Rebuilt) → Builds self.old r → result ≡ true → Builds self.new (acted r (Change.Base2 now next)) }
    {
        let Stage::Begun = self.stage else {
            return false;
        };
        self.begin(2, now, next);
        true
    }

    /// Tries a change: true exactly where it may follow, and then it has acted. The pieces of a rope are moved into it. After false or want of memory replay ends.
    pub(crate) fn apply(
        &mut self,
        alloc: Global,
        shape: &Shape,
        change: Change,
    ) -> Result<bool, NoMemory>
        requires grammar { keeps_grammar change ≡ true }
        requires building { IsBuilding shape.now self.old }
        ensures legal { (r : Rebuilt) → Builds self.old r → r.shape ≡ shape.now → IfOk result (λ done. done ≡ is_legal r change) }
        ensures done { (r : Rebuilt) → Builds self.old r → r.shape ≡ shape.now → result ≡ Ok true → Builds self.new (acted r change) }
    {
        match change {
            Change::Edited(id, pieces) => self.go_on_edited(shape, id, pieces.into_items()),
            Change::Base(now, next) => Ok(self.try_base(now, next)),
            Change::Base2(now, next) => Ok(self.try_base2(now, next)),
            Change::File(file, pairs) => self.try_file(file, pairs.items()),
            Change::File2(file, pairs) => self.try_file2(file, pairs.items()),
            Change::Rope(id, idle, pieces) => self.try_rope(shape, id, idle, pieces.into_items()),
            Change::Rope2(id, idle, last, pieces) => {
                self.try_rope2(shape, id, idle, last, pieces.into_items())
            }
            other => self.go_on(alloc, shape, &other),
        }
    }
}
