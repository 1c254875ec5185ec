//! The files and the ropes of a base.

ghost use Rattle.std.specs.Prelude.{◌≡◌, ◌≢◌, ℕ, ◌<◌, ◌≤◌, ◌^◌, ◌&&◌, ◌++◌, List, map, true, length, IfOk, OnOk, Ok, Some};
ghost use Rattle.std.specs.List.{list_all};
ghost use Rattle.voice_units.specs.Spots.{spots_in, spots_of};
ghost use Rattle.voice_units.specs.Blocks.{pairs_at};
ghost use Rattle.voice_model.specs.Spelling.{keeps_grammar, is_file, are_pieces, rise};
ghost use Rattle.voice_model.specs.Replay.{Placed, Rebuilt, all_differ, has_place, place_of, is_legal, acted, may_be_file, may_be_rope, with_file, with_base_rope, takes_ropes};
ghost use Rattle.voice_blocks.specs.Holders.{holder_at, block_of};
ghost use Rattle.recovery.specs.Shown.{placed_at};
ghost use Rattle.recovery.specs.Placing.{or_else, is_open, HoldsPlaces};
ghost use Rattle.recovery.specs.Building.{Builds, IsBuilding, IsBuilt, block_in, phase_of};

use crate::building::{Block, Building, Stage};
use crate::effects::wait_after;
use rope_algebra::Pieces;
use voice_blocks::{BlockMap, Owner};
use voice_model::{Change, Pair};
use voice_units::{Moment, NoMemory, Piece, RopeId, Shape};

/// Enters blocks of a file that has none under their addresses. False exactly where one of these is not free or stands twice. It takes a step for each block.
fn place_pairs(blocks: &mut BlockMap, file: RopeId, pairs: &[Pair]) -> bool
    requires room { length pairs.now ≤ blocks.old.spare }
    requires rising { rise (map (λ pair. pair.index) pairs.now) ≡ true }
    requires none { (a index : ℕ) → holder_at blocks.old.holders a ≢ Some (block_of (Owner.File file) index) }
    ensures exact { result ≡ (all_differ (map (λ pair. pair.address) pairs.now) && list_all (λ pair. is_open blocks.old.holders pair.address) pairs.now) }
    ensures done { result ≡ true → (a : ℕ) → holder_at blocks.new.holders a ≡ or_else (holder_at blocks.old.holders a) (placed_at (map (place_of file) pairs.now) a) }
    ensures size { length blocks.new.holders ≡ length blocks.old.holders }
{
    for pair in pairs {
        if !blocks.place(file, pair.index, pair.address) {
            return false;
        }
    }
    true
}

/// Notes blocks of a file.
fn note_pairs(noted: &mut Vec<Block>, file: RopeId, pairs: &[Pair]) -> Result<(), NoMemory>
    ensures { OnOk result (noted.new.items ≡ noted.old.items ++ map (block_in file) pairs.now) }
{
    for pair in pairs {
        noted.push(Block {
            file,
            index: pair.index,
        })?;
    }
    Ok(())
}

/// Whether each block of a piece has an address. It takes a step for each block.
fn is_piece_placed(blocks: &BlockMap, block: u32, piece: &Piece) -> bool
    requires { 8 ≤ block }
    ensures { (places : List Placed) → HoldsPlaces blocks.now.holders places → result ≡ list_all (has_place places) (pairs_at block (spots_in piece.now)) }
{
    let (_from, _len) = (piece.from, piece.len);
    let indexes = piece.blocks(block);
    for index in indexes.start..indexes.end {
        if blocks.address(Owner::File(piece.file), index).is_none() {
            return false;
        }
    }
    true
}

/// Whether each block of pieces has an address. It takes a step for each piece and block.
fn are_placed(blocks: &BlockMap, block: u32, pieces: &[Piece]) -> bool
    requires { 8 ≤ block }
    ensures { (places : List Placed) → HoldsPlaces blocks.now.holders places → result ≡ list_all (has_place places) (pairs_at block (spots_of pieces.now)) }
{
    for piece in pieces {
        if !is_piece_placed(blocks, block, piece) {
            return false;
        }
    }
    true
}

/// Whether a rope of a base may come.
fn is_for_ropes(stage: Stage) -> bool
    ensures { result ≡ takes_ropes (phase_of stage) }
{
    match stage {
        Stage::Files | Stage::Ropes => true,
        Stage::Begun | Stage::Later => false,
    }
}

/// How many blocks were noted.
fn count_of(noted: &[Block]) -> Result<u32, NoMemory>
    ensures { IfOk result (λ n. n ≡ length noted.now) }
{
    if noted.len() > 4_294_967_295 {
        return Err(NoMemory);
    }
    Ok(noted.len() as u32)
}

impl Building {
    /// The blocks of a file, where it may come. After false or want of memory replay ends.
    fn add_file(&mut self, file: RopeId, pairs: &[Pair]) -> Result<bool, NoMemory>
        requires grammar { (width : ℕ) × (is_file width file pairs.now ≡ true) }
        requires building { IsBuilt self.old }
        ensures legal { (r : Rebuilt) → Builds self.old r → IfOk result (λ done. done ≡ may_be_file r file pairs.now) }
        ensures done { (r : Rebuilt) (c : Change) → Builds self.old r → result ≡ Ok true → is_legal r c ≡ true → keeps_grammar c ≡ true → acted r c ≡ with_file r file pairs.now → Builds self.new (acted r c) }
    {
        let Stage::Files = self.stage else {
            return Ok(false);
        };
        if file.number() <= self.last_file {
            return Ok(false);
        }
        if file.number() >= self.parts.next {
            return Ok(false);
        }
        self.parts.blocks.reserve(pairs.len() as u32)?;
        if !place_pairs(&mut self.parts.blocks, file, pairs) {
            return Ok(false);
        }
        note_pairs(&mut self.noted, file, pairs)?;
        self.last_file = file.number();
        Ok(true)
    }

    /// Tries a file of a base in form 1.
    pub(crate) fn try_file(&mut self, file: RopeId, pairs: &[Pair]) -> Result<bool, NoMemory>
        requires grammar { keeps_grammar (Change.File file pairs.now) ≡ true }
        requires building { IsBuilt self.old }
        ensures legal { (r : Rebuilt) → Builds self.old r → IfOk result (λ done. done ≡ is_legal r (Change.File file pairs.now)) }
        ensures done { (r : Rebuilt) → Builds self.old r → result ≡ Ok true → Builds self.new (acted r (Change.File file pairs.now)) }
    {
        if self.parts.form != 1 {
            return Ok(false);
        }
        self.add_file(file, pairs)
    }

    /// Tries a file of a base in form 2.
    pub(crate) fn try_file2(&mut self, file: RopeId, pairs: &[Pair]) -> Result<bool, NoMemory>
        requires grammar { keeps_grammar (Change.File2 file pairs.now) ≡ true }
        requires building { IsBuilt self.old }
        ensures legal { (r : Rebuilt) → Builds self.old r → IfOk result (λ done. done ≡ is_legal r (Change.File2 file pairs.now)) }
        ensures done { (r : Rebuilt) → Builds self.old r → result ≡ Ok true → Builds self.new (acted r (Change.File2 file pairs.now)) }
    {
        if self.parts.form != 2 {
            return Ok(false);
        }
        self.add_file(file, pairs)
    }

    /// Whether a rope of these parts may come in a base.
    fn may_add_rope(&self, id: RopeId, idle: Moment, pieces: &[Piece]) -> bool
        requires { 1 ≤ id }
        ensures { (r : Rebuilt) → Builds self.now r → result ≡ may_be_rope r id idle pieces.now }
    {
        if !is_for_ropes(self.stage) {
            return false;
        }
        if self.parts.ropes.after(id.number() - 1).is_some() {
            return false;
        }
        if id.number() >= self.parts.next {
            return false;
        }
        if idle.number() > self.parts.moment.number() {
            return false;
        }
        are_placed(&self.parts.blocks, self.parts.ropes.block(), pieces)
    }

    /// A rope, where it may come. Its pieces are moved into it. After false or want of memory replay ends.
    fn add_base_rope(
        &mut self,
        shape: &Shape,
        id: RopeId,
        idle: Moment,
        last: u8,
        pieces: Vec<Piece>,
    ) -> Result<bool, NoMemory>
        requires number { 1 ≤ id }
        requires class { last ≤ 3 }
        requires grammar { are_pieces pieces.items ≡ true }
        requires building { IsBuilding shape.now self.old }
        ensures legal { (r : Rebuilt) → Builds self.old r → IfOk result (λ done. done ≡ may_be_rope r id idle pieces.items) }
        ensures done { (r : Rebuilt) (c : Change) → Builds self.old r → r.shape ≡ shape.now → result ≡ Ok true → is_legal r c ≡ true → keeps_grammar c ≡ true → acted r c ≡ with_base_rope r id idle last pieces.items → Builds self.new (acted r c) }
    {
        if !self.may_add_rope(id, idle, &pieces) {
            return Ok(false);
        }
        if self.parts.ropes.count() > 4_294_967_293 {
            return Err(NoMemory);
        }
        let rope = Pieces::from_normal(pieces)?;
        let most = count_of(&self.noted)?;
        self.parts.ropes.reserve(most)?;
        let wait = wait_after(&shape.graces, last);
        self.parts.ropes.add(id, rope, idle, last, wait);
        self.stage = Stage::Ropes;
        Ok(true)
    }

    /// Tries a rope of a base in form 1.
    pub(crate) fn try_rope(
        &mut self,
        shape: &Shape,
        id: RopeId,
        idle: Moment,
        pieces: Vec<Piece>,
    ) -> Result<bool, NoMemory>
        requires grammar { keeps_grammar (Change.Rope id idle pieces.items) ≡ true }
        requires building { IsBuilding shape.now self.old }
        ensures legal { (r : Rebuilt) → Builds self.old r → IfOk result (λ done. done ≡ is_legal r (Change.Rope id idle pieces.items)) }
        ensures done { (r : Rebuilt) → Builds self.old r → r.shape ≡ shape.now → result ≡ Ok true → Builds self.new (acted r (Change.Rope id idle pieces.items)) }
    {
        if self.parts.form != 1 {
            return Ok(false);
        }
        self.add_base_rope(shape, id, idle, 0, pieces)
    }

    /// Tries a rope of a base in form 2.
    pub(crate) fn try_rope2(
        &mut self,
        shape: &Shape,
        id: RopeId,
        idle: Moment,
        last: u8,
        pieces: Vec<Piece>,
    ) -> Result<bool, NoMemory>
        requires grammar { keeps_grammar (Change.Rope2 id idle last pieces.items) ≡ true }
        requires building { IsBuilding shape.now self.old }
        ensures legal { (r : Rebuilt) → Builds self.old r → IfOk result (λ done. done ≡ is_legal r (Change.Rope2 id idle last pieces.items)) }
        ensures done { (r : Rebuilt) → Builds self.old r → r.shape ≡ shape.now → result ≡ Ok true → Builds self.new (acted r (Change.Rope2 id idle last pieces.items)) }
    {
        if self.parts.form != 2 {
            return Ok(false);
        }
        self.add_base_rope(shape, id, idle, last, pieces)
    }
}
