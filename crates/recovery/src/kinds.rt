//! The kinds of changes, each tried on the parts.

ghost use Rattle.std.specs.Prelude.{◌≡◌, ◌≢◌, ◌+◌, ◌<◌, ◌≤◌, ◌^◌, ◌++◌, [], true, length, Ok, IfOk};
ghost use Rattle.voice_model.specs.Spelling.{keeps_grammar};
ghost use Rattle.recovery.specs.Shown.{IsApplied, IsParts, Rebuilds, Shows, ShowsPlaces};
ghost use Rattle.voice_model.specs.Replay.{Rebuilt, may_be_recorded, placed_from};
ghost use Rattle.voice_model.specs.Changes.{with_rope};
ghost use Rattle.voice_units.specs.Spots.{spots_from};
ghost use Rattle.voice_units.specs.declared.Shape.{Shape};

use crate::parts::Parts;
use crate::placing::place_all;
use rope_algebra::Pieces;
use std::alloc::Global;
use voice_model::{Change, Class, Key, Note, Row};
use voice_units::{Moment, NoMemory, Piece, RopeId, Shape, blocks_needed};

impl Parts {
    /// An interest in a rope.
    pub(crate) fn try_retained(
        &mut self,
        class: Class,
        key: &Key,
        id: RopeId,
        note: &Note,
    ) -> Result<bool, NoMemory>
        requires grammar { keeps_grammar (Change.Retained class key.now id note.now) ≡ true }
        requires few { length self.old.interests.rows + 1 < 2 ^ 32 }
        ensures { (shape : Shape) → IsApplied shape self.old self.new (Change.Retained class key.now id note.now) result }
    {
        self.retain(Row {
            class,
            key: *key,
            rope: id,
            note: *note,
        })
    }

    /// The end of an interest.
    pub(crate) fn try_forgotten(&mut self, shape: &Shape, class: Class, key: &Key) -> bool
        requires grammar { keeps_grammar (Change.Forgotten class key.now) ≡ true }
        ensures { IsApplied shape.now self.old self.new (Change.Forgotten class key.now) (Ok result) }
    {
        self.forget(&shape.graces, class, key)
    }

    /// A later moment.
    pub(crate) fn try_advanced(&mut self, moment: Moment) -> bool
        requires grammar { keeps_grammar (Change.Advanced moment) ≡ true }
        ensures { (shape : Shape) → IsApplied shape self.old self.new (Change.Advanced moment) (Ok result) }
    {
        if moment.number() <= self.moment.number() {
            return false;
        }
        self.advance(moment);
        true
    }

    /// A rope made of blocks in use. Its pieces are moved into it.
    pub(crate) fn try_edited(
        &mut self,
        shape: &Shape,
        id: RopeId,
        pieces: Vec<Piece>,
    ) -> Result<bool, NoMemory>
        requires grammar { keeps_grammar (Change.Edited id pieces.items) ≡ true }
        requires parts { IsParts shape.now self.old }
        requires few { length self.old.ropes.ropes + 1 < 2 ^ 32 }
        ensures { IsApplied shape.now self.old self.new (Change.Edited id pieces.items) result }
    {
        if id.number() < self.next {
            return Ok(false);
        }
        let rope = Pieces::from_normal(pieces)?;
        self.ropes.reserve(0)?;
        Ok(self.add_used_rope(id, rope, shape.graces.common))
    }

    /// A recording, whose blocks get these addresses.
    fn record(
        &mut self,
        alloc: Global,
        shape: &Shape,
        id: RopeId,
        len: u32,
        addresses: &[u32],
    ) -> Result<bool, NoMemory>
        requires most { len ≤ 2 ^ 30 }
        requires count { length addresses.now < 2 ^ 32 }
        requires parts { IsParts shape.now self.old }
        requires few { length self.old.ropes.ropes + 1 < 2 ^ 32 }
        ensures legal { (r : Rebuilt) → Rebuilds self.old r → r.shape ≡ shape.now → IfOk result (λ done. done ≡ may_be_recorded r id len addresses.now) }
        ensures done { (r : Rebuilt) → Rebuilds self.old r → r.shape ≡ shape.now → result ≡ Ok true → Shows [] self.new (with_rope r.kept id (spots_from id 0 len)) × ShowsPlaces self.new.blocks.holders r.shape.blocks (r.places ++ placed_from id 0 addresses.now) }
        ensures same { (r : Rebuilt) → Rebuilds self.old r → r.shape ≡ shape.now → result ≢ Ok true → Shows [] self.new r.kept × ShowsPlaces self.new.blocks.holders r.shape.blocks r.places }
        ensures form { self.new.form ≡ self.old.form }
    {
        if id.number() < self.next {
            return Ok(false);
        }
        if addresses.len() as u64 != blocks_needed(shape.block, len as u64) as u64 {
            return Ok(false);
        }
        let rope = Pieces::one(
            alloc,
            Piece {
                file: id,
                from: 0,
                len,
            },
        )?;
        self.ropes.reserve(addresses.len() as u32)?;
        self.blocks.reserve(addresses.len() as u32)?;
        if !place_all(&mut self.blocks, id, addresses) {
            return Ok(false);
        }
        self.add_rope(id, rope, shape.graces.common);
        Ok(true)
    }

    /// A recording in form 1.
    pub(crate) fn try_recorded(
        &mut self,
        alloc: Global,
        shape: &Shape,
        id: RopeId,
        len: u32,
        addresses: &[u32],
    ) -> Result<bool, NoMemory>
        requires grammar { keeps_grammar (Change.Recorded id len addresses.now) ≡ true }
        requires parts { IsParts shape.now self.old }
        requires few { length self.old.ropes.ropes + 1 < 2 ^ 32 }
        ensures { IsApplied shape.now self.old self.new (Change.Recorded id len addresses.now) result }
    {
        if self.form != 1 {
            return Ok(false);
        }
        self.record(alloc, shape, id, len, addresses)
    }

    /// A recording in form 2.
    pub(crate) fn try_wide(
        &mut self,
        alloc: Global,
        shape: &Shape,
        id: RopeId,
        len: u32,
        addresses: &[u32],
    ) -> Result<bool, NoMemory>
        requires grammar { keeps_grammar (Change.Wide id len addresses.now) ≡ true }
        requires parts { IsParts shape.now self.old }
        requires few { length self.old.ropes.ropes + 1 < 2 ^ 32 }
        ensures { IsApplied shape.now self.old self.new (Change.Wide id len addresses.now) result }
    {
        if self.form != 2 {
            return Ok(false);
        }
        self.record(alloc, shape, id, len, addresses)
    }
}
