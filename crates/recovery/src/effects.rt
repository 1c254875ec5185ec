//! What the effects of changes do to the tables.

ghost use Rattle.std.specs.List.{list_all};
ghost use Rattle.std.specs.Prelude.{◌≡◌, ◌≢◌, ℕ, ◌+◌, ◌<◌, ◌≤◌, ◌^◌, ◌&&◌, nat_lt, not, Bool, true, false, List, [], ◌∷◌, ◌++◌, length, is_some, IfOk, IsOk, Ok, None};
ghost use Rattle.voice_units.specs.declared.Piece.{Piece};
ghost use Rattle.voice_units.specs.Spots.{Spot, spots_of, pieces_of};
ghost use Rattle.voice_units.specs.Blocks.{BlockPair, pairs_at, has_pair};
ghost use Rattle.voice_model.specs.State.{Durable, is_live, row_at};
ghost use Rattle.voice_model.specs.State.Effect.{Recorded, Edited, Retained, Forgotten, Counted, Swept, Advanced};
ghost use Rattle.voice_model.specs.Changes.{changed, with_rope, wait_of};
ghost use Rattle.rope_table.specs.Table.{rope_of, new_pairs, uses_at};
ghost use Rattle.recovery.specs.Shown.{Shows, IsOrderly};

use crate::parts::Parts;
use interest_table::{AddError, InterestTable};
use rope_algebra::Pieces;
use voice_model::{Class, Key, Row};
use voice_units::{Graces, Moment, NoMemory, RopeId};

/// How long a rope waits that lost a row of this class last, or none at 0.
pub(crate) fn wait_after(graces: &Graces, last: u8) -> u32
    ensures { result ≡ wait_of graces.now last }
{
    match last {
        1 => graces.held,
        2 => graces.until,
        3 => graces.listed,
        _ => graces.common,
    }
}

/// Puts a row last; false exactly where its class and key stand.
fn put_row(interests: &mut InterestTable, row: Row) -> Result<bool, NoMemory>
    requires { length interests.old.rows + 1 < 2 ^ 32 }
    ensures exact { IfOk result (λ done. done ≡ not (is_some (row_at interests.old.rows row.class row.key))) }
    ensures done { result ≡ Ok true → interests.new.rows ≡ interests.old.rows ++ row ∷ [] }
    ensures same { result ≢ Ok true → interests.new.rows ≡ interests.old.rows }
    ensures room { 1 ≤ interests.old.spare → IsOk result }
{
    match interests.add(row) {
        Ok(()) => Ok(true),
        Err(AddError::Taken(_)) => Ok(false),
        Err(AddError::NoMemory) => Err(NoMemory),
    }
}

impl Parts {
    /// Puts in a rope that comes last, and has no row. It takes no memory.
    pub fn add_rope(&mut self, id: RopeId, pieces: Pieces, wait: u32)
        requires unknown { rope_of self.old.ropes.ropes id ≡ None }
        requires room { 1 ≤ self.old.ropes.spare_ropes }
        requires pairs { new_pairs self.old.ropes pieces ≤ self.old.ropes.spare_pairs }
        requires fits { (pair : BlockPair) → has_pair (pairs_at self.old.ropes.block (spots_of pieces)) pair ≡ true → uses_at self.old.ropes pair + 1 < 2 ^ 32 }
        ensures shows { (held : List (List Piece)) (form : ℕ) (d : Durable Spot) (samples : List Spot) → Shows held self.old d → IsOrderly form d → d.next ≤ id → pieces ≡ pieces_of samples → wait ≡ d.shape.graces.common → Shows held self.new (with_rope d id samples) }
        ensures blocks { self.new.blocks ≡ self.old.blocks }
        ensures form { self.new.form ≡ self.old.form }
    {
        self.ropes.add(id, pieces, self.moment, 0, wait);
        self.next = id.number() + 1;
    }

    /// Puts in a rope that comes last, and has no row, where each of its blocks is in use; false exactly where one is not, and then nothing changes. It takes no memory.
    pub(crate) fn add_used_rope(&mut self, id: RopeId, pieces: Pieces, wait: u32) -> bool
        requires unknown { rope_of self.old.ropes.ropes id ≡ None }
        requires room { 1 ≤ self.old.ropes.spare_ropes }
        requires fits { (pair : BlockPair) → has_pair (pairs_at self.old.ropes.block (spots_of pieces)) pair ≡ true → uses_at self.old.ropes pair + 1 < 2 ^ 32 }
        ensures value { result ≡ list_all (λ pair. nat_lt 0 (uses_at self.old.ropes pair)) (pairs_at self.old.ropes.block (spots_of pieces)) }
        ensures shows { (held : List (List Piece)) (form : ℕ) (d : Durable Spot) (samples : List Spot) → Shows held self.old d → IsOrderly form d → d.next ≤ id → pieces ≡ pieces_of samples → wait ≡ d.shape.graces.common → result ≡ true → Shows held self.new (with_rope d id samples) }
        ensures same { (held : List (List Piece)) (d : Durable Spot) → Shows held self.old d → result ≡ false → Shows held self.new d }
        ensures blocks { self.new.blocks ≡ self.old.blocks }
        ensures form { self.new.form ≡ self.old.form }
    {
        if !self.ropes.add_used(id, pieces, self.moment, 0, wait) {
            return false;
        }
        self.next = id.number() + 1;
        true
    }

    /// Puts in a row of a live rope whose class and key do not stand; true exactly then.
    pub fn retain(&mut self, row: Row) -> Result<bool, NoMemory>
        requires { length self.old.interests.rows + 1 < 2 ^ 32 }
        ensures legal { (held : List (List Piece)) (d : Durable Spot) → Shows held self.old d → IfOk result (λ done. done ≡ (is_live d.ropes row.rope && not (is_some (row_at d.rows row.class row.key)))) }
        ensures done { (held : List (List Piece)) (form : ℕ) (d : Durable Spot) → Shows held self.old d → result ≡ Ok true → Shows held self.new (changed form d (Retained row)) }
        ensures same { (held : List (List Piece)) (d : Durable Spot) → Shows held self.old d → result ≢ Ok true → Shows held self.new d }
        ensures room { 1 ≤ self.old.interests.spare → IsOk result }
        ensures blocks { self.new.blocks ≡ self.old.blocks }
        ensures form { self.new.form ≡ self.old.form }
    {
        let Some(_) = self.ropes.wait(row.rope) else {
            return Ok(false);
        };
        if !put_row(&mut self.interests, row)? {
            return Ok(false);
        }
        self.ropes.keep(row.rope, true);
        Ok(true)
    }

    /// Takes out the row of a class and key; false exactly where there is none. A rope that loses its last row is idle since now.
    pub fn forget(&mut self, graces: &Graces, class: Class, key: &Key) -> bool
        ensures legal { (held : List (List Piece)) (d : Durable Spot) → Shows held self.old d → result ≡ is_some (row_at d.rows class key.now) }
        ensures shows { (held : List (List Piece)) (d : Durable Spot) → Shows held self.old d → IsOrderly self.old.form d → d.shape.graces ≡ graces.now → Shows held self.new (changed self.old.form d (Forgotten class key.now)) }
        ensures same { (held : List (List Piece)) (d : Durable Spot) → Shows held self.old d → result ≡ false → Shows held self.new d }
        ensures blocks { self.new.blocks ≡ self.old.blocks }
        ensures form { self.new.form ≡ self.old.form }
    {
        let Some(row) = self.interests.remove(class, key) else {
            return false;
        };
        self.settle(graces, row.rope, class);
        true
    }

    /// The moment comes.
    pub fn advance(&mut self, moment: Moment)
        ensures shows { (held : List (List Piece)) (form : ℕ) (d : Durable Spot) → Shows held self.old d → Shows held self.new (changed form d (Advanced moment)) }
        ensures blocks { self.new.blocks ≡ self.old.blocks }
        ensures form { self.new.form ≡ self.old.form }
    {
        self.moment = moment;
    }
}
