//! Rows that go together, and the ropes that are left without one.

ghost use Rattle.std.specs.Prelude.{◌≡◌, ℕ, List, [], ◌∷◌, map, filter, IfOk, OnOk, OnErr};
ghost use Rattle.voice_units.specs.declared.Piece.{Piece};
ghost use Rattle.voice_units.specs.Spots.{Spot};
ghost use Rattle.voice_model.specs.State.{Durable, class_number, has_row, among, with_rows};
ghost use Rattle.voice_model.specs.Valid.{Once};
ghost use Rattle.interest_table.specs.Table.{is_named};
ghost use Rattle.rope_table.specs.Table.{Counts};
ghost use Rattle.recovery.specs.Shown.{Shows, ShowsKept, RowsGone, IsOrderly, left_idle, rows_without};
ghost use Rattle.recovery.specs.Gathered.{AreGoing};

use crate::effects::wait_after;
use crate::parts::Parts;
use interest_table::{InterestTable, key_set};
use std::alloc::Global;
use std::collections::HashSet;
use std::marker::Model;
use voice_model::{Class, Key};
use voice_units::{Graces, NoMemory, RopeId};

/// Rows that are to go together: their keys, and the rope of each. Contracts see both as lists.
#[derive(Drop)]
pub struct Going {
    pub(crate) ropes: Vec<RopeId>,
    pub(crate) keys: HashSet<Key>,
}

impl Model for Going {
    ghost use Rattle.recovery.specs.Gathered.{Gone};

    ghost Value = { Gone };

    ghost view = { λ g. record { ropes = g.ropes.items; keys = g.keys.keys } };
}

/// The number of a class, 1 to 3.
fn number_of(class: Class) -> u8
    ensures { result ≡ class_number class }
{
    match class {
        Class::Held => 1,
        Class::Until => 2,
        Class::Listed => 3,
    }
}

/// The ropes of the rows of a class with these keys, a number for each row.
fn ropes_of(
    alloc: Global,
    interests: &InterestTable,
    class: Class,
    keys: &[Key],
) -> Result<Vec<RopeId>, NoMemory>
    ensures { IfOk result (λ ropes. Once interests.now.rows → (id : ℕ) → among ropes.items id ≡ has_row (filter (is_named class keys.now) interests.now.rows) id) }
{
    let mut ropes = Vec::new(alloc);
    for key in keys {
        if let Some(row) = interests.find(class, key) {
            ropes.push(row.rope)?;
        }
    }
    Ok(ropes)
}

/// Gathers the rows of a class with these keys, which are to go. It takes a step for each key; no row is touched.
pub fn gather(
    alloc: Global,
    interests: &InterestTable,
    class: Class,
    keys: &[Key],
) -> Result<Going, NoMemory>
    ensures { IfOk result (λ going. Once interests.now.rows → AreGoing class keys.now interests.now.rows going) }
{
    let ropes = ropes_of(alloc, interests, class, keys)?;
    let keys = key_set(alloc, keys)?;
    Ok(Going { ropes, keys })
}

impl Parts {
    /// A rope that has no row any more is idle since now, and waits by the class of the last one. Done twice it is as done once.
    pub(crate) fn settle(&mut self, graces: &Graces, rope: RopeId, class: Class)
        ensures ropes { self.new.ropes.ropes ≡ map (left_idle self.old.form graces.now self.old.moment (class_number class) self.old.interests.rows (rope ∷ [])) self.old.ropes.ropes }
        ensures block { self.new.ropes.block ≡ self.old.ropes.block }
        ensures counts { (held : List (List Piece)) → Counts self.old.ropes held → Counts self.new.ropes held }
        ensures interests { self.new.interests ≡ self.old.interests }
        ensures blocks { self.new.blocks ≡ self.old.blocks }
        ensures moment { self.new.moment ≡ self.old.moment }
        ensures next { self.new.next ≡ self.old.next }
        ensures form { self.new.form ≡ self.old.form }
    {
        if self.interests.count(rope) > 0 {
            return;
        }
        let last = if self.form == 2 { number_of(class) } else { 0 };
        let wait = wait_after(graces, last);
        self.ropes.settle(rope, self.moment, last, wait);
    }

    // Each of these ropes that has no row any more is idle since now, and waits by the class of the last one.
    fn settle_all(&mut self, graces: &Graces, ropes: &[RopeId], class: Class)
        ensures shows { (held : List (List Piece)) (d : Durable Spot) → ShowsKept held self.old.ropes d.rows self.old.moment self.old.next d → RowsGone ropes.now d.rows self.old.interests.rows → IsOrderly self.old.form d → d.shape.graces ≡ graces.now → Shows held self.new (with_rows self.old.form (class_number class) d self.old.interests.rows) }
        ensures blocks { self.new.blocks ≡ self.old.blocks }
        ensures form { self.new.form ≡ self.old.form }
    {
        for rope in ropes {
            self.settle(graces, *rope, class);
        }
    }

    /// Takes out gathered rows of a class. A rope that loses its last row is idle since now. It finds each row by its key, and takes no memory.
    pub fn drop_gathered(&mut self, graces: &Graces, class: Class, going: &Going)
        ensures shows { (held : List (List Piece)) (d : Durable Spot) (keys : List (List ℕ)) → Shows held self.old d → IsOrderly self.old.form d → d.shape.graces ≡ graces.now → AreGoing class keys d.rows going.now → Shows held self.new (with_rows self.old.form (class_number class) d (rows_without class keys d.rows)) }
        ensures blocks { self.new.blocks ≡ self.old.blocks }
        ensures form { self.new.form ≡ self.old.form }
    {
        self.interests.remove_all(class, &going.keys);
        self.settle_all(graces, &going.ropes, class);
    }

    /// Takes out the rows of a class with these keys. A rope that loses its last row is idle since now. It finds each row by its key; after `NoMemory` nothing has changed.
    pub fn drop_rows(
        &mut self,
        alloc: Global,
        graces: &Graces,
        class: Class,
        keys: &[Key],
    ) -> Result<(), NoMemory>
        ensures shows { (held : List (List Piece)) (d : Durable Spot) → Shows held self.old d → IsOrderly self.old.form d → d.shape.graces ≡ graces.now → OnOk result (Shows held self.new (with_rows self.old.form (class_number class) d (rows_without class keys.now d.rows))) }
        ensures same { OnErr result (self.new ≡ self.old) }
        ensures blocks { self.new.blocks ≡ self.old.blocks }
        ensures form { self.new.form ≡ self.old.form }
    {
        let going = gather(alloc, &self.interests, class, keys)?;
        self.drop_gathered(graces, class, &going);
        Ok(())
    }
}
