//! Rows under stamps, found by class and key: a row lies once in memory, and its key with it.

ghost use Rattle.std.specs.Prelude.{◌≡◌, ℕ, ◌<◌, ◌≤◌, ◌+◌, List, None, Some, IsSome, cond, nat_eq, option_copied, IfSome, IfNone, IfOk, OnOk, IsOk};
ghost use Rattle.std.specs.Option.{option_map};
ghost use Rattle.std.specs.Map.{lookup};
ghost use Rattle.indexmap.specs.IndexMap.{spare};
ghost use Rattle.voice_model.specs.declared.calls.Class.{Class as AnyClass};
ghost use Rattle.interest_table.specs.Inside.{same_name, stamp_in, is_that, row_found, stamp_of, row_of, IsSame};

use indexmap::IndexMap;
use std::alloc::Global;
use std::hash::{Hash, Hasher};
use std::marker::Model;
use voice_model::{Class, Key, Note, Row};
use voice_units::{NoMemory, RopeId};

/// A row, compared and hashed by its class and key alone.
#[derive(Clone, Copy)]
pub(crate) struct NamedRow {
    row: Row,
}

impl PartialEq for NamedRow {
    ghost use Rattle.std.specs.Cmp.{partial_equiv_from_equiv};
    ghost use Rattle.std.specs.Prelude.{nat_eq};
    ghost use Rattle.std.proofs.lemmas.Cmp.{nat_list_eq_equiv, nat_eq_equiv, and_equiv, on_equiv};
    ghost use Rattle.voice_model.specs.State.{class_number};
    ghost use Rattle.interest_table.specs.Inside.{same_name};

    ghost eq = { λ a b. same_name b.row.class b.row.key a.row.class a.row.key };

    ghost laws = { partial_equiv_from_equiv (and_equiv (on_equiv (λ a. class_number a.row.class) nat_eq_equiv) (on_equiv (λ a. a.row.key) nat_list_eq_equiv)) };

    fn eq(&self, other: &NamedRow) -> bool {
        self.row.class == other.row.class && self.row.key == other.row.key
    }
}

impl Eq for NamedRow {
    ghost use Rattle.std.proofs.lemmas.Cmp.{nat_list_eq_equiv, nat_eq_equiv, and_equiv, on_equiv};
    ghost use Rattle.voice_model.specs.State.{class_number};

    ghost laws = { and_equiv (on_equiv (λ a. class_number a.row.class) nat_eq_equiv) (on_equiv (λ a. a.row.key) nat_list_eq_equiv) };
}

impl Hash for NamedRow {
    ghost use Rattle.std.specs.Prelude.{◌∷◌};
    ghost use Rattle.std.specs.Hash as fed;
    ghost use Rattle.std.proofs.Common.{ap₂};
    ghost use Rattle.std.proofs.lemmas.Bool.{eqb-true, and_parts};
    ghost use Rattle.std.proofs.lemmas.Slice.Eq.{bytes_eq-Decides};
    ghost use Rattle.voice_model.specs.State.{class_number};

    ghost hash_input = { λ a. a.row.key ∷ fed.u8 (class_number a.row.class) };

    ghost respects_eq = { λ a b h. ap₂ (λ n key. key ∷ fed.u8 n) (eqb-true (class_number a.row.class) (class_number b.row.class) (and_parts _ _ h).0) ((bytes_eq-Decides a.row.key b.row.key).0 (and_parts _ _ h).1) };

    fn hash<H: Hasher>(&self, state: &mut H) {
        let number = match self.row.class {
            Class::Held => 1,
            Class::Until => 2,
            Class::Listed => 3,
        };
        self.row.key.hash(state);
        state.write_u8(number);
    }
}

/// Rows with their stamps, and at which index each stamp's row lies. Contracts see the stamps under class and key, and the rows under stamps.
#[derive(Drop)]
pub(crate) struct StampedRows {
    rows: IndexMap<NamedRow, u64>,
    places: IndexMap<u64, usize>,
}

impl Model for StampedRows {
    ghost use Rattle.interest_table.specs.Inside as inside;

    ghost Value = { inside.Stamped };

    ghost view = { λ s. inside.stamped_of s.rows s.places };

    ghost invariant = { λ s. inside.ArePlaced s.rows.entries s.places.entries };
}

/// What a row of this class and key is looked up by: nothing else of it is compared.
fn sought(class: Class, key: &Key) -> NamedRow
    ensures class { result.row.class ≡ class }
    ensures key { result.row.key ≡ key.now }
{
    NamedRow {
        row: Row {
            class,
            key: *key,
            rope: RopeId(0),
            note: Note::new(&[]).unwrap(),
        },
    }
}

/// Places the row anew that lies at an index, if one does.
fn place_anew(rows: &IndexMap<NamedRow, u64>, places: &mut IndexMap<u64, usize>, index: usize)
    requires { (stamp : ℕ) → stamp_in rows.now.entries index ≡ Some stamp → IsSome (lookup (nat_eq stamp) places.old.entries) }
    ensures places { (other : ℕ) → lookup (nat_eq other) places.new.entries ≡ cond (is_that other (stamp_in rows.now.entries index)) (Some index) (lookup (nat_eq other) places.old.entries) }
    ensures spare { spare places.old ≤ spare places.new }
{
    let Some((_, stamp)) = rows.get_index(index) else {
        return;
    };
    let Some(place) = places.get_mut(stamp) else {
        return;
    };
    *place = index;
}

/// The same rows with their stamps.
fn copied_rows(rows: &IndexMap<NamedRow, u64>) -> Result<IndexMap<NamedRow, u64>, NoMemory>
    ensures { IfOk result (λ copy. copy.entries ≡ rows.now.entries) }
{
    Ok(rows.clone()?)
}

/// The same places.
fn copied_places(places: &IndexMap<u64, usize>) -> Result<IndexMap<u64, usize>, NoMemory>
    ensures { IfOk result (λ copy. copy.entries ≡ places.now.entries) }
{
    Ok(places.clone()?)
}

impl StampedRows {
    /// No row. It takes no memory.
    pub(crate) fn new(alloc: Global) -> StampedRows
        ensures names { (class : AnyClass) (key : List ℕ) → stamp_of result class key ≡ None }
        ensures at { (stamp : ℕ) → row_of result stamp ≡ None }
    {
        StampedRows {
            rows: IndexMap::new(alloc),
            places: IndexMap::new(alloc),
        }
    }

    /// The allocator of both parts.
    pub(crate) fn allocator(&self) -> Global {
        *self.rows.allocator()
    }

    /// The row under a stamp.
    pub(crate) fn row(&self, stamp: u64) -> Option<&Row>
        ensures { option_copied result ≡ row_of self.now stamp }
    {
        let Some(place) = self.places.get(&stamp) else {
            return None;
        };
        let Some((named, _)) = self.rows.get_index(*place) else {
            return None;
        };
        Some(&named.row)
    }

    /// The row of a class and key.
    pub(crate) fn find(&self, class: Class, key: &Key) -> Option<&Row>
        ensures { option_copied result ≡ row_found (row_of self.now) (stamp_of self.now class key.now) }
    {
        let Some((_, named, _)) = self.rows.get_full(&sought(class, key)) else {
            return None;
        };
        Some(&named.row)
    }

    /// Takes out the row of a class and key with its stamp. The last row comes into its place.
    pub(crate) fn take(&mut self, class: Class, key: &Key) -> Option<(u64, Row)>
        ensures stamp { option_map (λ taken. taken.0) result ≡ stamp_of self.old class key.now }
        ensures row { IfSome result (λ taken. row_of self.old taken.0 ≡ Some taken.1) }
        ensures names { (other : AnyClass) (text : List ℕ) → stamp_of self.new other text ≡ cond (same_name class key.now other text) None (stamp_of self.old other text) }
        ensures at { IfSome result (λ taken. (other : ℕ) → row_of self.new other ≡ cond (nat_eq taken.0 other) None (row_of self.old other)) }
        ensures same { IfNone result (IsSame self.old self.new) }
        ensures spare { self.old.spare ≤ self.new.spare }
    {
        let Some((index, named, stamp)) = self.rows.swap_remove_full(&sought(class, key)) else {
            return None;
        };
        self.places.swap_remove(&stamp);
        place_anew(&self.rows, &mut self.places, index);
        Some((stamp, named.row))
    }

    /// Puts a row under a stamp, where neither it nor its class and key stand and there is room.
    pub(crate) fn put(&mut self, stamp: u64, row: Row)
        requires fresh { stamp_of self.old row.class row.key ≡ None }
        requires unused { row_of self.old stamp ≡ None }
        requires room { 0 < self.old.spare }
        ensures names { (other : AnyClass) (text : List ℕ) → stamp_of self.new other text ≡ cond (same_name row.class row.key other text) (Some stamp) (stamp_of self.old other text) }
        ensures at { (other : ℕ) → row_of self.new other ≡ cond (nat_eq stamp other) (Some row) (row_of self.old other) }
        ensures spare { self.old.spare ≤ self.new.spare + 1 }
    {
        let index = self.rows.len();
        let Ok(_) = self.rows.insert(NamedRow { row }, stamp) else {
            return;
        };
        let Ok(_) = self.places.insert(stamp, index) else {
            return;
        };
    }

    /// Makes room for n more rows. It takes no memory where that room is there.
    pub(crate) fn reserve(&mut self, n: usize) -> Result<(), NoMemory>
        ensures same { IsSame self.old self.new }
        ensures room { OnOk result (n ≤ self.new.spare) }
        ensures spare { self.old.spare ≤ self.new.spare }
        ensures succeeds { n ≤ self.old.spare → IsOk result }
    {
        self.rows.reserve(n)?;
        self.places.reserve(n)?;
        Ok(())
    }

    /// Equal rows under the same stamps. Of their spare room nothing is said.
    pub(crate) fn copy(&self) -> Result<StampedRows, NoMemory>
        ensures { IfOk result (IsSame self.now) }
    {
        let rows = copied_rows(&self.rows)?;
        let places = copied_places(&self.places)?;
        Ok(StampedRows { rows, places })
    }
}
