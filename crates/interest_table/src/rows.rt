//! The table of interests.

ghost use Rattle.std.specs.Prelude.{◌≡◌, ◌<◌, ◌≤◌, ◌+◌, ◌^◌, ◌++◌, ◌∷◌, ◌↔◌, ℕ, [], length, not, filter, slice_get, IfOk, OnOk, OnErr, IsOk, option_copied, ◌≢◌, Err, IsSomeAnd, IsTrue};
ghost use Rattle.voice_model.specs.State.{is_row, row_at};
ghost use Rattle.voice_model.specs.Changes.{is_expired, unlisted_keys};
ghost use Rattle.interest_table.specs.Table.{expired_keys, expired_owners, rows_of, key_bytes_of, note_bytes_of, is_named};

use crate::going::key_set;
use crate::listing::Listing;
use crate::tally::{Tally, copy_of, count_of, gain, lose};
use indexmap::IndexMap;
use std::alloc::Global;
use std::collections::HashSet;
use std::marker::Model;
use voice_model::{Class, Key, KeyList, Row};
use voice_units::{Moment, NoMemory, RopeId};

/// Why a row is not added.
#[derive(Clone, Copy, Debug, PartialEq, Eq)]
pub enum AddError {
    /// The class and key stand, for that rope.
    Taken(RopeId),
    NoMemory,
}

/// The interests, in order of making. Contracts see the list of rows, and how many more fit without memory.
#[derive(Drop)]
pub struct InterestTable {
    listing: Listing,
    tally: Tally,
}

impl Model for InterestTable {
    ghost use Rattle.interest_table.specs.Table.{Table};
    ghost use Rattle.interest_table.specs.Inside.{seen, IsTable};

    ghost Value = { Table };

    ghost view = { λ t. seen t.listing t.tally };

    ghost invariant = { λ t. IsTable t.listing t.tally };
}

impl InterestTable {
    /// A table without rows. It takes no memory.
    pub fn new(alloc: Global) -> InterestTable
        ensures { result.rows ≡ [] }
    {
        InterestTable {
            listing: Listing::new(alloc),
            tally: Tally {
                counts: IndexMap::new(alloc),
                key_bytes: 0,
                note_bytes: 0,
            },
        }
    }

    /// Makes room for n more rows. The rows stay.
    pub fn reserve(&mut self, n: u32) -> Result<(), NoMemory>
        ensures rows { self.new.rows ≡ self.old.rows }
        ensures room { OnOk result (n ≤ self.new.spare) }
        ensures spare { self.old.spare ≤ self.new.spare }
        ensures succeeds { n ≤ self.old.spare → IsOk result }
    {
        self.listing.reserve(n)?;
        self.tally.counts.reserve(n as usize)?;
        Ok(())
    }

    /// How many rows there are.
    pub fn len(&self) -> u32
        ensures { result ≡ length self.now.rows }
    {
        self.listing.len() as u32
    }

    /// The row of a class and key.
    pub fn find(&self, class: Class, key: &Key) -> Option<&Row>
        ensures { option_copied result ≡ row_at self.now.rows class key.now }
    {
        self.listing.find(class, key)
    }

    /// How many rows a rope has. They are kept counted.
    pub fn count(&self, rope: RopeId) -> u32
        ensures { result ≡ rows_of rope self.now.rows }
    {
        count_of(&self.tally.counts, rope)
    }

    /// The k-th row in order of making, from 0; `None` exactly where there are not so many.
    pub fn row(&self, k: u32) -> Option<&Row>
        ensures { option_copied result ≡ slice_get self.now.rows k }
    {
        self.listing.row(k as usize)
    }

    /// Takes out the row of a class and key, and keeps the order of the rest, whose rows stay where they are.
    pub fn remove(&mut self, class: Class, key: &Key) -> Option<Row>
        ensures value { result ≡ row_at self.old.rows class key.now }
        ensures rows { self.new.rows ≡ filter (λ row. not (is_row class key.now row)) self.old.rows }
        ensures spare { self.old.spare ≤ self.new.spare }
    {
        let Some(row) = self.listing.remove(class, key) else {
            return None;
        };
        lose(&mut self.tally, &row);
        Some(row)
    }

    /// Takes out the rows of class Until whose moment is not above this one, and keeps the order of the rest. It looks at those alone, and takes no memory.
    pub fn drop_expired(&mut self, now: Moment)
        ensures rows { self.new.rows ≡ filter (λ row. not (is_expired now row)) self.old.rows }
        ensures spare { self.old.spare ≤ self.new.spare }
    {
        while let Some(row) = self.listing.first_expired(now) {
            let class = row.class;
            let key = row.key;
            self.remove(class, &key);
        }
    }

    /// Takes out the rows of a class with these keys, and keeps the order of the rest. It finds each key's row, and takes no memory; `key_set` makes the set.
    pub fn remove_all(&mut self, class: Class, keys: &HashSet<Key>)
        ensures rows { self.new.rows ≡ filter (λ row. not (is_named class keys.now.keys row)) self.old.rows }
        ensures spare { self.old.spare ≤ self.new.spare }
    {
        for key in keys {
            self.remove(class, key);
        }
    }

    /// How many bytes the keys of all rows have. They are kept counted.
    pub fn key_bytes(&self) -> u64
        ensures { result ≡ key_bytes_of self.now.rows }
    {
        self.tally.key_bytes
    }

    /// How many bytes the notes of all rows have. They are kept counted.
    pub fn note_bytes(&self) -> u64
        ensures { result ≡ note_bytes_of self.now.rows }
    {
        self.tally.note_bytes
    }

    /// Whether the table has as many rows as it may, 2^32 - 1.
    pub fn is_full(&self) -> bool
        ensures { IsTrue result ↔ (2 ^ 32 ≤ length self.now.rows + 1) }
    {
        self.listing.len() >= u32::MAX as usize
    }

    /// Puts a row last; `Taken` exactly where its class and key stand. After either error the rows are as before. It takes no memory where there is spare room.
    pub fn add(&mut self, row: Row) -> Result<(), AddError>
        requires { length self.old.rows + 1 < 2 ^ 32 }
        ensures taken { (rope : ℕ) → (result ≡ Err (AddError.Taken rope)) ↔ IsSomeAnd (row_at self.old.rows row.class row.key) (λ other. other.rope ≡ rope) }
        ensures ok { OnOk result (self.new.rows ≡ self.old.rows ++ row ∷ []) }
        ensures err { OnErr result (self.new.rows ≡ self.old.rows) }
        ensures room { 1 ≤ self.old.spare → result ≢ Err AddError.NoMemory }
        ensures spare { self.old.spare ≤ self.new.spare + 1 }
    {
        if let Some(other) = self.find(row.class, &row.key) {
            return Err(AddError::Taken(other.rope));
        }
        let Ok(()) = self.listing.reserve(1) else {
            return Err(AddError::NoMemory);
        };
        let Ok(()) = gain(&mut self.tally, &row) else {
            return Err(AddError::NoMemory);
        };
        self.listing.put(row);
        Ok(())
    }

    /// The keys of the rows of class Until whose moment is not above this one, in order of making. It looks at those alone.
    pub fn obsolete_until(&self, moment: Moment) -> Result<KeyList, NoMemory>
        ensures { IfOk result (λ keys. keys ≡ expired_keys moment self.now.rows) }
    {
        let keys = self.listing.expired_keys(moment)?;
        Ok(KeyList::of(keys))
    }

    /// The ropes of the rows of class Until whose moment is not above this one, a rope for each row, in order of making.
    pub fn expired_ropes(&self, now: Moment) -> Result<Vec<RopeId>, NoMemory>
        ensures { IfOk result (λ ropes. ropes.items ≡ expired_owners now self.now.rows) }
    {
        self.listing.expired_ropes(now)
    }

    /// The keys of the first 65,535 rows of class Listed that a census does not name, in order of making. It looks at the rows of that class alone.
    pub fn obsolete_listed(&self, census: &KeyList) -> Result<KeyList, NoMemory>
        ensures { IfOk result (λ keys. keys ≡ unlisted_keys self.now.rows census.now) }
    {
        let named = key_set(self.listing.allocator(), census.items())?;
        let keys = self.listing.absent_keys(&named)?;
        Ok(KeyList::of(keys))
    }

    /// An equal table. Of its spare room nothing is said.
    pub fn copy(&self) -> Result<InterestTable, NoMemory>
        ensures { IfOk result (λ copy. copy.rows ≡ self.now.rows) }
    {
        let listing = self.listing.copy()?;
        let tally = copy_of(&self.tally)?;
        Ok(InterestTable { listing, tally })
    }
}
