//! Rows in order of making, each under a stamp that rises: a row goes without moving those behind it.

ghost use Rattle.std.specs.Prelude.{◌≡◌, ◌<◌, ◌≤◌, ◌+◌, ◌++◌, ◌∷◌, [], true, None, Some, length, not, filter, map, slice_get, option_copied, IfSome, IfNone, IfOk, OnOk, IsOk};
ghost use Rattle.voice_model.specs.State.{is_row, row_at};
ghost use Rattle.interest_table.specs.Inside.{row_in};
ghost use Rattle.interest_table.specs.Table.{expired_keys, expired_owners};
ghost use Rattle.voice_model.specs.Changes.{is_expired, unlisted_keys};

use crate::expiries::{Expiry, due_stamps, first_due, gain_expiry, lose_expiry};
use crate::gather::{keys_under, push_absent, ropes_under};
use crate::stamped::StampedRows;
use crate::stamps::{gain_listed, lose_listed, put_stamp, take_stamp};
use counted_row::CountedRow;
use std::alloc::Global;
use std::collections::HashSet;
use std::marker::Model;
use voice_model::{Class, Key, Row};
use voice_units::{Moment, NoMemory, RopeId};

/// How many stamps there are.
const STAMPS: u64 = 1 << 63;

/// Rows in order of making. Contracts see them with their stamps.
#[derive(Drop)]
pub(crate) struct Listing {
    rows: StampedRows,
    order: CountedRow<u64>,
    expiries: CountedRow<Expiry>,
    listed: CountedRow<u64>,
    next: u64,
}

impl Model for Listing {
    ghost use Rattle.interest_table.specs.Inside as inside;

    ghost Value = { inside.Listing };

    ghost view = { λ l. inside.list_of l.rows l.order l.expiries l.listed l.next };

    ghost invariant = { λ l. inside.IsTimed (inside.stamp_of l.rows) (inside.row_of l.rows) l.order.items l.expiries.items l.listed.items l.next };
}

/// Puts copies of values behind those of a row.
fn push_copies<T: Copy + Drop>(row: &mut CountedRow<T>, values: &[T]) -> Result<(), NoMemory>
    ensures { OnOk result (row.new.items ≡ row.old.items ++ values.now) }
{
    for value in values {
        row.push(*value)?;
    }
    Ok(())
}

/// The same values in order.
fn copied<T: Copy + Drop>(alloc: Global, row: &CountedRow<T>) -> Result<CountedRow<T>, NoMemory>
    ensures { IfOk result (λ copy. copy.items ≡ row.now.items) }
{
    let mut copy = CountedRow::new(alloc);
    copy.reserve(row.len())?;
    let mut place = 0;
    while let Some(run) = row.run(place) {
        push_copies(&mut copy, run)?;
        place += run.len();
    }
    Ok(copy)
}

impl Listing {
    /// No row. It takes no memory.
    pub(crate) fn new(alloc: Global) -> Listing
        ensures { result.entries ≡ [] }
    {
        Listing {
            rows: StampedRows::new(alloc),
            order: CountedRow::new(alloc),
            expiries: CountedRow::new(alloc),
            listed: CountedRow::new(alloc),
            next: 0,
        }
    }

    /// The allocator of all parts.
    pub(crate) fn allocator(&self) -> Global {
        self.rows.allocator()
    }

    /// How many rows there are.
    pub(crate) fn len(&self) -> usize
        ensures { result ≡ length self.now.entries }
    {
        self.order.len()
    }

    /// The row of a class and key.
    pub(crate) fn find(&self, class: Class, key: &Key) -> Option<&Row>
        ensures { option_copied result ≡ row_at (map row_in self.now.entries) class key.now }
    {
        self.rows.find(class, key)
    }

    /// The k-th row.
    pub(crate) fn row(&self, k: usize) -> Option<&Row>
        ensures { option_copied result ≡ slice_get (map row_in self.now.entries) k }
    {
        let Some(stamp) = self.order.get(k) else {
            return None;
        };
        self.rows.row(*stamp)
    }

    /// The row that expires first, if its moment is not above this one.
    pub(crate) fn first_expired(&self, now: Moment) -> Option<&Row>
        ensures some { IfSome result (λ row. (is_expired now row.now ≡ true) × (row_at (map row_in self.now.entries) row.now.class row.now.key ≡ Some row.now)) }
        ensures none { IfNone result (filter (λ e. not (is_expired now e.1)) self.now.entries ≡ self.now.entries) }
    {
        let Some(stamp) = first_due(&self.expiries, now) else {
            return None;
        };
        let Some(row) = self.rows.row(stamp) else {
            return None;
        };
        Some(row)
    }

    /// The stamps of the rows of class Until whose moment is not above this one, in order of making.
    fn expired(&self, now: Moment) -> Result<Vec<u64>, NoMemory>
        ensures { IfOk result (λ stamps. stamps.items ≡ map (λ e. e.0) (filter (λ e. is_expired now e.1) self.now.entries)) }
    {
        due_stamps(self.rows.allocator(), &self.expiries, now)
    }

    /// The keys of those rows.
    pub(crate) fn expired_keys(&self, now: Moment) -> Result<Vec<Key>, NoMemory>
        ensures { IfOk result (λ keys. keys.items ≡ expired_keys now (map row_in self.now.entries)) }
    {
        let stamps = self.expired(now)?;
        keys_under(&self.rows, &stamps)
    }

    /// The ropes of those rows, one for each.
    pub(crate) fn expired_ropes(&self, now: Moment) -> Result<Vec<RopeId>, NoMemory>
        ensures { IfOk result (λ ropes. ropes.items ≡ expired_owners now (map row_in self.now.entries)) }
    {
        let stamps = self.expired(now)?;
        ropes_under(&self.rows, &stamps)
    }

    /// The keys of the first 65,535 rows of class Listed that are not named, in order of making. It looks at the rows of that class alone, and at no further run once there are so many keys.
    pub(crate) fn absent_keys(&self, named: &HashSet<Key>) -> Result<Vec<Key>, NoMemory>
        ensures { IfOk result (λ keys. keys.items ≡ unlisted_keys (map row_in self.now.entries) named.now.keys) }
    {
        let _len = self.listed.len();
        let mut keys = Vec::new(self.rows.allocator());
        let mut place = 0;
        while let Some(run) = self.listed.run(place) {
            push_absent(&mut keys, &self.rows, run, named)?;
            if keys.len() >= 65_535 {
                return Ok(keys);
            }
            place += run.len();
        }
        Ok(keys)
    }

    /// Takes out the row of a class and key.
    pub(crate) fn remove(&mut self, class: Class, key: &Key) -> Option<Row>
        ensures value { result ≡ row_at (map row_in self.old.entries) class key.now }
        ensures entries { self.new.entries ≡ filter (λ e. not (is_row class key.now e.1)) self.old.entries }
        ensures spare { self.old.spare ≤ self.new.spare }
    {
        let Some((stamp, row)) = self.rows.take(class, key) else {
            return None;
        };
        take_stamp(&mut self.order, stamp);
        lose_expiry(&mut self.expiries, &row, stamp);
        lose_listed(&mut self.listed, &row, stamp);
        Some(row)
    }

    /// Makes room for n more rows. It takes no memory where that room is there.
    pub(crate) fn reserve(&mut self, n: u32) -> Result<(), NoMemory>
        ensures entries { self.new.entries ≡ self.old.entries }
        ensures room { OnOk result (n ≤ self.new.spare) }
        ensures spare { self.old.spare ≤ self.new.spare }
        ensures succeeds { n ≤ self.old.spare → IsOk result }
    {
        if u64::from(n) > STAMPS - self.next {
            return Err(NoMemory);
        }
        self.rows.reserve(n as usize)?;
        self.order.reserve(n as usize)?;
        self.expiries.reserve(n as usize)?;
        self.listed.reserve(n as usize)?;
        Ok(())
    }

    /// Puts a row last whose class and key do not stand, where there is room.
    pub(crate) fn put(&mut self, row: Row)
        requires fresh { row_at (map row_in self.old.entries) row.class row.key ≡ None }
        requires room { 0 < self.old.spare }
        ensures entries { self.new.entries ≡ self.old.entries ++ (self.old.next, row) ∷ [] }
        ensures spare { self.old.spare ≤ self.new.spare + 1 }
    {
        let stamp = self.next;
        gain_expiry(&mut self.expiries, &row, stamp);
        gain_listed(&mut self.listed, &row, stamp);
        self.rows.put(stamp, row);
        put_stamp(&mut self.order, stamp);
        self.next += 1;
    }

    /// Equal rows. Of their spare room nothing is said.
    pub(crate) fn copy(&self) -> Result<Listing, NoMemory>
        ensures { IfOk result (λ copy. copy.entries ≡ self.now.entries) }
    {
        let rows = self.rows.copy()?;
        let order = copied(self.rows.allocator(), &self.order)?;
        let expiries = copied(self.rows.allocator(), &self.expiries)?;
        let listed = copied(self.rows.allocator(), &self.listed)?;
        Ok(Listing {
            rows,
            order,
            expiries,
            listed,
            next: self.next,
        })
    }
}
