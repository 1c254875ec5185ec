//! A table of interests through a day: what stands, what is obsolete, and in which order.

use crate::asserts::{assert_four, assert_number};
use interest_table::{AddError, InterestTable, key_set};
use std::alloc::Global;
use std::collections::HashSet;
use std::process::Abort;
use std::test::Fail;
use voice_model::{Class, Key, KeyList, Note, Row};
use voice_units::{Moment, NoMemory, RopeId};

const TAKEN: u64 = 777;

// Where a call is refused for another reason than that its row stands.
const REFUSED: u64 = 999;

fn row_of(class: Class, key: &[u8], rope: u32, note: &[u8]) -> Option<Row> {
    let Ok(key) = Key::new(key) else {
        return None;
    };
    let Ok(note) = Note::new(note) else {
        return None;
    };
    Some(Row {
        class,
        key,
        rope: RopeId(u64::from(rope)),
        note,
    })
}

// 0 where the row comes, TAKEN where its class and key stand, or REFUSED.
fn add_row(table: &mut InterestTable, row: Row) -> u64 {
    if table.is_full() {
        return REFUSED;
    }
    match table.add(row) {
        Ok(()) => 0,
        Err(AddError::Taken(_)) => TAKEN,
        Err(AddError::NoMemory) => REFUSED,
    }
}

fn add(table: &mut InterestTable, class: Class, key: &[u8], rope: u32, note: &[u8]) -> u64 {
    let Some(row) = row_of(class, key, rope, note) else {
        return REFUSED;
    };
    add_row(table, row)
}

// The rope of the row that goes, or 0.
fn remove(table: &mut InterestTable, class: Class, key: &[u8]) -> u64 {
    let Ok(key) = Key::new(key) else {
        return REFUSED;
    };
    let Some(row) = table.remove(class, &key) else {
        return 0;
    };
    row.rope.0
}

// The rope of the row that stands, or 0.
fn find(table: &InterestTable, class: Class, key: &[u8]) -> u64 {
    let Ok(key) = Key::new(key) else {
        return REFUSED;
    };
    let Some(row) = table.find(class, &key) else {
        return 0;
    };
    row.rope.0
}

// The rope of the k-th row, or 0.
fn rope_at(table: &InterestTable, k: u32) -> u64 {
    let Some(row) = table.row(k) else {
        return 0;
    };
    row.rope.0
}

// How many rows are expired at a moment.
fn expired(table: &InterestTable, moment: u32) -> Result<u64, NoMemory> {
    let keys = table.obsolete_until(Moment(u64::from(moment)))?;
    Ok(keys.items().len() as u64)
}

// One row is expired from moment 30 on, the other from 256 on.
fn assert_expired(rt: &impl Abort, table: &InterestTable) -> Result<(), NoMemory> {
    for (moment, wanted) in [(29, 0), (30, 1), (255, 1), (256, 2)] {
        let found = expired(table, moment)?;
        assert_number(rt, found, wanted);
    }
    Ok(())
}

fn named(alloc: Global, key: &[u8]) -> Result<KeyList, NoMemory> {
    let Ok(key) = Key::new(key) else {
        return Err(NoMemory);
    };
    let mut named = Vec::new(alloc);
    named.push(key)?;
    Ok(KeyList::of(named))
}

// How many rows a census drops that names this key alone.
fn unlisted(alloc: Global, table: &InterestTable, key: &[u8]) -> Result<u64, NoMemory> {
    let named = named(alloc, key)?;
    let keys = table.obsolete_listed(&named)?;
    Ok(keys.items().len() as u64)
}

// A key of class Listed leaves one row of that class; one of another class leaves both.
fn assert_unlisted(rt: &impl Abort, alloc: Global, table: &InterestTable) -> Result<(), NoMemory> {
    let listed = unlisted(alloc, table, b"n")?;
    let held = unlisted(alloc, table, b"h")?;
    assert_number(rt, listed, 1);
    assert_number(rt, held, 2);
    Ok(())
}

// A call of a table.
#[derive(Clone, Copy)]
enum Call {
    Hold(u32),
    List(u32),
    Remove,
    Find,
    FindUntil,
}

// What a call answers for a key, with this note where a row comes.
fn answer(table: &mut InterestTable, call: Call, key: &[u8], note: &[u8]) -> u64 {
    match call {
        Call::Hold(rope) => add(table, Class::Held, key, rope, note),
        Call::List(rope) => add(table, Class::Listed, key, rope, note),
        Call::Remove => remove(table, Class::Held, key),
        Call::Find => find(table, Class::Held, key),
        Call::FindUntil => find(table, Class::Until, key),
    }
}

// How many of these calls do not answer what stands beside them.
fn wrong_answers(table: &mut InterestTable, calls: &[(Call, &[u8], &[u8], u64)]) -> u64 {
    let mut wrong: u64 = 0;
    for (call, key, note, wanted) in calls {
        if answer(table, *call, key, note) != *wanted {
            wrong = wrong.wrapping_add(1);
        }
    }
    wrong
}

// Three rows come, a fourth is refused, one goes.
fn wrong_in_order(table: &mut InterestTable) -> u64 {
    let calls: [(Call, &[u8], &[u8], u64); 8] = [
        (Call::Hold(1), b"k", b"", 0),
        (Call::List(2), b"k", b"", 0),
        (Call::Hold(2), b"k", b"hi", TAKEN),
        (Call::Hold(1), b"m", b"hi", 0),
        (Call::Remove, b"k", b"", 1),
        (Call::Remove, b"k", b"", 0),
        (Call::Find, b"m", b"", 1),
        (Call::FindUntil, b"m", b"", 0),
    ];
    wrong_answers(table, &calls)
}

fn ropes_of(table: &InterestTable) -> [u64; 4] {
    [
        rope_at(table, 0),
        rope_at(table, 1),
        rope_at(table, 2),
        u64::from(table.count(RopeId(1))),
    ]
}

// A copy has the same ropes.
fn assert_copy(rt: &impl Abort, table: &InterestTable, wanted: [u64; 4]) -> Result<(), Fail> {
    let copy = table.copy()?;
    assert_four(rt, ropes_of(&copy), wanted);
    Ok(())
}

fn assert_in_order(rt: &impl Abort, table: &mut InterestTable) -> Result<(), Fail> {
    assert_number(rt, wrong_in_order(table), 0);
    assert_four(rt, ropes_of(table), [2, 1, 0, 1]);
    assert_copy(rt, table, [2, 1, 0, 1])
}

#[test]
fn rows_stand_in_order(rt: HostRuntime) -> Result<(), Fail> {
    let mut table = InterestTable::new(rt.alloc());
    assert_in_order(&rt, &mut table)
}

// How many of these rows are refused.
fn fill_with(table: &mut InterestTable, rows: &[(Class, &[u8], u32, &[u8])]) -> u64 {
    let mut refused: u64 = 0;
    for (class, key, rope, note) in rows {
        if add(table, *class, key, *rope, note) != 0 {
            refused = refused.wrapping_add(1);
        }
    }
    refused
}

fn fill(table: &mut InterestTable) -> u64 {
    let rows: [(Class, &[u8], u32, &[u8]); 5] = [
        (Class::Until, b"u", 1, &[0, 0, 0, 0, 0, 0, 0, 30]),
        (Class::Listed, b"m", 2, b""),
        (Class::Until, b"v", 1, &[0, 0, 0, 0, 0, 0, 1, 0]),
        (Class::Listed, b"n", 2, b""),
        (Class::Held, b"h", 2, &[0, 0, 0, 0, 0, 0, 0, 1]),
    ];
    fill_with(table, &rows)
}

// The rows come where there is room for them. One of class Until goes at its moment; one of class Listed where no census names it; one of class Held never.
fn assert_obsolete(
    rt: &impl Abort,
    alloc: Global,
    table: &mut InterestTable,
) -> Result<(), NoMemory> {
    table.reserve(5)?;
    assert_number(rt, fill(table), 0);
    assert_expired(rt, table)?;
    assert_unlisted(rt, alloc, table)
}

#[test]
fn obsolete_rows(rt: HostRuntime) -> Result<(), NoMemory> {
    let mut table = InterestTable::new(rt.alloc());
    assert_obsolete(&rt, rt.alloc(), &mut table)
}

// The bytes of keys and of notes, the rows of rope 2, and the rope of the third row.
fn sizes_of(table: &InterestTable) -> [u64; 4] {
    [
        table.key_bytes(),
        table.note_bytes(),
        u64::from(table.count(RopeId(2))),
        rope_at(table, 2),
    ]
}

fn sizes_expired(alloc: Global) -> [u64; 4] {
    let mut table = InterestTable::new(alloc);
    fill(&mut table);
    table.drop_expired(Moment(30));
    sizes_of(&table)
}

fn set_of(alloc: Global, key: &[u8]) -> Result<HashSet<Key>, NoMemory> {
    let Ok(key) = Key::new(key) else {
        return Err(NoMemory);
    };
    key_set(alloc, &[key])
}

fn sizes_unlisted(alloc: Global, named: &HashSet<Key>) -> [u64; 4] {
    let mut table = InterestTable::new(alloc);
    fill(&mut table);
    table.remove_all(Class::Listed, named);
    sizes_of(&table)
}

// Rows that go in one pass leave the others in order and counted.
#[test]
fn rows_go_at_once(rt: HostRuntime) -> Result<(), Fail> {
    assert_four(&rt, sizes_expired(rt.alloc()), [4, 16, 3, 2]);
    let named = set_of(rt.alloc(), b"n")?;
    assert_four(&rt, sizes_unlisted(rt.alloc(), &named), [4, 24, 2, 1]);
    Ok(())
}

// Moments out of order, two and two equal; one spelled in 9 bytes, and one above 2^64.
fn fill_moments(table: &mut InterestTable) -> u64 {
    let rows: [(Class, &[u8], u32, &[u8]); 5] = [
        (Class::Until, b"c", 3, &[0, 9]),
        (Class::Until, b"a", 1, &[7]),
        (Class::Until, b"d", 4, &[0, 0, 0, 0, 0, 0, 0, 0, 7]),
        (Class::Until, b"e", 5, &[1, 0, 0, 0, 0, 0, 0, 0, 1]),
        (Class::Until, b"b", 2, &[9]),
    ];
    fill_with(table, &rows)
}

// The ropes of the rows that are expired at a moment, as the digits of a number.
fn ropes_until(table: &InterestTable, moment: u32) -> Result<u64, NoMemory> {
    let ropes = table.expired_ropes(Moment(u64::from(moment)))?;
    let mut digits: u64 = 0;
    for rope in &ropes {
        digits = digits.wrapping_mul(10).wrapping_add(rope.0);
    }
    Ok(digits)
}

// The ropes by moment 6, 7 and 9.
fn assert_until(rt: &impl Abort, table: &InterestTable) -> Result<(), NoMemory> {
    for (moment, wanted) in [(6, 0), (7, 14), (9, 3142)] {
        let ropes = ropes_until(table, moment)?;
        assert_number(rt, ropes, wanted);
    }
    Ok(())
}

// The first three ropes and the count of the first, once the rows until a moment went.
fn ropes_after(table: &mut InterestTable, moment: u32) -> [u64; 4] {
    table.drop_expired(Moment(u64::from(moment)));
    ropes_of(table)
}

fn assert_by_moment(rt: &impl Abort, table: &mut InterestTable) -> Result<(), NoMemory> {
    assert_number(rt, fill_moments(table), 0);
    assert_until(rt, table)?;
    assert_four(rt, ropes_after(table, 8), [3, 5, 2, 0]);
    assert_four(rt, ropes_after(table, 9), [5, 0, 0, 0]);
    Ok(())
}

// Rows that are expired are told in order of making, however their moments stand.
#[test]
fn rows_go_by_moment(rt: HostRuntime) -> Result<(), NoMemory> {
    let mut table = InterestTable::new(rt.alloc());
    assert_by_moment(&rt, &mut table)
}

// A row comes under the bytes of its number.
fn add_number(table: &mut InterestTable, number: u32) -> u64 {
    let rope = number.saturating_add(1);
    add(table, Class::Held, &number.to_be_bytes(), rope, b"")
}

// How many of a thousand rows, in order under the bytes of their numbers, are refused.
fn fill_many(table: &mut InterestTable) -> u64 {
    let mut refused: u64 = 0;
    for k in 0..1000u32 {
        if add_number(table, k) != 0 {
            refused = refused.wrapping_add(1);
        }
    }
    refused
}

// The rope of the row of a number that goes, or 0.
fn remove_number(table: &mut InterestTable, number: u32) -> u64 {
    remove(table, Class::Held, &number.to_be_bytes())
}

// The first row goes, then one in the middle, then the last, then none.
fn remove_some(table: &mut InterestTable) -> [u64; 4] {
    let first = remove_number(table, 0);
    let middle = remove_number(table, 500);
    let last = remove_number(table, 999);
    let none = remove_number(table, 500);
    [first, middle, last, none]
}

// How many rows from a place on have not the ropes that rise by one from a first rope on.
fn wrong(table: &InterestTable, from: u32, to: u32, rope: u64) -> u64 {
    let mut wrong: u64 = 0;
    let mut due = rope;
    for k in from..to {
        if rope_at(table, k) != due {
            wrong = wrong.wrapping_add(1);
        }
        due = due.wrapping_add(1);
    }
    wrong
}

fn order_of(table: &InterestTable) -> [u64; 4] {
    [
        wrong(table, 0, 499, 2),
        wrong(table, 499, 997, 502),
        rope_at(table, 997),
        rope_at(table, 998),
    ]
}

// A row that comes again in the place of one that went is the last.
fn assert_many(rt: &impl Abort, table: &mut InterestTable) {
    assert_number(rt, fill_many(table), 0);
    assert_four(rt, remove_some(table), [1, 501, 1000, 0]);
    assert_number(rt, add_number(table, 500), 0);
    assert_four(rt, order_of(table), [0, 0, 501, 0]);
}

#[test]
fn many_rows_keep_their_order(rt: HostRuntime) {
    let mut table = InterestTable::new(rt.alloc());
    assert_many(&rt, &mut table);
}
