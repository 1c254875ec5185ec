//! Small sweeps and releases, and what each gives.

ghost use Rattle.std.specs.Prelude.{◌≡◌, ◌+◌, ◌<◌, ◌≤◌};
ghost use Rattle.voice_units.specs.Blocks.{BlockPair};
ghost use Rattle.rope_table.specs.Table.{uses_at};
ghost use Rattle.collector.specs.Due.{AreKept};

use collector::{first, release};
use interest_table::{InterestTable, Row};
use rope_table::{Pieces, RopeTable};
use std::alloc::Global;
use std::marker::Brand;
use std::sync::ledger::{Blank, Ledger};
use std::test::Fail;
use voice_blocks::BlockMap;
use voice_model::{Class, Key, Note, RopeList};
use voice_units::{Moment, NoMemory, Piece, RopeId, Steps};

/// The samples of a block in these tests.
const BLOCK: u32 = 8;

// The first samples of file 1, at most 16.
fn front(alloc: Global, len: u32) -> Result<Pieces, NoMemory> {
    if len > 16 {
        return Err(NoMemory);
    }
    Pieces::one(
        alloc,
        Piece {
            file: RopeId(1),
            from: 0,
            len,
        },
    )
}

// A rope that no row names comes into the table. So many came before.
fn add(
    table: &mut RopeTable,
    interests: &InterestTable,
    before: u32,
    id: RopeId,
    pieces: Pieces,
    idle: Moment,
) -> Result<(), NoMemory>
    requires few { before < 1000 }
    requires uses { (pair : BlockPair) → uses_at table.old pair ≤ before }
    ensures uses { (pair : BlockPair) → uses_at table.new pair ≤ before + 1 }
    ensures kept { AreKept interests.now.rows table.old.ropes → AreKept interests.now.rows table.new.ropes }
{
    table.reserve(pieces.length())?;
    if table.get(id).is_some() {
        return Err(NoMemory);
    }
    if interests.count(id) > 0 {
        return Err(NoMemory);
    }
    table.add(id, pieces, idle, 0, 60);
    Ok(())
}

// A rope that has the first samples of file 1 and that no row names comes into the table. So many came before.
fn put(
    alloc: Global,
    table: &mut RopeTable,
    interests: &InterestTable,
    before: u32,
    len: u32,
    idle: Moment,
) -> Result<(), NoMemory>
    requires few { before < 1000 }
    requires uses { (pair : BlockPair) → uses_at table.old pair ≤ before }
    ensures uses { (pair : BlockPair) → uses_at table.new pair ≤ before + 1 }
    ensures kept { AreKept interests.now.rows table.old.ropes → AreKept interests.now.rows table.new.ropes }
{
    let pieces = front(alloc, len)?;
    add(
        table,
        interests,
        before,
        RopeId(u64::from(before) + 1),
        pieces,
        idle,
    )
}

// Ropes 1 and 2 are idle since 0, and rope 3 since 60.
fn put_three(
    alloc: Global,
    table: &mut RopeTable,
    interests: &InterestTable,
) -> Result<(), NoMemory>
    requires uses { (pair : BlockPair) → uses_at table.old pair ≤ 0 }
    ensures kept { AreKept interests.now.rows table.old.ropes → AreKept interests.now.rows table.new.ropes }
{
    put(alloc, table, interests, 0, 8, Moment(0))?;
    put(alloc, table, interests, 1, 8, Moment(0))?;
    put(alloc, table, interests, 2, 8, Moment(60))
}

// Rope 1 is a recording of 16 samples, and rope 2 an edit that has the first ones.
fn put_recording(
    alloc: Global,
    table: &mut RopeTable,
    interests: &InterestTable,
    len: u32,
) -> Result<(), NoMemory>
    requires { (pair : BlockPair) → uses_at table.old pair ≤ 0 }
{
    put(alloc, table, interests, 0, 16, Moment(0))?;
    put(alloc, table, interests, 1, len, Moment(0))
}

// The row of rope 1.
fn row_of(class: Class, moment: u8) -> Option<Row> {
    let Ok(key) = Key::new(b"k") else {
        return None;
    };
    let Ok(note) = Note::new(&[0, 0, 0, 0, 0, 0, 0, moment]) else {
        return None;
    };
    Some(Row {
        class,
        key,
        rope: RopeId(1),
        note,
    })
}

// A row comes, and keeps its rope.
fn keep_rope(table: &mut RopeTable, interests: &mut InterestTable, row: Row) -> Result<(), NoMemory>
    ensures { AreKept interests.old.rows table.old.ropes → AreKept interests.new.rows table.new.ropes }
{
    if interests.is_full() {
        return Err(NoMemory);
    }
    let rope = row.rope;
    match interests.add(row) {
        Ok(()) => {
            table.keep(rope, true);
            Ok(())
        }
        Err(_) => Err(NoMemory),
    }
}

// The number of the k-th of these ropes, or 0.
fn number_at(ids: &[RopeId], k: usize) -> u64 {
    match ids.get(k) {
        Some(id) => id.0,
        None => 0,
    }
}

// The first three ropes that a sweep at 60 removes, 0 where there are not so many.
fn swept<L: Ledger>(
    alloc: Global,
    table: &RopeTable,
    interests: &InterestTable,
    until: u32,
    limit: u16,
    blank: Blank,
) -> Result<[u64; 3], NoMemory>
    requires name { blank.name ≡ L.name }
    requires parts { blank.parts ≡ L.parts }
    requires one { blank.parts ≡ 1 }
    requires kept { AreKept interests.now.rows table.now.ropes }
{
    let mut steps = Steps::<L>::new(blank);
    let gone = first(
        alloc,
        table,
        interests,
        Moment(60),
        until,
        limit,
        &mut steps,
    )?;
    let ids = gone.items();
    Ok([number_at(ids, 0), number_at(ids, 1), number_at(ids, 2)])
}

// How many blocks become free where ropes go, and how many are free then.
fn released<L: Ledger>(
    table: &mut RopeTable,
    blocks: &mut BlockMap,
    ropes: &RopeList,
    blank: Blank,
) -> [u32; 2]
    requires name { blank.name ≡ L.name }
    requires parts { blank.parts ≡ L.parts }
    requires one { blank.parts ≡ 1 }
{
    let mut steps = Steps::<L>::new(blank);
    let freed = release(table, blocks, ropes, &mut steps);
    [freed.blocks, blocks.free()]
}

// What a sweep removes where no rope has a row.
fn swept_bare(alloc: Global, limit: u16) -> Result<[u64; 3], NoMemory> {
    let interests = InterestTable::new(alloc);
    let mut table = RopeTable::new(alloc, BLOCK);
    put_three(alloc, &mut table, &interests)?;
    swept::<Brand>(alloc, &table, &interests, 60, limit, Blank::new(1))
}

// Three ropes come, and then a row of the first.
fn put_kept(
    alloc: Global,
    table: &mut RopeTable,
    interests: &mut InterestTable,
    row: Row,
) -> Result<(), NoMemory>
    requires { (pair : BlockPair) → uses_at table.old pair ≤ 0 }
    ensures { AreKept interests.old.rows table.old.ropes → AreKept interests.new.rows table.new.ropes }
{
    put_three(alloc, table, interests)?;
    keep_rope(table, interests, row)
}

// What a sweep removes where rope 1 has a row, of class Until with this moment, or else of class Held.
fn swept_kept(alloc: Global, class: Class, moment: u8, until: u32) -> Result<[u64; 3], NoMemory> {
    let Some(row) = row_of(class, moment) else {
        return Err(NoMemory);
    };
    let mut interests = InterestTable::new(alloc);
    let mut table = RopeTable::new(alloc, BLOCK);
    put_kept(alloc, &mut table, &mut interests, row)?;
    swept::<Brand>(alloc, &table, &interests, until, 9, Blank::new(1))
}

#[test]
fn ropes_go_once_they_were_idle_for_their_wait(rt: HostRuntime) -> Result<(), Fail> {
    let rows = [(0, [0, 0, 0]), (1, [1, 0, 0]), (9, [1, 2, 0])];
    for (limit, wanted) in rows {
        assert_eq!(rt; swept_bare(rt.alloc(), limit)?, wanted);
    }
    Ok(())
}

// A row keeps its rope until it is expired. A rope that loses its last row waits for the grace of its class.
#[test]
fn rows_keep_ropes(rt: HostRuntime) -> Result<(), Fail> {
    let rows = [
        (Class::Held, 0, 0, [2, 0, 0]),
        (Class::Until, 0, 0, [1, 2, 0]),
        (Class::Until, 60, 0, [1, 2, 0]),
        (Class::Until, 61, 0, [2, 0, 0]),
        (Class::Until, 0, 60, [2, 0, 0]),
    ];
    for (class, moment, until, wanted) in rows {
        assert_eq!(rt; swept_kept(rt.alloc(), class, moment, until)?, wanted);
    }
    Ok(())
}

// A block of file 1 comes to the address of its number.
fn place(blocks: &mut BlockMap, index: u32) -> Result<(), NoMemory> {
    blocks.reserve(1)?;
    if blocks.place(RopeId(1), index, index) {
        return Ok(());
    }
    Err(NoMemory)
}

fn place_both(blocks: &mut BlockMap) -> Result<(), NoMemory> {
    place(blocks, 0)?;
    place(blocks, 1)
}

fn two_of_four(alloc: Global) -> Result<BlockMap, NoMemory> {
    let mut blocks = BlockMap::new(alloc, 4)?;
    place_both(&mut blocks)?;
    Ok(blocks)
}

fn recording(alloc: Global, len: u32) -> Result<RopeTable, NoMemory> {
    let mut table = RopeTable::new(alloc, BLOCK);
    put_recording(alloc, &mut table, &InterestTable::new(alloc), len)?;
    Ok(table)
}

fn first_rope(alloc: Global) -> Result<RopeList, NoMemory> {
    let mut ids = Vec::new(alloc);
    ids.push(RopeId(1))?;
    Ok(RopeList::of(ids))
}

// How many blocks are free once a recording of 16 samples went, of which an edit has the first ones.
fn freed_beside(alloc: Global, len: u32) -> Result<[u32; 2], NoMemory> {
    let ropes = first_rope(alloc)?;
    let mut table = recording(alloc, len)?;
    let mut blocks = two_of_four(alloc)?;
    Ok(released::<Brand>(&mut table, &mut blocks, &ropes, Blank::new(1)))
}

#[test]
fn blocks_go_that_no_edit_uses(rt: HostRuntime) -> Result<(), Fail> {
    for (len, wanted) in [(9, [0, 2]), (8, [1, 3]), (0, [2, 4])] {
        assert_eq!(rt; freed_beside(rt.alloc(), len)?, wanted);
    }
    Ok(())
}
