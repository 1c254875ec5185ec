ghost use Rattle.std.specs.Prelude.{◌≡◌, ◌+◌, ◌<◌, ◌≤◌, ◌^◌, ◌∷◌, [], length, IfOk};
ghost use Rattle.voice_units.specs.Blocks.{BlockPair};
ghost use Rattle.rope_table.specs.Table.{uses_at, Counts};

use rope_algebra::Pieces;
use rope_table::RopeTable;
use std::alloc::Global;
use std::marker::Brand;
use std::sync::ledger::{Blank, Ledger};
use std::test::Fail;
use voice_units::{Moment, NoMemory, Piece, RopeId, Steps};

/// The samples of a block in these tests.
const BLOCK: u32 = 32;

// A table with room for one more rope of these pieces gets it, unless the number is live. So many ropes and passages came before.
fn put(
    table: &mut RopeTable,
    before: u32,
    id: RopeId,
    pieces: Pieces,
    idle: Moment,
    wait: u32,
) -> Result<(), NoMemory>
    requires few { before < 2000 }
    requires uses { (pair : BlockPair) → uses_at table.old pair ≤ before }
    ensures uses { (pair : BlockPair) → uses_at table.new pair ≤ before + 1 }
    ensures counts { Counts table.old [] → Counts table.new [] }
{
    table.reserve(pieces.length())?;
    if table.get(id).is_some() {
        return Err(NoMemory);
    }
    table.add(id, pieces, idle, 0, wait);
    Ok(())
}

// The pieces of a rope of 32 samples of its own file.
fn one_block(alloc: Global, id: u16) -> Result<Pieces, NoMemory> {
    Pieces::one(
        alloc,
        Piece {
            file: RopeId(u64::from(id)),
            from: 0,
            len: BLOCK,
        },
    )
}

fn of_three(alloc: Global) -> Result<RopeTable, NoMemory>
    ensures { IfOk result (λ table. (pair : BlockPair) → uses_at table pair ≤ 3) }
{
    let mut table = RopeTable::new(alloc, BLOCK);
    put(
        &mut table,
        0,
        RopeId(1),
        one_block(alloc, 1)?,
        Moment(0),
        60,
    )?;
    put(
        &mut table,
        1,
        RopeId(2),
        one_block(alloc, 2)?,
        Moment(0),
        60,
    )?;
    put(
        &mut table,
        2,
        RopeId(3),
        one_block(alloc, 3)?,
        Moment(60),
        60,
    )?;
    Ok(table)
}

// Whether these are the first in the order in which ropes are due, and no more are.
fn are_due<L: Ledger>(table: &RopeTable, blank: Blank, wanted: &[(u64, u64)]) -> bool
    requires name { blank.name ≡ L.name }
    requires parts { blank.parts ≡ L.parts }
    requires one { blank.parts ≡ 1 }
    requires few { length wanted.now < 2 ^ 32 }
{
    let mut steps = Steps::<L>::new(blank);
    for (k, &(at, id)) in wanted.iter().enumerate() {
        let Some((moment, rope)) = table.due(k as u32, &mut steps) else {
            return false;
        };
        if moment != at || rope.number() != id {
            return false;
        }
    }
    table.due(wanted.len() as u32, &mut steps).is_none()
}

fn due_are(table: &RopeTable, wanted: &[(u64, u64)]) -> bool
    requires { length wanted.now < 2 ^ 32 }
{
    are_due::<Brand>(table, Blank::new(1), wanted)
}

// Whether the live ropes have so many blocks, files and pieces.
fn live_are(table: &RopeTable, blocks: u64, files: u64, pieces: u64) -> bool {
    table.live_blocks() == blocks && table.live_files() == files && table.live_pieces() == pieces
}

#[test]
fn ropes_of_one_moment_are_due_by_number(rt: HostRuntime) -> Result<(), Fail> {
    let mut table = of_three(rt.alloc())?;
    assert!(rt; due_are(&table, &[(60, 1), (60, 2), (120, 3)]));
    table.settle(RopeId(1), Moment(100), 2, 50);
    assert!(rt; due_are(&table, &[(60, 2), (120, 3), (150, 1)]));
    assert!(rt; table.idle(RopeId(1)) == Some(Moment(100)) && table.last(RopeId(1)) == Some(2));
    assert!(rt; table.wait(RopeId(1)) == Some(50) && table.wait(RopeId(4)).is_none());
    Ok(())
}

#[test]
fn a_kept_rope_is_not_due(rt: HostRuntime) -> Result<(), Fail> {
    let mut table = of_three(rt.alloc())?;
    table.keep(RopeId(2), true);
    assert!(rt; table.kept(RopeId(2)) == Some(true));
    assert!(rt; due_are(&table, &[(60, 1), (120, 3)]));
    table.keep(RopeId(2), false);
    assert!(rt; due_are(&table, &[(60, 1), (60, 2), (120, 3)]));
    assert!(rt; table.remove(RopeId(2)).is_some() && table.remove(RopeId(2)).is_none());
    assert!(rt; due_are(&table, &[(60, 1), (120, 3)]));
    Ok(())
}

#[test]
fn a_rope_that_is_idle_again_stays_kept(rt: HostRuntime) -> Result<(), Fail> {
    let mut table = of_three(rt.alloc())?;
    table.keep(RopeId(2), true);
    table.set_idle(RopeId(2), Moment(100), 2, 50);
    table.set_idle(RopeId(1), Moment(100), 2, 50);
    assert!(rt; table.kept(RopeId(2)) == Some(true) && table.last(RopeId(2)) == Some(2));
    assert!(rt; due_are(&table, &[(120, 3), (150, 1)]));
    table.keep(RopeId(2), false);
    assert!(rt; due_are(&table, &[(120, 3), (150, 1), (150, 2)]));
    Ok(())
}

// A table with room for one more rope of these pieces gets it, where each of its blocks is in use and the number is not live.
fn put_used(
    table: &mut RopeTable,
    before: u32,
    id: RopeId,
    pieces: Pieces,
) -> Result<bool, NoMemory>
    requires few { before < 2000 }
    requires uses { (pair : BlockPair) → uses_at table.old pair ≤ before }
    ensures uses { (pair : BlockPair) → uses_at table.new pair ≤ before + 1 }
{
    table.reserve(0)?;
    if table.get(id).is_some() {
        return Err(NoMemory);
    }
    Ok(table.add_used(id, pieces, Moment(0), 0, 60))
}

#[test]
fn a_rope_of_an_unused_block_is_not_added(rt: HostRuntime) -> Result<(), Fail> {
    let alloc = rt.alloc();
    let mut table = of_three(alloc)?;
    let mut list = [Piece {
        file: RopeId(2),
        from: 8,
        len: 8,
    }; 2];
    list[1].file = RopeId(4);
    let unused = Pieces::of(alloc, &list)?;
    assert!(rt; !put_used(&mut table, 3, RopeId(5), unused)?);
    assert!(rt; table.count() == 3 && table.uses(RopeId(2), 0) == 1);
    list[1].file = RopeId(3);
    let used = Pieces::of(alloc, &list)?;
    assert!(rt; put_used(&mut table, 4, RopeId(5), used)?);
    assert!(rt; table.uses(RopeId(2), 0) == 2 && table.uses(RopeId(3), 0) == 2);
    assert!(rt; live_are(&table, 3, 3, 5));
    Ok(())
}

// A piece of so many blocks of a file.
fn long_piece(file: RopeId, blocks: u32) -> Piece
    requires { blocks < 1000 }
    ensures from { result.from ≡ 0 }
    ensures len { result.len < 2 ^ 20 }
{
    Piece {
        file,
        from: 0,
        len: blocks * BLOCK,
    }
}

#[test]
fn blocks_are_counted_once_in_any_order(rt: HostRuntime) -> Result<(), Fail> {
    let alloc = rt.alloc();
    let rising = [long_piece(RopeId(7), 100), long_piece(RopeId(8), 100)];
    let falling = [long_piece(RopeId(8), 100), long_piece(RopeId(7), 100)];
    let mut table = RopeTable::new(alloc, BLOCK);
    put(
        &mut table,
        0,
        RopeId(9),
        Pieces::of(alloc, &rising)?,
        Moment(0),
        60,
    )?;
    put(
        &mut table,
        1,
        RopeId(10),
        Pieces::of(alloc, &falling)?,
        Moment(0),
        60,
    )?;
    for (file, index) in [(7, 0), (7, 99), (8, 0), (8, 99)] {
        assert!(rt;
            table.uses(RopeId(file), index) == 2,
            "file {file}, block {index}"
        );
    }
    let _first = table.remove(RopeId(9));
    assert!(rt; live_are(&table, 200, 2, 2) && table.uses(RopeId(7), 99) == 1);
    let _second = table.remove(RopeId(10));
    assert!(rt; live_are(&table, 0, 0, 0) && table.uses(RopeId(8), 99) == 0);
    Ok(())
}

#[test]
fn numbers_are_gone_through_in_order(rt: HostRuntime) -> Result<(), Fail> {
    let table = of_three(rt.alloc())?;
    let rows = [(0, Some(1)), (1, Some(2)), (2, Some(3)), (3, None)];
    for (above, wanted) in rows {
        assert!(rt;
            table.after(above).map(RopeId::number) == wanted,
            "above {above}"
        );
    }
    assert_eq!(rt; table.count(), 3);
    assert!(rt; live_are(&table, 3, 3, 3));
    assert_eq!(rt; table.block(), BLOCK);
    Ok(())
}

#[test]
fn a_block_in_three_pieces_is_used_once(rt: HostRuntime) -> Result<(), Fail> {
    let alloc = rt.alloc();
    let mut table = RopeTable::new(alloc, BLOCK);
    let mut list = [Piece {
        file: RopeId(7),
        from: 0,
        len: 4,
    }; 3];
    list[1].from = 40;
    list[2].from = 8;
    let pieces = Pieces::of(alloc, &list)?;
    put(&mut table, 0, RopeId(9), pieces, Moment(0), 60)?;
    assert!(rt; table.uses(RopeId(7), 0) == 1 && table.uses(RopeId(7), 1) == 1);
    assert!(rt; table.uses(RopeId(7), 2) == 0 && table.uses(RopeId(9), 0) == 0);
    assert!(rt; live_are(&table, 2, 1, 3));
    put(
        &mut table,
        1,
        RopeId(10),
        one_block(alloc, 7)?,
        Moment(0),
        60,
    )?;
    assert!(rt; live_are(&table, 2, 1, 4));
    let _pieces = table.remove(RopeId(9));
    assert!(rt; table.uses(RopeId(7), 0) == 1 && table.uses(RopeId(7), 1) == 0);
    assert!(rt; live_are(&table, 1, 1, 1));
    Ok(())
}

// Holds the passage of a whole rope, as the only one, and then takes the rope out.
fn held_alone(table: &mut RopeTable, id: RopeId) -> Result<Pieces, NoMemory>
    requires few { (pair : BlockPair) → uses_at table.old pair < 1000 }
    requires none { Counts table.old [] }
    ensures { IfOk result (λ passage. Counts table.new (passage ∷ [])) }
{
    let _block = table.block();
    let Some(pieces) = table.get(id) else {
        return Err(NoMemory);
    };
    let passage = pieces.copy()?;
    table.hold(&passage);
    let _pieces = table.remove(id);
    Ok(passage)
}

// Holds the only passage no longer.
fn release_last(table: &mut RopeTable, passage: &Pieces)
    requires { Counts table.old (passage.now ∷ []) }
    ensures { Counts table.new [] }
{
    table.release(passage);
}

#[test]
fn a_held_passage_outlives_its_rope(rt: HostRuntime) -> Result<(), Fail> {
    let alloc = rt.alloc();
    let mut table = RopeTable::new(alloc, BLOCK);
    put(
        &mut table,
        0,
        RopeId(1),
        one_block(alloc, 1)?,
        Moment(0),
        60,
    )?;
    let copy = table.copy()?;
    let passage = held_alone(&mut table, RopeId(1))?;
    assert!(rt; table.count() == 0 && table.uses(RopeId(1), 0) == 1);
    assert!(rt; live_are(&table, 0, 0, 0) && live_are(&copy, 1, 1, 1));
    release_last(&mut table, &passage);
    assert!(rt; table.uses(RopeId(1), 0) == 0);
    assert!(rt; copy.count() == 1 && copy.uses(RopeId(1), 0) == 1);
    assert!(rt; due_are(&copy, &[(60, 1)]));
    Ok(())
}

// A table of the ropes 10, 20 and so on, of which each has been idle for a moment longer than the next one.
fn of_many(alloc: Global, count: u16) -> Result<RopeTable, NoMemory>
    requires { count < 2000 }
{
    let mut table = RopeTable::new(alloc, BLOCK);
    for k in 0..count {
        let place = u64::from(k) + 1;
        put(
            &mut table,
            u32::from(k),
            RopeId(10 * place),
            one_block(alloc, k)?,
            Moment(place),
            60,
        )?;
    }
    Ok(table)
}

// How many of these ropes go.
fn remove_each(table: &mut RopeTable, from: u16, end: u16) -> u16 {
    let mut gone: u16 = 0;
    for place in from..end {
        if table.remove(RopeId(10 * u64::from(place))).is_some() {
            gone = gone.wrapping_add(1);
        }
    }
    gone
}

fn keep_each(table: &mut RopeTable, from: u16, end: u16) {
    for place in from..end {
        table.keep(RopeId(10 * u64::from(place)), true);
    }
}

// Whether these ropes follow a number, one after another.
fn follow(table: &RopeTable, number: u64, from: u16, end: u16) -> bool {
    let mut above = number;
    for place in from..end {
        let Some(id) = table.after(above) else {
            return false;
        };
        if id.number() != 10 * u64::from(place) {
            return false;
        }
        above = id.number();
    }
    true
}

// Whether the ropes 500 to 999 are gone, and three are due.
fn middle_is_gone(table: &RopeTable) -> bool {
    table.count() == 1000
        && follow(table, 0, 1, 500)
        && follow(table, 4990, 1000, 1501)
        && table.after(15000).is_none()
        && due_are(table, &[(360, 3000), (1211, 12000), (1560, 15000)])
}

#[test]
fn many_ropes_go_from_the_middle(rt: HostRuntime) -> Result<(), Fail> {
    let mut table = of_many(rt.alloc(), 1500)?;
    assert!(rt; follow(&table, 0, 1, 1501));
    assert_eq!(rt; remove_each(&mut table, 500, 1000), 500);
    assert_eq!(rt; remove_each(&mut table, 500, 1000), 0);
    keep_each(&mut table, 1, 1500);
    table.settle(RopeId(12000), Moment(1161), 1, 50);
    table.keep(RopeId(3000), false);
    assert!(rt; middle_is_gone(&table));
    let copy = table.copy()?;
    assert!(rt; middle_is_gone(&copy));
    assert!(rt; table.remove(RopeId(12000)).is_some());
    assert!(rt; middle_is_gone(&copy) && !middle_is_gone(&table));
    Ok(())
}
