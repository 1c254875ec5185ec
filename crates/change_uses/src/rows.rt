//! Changes made ready over the tables of a small disk, and what stands once they are done.

ghost use Rattle.std.specs.Prelude.{◌≡◌, true, IfOk, Option};
ghost use Rattle.voice_model.specs.Replay.{Rebuilt};
ghost use Rattle.voice_model.specs.declared.Change.{Change};
ghost use Rattle.voice_model.specs.declared.changes.Change.TheVariants as changes;
ghost use Rattle.voice_model.specs.Spelling.{keeps_grammar};
ghost use Rattle.recovery.specs.Shown.{IsParts, Rebuilds};
ghost use Rattle.ready_changes.specs.Ready.{MayBeReady};

use crate::replays::{empty_parts, replayed, small_shape};
use change_codec::get;
use ready_changes::{
    ReadyChange, perform, ready_advance, ready_census, ready_forget, ready_retain, ready_sweep,
};
use recovery::Parts;
use std::alloc::Global;
use std::marker::Brand;
use std::sync::ledger::{Blank, Ledger};
use std::test::Fail;
use voice_model::{Change, Class, Key, KeyList, Row};
use voice_units::{Moment, NoMemory, RopeId, Shape, Steps};

// Where a change may not be asked, or memory wants.
const REFUSED: u64 = 999_999;

// So many ropes and rows that one byte doesn't count them.
const MANY: u16 = 300;

// A row of class Held with key 0, 0, and one of class Until that is expired from moment 5 on.
const HELD: [u8; 14] = [3, 1, 2, 0, 0, 0, 0, 0, 0, 0, 0, 0, 2, 0];

const UNTIL: [u8; 22] = [
    3, 2, 2, 0, 0, 0, 0, 0, 0, 0, 0, 0, 2, 8, 0, 0, 0, 0, 0, 0, 0, 5,
];

// Rope 1 has the blocks at 0, 1 and 2, and the others have none. Rope 2 has these rows and rope 1 as many of class Listed.
fn filled(alloc: Global, shape: &Shape, row: &[u8]) -> Result<Parts, NoMemory>
    ensures { IfOk result (λ parts. IsParts shape.now parts) }
{
    let mut parts = empty_parts(alloc, shape)?;
    let first = [
        11, 0, 0, 0, 0, 0, 0, 0, 1, 0, 0, 0, 20, 0, 0, 0, 3, 0, 0, 0, 0, 0, 0, 0, 1, 0, 0, 0, 2,
    ];
    replayed(&mut parts, alloc, shape, &first);
    'ropes: for id in 2..=MANY {
        let [high, low] = id.to_be_bytes();
        let empty = [11, 0, 0, 0, 0, 0, 0, high, low, 0, 0, 0, 0, 0, 0, 0, 0];
        replayed(&mut parts, alloc, shape, &empty);
    }
    replayed(&mut parts, alloc, shape, row);
    Ok(parts)
}

// Rows of class Listed, of rope 1.
fn list(parts: &mut Parts, alloc: Global, shape: &Shape)
    requires { IsParts shape.now parts.old }
    ensures { IsParts shape.now parts.new }
{
    'rows: for k in 1..=MANY {
        let [high, low] = k.to_be_bytes();
        let row = [3, 3, 2, high, low, 0, 0, 0, 0, 0, 0, 0, 1, 0];
        replayed(parts, alloc, shape, &row);
    }
}

// The change is done: how many bytes spell it; 0 where there is none.
fn done(parts: &mut Parts, shape: &Shape, ready: Option<ReadyChange>) -> u64
    requires { (r : Rebuilt) × (c : Option Change) × Rebuilds parts.old r × MayBeReady parts.old.interests.spare r.kept ready c }
{
    let Some(ready) = ready else {
        return 0;
    };
    let size = ready.payload.as_slice().len() as u64;
    perform(parts, shape, &ready);
    size
}

// The row comes, if its rope lives and its class and key do not stand.
fn retain_row(parts: &mut Parts, alloc: Global, shape: &Shape, row: Row) -> u64
    requires shown { IsParts shape.now parts.old }
    requires grammar { keeps_grammar (changes.Retained row.class row.key row.rope row.note) ≡ true }
{
    let Some(_) = parts.ropes.wait(row.rope) else {
        return REFUSED;
    };
    let None = parts.interests.find(row.class, &row.key) else {
        return REFUSED;
    };
    match ready_retain(alloc, parts, row) {
        Ok(ready) => done(parts, shape, Some(ready)),
        Err(_) => REFUSED,
    }
}

// The row that bytes spell comes.
fn retain(parts: &mut Parts, alloc: Global, shape: &Shape, bytes: &[u8]) -> u64
    requires { IsParts shape.now parts.old }
{
    let Ok(change) = get(alloc, bytes) else {
        return REFUSED;
    };
    match &change {
        Change::Retained(class, key, rope, note) => {
            let row = Row {
                class: *class,
                key: *key,
                rope: *rope,
                note: *note,
            };
            retain_row(parts, alloc, shape, row)
        }
        _ => REFUSED,
    }
}

// The row of a class and key goes.
fn forget_row(parts: &mut Parts, alloc: Global, shape: &Shape, class: Class, key: &Key) -> u64
    requires shown { IsParts shape.now parts.old }
    requires grammar { keeps_grammar (changes.Forgotten class key.now) ≡ true }
{
    done(parts, shape, Some(ready_forget(class, key)))
}

// The row of the class and key that bytes spell goes.
fn forget(parts: &mut Parts, alloc: Global, shape: &Shape, bytes: &[u8]) -> u64
    requires { IsParts shape.now parts.old }
{
    let Ok(change) = get(alloc, bytes) else {
        return REFUSED;
    };
    match &change {
        Change::Forgotten(class, key) => forget_row(parts, alloc, shape, *class, key),
        _ => REFUSED,
    }
}

// A census that names nothing.
fn census(parts: &mut Parts, alloc: Global, shape: &Shape) -> u64
    requires { IsParts shape.now parts.old }
{
    let named = KeyList::of(Vec::new(alloc));
    match ready_census(alloc, &parts.interests, &named) {
        Ok(ready) => done(parts, shape, ready),
        Err(_) => REFUSED,
    }
}

// The moment comes.
fn advance(parts: &mut Parts, alloc: Global, shape: &Shape, moment: u16) -> u64
    requires { IsParts shape.now parts.old }
{
    let ready = ready_advance(parts.moment, Moment(u64::from(moment)));
    done(parts, shape, ready)
}

// A sweep of so many ropes.
fn sweep_with<L: Ledger>(
    parts: &mut Parts,
    alloc: Global,
    shape: &Shape,
    limit: u16,
    blank: Blank,
) -> u64
    requires name { blank.name ≡ L.name }
    requires parts { blank.parts ≡ L.parts }
    requires one { blank.parts ≡ 1 }
    requires shown { IsParts shape.now parts.old }
{
    if parts.form != 2 {
        return REFUSED;
    }
    let mut steps = Steps::<L>::new(blank);
    match ready_sweep(alloc, parts, &shape.graces, limit, &mut steps) {
        Ok(ready) => done(parts, shape, ready),
        Err(_) => REFUSED,
    }
}

fn sweep(parts: &mut Parts, alloc: Global, shape: &Shape, limit: u16) -> u64
    requires { IsParts shape.now parts.old }
{
    sweep_with::<Brand>(parts, alloc, shape, limit, Blank::new(1))
}

// How many rows ropes 1 and 2 have, how many ropes live, the moment, and how many addresses are free.
fn counts(parts: &Parts) -> [u64; 5] {
    [
        u64::from(parts.interests.count(RopeId(1))),
        u64::from(parts.interests.count(RopeId(2))),
        parts.ropes.count() as u64,
        parts.moment.number(),
        u64::from(parts.blocks.free()),
    ]
}

// What is asked of the tables.
#[derive(Clone, Copy)]
enum Ask {
    Retain,
    Forget,
    Census,
    Advance(u16),
    Sweep(u16),
}

// The size of the change, and the counts once it is done.
fn asked(parts: &mut Parts, alloc: Global, shape: &Shape, row: &[u8], ask: Ask) -> (u64, [u64; 5])
    requires { IsParts shape.now parts.old }
{
    let size = match ask {
        Ask::Retain => retain(parts, alloc, shape, row),
        Ask::Forget => forget(parts, alloc, shape, &[4, 1, 2, 0, 0]),
        Ask::Census => census(parts, alloc, shape),
        Ask::Advance(moment) => advance(parts, alloc, shape, moment),
        Ask::Sweep(limit) => sweep(parts, alloc, shape, limit),
    };
    (size, counts(parts))
}

#[test]
fn rows_come_and_go(rt: HostRuntime) -> Result<(), Fail> {
    let alloc = rt.alloc();
    let Ok(shape) = small_shape(0) else {
        return Ok(());
    };
    let rows = [
        (Ask::Retain, 14, [0, 1, 300, 0, 13]),
        (Ask::Forget, 5, [0, 0, 300, 0, 13]),
        (Ask::Census, 0, [0, 1, 300, 0, 13]),
        (Ask::Advance(60), 9, [0, 1, 300, 60, 13]),
        (Ask::Advance(0), 0, [0, 1, 300, 0, 13]),
        (Ask::Sweep(400), 0, [0, 1, 300, 0, 13]),
    ];
    for (ask, size, wanted) in rows {
        let row: &[u8] = match ask {
            Ask::Retain => &[],
            _ => &HELD,
        };
        let mut parts = filled(alloc, &shape, row)?;
        let seen = asked(&mut parts, alloc, &shape, &HELD, ask);
        assert_eq!(rt; seen, (size, wanted));
    }
    Ok(())
}

#[test]
fn many_rows_go_by_a_census(rt: HostRuntime) -> Result<(), Fail> {
    let alloc = rt.alloc();
    let Ok(shape) = small_shape(0) else {
        return Ok(());
    };
    let mut parts = filled(alloc, &shape, &HELD)?;
    list(&mut parts, alloc, &shape);
    assert_eq!(rt; counts(&parts), [300, 1, 300, 0, 13]);
    assert_eq!(rt; census(&mut parts, alloc, &shape), 903);
    assert_eq!(rt; counts(&parts), [0, 1, 300, 0, 13]);
    Ok(())
}

// At moment 60 the row is expired and all ropes are due, at 5 the row is expired and its rope is due, at 4 nothing is.
#[test]
fn many_ropes_go_by_a_sweep(rt: HostRuntime) -> Result<(), Fail> {
    let alloc = rt.alloc();
    let Ok(shape) = small_shape(0) else {
        return Ok(());
    };
    let rows = [
        (4u8, 400, 0, [0, 1, 300, 4, 13]),
        (5, 0, 3, [0, 0, 300, 5, 13]),
        (5, 400, 11, [0, 0, 299, 5, 13]),
        (60, 1, 11, [0, 0, 299, 60, 16]),
        (60, 400, 2403, [0, 0, 0, 60, 16]),
    ];
    for (moment, limit, size, wanted) in rows {
        let mut parts = filled(alloc, &shape, &UNTIL)?;
        replayed(&mut parts, alloc, &shape, &[7, 0, 0, 0, 0, 0, 0, 0, moment]);
        let seen = asked(&mut parts, alloc, &shape, &UNTIL, Ask::Sweep(limit));
        assert_eq!(rt; seen, (size, wanted));
    }
    Ok(())
}
