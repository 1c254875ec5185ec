//! Changes of a small disk made ready; the tables after each are copied, and it is done, or given back.

ghost use Rattle.std.specs.Prelude.{◌≡◌, true, IfOk, MatchOption};
ghost use Rattle.voice_model.specs.Spelling.{keeps_grammar};
ghost use Rattle.voice_model.specs.declared.changes.Change.TheVariants as changes;
ghost use Rattle.running_tables.specs.Running.{AtRest};
ghost use Rattle.next_changes.specs.Next.{IsNextAtRest};

use change_codec::get;
use next_changes::{NextChange, give_back, parts_after, perform};
use next_ropes::ready_recording;
use ready_changes::{ready_advance, ready_retain};
use recovery::Parts;
use std::alloc::Global;
use std::test::Fail;
use voice_model::{Change, Row};
use voice_units::{BadShape, Graces, Moment, NoMemory, RopeId, Shape};

// Where memory wants.
const REFUSED: u64 = 999;

// A row of class Held of rope 1.
const HELD: [u8; 14] = [3, 1, 2, 0, 0, 0, 0, 0, 0, 0, 0, 0, 1, 0];

// 16 blocks of 8 samples.
fn small_shape() -> Result<Shape, BadShape> {
    let graces = Graces {
        common: 60,
        held: 60,
        until: 60,
        listed: 60,
    };
    Shape::new(2, 8, 16, 512, graces, 4, 1216)
}

fn empty_parts(alloc: Global, shape: &Shape) -> Result<Parts, NoMemory>
    ensures { IfOk result (λ parts. AtRest shape.now parts) }
{
    Parts::empty(alloc, shape)
}

// A recording of 20 samples.
fn record(parts: &mut Parts, alloc: Global, shape: &Shape) -> Option<NextChange>
    requires { AtRest shape.now parts.old }
    ensures { MatchOption result (AtRest shape.now parts.new) (λ next. IsNextAtRest shape.now parts.new next) }
{
    if parts.next > 1 << 48 {
        return None;
    }
    if (20 + (shape.block - 1)) / shape.block > parts.blocks.free() {
        return None;
    }
    let Ok(rope) = ready_recording(alloc, parts, shape, 20) else {
        return None;
    };
    Some(NextChange::Rope(rope))
}

// A row, if its rope lives and its class and key do not stand.
fn retain_row(parts: &mut Parts, alloc: Global, shape: &Shape, row: Row) -> Option<NextChange>
    requires shown { AtRest shape.now parts.old }
    requires grammar { keeps_grammar (changes.Retained row.class row.key row.rope row.note) ≡ true }
    ensures { MatchOption result (AtRest shape.now parts.new) (λ next. IsNextAtRest shape.now parts.new next) }
{
    let Some(_) = parts.ropes.wait(row.rope) else {
        return None;
    };
    let None = parts.interests.find(row.class, &row.key) else {
        return None;
    };
    let Ok(ready) = ready_retain(alloc, parts, row) else {
        return None;
    };
    Some(NextChange::Other(ready))
}

// The row of rope 1.
fn retain(parts: &mut Parts, alloc: Global, shape: &Shape) -> Option<NextChange>
    requires { AtRest shape.now parts.old }
    ensures { MatchOption result (AtRest shape.now parts.new) (λ next. IsNextAtRest shape.now parts.new next) }
{
    let Ok(change) = get(alloc, &HELD) else {
        return None;
    };
    match &change {
        Change::Retained(class, key, rope, note) => {
            let row = Row {
                class: *class,
                key: *key,
                rope: *rope,
                note: *note,
            };
            retain_row(parts, alloc, shape, row)
        }
        _ => None,
    }
}

// Moment 60.
fn advance(parts: &mut Parts, shape: &Shape) -> Option<NextChange>
    requires { AtRest shape.now parts.old }
    ensures { MatchOption result (AtRest shape.now parts.new) (λ next. IsNextAtRest shape.now parts.new next) }
{
    let Some(ready) = ready_advance(parts.moment, Moment(60)) else {
        return None;
    };
    Some(NextChange::Other(ready))
}

// What is asked of the tables.
#[derive(Clone, Copy)]
enum Ask {
    Record,
    Retain,
    Advance,
}

fn ready(parts: &mut Parts, alloc: Global, shape: &Shape, ask: Ask) -> Option<NextChange>
    requires { AtRest shape.now parts.old }
    ensures { MatchOption result (AtRest shape.now parts.new) (λ next. IsNextAtRest shape.now parts.new next) }
{
    match ask {
        Ask::Record => record(parts, alloc, shape),
        Ask::Retain => retain(parts, alloc, shape),
        Ask::Advance => advance(parts, shape),
    }
}

// How many ropes live, how many rows rope 1 has, the moment, and how many addresses are free.
fn counts(parts: &Parts) -> [u64; 4] {
    [
        parts.ropes.count() as u64,
        u64::from(parts.interests.count(RopeId(1))),
        parts.moment.number(),
        u64::from(parts.blocks.free()),
    ]
}

// The counts of the tables after a change.
fn counts_after(alloc: Global, parts: &Parts, shape: &Shape, next: &NextChange) -> [u64; 4]
    requires { IsNextAtRest shape.now parts.now next.now }
{
    match parts_after(alloc, parts, shape, next) {
        Ok(after) => counts(&after),
        Err(_) => [REFUSED; 4],
    }
}

// The change is done, or given back.
fn finish(parts: &mut Parts, shape: &Shape, next: NextChange, comes: bool)
    requires { IsNextAtRest shape.now parts.old next }
    ensures { AtRest shape.now parts.new }
{
    if comes {
        perform(parts, shape, next);
    } else {
        give_back(parts, next);
    }
}

// The kind and the size of the change, and the counts of the tables after it; it is done, or given back.
fn asked(
    parts: &mut Parts,
    alloc: Global,
    shape: &Shape,
    ask: Ask,
    comes: bool,
) -> ([u64; 2], [u64; 4])
    requires { AtRest shape.now parts.old }
    ensures { AtRest shape.now parts.new }
{
    let Some(next) = ready(parts, alloc, shape, ask) else {
        return ([REFUSED; 2], [REFUSED; 4]);
    };
    let kind = next.payload().first().copied().unwrap_or(0);
    let size = next.payload().len() as u64;
    let after = counts_after(alloc, parts, shape, &next);
    finish(parts, shape, next, comes);
    ([u64::from(kind), size], after)
}

// Six changes in turn: what was seen of each, and the counts once it was done, or given back.
fn six_changes(
    alloc: Global,
    shape: &Shape,
) -> Result<[(([u64; 2], [u64; 4]), [u64; 4]); 6], NoMemory> {
    let mut parts = empty_parts(alloc, shape)?;
    let first = asked(&mut parts, alloc, shape, Ask::Record, false);
    let first = (first, counts(&parts));
    let second = asked(&mut parts, alloc, shape, Ask::Record, true);
    let second = (second, counts(&parts));
    let third = asked(&mut parts, alloc, shape, Ask::Retain, false);
    let third = (third, counts(&parts));
    let fourth = asked(&mut parts, alloc, shape, Ask::Retain, true);
    let fourth = (fourth, counts(&parts));
    let fifth = asked(&mut parts, alloc, shape, Ask::Advance, false);
    let fifth = (fifth, counts(&parts));
    let sixth = asked(&mut parts, alloc, shape, Ask::Advance, true);
    let sixth = (sixth, counts(&parts));
    Ok([first, second, third, fourth, fifth, sixth])
}

#[test]
fn changes_come_or_are_given_back(rt: HostRuntime) -> Result<(), Fail> {
    let Ok(shape) = small_shape() else {
        return Ok(());
    };
    let changes = six_changes(rt.alloc(), &shape)?;
    let want = [
        (([11, 29], [1, 0, 0, 13]), [0, 0, 0, 16]),
        (([11, 29], [1, 0, 0, 13]), [1, 0, 0, 13]),
        (([3, 14], [1, 1, 0, 13]), [1, 0, 0, 13]),
        (([3, 14], [1, 1, 0, 13]), [1, 1, 0, 13]),
        (([7, 9], [1, 1, 60, 13]), [1, 1, 0, 13]),
        (([7, 9], [1, 1, 60, 13]), [1, 1, 60, 13]),
    ];
    assert_eq!(rt; changes, want);
    Ok(())
}
