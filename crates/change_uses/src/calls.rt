//! Each call asked once of the tables of a small disk.

ghost use Rattle.std.specs.Prelude.{IfOk, IsTrue};
ghost use Rattle.recovery.specs.Shown.{IsParts};
ghost use Rattle.row_calls.specs.Asked.{is_row_call};

use crate::replays::{empty_parts, replayed, small_shape};
use recovery::Parts;
use row_calls::{Asked, Growth, ask};
use std::alloc::Global;
use std::test::Fail;
use voice_model::{Call, Class, Key, KeyList, Note, Reply};
use voice_units::{Moment, NoMemory, RopeId, Shape};

// What stands for Done, and for a refusal.
const DONE: u64 = 1000;

const REFUSED: u64 = 2000;

// Rope 1 of no samples, a row of class Until with key 0, 0, one of class Listed with key 0, 1, and moment 5, from which the first row is expired.
const ROPE: [u8; 17] = [11, 0, 0, 0, 0, 0, 0, 0, 1, 0, 0, 0, 0, 0, 0, 0, 0];

const UNTIL: [u8; 22] = [
    3, 2, 2, 0, 0, 0, 0, 0, 0, 0, 0, 0, 1, 8, 0, 0, 0, 0, 0, 0, 0, 5,
];

const LISTED: [u8; 14] = [3, 3, 2, 0, 1, 0, 0, 0, 0, 0, 0, 0, 1, 0];

const MOMENT: [u8; 9] = [7, 0, 0, 0, 0, 0, 0, 0, 5];

fn filled(alloc: Global, shape: &Shape) -> Result<Parts, NoMemory>
    ensures { IfOk result (λ parts. IsParts shape.now parts) }
{
    let mut parts = empty_parts(alloc, shape)?;
    replayed(&mut parts, alloc, shape, &ROPE);
    replayed(&mut parts, alloc, shape, &UNTIL);
    replayed(&mut parts, alloc, shape, &LISTED);
    replayed(&mut parts, alloc, shape, &MOMENT);
    Ok(parts)
}

// A reply as a number: of a sweep ten times the rows and then the ropes, of a look-up the rope and then the note's length.
fn number(reply: &Reply) -> u64 {
    match reply {
        Reply::Done => DONE,
        Reply::Number(n) => *n,
        Reply::Swept(rows, ropes) => {
            u64::from(*rows) * 10 + if ropes.items().is_empty() { 0 } else { 1 }
        }
        _ => REFUSED,
    }
}

// By how much the base grows.
fn grown(growth: Growth) -> u64 {
    match growth {
        Growth::By(n) => n,
        Growth::NotLonger => 0,
    }
}

// The size of the change, by how much the base grows, and the reply.
fn told(asked: Result<Asked, NoMemory>) -> [u64; 3] {
    let Ok(asked) = asked else {
        return [0, 0, REFUSED];
    };
    match asked {
        Asked::Changes(ready, reply, growth) => [
            ready.payload.as_slice().len() as u64,
            grown(growth),
            number(&reply),
        ],
        Asked::Answered(reply) => [0, 0, number(&reply)],
        Asked::Refused(_) => [0, 0, REFUSED],
    }
}

// What a call comes to.
fn asked(alloc: Global, parts: &mut Parts, shape: &Shape, call: &Call) -> [u64; 3]
    requires shown { IsParts shape.now parts.old }
    requires call { IsTrue (is_row_call call.now) }
    ensures { IsParts shape.now parts.new }
{
    told(ask(alloc, parts, &shape.graces, call))
}

// Retain of the next key, and of the first one, which stands; Forget, Census, Advance and Sweep.
fn all_asked(
    alloc: Global,
    parts: &mut Parts,
    shape: &Shape,
    first: Key,
    next: Key,
    note: Note,
) -> [[u64; 3]; 6]
    requires { IsParts shape.now parts.old }
{
    let comes = Call::Retain(Class::Held, next, RopeId(1), note);
    let comes = asked(alloc, parts, shape, &comes);
    let stands = Call::Retain(Class::Until, first, RopeId(1), note);
    let stands = asked(alloc, parts, shape, &stands);
    let goes = asked(alloc, parts, shape, &Call::Forget(Class::Until, first));
    let named = Call::Census(KeyList::of(Vec::new(alloc)));
    let counted = asked(alloc, parts, shape, &named);
    let later = asked(alloc, parts, shape, &Call::Advance(Moment(6)));
    let swept = asked(alloc, parts, shape, &Call::Sweep(9));
    [comes, stands, goes, counted, later, swept]
}

#[test]
fn calls_asked_of_two_rows(rt: HostRuntime) -> Result<(), Fail> {
    let alloc = rt.alloc();
    let shape = small_shape(60)?;
    let first = Key::new(&[0, 0])?;
    let next = Key::new(&[0, 2])?;
    let note = Note::new(&[0, 0, 0, 0, 0, 0, 0, 9])?;
    let mut parts = filled(alloc, &shape)?;
    let seen = all_asked(alloc, &mut parts, &shape, first, next, note);
    assert_eq!(rt;
        seen,
        [
            [22, 27, DONE],
            [0, 0, REFUSED],
            [5, 0, DONE],
            [6, 0, 1],
            [9, 0, DONE],
            [3, 0, 10]
        ]
    );
    Ok(())
}
