//! Journals of numbered changes, as they are replayed and refused.

use crate::{Followed, put_numbered, replay};
use recovery::ReplayError;
use std::alloc::{AllocError, Global};
use std::test::Fail;
use voice_journal::RecordList;
use voice_model::{Change, Class, Key};
use voice_units::{BadShape, Graces, Shape};

// The moments 5 and 6.
const FIVE: [u8; 9] = [7, 0, 0, 0, 0, 0, 0, 0, 5];

const SIX: [u8; 9] = [7, 0, 0, 0, 0, 0, 0, 0, 6];

// A base of rope 1, whose 3 samples lie in the block at 5, with a held row with key `k`.
const BASE: [u8; 17] = [12, 0, 0, 0, 0, 0, 0, 0, 0, 0, 0, 0, 0, 0, 0, 0, 2];

const FILE: [u8; 21] = [
    13, 0, 0, 0, 0, 0, 0, 0, 1, 0, 0, 0, 1, 0, 0, 0, 0, 0, 0, 0, 5,
];

const ROPE: [u8; 36] = [
    14, 0, 0, 0, 0, 0, 0, 0, 1, 0, 0, 0, 0, 0, 0, 0, 0, 0, 0, 1, 0, 0, 0, 0, 0, 0, 0, 1, 0, 0, 0,
    0, 0, 0, 0, 3,
];

const RETAINED: [u8; 13] = [3, 1, 1, b'k', 0, 0, 0, 0, 0, 0, 0, 1, 0];

const FORGOTTEN: [u8; 4] = [4, 1, 1, b'k'];

// Rope 1 of no samples.
const WIDE: [u8; 17] = [11, 0, 0, 0, 0, 0, 0, 0, 1, 0, 0, 0, 0, 0, 0, 0, 0];

// No change: the moment 0.
const DAMAGED: [u8; 9] = [7, 0, 0, 0, 0, 0, 0, 0, 0];

// Numbers and changes, and the position or the record that is refused.
const PLAIN: [(&[(u64, &[u8])], Result<u64, u32>); 14] = [
    (&[], Ok(0)),
    (&[(1, &WIDE), (2, &FIVE), (3, &SIX)], Ok(3)),
    (&[(0, &FIVE)], Err(0)),
    (&[(2, &FIVE)], Err(0)),
    (&[(1, &FIVE), (3, &SIX)], Err(1)),
    (&[(1, &FIVE), (1, &SIX)], Err(1)),
    (&[(1, &FIVE), (0, &SIX)], Err(1)),
    (&[(1, &WIDE), (1, &RETAINED)], Err(1)),
    (&[(1, &WIDE), (2, &RETAINED), (3, &FORGOTTEN)], Ok(3)),
    (&[(1, &[])], Err(0)),
    (&[(1, &FIVE), (2, &DAMAGED)], Err(1)),
    (&[(1, &SIX), (2, &FIVE)], Err(1)),
    (&[(1, &SIX), (2, &FIVE), (9, &FIVE)], Err(1)),
    (&[(1, &FIVE), (9, &SIX), (2, &DAMAGED)], Err(1)),
];

// The same with a base in front.
const BASES: [(&[(u64, &[u8])], Result<u64, u32>); 16] = [
    (&[(7, &BASE)], Ok(7)),
    (
        &[
            (7, &BASE),
            (7, &FILE),
            (7, &ROPE),
            (7, &RETAINED),
            (8, &FIVE),
        ],
        Ok(8),
    ),
    (
        &[
            (7, &BASE),
            (7, &FILE),
            (7, &ROPE),
            (8, &FIVE),
            (7, &RETAINED),
        ],
        Err(4),
    ),
    (
        &[
            (7, &BASE),
            (7, &FILE),
            (7, &ROPE),
            (8, &FIVE),
            (8, &RETAINED),
        ],
        Err(4),
    ),
    (&[(7, &BASE), (8, &FILE), (9, &ROPE)], Ok(9)),
    (&[(7, &BASE), (8, &FILE), (7, &ROPE)], Err(2)),
    (&[(7, &BASE), (8, &FILE), (8, &ROPE)], Err(2)),
    (&[(7, &BASE), (6, &FILE)], Err(1)),
    (&[(7, &BASE), (9, &FILE)], Err(1)),
    (&[(7, &BASE), (7, &FIVE)], Err(1)),
    (&[(7, &BASE), (7, &BASE)], Err(1)),
    (&[(7, &BASE), (8, &BASE)], Err(1)),
    (&[(0, &BASE), (0, &FILE), (1, &FIVE)], Ok(1)),
    (&[(1 << 48, &BASE)], Ok(1 << 48)),
    (&[((1 << 48) + 1, &BASE)], Err(0)),
    (&[(7, &FILE)], Err(0)),
];

// 16 blocks of 8 samples.
fn shape() -> Result<Shape, BadShape> {
    let graces = Graces {
        common: 60,
        held: 60,
        until: 60,
        listed: 60,
    };
    Shape::new(2, 8, 16, 512, graces, 4, 1216)
}

// A number and the bytes behind it.
fn numbered(alloc: Global, number: u64, change: &[u8]) -> Result<Vec<u8>, AllocError> {
    let mut bytes = Vec::new(alloc);
    bytes.extend_from_slice(&number.to_be_bytes())?;
    bytes.extend_from_slice(change)?;
    Ok(bytes)
}

// What payloads rebuild.
fn replayed(alloc: Global, payloads: &RecordList) -> Result<Followed, ReplayError> {
    let Ok(shape) = shape() else {
        return Err(ReplayError::NoMemory);
    };
    if payloads.len() > 99 {
        return Err(ReplayError::NoMemory);
    }
    replay(alloc, &shape, payloads)
}

// The same of numbers and changes.
fn followed(alloc: Global, rows: &[(u64, &[u8])]) -> Result<Result<Followed, ReplayError>, Fail> {
    let mut payloads = RecordList::new(alloc);
    for (number, change) in rows {
        let bytes = numbered(alloc, *number, change)?;
        payloads.push(80, &bytes)?;
    }
    Ok(replayed(alloc, &payloads))
}

// Tests positions and refusals.
fn each(
    rt: &impl std::process::Abort,
    alloc: Global,
    table: &[(&[(u64, &[u8])], Result<u64, u32>)],
) -> Result<(), Fail> {
    for (rows, wanted) in table {
        let found = match followed(alloc, rows)? {
            Ok(followed) => Ok(followed.position),
            Err(ReplayError::BadChange(k)) => Err(k),
            Err(ReplayError::NoMemory) => Err(u32::MAX),
        };
        assert_eq!(rt; found, *wanted);
    }
    Ok(())
}

#[test]
fn numbers_follow_one_another(rt: HostRuntime) -> Result<(), Fail> {
    each(&rt, rt.alloc(), &PLAIN)
}

#[test]
fn bases_have_one_number(rt: HostRuntime) -> Result<(), Fail> {
    each(&rt, rt.alloc(), &BASES)
}

// The position, the moment, the number of the next rope and how many blocks are free.
fn shown(followed: &Followed) -> [u64; 4] {
    [
        followed.position,
        followed.parts.moment.number(),
        followed.parts.next,
        u64::from(followed.parts.blocks.free()),
    ]
}

#[test]
fn a_base_is_rebuilt(rt: HostRuntime) -> Result<(), Fail> {
    let rows: [(u64, &[u8]); 5] = [
        (7, &BASE),
        (7, &FILE),
        (7, &ROPE),
        (7, &RETAINED),
        (8, &FIVE),
    ];
    match followed(rt.alloc(), &rows)? {
        Ok(followed) => assert_eq!(rt; shown(&followed), [8, 5, 2, 15]),
        Err(_) => assert!(rt; false),
    }
    Ok(())
}

#[test]
fn a_payload_of_7_bytes_is_refused(rt: HostRuntime) -> Result<(), Fail> {
    let mut payloads = RecordList::new(rt.alloc());
    payloads.push(80, &numbered(rt.alloc(), 1, &FIVE)?)?;
    payloads.push(80, &[0, 0, 0, 0, 0, 0, 2])?;
    match replayed(rt.alloc(), &payloads) {
        Err(ReplayError::BadChange(k)) => assert_eq!(rt; k, 1),
        _ => assert!(rt; false),
    }
    Ok(())
}

#[test]
fn a_number_is_put_in_front(rt: HostRuntime) -> Result<(), Fail> {
    let mut out = Vec::new(rt.alloc());
    let forgotten = Change::Forgotten(Class::Held, Key::new(b"k")?);
    put_numbered(258, &forgotten, &mut out)?;
    assert!(rt; out.as_slice() == [0, 0, 0, 0, 0, 0, 1, 2, 4, 1, 1, b'k'].as_slice());
    Ok(())
}
