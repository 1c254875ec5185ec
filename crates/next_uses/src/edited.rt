//! Edits and lengths of the ropes of one large recording. No sample is read.

ghost use Rattle.std.specs.Prelude.{◌≡◌, is_some, IfOk};
ghost use Rattle.recovery.specs.Shown.{IsParts};
ghost use Rattle.voice_model.specs.Replay.{brings};

use change_codec::get;
use edits::{Made, concat, length, replace, sub};
use recovery::Parts;
use rope_algebra::Pieces;
use std::alloc::Global;
use std::test::Fail;
use voice_model::{Change, Why};
use voice_units::{BadShape, Graces, NoMemory, RopeId, Shape};

// The ropes: the recording of 2^26 samples; its first 20; none; the recording 16 times; its first sample; that 16, 256 and 4,096 times; its samples from the 20th to the 24th.
const WHOLE: RopeId = RopeId(1);

const SHORT: RopeId = RopeId(2);

const EMPTY: RopeId = RopeId(3);

const LONGEST: RopeId = RopeId(4);

const ONE: RopeId = RopeId(5);

const OFTEN: RopeId = RopeId(6);

const MORE: RopeId = RopeId(7);

const MOST: RopeId = RopeId(8);

const NEXT: RopeId = RopeId(9);

// These are not live.
const GONE: RopeId = RopeId(90);

const LOST: RopeId = RopeId(91);

// What was answered: the length and the count of pieces, or why not.
#[derive(Clone, Copy, Debug, PartialEq)]
enum Answer {
    Rope(u32, u32),
    No(Why),
    NoMemory,
}

use Answer::{No, Rope};

fn told(made: Result<Made, NoMemory>) -> Answer {
    match made {
        Ok(Made::Rope(pieces)) => Rope(pieces.length(), pieces.count()),
        Ok(Made::Refused(why)) => No(why),
        Err(_) => Answer::NoMemory,
    }
}

fn large_shape() -> Result<Shape, BadShape> {
    let graces = Graces {
        common: 60,
        held: 60,
        until: 60,
        listed: 60,
    };
    Shape::new(2, 8192, 8192, 512, graces, 4, 1 << 27)
}

fn empty_parts(alloc: Global, shape: &Shape) -> Result<Parts, NoMemory>
    ensures { IfOk result (λ parts. IsParts shape.now parts) }
{
    Parts::empty(alloc, shape)
}

// Whether a running server makes changes of this kind.
fn is_of_a_server(change: &Change) -> bool
    ensures { result ≡ is_some (brings change.now) }
{
    match change {
        Change::Base(..)
        | Change::Base2(..)
        | Change::File(..)
        | Change::File2(..)
        | Change::Rope(..)
        | Change::Rope2(..) => false,
        _ => true,
    }
}

// Whether the change that bytes spell was done.
fn is_done(parts: &mut Parts, alloc: Global, shape: &Shape, bytes: &[u8]) -> bool
    requires { IsParts shape.now parts.old }
    ensures { IsParts shape.now parts.new }
{
    let Ok(change) = get(alloc, bytes) else {
        return false;
    };
    if !is_of_a_server(&change) {
        return false;
    }
    if parts.ropes.count() > 99 {
        return false;
    }
    if parts.interests.is_full() {
        return false;
    }
    match parts.apply(alloc, shape, &change) {
        Ok(done) => done,
        Err(_) => false,
    }
}

// A recording of so many blocks of 8,192 samples, at the addresses from 0 on.
fn recording(alloc: Global, len: u32, blocks: u32) -> Result<Vec<u8>, NoMemory> {
    let mut bytes = Vec::new(alloc);
    bytes.push(11)?;
    bytes.extend_from_slice(&WHOLE.number().to_be_bytes())?;
    bytes.extend_from_slice(&len.to_be_bytes())?;
    bytes.extend_from_slice(&blocks.to_be_bytes())?;
    for address in 0..blocks {
        bytes.extend_from_slice(&address.to_be_bytes())?;
    }
    Ok(bytes)
}

// An edit that makes a rope of these pieces.
fn edit(alloc: Global, id: RopeId, pieces: &Pieces) -> Result<Vec<u8>, NoMemory> {
    let Ok(count) = u16::try_from(pieces.count()) else {
        return Err(NoMemory);
    };
    let mut bytes = Vec::new(alloc);
    bytes.push(2)?;
    bytes.extend_from_slice(&id.number().to_be_bytes())?;
    bytes.extend_from_slice(&count.to_be_bytes())?;
    for k in 0..pieces.count() {
        if let Some(piece) = pieces.piece(k) {
            bytes.extend_from_slice(&piece.file.number().to_be_bytes())?;
            bytes.extend_from_slice(&piece.from.to_be_bytes())?;
            bytes.extend_from_slice(&piece.len.to_be_bytes())?;
        }
    }
    Ok(bytes)
}

// Whether a rope that was made is put in as the next one.
fn put(parts: &mut Parts, alloc: Global, shape: &Shape, made: Result<Made, NoMemory>) -> bool
    requires { IsParts shape.now parts.old }
    ensures { IsParts shape.now parts.new }
{
    let Some(id) = RopeId::new(parts.next) else {
        return false;
    };
    let Ok(Made::Rope(pieces)) = made else {
        return false;
    };
    let Ok(bytes) = edit(alloc, id, &pieces) else {
        return false;
    };
    is_done(parts, alloc, shape, &bytes)
}

// Puts in the nine ropes, and says which were done.
fn fill(parts: &mut Parts, alloc: Global, shape: &Shape) -> Result<[bool; 9], NoMemory>
    requires { IsParts shape.now parts.old }
{
    let bytes = recording(alloc, 1 << 26, 8192)?;
    let whole = is_done(parts, alloc, shape, &bytes);
    let made = sub(parts, WHOLE, 0, 20);
    let short = put(parts, alloc, shape, made);
    let made = sub(parts, WHOLE, 1 << 26, 0);
    let empty = put(parts, alloc, shape, made);
    let made = concat(alloc, parts, &[WHOLE; 16]);
    let longest = put(parts, alloc, shape, made);
    let made = sub(parts, WHOLE, 0, 1);
    let one = put(parts, alloc, shape, made);
    let made = concat(alloc, parts, &[ONE; 16]);
    let often = put(parts, alloc, shape, made);
    let made = concat(alloc, parts, &[OFTEN; 16]);
    let more = put(parts, alloc, shape, made);
    let made = concat(alloc, parts, &[MORE; 16]);
    let most = put(parts, alloc, shape, made);
    let made = sub(parts, WHOLE, 20, 5);
    let next = put(parts, alloc, shape, made);
    Ok([whole, short, empty, longest, one, often, more, most, next])
}

fn lengths(parts: &Parts) -> [Option<u32>; 5] {
    [SHORT, EMPTY, LONGEST, MOST, GONE].map(|id| length(parts, id))
}

// Up to the end and behind it, of the longest rope, and of none.
fn subs(parts: &Parts) -> [Answer; 7] {
    [
        told(sub(parts, SHORT, 12, 8)),
        told(sub(parts, SHORT, 13, 8)),
        told(sub(parts, SHORT, 20, 0)),
        told(sub(parts, SHORT, 21, 0)),
        told(sub(parts, SHORT, u32::MAX, u32::MAX)),
        told(sub(parts, LONGEST, 0, 1 << 30)),
        told(sub(parts, GONE, 0, 0)),
    ]
}

// Parts that go, that come and that join; then each reason, in the call's order.
fn replacements(parts: &Parts) -> [Answer; 11] {
    [
        told(replace(parts, SHORT, 5, 10, EMPTY)),
        told(replace(parts, SHORT, 20, 0, SHORT)),
        told(replace(parts, SHORT, 20, 0, NEXT)),
        told(replace(parts, SHORT, 0, 20, EMPTY)),
        told(replace(parts, LONGEST, 0, 1, ONE)),
        told(replace(parts, GONE, 30, 0, LOST)),
        told(replace(parts, SHORT, 30, 0, LOST)),
        told(replace(parts, SHORT, 21, 0, LONGEST)),
        told(replace(parts, LONGEST, 7, 0, ONE)),
        told(replace(parts, LONGEST, 0, 0, LONGEST)),
        told(replace(parts, MOST, 0, 0, ONE)),
    ]
}

// One after another, and what joins; then each reason, in the call's order.
fn joins(parts: &Parts, alloc: Global) -> [Answer; 8] {
    [
        told(concat(alloc, parts, &[SHORT, SHORT])),
        told(concat(alloc, parts, &[SHORT, EMPTY, NEXT])),
        told(concat(alloc, parts, &[EMPTY])),
        told(concat(alloc, parts, &[LONGEST, EMPTY])),
        told(concat(alloc, parts, &[LONGEST, GONE, LOST, ONE])),
        told(concat(alloc, parts, &[LONGEST, ONE])),
        told(concat(alloc, parts, &[LONGEST; 16])),
        told(concat(alloc, parts, &[MOST, ONE])),
    ]
}

// With the last number, and with none left.
fn numbers(parts: &mut Parts, alloc: Global) -> [Answer; 5] {
    parts.next = 1 << 48;
    let last = told(concat(alloc, parts, &[SHORT]));
    parts.next = (1 << 48) + 1;
    [
        last,
        told(concat(alloc, parts, &[SHORT])),
        told(concat(alloc, parts, &[MOST, ONE])),
        told(sub(parts, SHORT, 0, 0)),
        told(replace(parts, SHORT, 0, 0, SHORT)),
    ]
}

#[test]
fn edits_of_a_recording(rt: HostRuntime) -> Result<(), Fail> {
    let alloc = rt.alloc();
    let shape = large_shape()?;
    let mut parts = empty_parts(alloc, &shape)?;
    assert_eq!(rt; fill(&mut parts, alloc, &shape)?, [true; 9]);
    assert_eq!(rt;
        lengths(&parts),
        [Some(20), Some(0), Some(1 << 30), Some(4096), None]
    );
    assert_eq!(rt;
        subs(&parts),
        [
            Rope(8, 1),
            No(Why::BadInterval(20)),
            Rope(0, 0),
            No(Why::BadInterval(20)),
            No(Why::BadInterval(20)),
            Rope(1 << 30, 16),
            No(Why::UnknownRope(GONE))
        ]
    );
    assert_eq!(rt;
        replacements(&parts),
        [
            Rope(10, 2),
            Rope(40, 2),
            Rope(25, 1),
            Rope(0, 0),
            Rope(1 << 30, 16),
            No(Why::UnknownRope(GONE)),
            No(Why::UnknownRope(LOST)),
            No(Why::BadInterval(20)),
            No(Why::TooLong((1 << 30) + 1)),
            No(Why::TooLong(1 << 31)),
            No(Why::TooManyPieces(4097))
        ]
    );
    assert_eq!(rt;
        joins(&parts, alloc),
        [
            Rope(40, 2),
            Rope(25, 1),
            Rope(0, 0),
            Rope(1 << 30, 16),
            No(Why::UnknownRope(GONE)),
            No(Why::TooLong((1 << 30) + 1)),
            No(Why::TooLong(1 << 34)),
            No(Why::TooManyPieces(4097))
        ]
    );
    assert_eq!(rt;
        numbers(&mut parts, alloc),
        [
            Rope(20, 1),
            No(Why::IdsSpent),
            No(Why::TooManyPieces(4097)),
            No(Why::IdsSpent),
            No(Why::IdsSpent)
        ]
    );
    Ok(())
}
