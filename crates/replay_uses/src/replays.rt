//! Lists of payloads, the first one that is refused, and what is opened.

use Part::*;
use recovery::{Parts, ReplayError, replay};
use std::alloc::Global;
use std::process::Abort;
use std::test::Fail;
use voice_blocks::Owner;
use voice_journal::RecordList;
use voice_units::{BadShape, Graces, RopeId, Shape};

// All payloads are taken.
const TAKEN: u64 = 7777;

// Memory wanted.
const NO_MEMORY: u64 = 8888;

// A block without an address.
const NOWHERE: u64 = 9999;

// A payload, with its numbers.
#[derive(Clone, Copy)]
enum Part {
    // A base at moment 60, before rope 9.
    Base1,
    Base2,
    // One block of a file: the file, the index, the address.
    File1(u8, u8, u8),
    File2(u8, u8, u8),
    // Blocks 0 and 1 of a file at their addresses.
    Pair2(u8, u8, u8),
    // A rope of one sample: its number, its idle moment, the file and the place of the sample.
    Rope1(u8, u8, u8, u8),
    Rope2(u8, u8, u8, u8),
    // A recording of one block: its number and the address.
    Recorded1(u8, u8),
    Recorded2(u8, u8),
    // A later moment.
    Advanced(u8),
    // No byte, and a kind that there is not.
    Nothing,
    Unknown,
}

// The bytes of a payload.
fn spelled(alloc: Global, part: Part) -> Result<Vec<u8>, Fail> {
    let bytes = match part {
        Part::Base1 => [8, 0, 0, 0, 0, 0, 0, 0, 60, 0, 0, 0, 0, 0, 0, 0, 9].to_vec(alloc)?,
        Part::Base2 => [12, 0, 0, 0, 0, 0, 0, 0, 60, 0, 0, 0, 0, 0, 0, 0, 9].to_vec(alloc)?,
        Part::File1(file, k, a) => {
            [9, 0, 0, 0, 0, 0, 0, 0, file, 0, 0, 0, 1, 0, 0, 0, k, 0, a].to_vec(alloc)?
        }
        Part::File2(file, k, a) => [
            13, 0, 0, 0, 0, 0, 0, 0, file, 0, 0, 0, 1, 0, 0, 0, k, 0, 0, 0, a,
        ]
        .to_vec(alloc)?,
        Part::Pair2(file, a, b) => [
            13, 0, 0, 0, 0, 0, 0, 0, file, 0, 0, 0, 2, 0, 0, 0, 0, 0, 0, 0, a, 0, 0, 0, 1, 0, 0, 0,
            b,
        ]
        .to_vec(alloc)?,
        Part::Rope1(id, idle, file, from) => [
            10, 0, 0, 0, 0, 0, 0, 0, id, 0, 0, 0, 0, 0, 0, 0, idle, 0, 1, 0, 0, 0, 0, 0, 0, 0,
            file, 0, 0, 0, from, 0, 0, 0, 1,
        ]
        .to_vec(alloc)?,
        Part::Rope2(id, idle, file, from) => [
            14, 0, 0, 0, 0, 0, 0, 0, id, 0, 0, 0, 0, 0, 0, 0, idle, 3, 0, 1, 0, 0, 0, 0, 0, 0, 0,
            file, 0, 0, 0, from, 0, 0, 0, 1,
        ]
        .to_vec(alloc)?,
        Part::Recorded1(id, a) => [1, 0, 0, 0, 0, 0, 0, 0, id, 0, 0, 0, 8, 0, 0, 0, 1, 0, a].to_vec(
            alloc,
        )?,
        Part::Recorded2(id, a) => [
            11, 0, 0, 0, 0, 0, 0, 0, id, 0, 0, 0, 8, 0, 0, 0, 1, 0, 0, 0, a,
        ]
        .to_vec(alloc)?,
        Part::Advanced(moment) => [7, 0, 0, 0, 0, 0, 0, 0, moment].to_vec(alloc)?,
        Part::Nothing => Vec::new(alloc),
        Part::Unknown => [15].to_vec(alloc)?,
    };
    Ok(bytes)
}

// A shape of 16 blocks of 8 bytes.
fn shape_of(version: u32) -> Result<Shape, BadShape> {
    let graces = Graces {
        common: 60,
        held: 60,
        until: 60,
        listed: 60,
    };
    Shape::new(version, 8, 16, 512, graces, 4, 1216)
}

// The parts that payloads rebuild on a disk of a version.
fn opened(alloc: Global, version: u32, parts: &[Part]) -> Result<Result<Parts, u64>, Fail> {
    let mut payloads = RecordList::new(alloc);
    for part in parts {
        let bytes = spelled(alloc, *part)?;
        payloads.push(80, &bytes)?;
    }
    let Ok(shape) = shape_of(version) else {
        return Ok(Err(NO_MEMORY));
    };
    if payloads.len() > 99 {
        return Ok(Err(NO_MEMORY));
    }
    match replay(alloc, &shape, &payloads) {
        Ok(parts) => Ok(Ok(parts)),
        Err(ReplayError::BadChange(k)) => Ok(Err(u64::from(k))),
        Err(ReplayError::NoMemory) => Ok(Err(NO_MEMORY)),
    }
}

// The first payload that is refused, or TAKEN.
fn refused(alloc: Global, version: u32, parts: &[Part]) -> Result<u64, Fail> {
    match opened(alloc, version, parts)? {
        Ok(_) => Ok(TAKEN),
        Err(k) => Ok(k),
    }
}

// Asserts which payload is refused of each list, on a disk of a version.
fn assert_refused(
    rt: &impl Abort,
    alloc: Global,
    version: u32,
    rows: &[(&[Part], u64)],
) -> Result<(), Fail> {
    for (parts, wanted) in rows {
        let found = refused(alloc, version, parts)?;
        assert_eq!(rt; found, *wanted);
    }
    Ok(())
}

// Form 2 on a disk of version 2.
const FORM_2: [(&[Part], u64); 30] = [
    (&[], TAKEN),
    (&[Base2], TAKEN),
    (
        &[
            Base2,
            Pair2(1, 3, 5),
            File2(2, 0, 4),
            Rope2(1, 60, 1, 9),
            Rope2(2, 0, 2, 0),
        ],
        TAKEN,
    ),
    (&[Advanced(60), Base2], 1),
    (&[Base2, Base2], 1),
    (&[Base2, File2(2, 0, 3), File2(1, 0, 4)], 2),
    (&[Base2, File2(1, 0, 3), File2(1, 1, 4)], 2),
    (&[Base2, File2(8, 0, 3), File2(9, 0, 4)], 2),
    (&[Base2, File2(1, 0, 15), File2(2, 0, 16)], 2),
    (&[Base2, Pair2(1, 3, 3)], 1),
    (&[Base2, File2(1, 0, 3), File2(2, 0, 3)], 2),
    (&[Base2, Rope2(1, 60, 1, 0), File2(1, 0, 3)], 1),
    (
        &[Base2, File2(1, 0, 3), Rope2(1, 60, 1, 0), File2(2, 0, 4)],
        3,
    ),
    (&[Base2, File2(1, 0, 3), Rope2(1, 61, 1, 0)], 2),
    (&[Base2, File2(1, 0, 3), Rope2(1, 60, 1, 8)], 2),
    (&[Base2, File2(1, 0, 3), Rope2(9, 60, 1, 0)], 2),
    (
        &[
            Base2,
            File2(1, 0, 3),
            Rope2(2, 60, 1, 0),
            Rope2(2, 60, 1, 0),
        ],
        3,
    ),
    (
        &[Base2, File2(1, 0, 3), Advanced(61), Rope2(1, 60, 1, 0)],
        3,
    ),
    (&[Base2, Advanced(61), File2(1, 0, 3)], 2),
    (&[File2(1, 0, 3)], 0),
    (&[Rope2(1, 0, 1, 0)], 0),
    (&[Base1], 0),
    (&[Base2, File1(1, 0, 3)], 1),
    (&[Base2, File2(1, 0, 3), Rope1(1, 60, 1, 0)], 2),
    (&[Base2, Recorded1(9, 0)], 1),
    (&[Base2, Recorded2(8, 0)], 1),
    (
        &[Base2, Pair2(1, 3, 5), Rope2(1, 60, 1, 0), Recorded2(9, 5)],
        TAKEN,
    ),
    (
        &[Base2, Pair2(1, 3, 5), Rope2(1, 60, 1, 0), Recorded2(9, 3)],
        3,
    ),
    (&[Base2, Advanced(61), Nothing, Base2], 2),
    (&[Unknown], 0),
];

#[test]
fn lists_in_form_2(rt: HostRuntime) -> Result<(), Fail> {
    assert_refused(&rt, rt.alloc(), 2, &FORM_2)
}

// Both forms on a disk of version 1.
const BOTH_FORMS: [(&[Part], u64); 13] = [
    (
        &[
            Base1,
            File1(1, 0, 3),
            File1(2, 1, 4),
            Rope1(1, 60, 1, 0),
            Rope1(8, 0, 2, 8),
        ],
        TAKEN,
    ),
    (&[Base2, File2(1, 0, 3), Rope2(1, 60, 1, 0)], TAKEN),
    (&[Base1, File1(1, 0, 3), File1(2, 0, 3)], 2),
    (&[Base1, File1(2, 0, 3), File1(1, 0, 4)], 2),
    (&[Base1, File1(1, 0, 3), Rope1(1, 61, 1, 0)], 2),
    (&[Base1, File1(1, 0, 3), Rope1(1, 60, 2, 0)], 2),
    (&[Base1, File2(1, 0, 3)], 1),
    (&[Base2, File1(1, 0, 3)], 1),
    (&[Base1, File1(1, 0, 3), Rope2(1, 60, 1, 0)], 2),
    (&[Base1, Base2], 1),
    (&[Recorded1(1, 0), Base1], 1),
    (&[Recorded1(1, 0), Recorded1(2, 0)], 1),
    (&[Recorded1(1, 0), Recorded1(2, 1), Recorded2(3, 2)], 2),
];

#[test]
fn lists_in_both_forms(rt: HostRuntime) -> Result<(), Fail> {
    assert_refused(&rt, rt.alloc(), 1, &BOTH_FORMS)
}

// The address of a block of the first file.
fn address(parts: &Parts, index: u32) -> u64 {
    match parts.blocks.address(Owner::File(RopeId(1)), index) {
        Some(address) => u64::from(address),
        None => NOWHERE,
    }
}

fn assert_blocks(rt: &impl Abort, parts: &Parts) {
    let found = [
        u64::from(parts.blocks.free()),
        address(parts, 0),
        address(parts, 1),
    ];
    assert_eq!(rt; found, [15, NOWHERE, 5]);
}

fn assert_numbers(rt: &impl Abort, parts: &Parts) {
    let found = [parts.moment.number(), parts.next, u64::from(parts.form)];
    assert_eq!(rt; found, [60, 9, 2]);
}

fn assert_rope(rt: &impl Abort, parts: &Parts) {
    assert_eq!(rt; parts.ropes.count(), 1);
    assert!(rt; parts.ropes.last(RopeId(1)) == Some(3));
    assert!(rt; parts.ropes.idle(RopeId(1)).is_some());
}

// Rope 1 uses block 1 of file 1; block 0 is free at the end.
#[test]
fn a_base_is_opened(rt: HostRuntime) -> Result<(), Fail> {
    let base = [Part::Base2, Part::Pair2(1, 3, 5), Part::Rope2(1, 59, 1, 8)];
    let Ok(parts) = opened(rt.alloc(), 2, &base)? else {
        return Err(Fail::new("the base is refused"));
    };
    assert_blocks(&rt, &parts);
    assert_numbers(&rt, &parts);
    assert_rope(&rt, &parts);
    Ok(())
}
