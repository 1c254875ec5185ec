//! Bases of small disks, byte for byte, and of what many changes leave.

ghost use Rattle.recovery.specs.Shown.{IsParts};

use crate::steps::{empty_parts, tried};
use checkpoint::{BaseNumbers, base_size, compact_parts};
use recovery::Parts;
use std::alloc::Global;
use std::process::Abort;
use std::test::Fail;
use voice_journal::Payloads;
use voice_units::{BadShape, Graces, NoMemory, Shape};

/// 64 blocks of 8 samples.
pub fn small_shape(version: u32) -> Result<Shape, BadShape> {
    let graces = Graces {
        common: 60,
        held: 60,
        until: 60,
        listed: 60,
    };
    Shape::new(version, 8, 64, 4096, graces, 4, 1 << 20)
}

/// The base in a form, where the parts may take it.
pub fn compacted(
    parts: &Parts,
    alloc: Global,
    shape: &Shape,
    form: u8,
) -> Result<Payloads, NoMemory>
    requires { IsParts shape.now parts.now }
{
    if form == 2 {
        return compact_parts(alloc, 2, parts);
    }
    if parts.form == 1 {
        return compact_parts(alloc, 1, parts);
    }
    Err(NoMemory)
}

// Whether a payload has these bytes; none stand for any.
fn is_payload(payloads: &Payloads, k: u32, bytes: &[u8]) -> bool {
    match payloads.get(k) {
        Some(payload) => bytes.is_empty() || payload == bytes,
        None => false,
    }
}

// The first payload that is not as the list has it, or the length of the list where there are just these.
fn same_until(payloads: &Payloads, list: &[&[u8]]) -> usize {
    for (k, bytes) in list.iter().enumerate() {
        let Ok(index) = u32::try_from(k) else {
            return k;
        };
        if !is_payload(payloads, index, bytes) {
            return k;
        }
    }
    match u32::try_from(list.len()) {
        Ok(count) if payloads.get(count).is_none() => list.len(),
        _ => list.len() + 1,
    }
}

// How many of these changes were done.
fn done(parts: &mut Parts, alloc: Global, shape: &Shape, changes: &[&[u8]]) -> u64
    requires { IsParts shape.now parts.old }
    ensures { IsParts shape.now parts.new }
{
    let mut done = 0u64;
    'changes: for bytes in changes {
        if tried(parts, alloc, shape, bytes) == 1 {
            done = done.saturating_add(1);
        }
    }
    done
}

// How far the base in a form is as the list has it, and its size.
fn spelled(
    parts: &Parts,
    alloc: Global,
    shape: &Shape,
    form: u8,
    list: &[&[u8]],
) -> Result<(usize, u64), NoMemory>
    requires { IsParts shape.now parts.now }
{
    let base = compacted(parts, alloc, shape, form)?;
    Ok((same_until(&base, list), base.size()))
}

// The same once these changes were tried on nothing, in a disk of a version, with how many were done.
fn changed(
    alloc: Global,
    version: u32,
    changes: &[&[u8]],
    form: u8,
    list: &[&[u8]],
) -> Result<(u64, usize, u64), NoMemory> {
    let Ok(shape) = small_shape(version) else {
        return Err(NoMemory);
    };
    let mut parts = empty_parts(alloc, &shape)?;
    let count = done(&mut parts, alloc, &shape, changes);
    let (same, size) = spelled(&parts, alloc, &shape, form, list)?;
    Ok((count, same, size))
}

// Asserts the same.
fn assert_changed(
    rt: &impl Abort,
    alloc: Global,
    changes: &[&[u8]],
    form: u8,
    list: &[&[u8]],
    wanted: (u64, usize, u64),
) -> Result<(), Fail> {
    let found = changed(alloc, 1, changes, form, list)?;
    assert_eq!(rt; found, wanted);
    Ok(())
}

const BEGUN: [u8; 17] = [8, 0, 0, 0, 0, 0, 0, 0, 0, 0, 0, 0, 0, 0, 0, 0, 1];

const BEGUN_2: [u8; 17] = [12, 0, 0, 0, 0, 0, 0, 0, 0, 0, 0, 0, 0, 0, 0, 0, 1];

#[test]
fn nothing(rt: HostRuntime) -> Result<(), Fail> {
    assert_changed(&rt, rt.alloc(), &[], 1, &[&BEGUN], (0, 1, 22))?;
    assert_changed(&rt, rt.alloc(), &[], 2, &[&BEGUN_2], (0, 1, 22))
}

// 20 samples, in the blocks at 0, 1 and 2.
const RECORDED: [u8; 23] = [
    1, 0, 0, 0, 0, 0, 0, 0, 1, 0, 0, 0, 20, 0, 0, 0, 3, 0, 0, 0, 1, 0, 2,
];

// Rope 3 is made of the first five samples of file 1, and of the last five.
const EDITED: [u8; 43] = [
    2, 0, 0, 0, 0, 0, 0, 0, 3, 0, 2, 0, 0, 0, 0, 0, 0, 0, 1, 0, 0, 0, 0, 0, 0, 0, 5, 0, 0, 0, 0, 0,
    0, 0, 1, 0, 0, 0, 15, 0, 0, 0, 5,
];

// A row of class held, with key mail.1 and note hi, for rope 3.
const RETAINED: [u8; 20] = [
    3, 1, 6, 109, 97, 105, 108, 46, 49, 0, 0, 0, 0, 0, 0, 0, 3, 2, 104, 105,
];

const ADVANCED: [u8; 9] = [7, 0, 0, 0, 0, 0, 0, 0, 60];

// 9 samples, in the blocks at 7 and 4.
const RECORDED_LATER: [u8; 21] = [
    1, 0, 0, 0, 0, 0, 0, 0, 4, 0, 0, 0, 9, 0, 0, 0, 2, 0, 7, 0, 4,
];

// Rope 5 is the last sample of file 4.
const LAST_SAMPLE: [u8; 27] = [
    2, 0, 0, 0, 0, 0, 0, 0, 5, 0, 1, 0, 0, 0, 0, 0, 0, 0, 4, 0, 0, 0, 8, 0, 0, 0, 1,
];

// Rope 4 goes, and with it the first block of its file.
const SWEPT: [u8; 11] = [6, 0, 1, 0, 0, 0, 0, 0, 0, 0, 4];

const HEAD: [u8; 17] = [8, 0, 0, 0, 0, 0, 0, 0, 60, 0, 0, 0, 0, 0, 0, 0, 6];

const FILE: [u8; 31] = [
    9, 0, 0, 0, 0, 0, 0, 0, 1, 0, 0, 0, 3, 0, 0, 0, 0, 0, 0, 0, 0, 0, 1, 0, 1, 0, 0, 0, 2, 0, 2,
];

const FILE_4: [u8; 19] = [9, 0, 0, 0, 0, 0, 0, 0, 4, 0, 0, 0, 1, 0, 0, 0, 1, 0, 4];

const ROPE: [u8; 35] = [
    10, 0, 0, 0, 0, 0, 0, 0, 1, 0, 0, 0, 0, 0, 0, 0, 0, 0, 1, 0, 0, 0, 0, 0, 0, 0, 1, 0, 0, 0, 0,
    0, 0, 0, 20,
];

const ROPE_3: [u8; 51] = [
    10, 0, 0, 0, 0, 0, 0, 0, 3, 0, 0, 0, 0, 0, 0, 0, 0, 0, 2, 0, 0, 0, 0, 0, 0, 0, 1, 0, 0, 0, 0,
    0, 0, 0, 5, 0, 0, 0, 0, 0, 0, 0, 1, 0, 0, 0, 15, 0, 0, 0, 5,
];

const ROPE_5: [u8; 35] = [
    10, 0, 0, 0, 0, 0, 0, 0, 5, 0, 0, 0, 0, 0, 0, 0, 60, 0, 1, 0, 0, 0, 0, 0, 0, 0, 4, 0, 0, 0, 8,
    0, 0, 0, 1,
];

const HEAD_2: [u8; 17] = [12, 0, 0, 0, 0, 0, 0, 0, 60, 0, 0, 0, 0, 0, 0, 0, 6];

const FILE_4_2: [u8; 21] = [
    13, 0, 0, 0, 0, 0, 0, 0, 4, 0, 0, 0, 1, 0, 0, 0, 1, 0, 0, 0, 4,
];

const ROPE_5_2: [u8; 36] = [
    14, 0, 0, 0, 0, 0, 0, 0, 5, 0, 0, 0, 0, 0, 0, 0, 60, 0, 0, 1, 0, 0, 0, 0, 0, 0, 0, 4, 0, 0, 0,
    8, 0, 0, 0, 1,
];

const CHANGES: [&[u8]; 7] = [
    &RECORDED,
    &EDITED,
    &RETAINED,
    &ADVANCED,
    &RECORDED_LATER,
    &LAST_SAMPLE,
    &SWEPT,
];

const LIST: [&[u8]; 7] = [&HEAD, &FILE, &FILE_4, &ROPE, &ROPE_3, &ROPE_5, &RETAINED];

// An empty place of a list stands for any payload.
const LIST_2: [&[u8]; 7] = [&HEAD_2, &[], &FILE_4_2, &[], &[], &ROPE_5_2, &RETAINED];

#[test]
fn changes(rt: HostRuntime) -> Result<(), Fail> {
    assert_changed(&rt, rt.alloc(), &CHANGES, 1, &LIST, (7, 7, 243))?;
    assert_changed(&rt, rt.alloc(), &CHANGES, 2, &LIST_2, (7, 7, 254))
}

// In form 2: 9 samples, in the blocks at 40 and 4.
const WIDE: [u8; 25] = [
    11, 0, 0, 0, 0, 0, 0, 0, 1, 0, 0, 0, 9, 0, 0, 0, 2, 0, 0, 0, 40, 0, 0, 0, 4,
];

// Rope 1 had a row of class listed last.
const ROPE_LISTED: [u8; 36] = [
    14, 0, 0, 0, 0, 0, 0, 0, 1, 0, 0, 0, 0, 0, 0, 0, 0, 3, 0, 1, 0, 0, 0, 0, 0, 0, 0, 1, 0, 0, 0,
    0, 0, 0, 0, 9,
];

const LISTED: [u8; 13] = [3, 3, 1, 0x6b, 0, 0, 0, 0, 0, 0, 0, 1, 0];

const UNLISTED: [u8; 4] = [4, 3, 1, 0x6b];

const HEAD_WIDE: [u8; 17] = [12, 0, 0, 0, 0, 0, 0, 0, 0, 0, 0, 0, 0, 0, 0, 0, 2];

const FILE_WIDE: [u8; 29] = [
    13, 0, 0, 0, 0, 0, 0, 0, 1, 0, 0, 0, 2, 0, 0, 0, 0, 0, 0, 0, 40, 0, 0, 0, 1, 0, 0, 0, 4,
];

#[test]
fn last_class(rt: HostRuntime) -> Result<(), Fail> {
    let changes: [&[u8]; 3] = [&WIDE, &LISTED, &UNLISTED];
    let list: [&[u8]; 3] = [&HEAD_WIDE, &FILE_WIDE, &ROPE_LISTED];
    let (done, same, _size) = changed(rt.alloc(), 2, &changes, 2, &list)?;
    assert_eq!(rt; (done, same), (3, 3));
    Ok(())
}

fn numbers(list: [u64; 7]) -> BaseNumbers {
    let [files, blocks, ropes, pieces, rows, key_bytes, note_bytes] = list;
    BaseNumbers {
        files,
        blocks,
        ropes,
        pieces,
        rows,
        key_bytes,
        note_bytes,
    }
}

#[test]
fn sizes(rt: HostRuntime) {
    let table = [
        (1, [0, 0, 0, 0, 0, 0, 0], 22),
        (2, [0, 0, 0, 0, 0, 0, 0], 22),
        (1, [2, 4, 3, 4, 1, 6, 2], 243),
        (2, [2, 4, 3, 4, 1, 6, 2], 254),
        (1, [u64::MAX, 0, 0, 0, 0, 0, 0], u64::MAX),
    ];
    for (form, list, size) in table {
        assert_eq!(rt; base_size(form, &numbers(list)), size);
    }
}
