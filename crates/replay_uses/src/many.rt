//! Bases of what many changes leave, replayed and spelled again.

ghost use Rattle.recovery.specs.Shown.{IsParts};

use crate::bases::{compacted, small_shape};
use crate::steps::{empty_parts, tried};
use checkpoint::compact_parts;
use recovery::{Parts, replay};
use std::alloc::Global;
use std::test::Fail;
use voice_journal::{Payloads, RecordList};
use voice_units::{NoMemory, Shape};

// Mixes the bits of a state into the next one, and gives its upper bits.
fn draw(state: &mut u64) -> u64 {
    let mut x = *state;
    x ^= x << 13;
    x ^= x >> 7;
    x ^= x << 17;
    *state = x;
    x >> 16
}

// The first bytes of a change: its kind and a rope's number.
fn begun(alloc: Global, kind: u8, id: u64) -> Result<Vec<u8>, NoMemory> {
    let mut bytes = Vec::new(alloc);
    bytes.push(kind)?;
    bytes.extend_from_slice(&id.to_be_bytes())?;
    Ok(bytes)
}

// A recording of up to 31 samples, in blocks one behind another.
fn recorded(alloc: Global, next: u64, x: u64) -> Result<Vec<u8>, NoMemory> {
    let len = (x % 32) as u32;
    let count = len.div_ceil(8);
    let first = (x / 32 % 64) as u32;
    let mut bytes = begun(alloc, 11, next)?;
    bytes.extend_from_slice(&len.to_be_bytes())?;
    bytes.extend_from_slice(&count.to_be_bytes())?;
    for k in 0..count {
        bytes.extend_from_slice(&(first + k).to_be_bytes())?;
    }
    Ok(bytes)
}

// Up to 8 samples of one of the first 8 files, from one of its first 16 on.
fn piece(bytes: &mut Vec<u8>, x: u64) -> Result<(), NoMemory> {
    bytes.extend_from_slice(&(1 + x % 8).to_be_bytes())?;
    bytes.extend_from_slice(&((x / 8 % 16) as u32).to_be_bytes())?;
    bytes.extend_from_slice(&((1 + x / 128 % 8) as u32).to_be_bytes())?;
    Ok(())
}

// An edit of two pieces.
fn edited(alloc: Global, next: u64, x: u64) -> Result<Vec<u8>, NoMemory> {
    let mut bytes = begun(alloc, 2, next)?;
    bytes.extend_from_slice(&[0, 2])?;
    piece(&mut bytes, x)?;
    piece(&mut bytes, x / 1024)?;
    Ok(bytes)
}

// A row with one of eight keys, for one of the first 64 ropes, until moment 5 where it is of that class.
fn retained(alloc: Global, x: u64) -> Result<Vec<u8>, NoMemory> {
    let class = (1 + x % 3) as u8;
    let key = 0x61 + (x / 4 % 8) as u8;
    let mut bytes = Vec::new(alloc);
    bytes.extend_from_slice(&[3, class, 1, key])?;
    bytes.extend_from_slice(&(1 + x / 32 % 64).to_be_bytes())?;
    if class == 2 {
        bytes.extend_from_slice(&[8, 0, 0, 0, 0, 0, 0, 0, 5])?;
    } else {
        bytes.push(0)?;
    }
    Ok(bytes)
}

// A row of class held with one of eight keys goes.
fn forgotten(alloc: Global, x: u64) -> Result<Vec<u8>, NoMemory> {
    let mut bytes = Vec::new(alloc);
    bytes.extend_from_slice(&[4, 1, 1, 0x61 + (x % 8) as u8])?;
    Ok(bytes)
}

// A census drops one of eight keys.
fn census(alloc: Global, x: u64) -> Result<Vec<u8>, NoMemory> {
    let mut bytes = Vec::new(alloc);
    bytes.extend_from_slice(&[5, 0, 1, 1, 0x61 + (x % 8) as u8])?;
    Ok(bytes)
}

// One of the first 64 ropes goes.
fn swept(alloc: Global, x: u64) -> Result<Vec<u8>, NoMemory> {
    let mut bytes = Vec::new(alloc);
    bytes.extend_from_slice(&[6, 0, 1])?;
    bytes.extend_from_slice(&(1 + x % 64).to_be_bytes())?;
    Ok(bytes)
}

// A change of a running server, which may be illegal.
fn change(alloc: Global, next: u64, x: u64) -> Result<Vec<u8>, NoMemory> {
    let rest = x / 16;
    match x % 16 {
        0..=4 => recorded(alloc, next, rest),
        5..=9 => edited(alloc, next, rest),
        10 | 11 => retained(alloc, rest),
        12 => forgotten(alloc, rest),
        13 => census(alloc, rest),
        14 => begun(alloc, 7, rest % 64),
        _ => swept(alloc, rest),
    }
}

// Tries so many changes, and says how many were done.
fn try_many(
    parts: &mut Parts,
    alloc: Global,
    shape: &Shape,
    seed: u64,
    count: u64,
) -> Result<u64, NoMemory>
    requires { IsParts shape.now parts.old }
    ensures { IsParts shape.now parts.new }
{
    let mut state = seed;
    let mut done = 0u64;
    'changes: for _ in 0..count {
        let bytes = change(alloc, parts.next, draw(&mut state))?;
        if tried(parts, alloc, shape, &bytes) == 1 {
            done = done.saturating_add(1);
        }
    }
    Ok(done)
}

// The payloads as records.
fn records(alloc: Global, base: &Payloads) -> Result<RecordList, NoMemory> {
    let mut list = RecordList::new(alloc);
    for k in 0..99_999 {
        let Some(payload) = base.get(k) else {
            return Ok(list);
        };
        list.push(u64::from(k), payload)?;
    }
    Err(NoMemory)
}

// The base in form 2 of what these records rebuild.
fn spelled_again(alloc: Global, shape: &Shape, list: &RecordList) -> Result<Payloads, NoMemory> {
    if list.len() > 99_999 {
        return Err(NoMemory);
    }
    let Ok(parts) = replay(alloc, shape, list) else {
        return Err(NoMemory);
    };
    compact_parts(alloc, 2, &parts)
}

// How many payloads they have both; none where they differ.
fn in_common(first: &Payloads, second: &Payloads) -> Option<usize> {
    for k in 0..99_999 {
        match (first.get(k), second.get(k)) {
            (None, None) => return Some(k as usize),
            (Some(one), Some(other)) if one == other => {}
            _ => return None,
        }
    }
    None
}

// Whether these payloads, replayed and spelled again, are the same.
fn same_again(alloc: Global, shape: &Shape, base: &Payloads) -> Result<bool, NoMemory> {
    let list = records(alloc, base)?;
    let again = spelled_again(alloc, shape, &list)?;
    Ok(in_common(base, &again) == Some(list.len()))
}

// Whether the base of parts is spelled again as it is.
fn repeats(parts: &Parts, alloc: Global, shape: &Shape) -> Result<bool, NoMemory>
    requires { IsParts shape.now parts.now }
{
    let base = compacted(parts, alloc, shape, 2)?;
    same_again(alloc, shape, &base)
}

// How many changes were done, and whether the base of what they left is spelled again as it is.
fn spelled_by(alloc: Global, seed: u64) -> Result<(u64, bool), NoMemory> {
    let Ok(shape) = small_shape(2) else {
        return Err(NoMemory);
    };
    let mut parts = empty_parts(alloc, &shape)?;
    let done = try_many(&mut parts, alloc, &shape, seed, 200)?;
    let same = repeats(&parts, alloc, &shape)?;
    Ok((done, same))
}

#[test]
fn spelled_twice(rt: HostRuntime) -> Result<(), Fail> {
    for seed in 1..4 {
        let (done, same) = spelled_by(rt.alloc(), seed * 0x9E37_79B9)?;
        assert!(rt; done > 40, "{done} changes were done");
        assert!(rt; same);
    }
    Ok(())
}
