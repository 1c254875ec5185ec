//! The script of the tables on faults and crashes, the disk that it runs over, and what a disk is found to hold.

use crate::runs::{F20, fill_journal, run_script, small_disk};
use disk_uses::steps::{bytes_of, part};
use std::alloc::Global;
use std::sync::Wait;
use std::test::Fail;
use std::thread::Threads;
use voice_disk::MemDisk;
use voice_main::Status;
use voice_model::{Entry, Reply, Why};

/// Ten lines. Over a full journal the first one switches.
pub const SCRIPT: &[u8] =
    b"1 a = record f20\n1 b = sub a 5 10\n1 c = concat a b\n1 record z8\n1 d = replace a 5 10 c\n1 length d\n1 sub d 0 0\n1 length x\n1 record f20\n1 length c\n";

/// What it prints without faults.
pub const TEXT: &[u8] =
    b"1 1 record: rope 1 length 20\n2 1 sub: rope 2 length 10\n3 1 concat: rope 3 length 30\n4 1 record: rope 4 length 8\n5 1 replace: rope 5 length 40\n6 1 length: number 40\n7 1 sub: rope 6 length 0\n8 1 length: no unknown-rope 0\n9 1 record: rope 7 length 20\n10 1 length: number 30\n";

/// The lengths of its ropes, without faults.
pub const LENGTHS: [u64; 7] = [20, 10, 30, 8, 40, 0, 20];

// A look at each of them.
const PROBE: &[u8] =
    b"1 length 1\n1 length 2\n1 length 3\n1 length 4\n1 length 5\n1 length 6\n1 length 7\n";

/// How many device calls make a formatted disk whose journal is full.
pub const FILLED: u64 = 148;

/// A small disk of version 2 whose journal is full of advances.
pub fn full_disk(alloc: Global, fails: &[u64]) -> Result<MemDisk, Fail> {
    let mut disk = small_disk(alloc, 2, fails)?;
    let _filled = fill_journal(alloc, &mut disk, 1)?;
    Ok(disk)
}

/// What is found of a rope: its length, that it is not there, or nothing of the kind.
#[derive(Clone, Copy, Debug, PartialEq, Eq)]
pub enum Found {
    Length(u64),
    Absent,
    Strange,
}

fn found_in(entry: &Entry) -> Found {
    match &entry.reply {
        Reply::Number(n) => Found::Length(*n),
        Reply::No(Why::UnknownRope(_)) => Found::Absent,
        _ => Found::Strange,
    }
}

/// What a run finds of the ropes 1 to 7 on a disk.
pub fn ropes_on<R: Threads + Wait + Sync>(
    rt: &R,
    alloc: Global,
    disk: MemDisk,
) -> Result<[Found; 7], Fail> {
    let (ended, _) = run_script(rt, alloc, PROBE, disk)?;
    let mut found = [Found::Strange; 7];
    if ended.status != Status::Done {
        return Ok(found);
    }
    for (one, entry) in found.iter_mut().zip(&ended.history) {
        *one = found_in(entry);
    }
    Ok(found)
}

/// A disk of these bytes.
pub fn disk_with(alloc: Global, bytes: Vec<u8>) -> Result<MemDisk, Fail> {
    Ok(MemDisk::of(alloc, bytes, Vec::new(alloc))?)
}

/// Whether the bytes of the recordings among the first ropes stand in their blocks: each took the lowest free ones.
pub fn has_samples(bytes: &[u8], ropes: usize) -> bool {
    if ropes >= 1 && part(bytes, 1088, 1108) != F20.as_slice() {
        return false;
    }
    if ropes >= 4 && part(bytes, 1112, 1120) != [0x80; 8].as_slice() {
        return false;
    }
    ropes < 7 || part(bytes, 1120, 1140) == F20.as_slice()
}

/// The bytes that are on a disk.
pub fn copy_of(alloc: Global, disk: &MemDisk) -> Result<MemDisk, Fail> {
    let bytes = bytes_of(alloc, disk)?;
    disk_with(alloc, bytes)
}
