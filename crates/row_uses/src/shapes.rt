//! The greatest number of blocks.

use crate::runs::{Standing, assert_standing, printed, run_words};
use std::alloc::Global;
use std::process::Abort;
use std::sync::Wait;
use std::test::Fail;
use std::thread::Threads;
use voice_disk::MemDisk;
use voice_main::Status;

// What a disk of 1,048,576 blocks of 8 bytes takes, with areas of 512.
const SIZE: u64 = 64 + 2 * 512 + 8 * 1_048_576;

const FORMAT: [&str; 7] = [
    "format", "--block", "8", "--area", "512", "--blocks", "1048576",
];

const TOO_MANY: [&str; 7] = [
    "format", "--block", "8", "--area", "512", "--blocks", "1048577",
];

// What a format of a disk of that size comes to, and the disk then.
fn formatted<R: Threads + Wait + Sync>(
    rt: &R,
    alloc: Global,
    size: u64,
    words: &[&str],
) -> Result<(Status, MemDisk), Fail> {
    let disk = MemDisk::new(alloc, size, Vec::new(alloc))?;
    let (ended, _) = run_words(rt, alloc, words, Vec::new(alloc), disk)?;
    Ok((ended.status, ended.disk))
}

// Asserts that a recording on a new disk stands there.
fn assert_records<R: Threads + Wait + Sync + Abort>(
    rt: &R,
    alloc: Global,
    disk: MemDisk,
) -> Result<(), Fail> {
    let text = b"1 1 record: rope 1 length 20\n";
    let mut disk = printed(rt, alloc, b"1 record f20\n", disk, text)?;
    let wanted = Standing {
        epoch: 1,
        left: 461,
        form: 2,
        moment: 0,
    };
    assert_standing(rt, alloc, &mut disk, wanted)
}

#[test]
fn a_disk_has_at_most_1048576_blocks(rt: HostRuntime) -> Result<(), Fail> {
    let (status, _) = formatted(&rt, rt.alloc(), SIZE + 8, &TOO_MANY)?;
    assert_eq!(rt; status, Status::BadShape);
    let (status, disk) = formatted(&rt, rt.alloc(), SIZE, &FORMAT)?;
    assert_eq!(rt; status, Status::Done);
    assert_records(&rt, rt.alloc(), disk)
}
