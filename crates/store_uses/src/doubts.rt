//! Changes in doubt and their landings, failing writes of a recording, and the bytes that a recording leaves.

use crate::runs::{F20, assert_prints, printed, small_disk};
use disk_uses::steps::{bytes_of, disk_of, format, part};
use std::alloc::Global;
use std::process::Abort;
use std::sync::Wait;
use std::test::Fail;
use std::thread::Threads;
use voice_disk::MemDisk;

// Formatting makes the calls 1 to 3, opening 4 to 8, the recording 9 to 14, and the first edit 15 to 18.
const EDITS: &[u8] = b"1 a = record f20\n1 sub a 0 5\n1 length 2\n1 sub a 0 6\n1 length 2\n";

// The calls that fail, what is printed, and what a later run finds of rope 2.
type Doubt = (&'static [u64], &'static [u8], &'static [u8]);

const ROWS: &[Doubt] = &[
    (
        &[18],
        b"1 1 record: rope 1 length 20\n2 1 sub: no in-doubt\n3 1 length: no unknown-rope 2\n4 0 landed: done\n5 1 sub: rope 3 length 6\n6 1 length: number 5\n",
        b"1 1 length: number 5\n",
    ),
    (
        &[17],
        b"1 1 record: rope 1 length 20\n2 1 sub: no in-doubt\n3 1 length: no unknown-rope 2\n4 0 landed: done\n5 1 sub: rope 3 length 6\n6 1 length: number 5\n",
        b"1 1 length: number 5\n",
    ),
    (
        &[18, 19],
        b"1 1 record: rope 1 length 20\n2 1 sub: no in-doubt\n3 1 length: no unknown-rope 2\n4 1 sub: no disk-fault\n5 1 length: no unknown-rope 2\n",
        b"1 1 length: number 5\n",
    ),
    (
        &[17, 18],
        b"1 1 record: rope 1 length 20\n2 1 sub: no in-doubt\n3 1 length: no unknown-rope 2\n4 1 sub: no disk-fault\n5 1 length: no unknown-rope 2\n",
        b"1 1 length: no unknown-rope 2\n",
    ),
    (
        &[16],
        b"1 1 record: rope 1 length 20\n2 1 sub: no disk-fault\n3 1 length: no unknown-rope 2\n4 1 sub: rope 2 length 6\n5 1 length: number 6\n",
        b"1 1 length: number 6\n",
    ),
];

// Asserts what the edits print, and what a later run finds.
fn assert_doubt<R: Threads + Wait + Sync + Abort>(
    rt: &R,
    alloc: Global,
    (fails, wanted, later): Doubt,
) -> Result<(), Fail> {
    let disk = small_disk(alloc, 2, fails)?;
    let disk = printed(rt, alloc, EDITS, disk, wanted)?;
    assert_prints(rt, alloc, b"1 length 2\n", disk, later)
}

#[test]
fn what_is_in_doubt_lands_first(rt: HostRuntime) -> Result<(), Fail> {
    for row in ROWS {
        assert_doubt(&rt, rt.alloc(), *row)?;
    }
    Ok(())
}

// Plays are queued and stopped while a change is in doubt: they wait for no landing, and make none.
const QUEUES: &[u8] =
    b"1 a = record f20\n1 sub a 0 5\n1 queue 0 a 0 20\n1 stop 0\n1 sub a 0 6\n1 length 2\n";

#[test]
fn queues_go_on_in_doubt(rt: HostRuntime) -> Result<(), Fail> {
    let disk = small_disk(rt.alloc(), 2, &[18])?;
    let wanted =
        b"1 1 record: rope 1 length 20\n2 1 sub: no in-doubt\n3 1 play: job 1\n4 1 stop: number 1\n5 0 landed: done\n6 1 sub: rope 3 length 6\n7 1 length: number 5\n";
    assert_prints(&rt, rt.alloc(), QUEUES, disk, wanted)
}

// Asserts that the samples of the first recording stand there, zeros up to the end of its last block, and what was there behind it.
fn assert_filled(rt: &impl Abort, alloc: Global, disk: &MemDisk) -> Result<(), Fail> {
    let bytes = bytes_of(alloc, disk)?;
    assert!(rt; part(&bytes, 1088, 1108) == F20.as_slice());
    assert!(rt; part(&bytes, 1108, 1113) == [0, 0, 0, 0, 0xff].as_slice());
    Ok(())
}

#[test]
fn a_recording_fills_its_blocks(rt: HostRuntime) -> Result<(), Fail> {
    let mut disk = disk_of(rt.alloc(), 0xff, &[])?;
    let _did = format(&mut disk, 2);
    let text = b"1 1 record: rope 1 length 20\n";
    let disk = printed(&rt, rt.alloc(), b"1 record f20\n", disk, text)?;
    assert_filled(&rt, rt.alloc(), &disk)
}

#[test]
fn a_failing_write_of_samples_is_a_fault(rt: HostRuntime) -> Result<(), Fail> {
    for call in [9, 10] {
        let disk = small_disk(rt.alloc(), 2, &[call])?;
        let script = b"1 record f20\n1 record f20\n";
        let wanted = b"1 1 record: no disk-fault\n2 1 record: rope 1 length 20\n";
        assert_prints(&rt, rt.alloc(), script, disk, wanted)?;
    }
    Ok(())
}
