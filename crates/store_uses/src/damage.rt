//! Damaged disks, and the place that a run tells.

use crate::runs::{assert_prints, run_script, small_disk};
use crate::tables::disk_with;
use disk_uses::steps::{bytes_of, change};
use std::alloc::Global;
use std::process::Abort;
use std::sync::Wait;
use std::test::Fail;
use std::thread::Threads;
use voice_disk::MemDisk;
use voice_main::Status;

// The change that advances to moment 1, as a record.
const ADVANCED: &[u8] = &[1, 0, 0, 0, 9, 7, 0, 0, 0, 0, 0, 0, 0, 1];

// A record whose payload is of no kind.
const UNKNOWN: &[u8] = &[1, 0, 0, 0, 1, 0x63];

// The recording of rope 1, of 20 samples, that names address 1 twice.
const TWICE: &[u8] = &[
    1, 0, 0, 0, 23, 1, 0, 0, 0, 0, 0, 0, 0, 1, 0, 0, 0, 20, 0, 0, 0, 3, 0, 0, 0, 1, 0, 1,
];

const NONE: &[u8] = &[];

// Bytes, and where they are put.
type Patch = (usize, &'static [u8]);

// Bytes that are put over a disk of version 1 that was just formatted, at two places, and where it is damaged then.
const ROWS: &[(Patch, Patch, u64)] = &[
    ((0, &[0]), (0, NONE), 0),
    ((8, &[0, 0, 0, 3]), (0, NONE), 8),
    ((12, &[0, 0, 0, 12]), (0, NONE), 12),
    ((63, &[1]), (0, NONE), 30),
    ((64, &[0]), (0, NONE), 64),
    ((72, &[0, 0, 0, 0, 0, 0, 0, 0]), (0, NONE), 64),
    ((80, &[1, 0, 0, 1, 0xeb]), (0, NONE), 80),
    ((80, &[1, 0, 0, 0, 0]), (0, NONE), 80),
    ((80, ADVANCED), (94, ADVANCED), 94),
    ((80, UNKNOWN), (86, &[1, 0xff, 0xff, 0xff, 0xff]), 86),
    ((80, TWICE), (0, NONE), 80),
    ((80, ADVANCED), (94, UNKNOWN), 94),
    ((80, UNKNOWN), (86, UNKNOWN), 80),
];

// The bytes of a disk of version 1 that was just formatted.
fn formatted(alloc: Global) -> Result<Vec<u8>, Fail> {
    let disk = small_disk(alloc, 1, &[])?;
    Ok(bytes_of(alloc, &disk)?)
}

// Puts bytes over others, where they have to fit.
fn patch(rt: &impl Abort, bytes: &mut [u8], (at, from): Patch) {
    assert!(rt; change(bytes, at, from));
}

// Asserts that a run over a disk tells damage at a place, makes no call and prints nothing.
fn assert_damage<R: Threads + Wait + Sync + Abort>(
    rt: &R,
    alloc: Global,
    disk: MemDisk,
    place: u64,
) -> Result<(), Fail> {
    let (ended, text) = run_script(rt, alloc, b"1 length 1\n", disk)?;
    assert_eq!(rt; ended.status, Status::BadDisk(place));
    assert!(rt;
        text.is_empty() && ended.history.is_empty(),
        "place {place}"
    );
    Ok(())
}

// Asserts where a formatted disk is damaged behind two patches.
fn assert_patched<R: Threads + Wait + Sync + Abort>(
    rt: &R,
    alloc: Global,
    (first, second, place): (Patch, Patch, u64),
) -> Result<(), Fail> {
    let mut bytes = formatted(alloc)?;
    patch(rt, &mut bytes, first);
    patch(rt, &mut bytes, second);
    let disk = disk_with(alloc, bytes)?;
    assert_damage(rt, alloc, disk, place)
}

#[test]
fn the_place_of_damage_is_told(rt: HostRuntime) -> Result<(), Fail> {
    for row in ROWS {
        assert_patched(&rt, rt.alloc(), *row)?;
    }
    Ok(())
}

#[test]
fn a_disk_of_zeros_is_damaged_at_its_first_byte(rt: HostRuntime) -> Result<(), Fail> {
    for size in [0, 63, 64, 4096] {
        let disk = disk_with(rt.alloc(), vec![in rt.alloc(); 0u8; size]?)?;
        assert_damage(&rt, rt.alloc(), disk, 0)?;
    }
    Ok(())
}

// The empty recording of rope 2^48, as a record of version 1.
const LAST: &[u8] = &[
    1, 0, 0, 0, 17, 1, 0, 1, 0, 0, 0, 0, 0, 0, 0, 0, 0, 0, 0, 0, 0, 0,
];

fn disk_of_the_last_rope(alloc: Global) -> Result<MemDisk, Fail> {
    let mut bytes = formatted(alloc)?;
    let _changed = change(&mut bytes, 80, LAST);
    disk_with(alloc, bytes)
}

#[test]
fn numbers_are_spent_behind_the_last_rope(rt: HostRuntime) -> Result<(), Fail> {
    let disk = disk_of_the_last_rope(rt.alloc())?;
    let script = b"1 length 281474976710656\n1 sub 281474976710656 0 0\n1 record z0\n";
    let wanted = b"1 1 length: number 0\n2 1 sub: no ids-spent\n3 1 record: no ids-spent\n";
    assert_prints(&rt, rt.alloc(), script, disk, wanted)
}
