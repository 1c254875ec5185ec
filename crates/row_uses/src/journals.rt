//! Journals that get full of advances and of rows.

use crate::runs::{Standing, advanced, after, assert_standing, printed, small_disk};
use disk_uses::steps::{bytes_of, part};
use std::alloc::Global;
use std::process::Abort;
use std::sync::Wait;
use std::test::Fail;
use std::thread::Threads;
use voice_disk::MemDisk;

// What stands in form 2.
fn at(epoch: u64, left: u64, moment: u64) -> Standing {
    Standing {
        epoch,
        left,
        form: 2,
        moment,
    }
}

// Advances from one moment to another, and asserts what stands then.
fn advance_to<R: Threads + Wait + Sync + Abort>(
    rt: &R,
    alloc: Global,
    disk: MemDisk,
    from: u64,
    wanted: Standing,
) -> Result<MemDisk, Fail> {
    let mut disk = advanced(rt, alloc, disk, from, wanted.moment)?;
    assert_standing(rt, alloc, &mut disk, wanted)?;
    Ok(disk)
}

// Asserts that the second area counts, with this epoch.
fn assert_second(rt: &impl Abort, alloc: Global, disk: &MemDisk, epoch: u8) -> Result<(), Fail> {
    let bytes = bytes_of(alloc, disk)?;
    assert!(rt; part(&bytes, 576, 577) == [1].as_slice());
    assert!(rt; part(&bytes, 584, 592) == [0, 0, 0, 0, 0, 0, 0, epoch].as_slice());
    Ok(())
}

// Advances from a moment to the last one for which the area of an epoch has room, and to the next one, which switches.
fn switched<R: Threads + Wait + Sync + Abort>(
    rt: &R,
    alloc: Global,
    disk: MemDisk,
    (from, epoch, last): (u64, u64, u64),
) -> Result<MemDisk, Fail> {
    let left = if epoch == 1 { 5 } else { 11 };
    let disk = advance_to(rt, alloc, disk, from, at(epoch, left, last))?;
    let next = last.saturating_add(1);
    advance_to(
        rt,
        alloc,
        disk,
        next,
        at(epoch.saturating_add(1), 473, next),
    )
}

// An advance takes 14 of the 495 bytes, and a base without ropes 22. So the 36th advance switches, and then each 34th.
#[test]
fn a_thousand_advances_switch_29_times(rt: HostRuntime) -> Result<(), Fail> {
    let mut disk = small_disk(rt.alloc(), 2, &[])?;
    let mut next = 1;
    for epoch in 1..30u64 {
        let last = 34 * epoch + 1;
        disk = switched(&rt, rt.alloc(), disk, (next, epoch, last))?;
        next = last + 2;
    }
    let disk = advance_to(&rt, rt.alloc(), disk, next, at(30, 305, 1000))?;
    assert_second(&rt, rt.alloc(), &disk, 30)
}

// The rest of a key of 64 bytes.
const KEY: &str = "kkkkkkkkkkkkkkkkkkkkkkkkkkkkkkkkkkkkkkkkkkkkkkkkkkkkkkkkkkkkkkk";

// A call on a key that begins with a digit, what stands behind the key, and what is printed; then the epoch, and what is left.
type Asked = (&'static str, u8, &'static str, &'static [u8], u64, u64);

// A retain takes 81 bytes, also in a base, and a forget 72.
const KEYS: &[Asked] = &[
    ("retain", 1, "1 -", b"1 1 retain: done\n", 1, 392),
    ("retain", 2, "1 -", b"1 1 retain: done\n", 1, 311),
    ("retain", 3, "1 -", b"1 1 retain: done\n", 1, 230),
    ("retain", 4, "1 -", b"1 1 retain: done\n", 1, 149),
    ("retain", 5, "1 -", b"1 1 retain: done\n", 1, 68),
    (
        "retain",
        6,
        "1 -",
        b"1 1 retain: no journal-full 533 495\n",
        1,
        68,
    ),
    ("forget", 1, "", b"1 1 forget: done\n", 2, 124),
    ("retain", 6, "1 -", b"1 1 retain: done\n", 2, 43),
    ("lookup", 1, "", b"1 1 lookup: no no-interest\n", 2, 43),
    ("lookup", 6, "", b"1 1 lookup: found 1 -\n", 2, 43),
];

// A call on a key that begins with a digit.
fn line_of(alloc: Global, verb: &str, digit: u8, behind: &str) -> Result<String, Fail> {
    Ok(format!(in alloc; "1 {verb} held {digit}{KEY} {behind}\n")?)
}

// Asserts what a call prints and what stands then, and gives the disk.
fn asked<R: Threads + Wait + Sync + Abort>(
    rt: &R,
    alloc: Global,
    disk: MemDisk,
    (verb, digit, behind, wanted, epoch, left): Asked,
) -> Result<MemDisk, Fail> {
    let line = line_of(alloc, verb, digit, behind)?;
    let mut disk = printed(rt, alloc, line.as_bytes(), disk, wanted)?;
    assert_standing(rt, alloc, &mut disk, at(epoch, left, 0))?;
    Ok(disk)
}

#[test]
fn six_keys_of_64_bytes(rt: HostRuntime) -> Result<(), Fail> {
    let disk = small_disk(rt.alloc(), 2, &[])?;
    let mut disk = after(&rt, rt.alloc(), b"1 record z0\n", disk)?;
    for row in KEYS {
        disk = asked(&rt, rt.alloc(), disk, *row)?;
    }
    Ok(())
}
