//! A crash at each moment of a change of rows or of a sweep.

use crate::runs::{
    CHOICES, Standing, advanced, after, assert_left, done, image, printed, shows, small_disk,
};
use std::alloc::Global;
use std::process::Abort;
use std::sync::Wait;
use std::test::Fail;
use std::thread::Threads;
use voice_disk::MemDisk;
use voice_outside::Disk;

// A look at what a crash left of a change, and what it prints where the change isn't done and where it is.
type Look = (&'static [u8], &'static [u8], &'static [u8]);

// Scripts whose last line makes the change, and a look.
const CHANGES: &[(&[u8], Look)] = &[
    // The loudest sample of `f20` has 62, that of `z128` 127. As long as the sweep isn't done, the rope has its samples, and its blocks are in use.
    (
        b"1 a = record f20\n1 advance 60\n1 sweep 9\n",
        (
            b"1 length 1\n1 levels 1\n1 record z128\n1 sweep 9\n1 record z128\n",
            b"1 1 length: number 20\n2 1 levels: peaks 1 62\n3 1 record: no no-room 16 13\n4 1 sweep: swept 0 rows 1 ropes 1\n5 1 record: rope 2 length 128\n",
            b"1 1 length: no unknown-rope 1\n2 1 levels: no unknown-rope 1\n3 1 record: rope 2 length 128\n4 1 sweep: swept 0 rows 0 ropes\n5 1 record: no no-room 16 0\n",
        ),
    ),
    (
        b"1 a = record f20\n1 retain until u a 000000000000001e\n1 advance 30\n1 sweep 9\n",
        (
            b"1 lookup until u\n1 sweep 9\n1 length 1\n",
            b"1 1 lookup: found 1 000000000000001e\n2 1 sweep: swept 1 rows 0 ropes\n3 1 length: number 20\n",
            b"1 1 lookup: no no-interest\n2 1 sweep: swept 0 rows 0 ropes\n3 1 length: number 20\n",
        ),
    ),
    (
        b"1 a = record f20\n1 retain held k a 00\n",
        (
            b"1 lookup held k\n1 retain held k 1 01\n1 lookup held k\n",
            b"1 1 lookup: no no-interest\n2 1 retain: done\n3 1 lookup: found 1 01\n",
            b"1 1 lookup: found 1 00\n2 1 retain: no key-taken 1\n3 1 lookup: found 1 00\n",
        ),
    ),
    (
        b"1 a = record f20\n1 retain held k a -\n1 advance 60\n1 forget held k\n",
        (
            b"1 forget held k\n1 advance 119\n1 sweep 9\n1 advance 120\n1 sweep 9\n",
            b"1 1 forget: done\n2 1 advance: done\n3 1 sweep: swept 0 rows 0 ropes\n4 1 advance: done\n5 1 sweep: swept 0 rows 1 ropes 1\n",
            b"1 1 forget: no no-interest\n2 1 advance: done\n3 1 sweep: swept 0 rows 0 ropes\n4 1 advance: done\n5 1 sweep: swept 0 rows 1 ropes 1\n",
        ),
    ),
    (
        b"1 a = record f20\n1 retain listed m a -\n1 retain listed n a -\n1 census n\n",
        (
            b"1 lookup listed m\n1 lookup listed n\n",
            b"1 1 lookup: found 1 -\n2 1 lookup: found 1 -\n",
            b"1 1 lookup: no no-interest\n2 1 lookup: found 1 -\n",
        ),
    ),
];

// Asserts what a look prints over a disk that a crash leaves.
fn assert_look<R: Threads + Wait + Sync + Abort>(
    rt: &R,
    alloc: Global,
    look: &[u8],
    left: MemDisk,
    (wanted, moment, choice): (&[u8], u64, u16),
) -> Result<(), Fail> {
    let (_disk, text) = done(rt, alloc, look, left)?;
    assert_eq!(rt; text.as_slice(), wanted, "moment {moment} choice {choice}");
    Ok(())
}

// Asserts what a look prints over what a crash leaves at a moment, with a choice of what isn't settled.
fn look_at<R: Threads + Wait + Sync + Abort>(
    rt: &R,
    alloc: Global,
    disk: &MemDisk,
    (moment, choice): (u64, u16),
    (look, before, behind): Look,
) -> Result<(), Fail> {
    let wanted = if shows(disk.calls(), moment, choice) {
        behind
    } else {
        before
    };
    let left = image(alloc, disk, moment, choice)?;
    assert_look(rt, alloc, look, left, (wanted, moment, choice))
}

// Asserts it at each of the last moments, with each choice.
fn look_at_all<R: Threads + Wait + Sync + Abort>(
    rt: &R,
    alloc: Global,
    disk: &MemDisk,
    look: Look,
) -> Result<(), Fail> {
    let last = disk.calls();
    for moment in last.saturating_sub(4)..=last {
        for &choice in CHOICES {
            look_at(rt, alloc, disk, (moment, choice), look)?;
        }
    }
    Ok(())
}

// Asserts it of a script.
fn assert_change<R: Threads + Wait + Sync + Abort>(
    rt: &R,
    alloc: Global,
    script: &[u8],
    look: Look,
) -> Result<(), Fail> {
    let disk = small_disk(alloc, 2, &[])?;
    let disk = after(rt, alloc, script, disk)?;
    look_at_all(rt, alloc, &disk, look)
}

#[test]
fn a_crash_leaves_the_state_before_a_change_or_after_it(rt: HostRuntime) -> Result<(), Fail> {
    for &(script, look) in CHANGES {
        assert_change(&rt, rt.alloc(), script, look)?;
    }
    Ok(())
}

// Before the retain the second area is full of advances, and after it the first one counts again.
const FULL: Standing = Standing {
    epoch: 2,
    left: 0,
    form: 2,
    moment: 66,
};

const SWITCHED: Standing = Standing {
    epoch: 3,
    left: 429,
    form: 2,
    moment: 66,
};

// A disk after a retain that switches.
fn switched<R: Threads + Wait + Sync + Abort>(rt: &R, alloc: Global) -> Result<MemDisk, Fail> {
    let disk = small_disk(alloc, 2, &[])?;
    let disk = after(rt, alloc, b"1 record z0\n", disk)?;
    let disk = advanced(rt, alloc, disk, 1, 66)?;
    printed(
        rt,
        alloc,
        b"1 retain held k 1 00\n",
        disk,
        b"1 1 retain: done\n",
    )
}

// Asserts which area counts in what a crash leaves at a moment, with a choice.
fn assert_area(
    rt: &impl Abort,
    alloc: Global,
    disk: &MemDisk,
    moment: u64,
    choice: u16,
) -> Result<(), Fail> {
    let wanted = if shows(disk.calls(), moment, choice) {
        SWITCHED
    } else {
        FULL
    };
    let mut left = image(alloc, disk, moment, choice)?;
    assert_left(rt, alloc, &mut left, (moment, choice), wanted)
}

// Asserts it at each of the last moments, with each choice.
fn assert_areas(rt: &impl Abort, alloc: Global, disk: &MemDisk) -> Result<(), Fail> {
    let last = disk.calls();
    for moment in last.saturating_sub(6)..=last {
        for &choice in CHOICES {
            assert_area(rt, alloc, disk, moment, choice)?;
        }
    }
    Ok(())
}

// The retain closes the first area's head, writes the area, and opens the head: six calls.
#[test]
fn a_crash_in_a_switch_leaves_one_area_or_the_other(rt: HostRuntime) -> Result<(), Fail> {
    let disk = switched(&rt, rt.alloc())?;
    assert_areas(&rt, rt.alloc(), &disk)
}
