//! Disks of version 1: their migration, and bases for which only form 1 has room.

use crate::runs::{
    CHOICES, Standing, advanced, assert_left, assert_standing, done, image, printed, shows,
    small_disk,
};
use disk_uses::steps::{Did, append, bytes_of, part};
use std::alloc::Global;
use std::process::Abort;
use std::sync::Wait;
use std::test::Fail;
use std::thread::Threads;
use voice_disk::MemDisk;
use voice_journal::Journal;
use voice_outside::Disk;

// Before the 36th advance.
const FIRST: Standing = Standing {
    epoch: 1,
    left: 5,
    form: 1,
    moment: 35,
};

// After it.
const MIGRATED: Standing = Standing {
    epoch: 2,
    left: 473,
    form: 2,
    moment: 36,
};

// Asserts that the first payload of the second area, at byte 597, is of form 2.
fn assert_form(rt: &impl Abort, alloc: Global, disk: &MemDisk) -> Result<(), Fail> {
    let bytes = bytes_of(alloc, disk)?;
    assert!(rt; part(&bytes, 597, 598) == [0x0c].as_slice());
    Ok(())
}

// A disk that the last advance brings to form 2.
fn migrated<R: Threads + Wait + Sync>(rt: &R, alloc: Global) -> Result<MemDisk, Fail> {
    let disk = small_disk(alloc, 1, &[])?;
    advanced(rt, alloc, disk, 1, 36)
}

// Asserts what stands on a disk once it advanced to moment 36.
fn assert_advances<R: Threads + Wait + Sync + Abort>(
    rt: &R,
    alloc: Global,
    left: MemDisk,
) -> Result<(), Fail> {
    let mut left = advanced(rt, alloc, left, 36, 36)?;
    assert_standing(rt, alloc, &mut left, MIGRATED)
}

// Asserts what a crash leaves at a moment, and what an advance makes of it.
fn look_at<R: Threads + Wait + Sync + Abort>(
    rt: &R,
    alloc: Global,
    disk: &MemDisk,
    moment: u64,
    choice: u16,
) -> Result<(), Fail> {
    let wanted = if shows(disk.calls(), moment, choice) {
        MIGRATED
    } else {
        FIRST
    };
    let mut left = image(alloc, disk, moment, choice)?;
    assert_left(rt, alloc, &mut left, (moment, choice), wanted)?;
    assert_advances(rt, alloc, left)
}

// Asserts it at each of the last moments, with each choice.
fn look_at_all<R: Threads + Wait + Sync + Abort>(
    rt: &R,
    alloc: Global,
    disk: &MemDisk,
) -> Result<(), Fail> {
    let last = disk.calls();
    for moment in last.saturating_sub(4)..=last {
        for &choice in CHOICES {
            look_at(rt, alloc, disk, moment, choice)?;
        }
    }
    Ok(())
}

#[test]
fn a_crash_leaves_the_first_form_or_the_second(rt: HostRuntime) -> Result<(), Fail> {
    let disk = migrated(&rt, rt.alloc())?;
    assert_form(&rt, rt.alloc(), &disk)?;
    look_at_all(&rt, rt.alloc(), &disk)
}

// Twenty empty recordings.
fn recordings(alloc: Global) -> Result<Vec<u8>, Fail> {
    let mut script = Vec::new(alloc);
    for _ in 0..20 {
        script.extend_from_slice(b"1 record z0\n")?;
    }
    Ok(script)
}

// A disk of version 1 with as many empty ropes as its journal has room for.
fn nineteen_ropes<R: Threads + Wait + Sync + Abort>(
    rt: &R,
    alloc: Global,
) -> Result<MemDisk, Fail> {
    let script = recordings(alloc)?;
    let disk = small_disk(alloc, 1, &[])?;
    let (disk, text) = done(rt, alloc, &script, disk)?;
    let end = b"\n19 1 record: rope 19 length 0\n20 1 record: no journal-full 502 495\n";
    assert!(rt; text.as_slice().ends_with(end));
    Ok(disk)
}

// Advances to a moment, asserts what stands then, and gives the disk.
fn advanced_to<R: Threads + Wait + Sync + Abort>(
    rt: &R,
    alloc: Global,
    disk: MemDisk,
    (moment, epoch, left): (u64, u64, u64),
) -> Result<MemDisk, Fail> {
    let mut disk = advanced(rt, alloc, disk, 1, moment)?;
    let wanted = Standing {
        epoch,
        left,
        form: 1,
        moment,
    };
    assert_standing(rt, alloc, &mut disk, wanted)?;
    Ok(disk)
}

// Moments, the epoch then, and what is left of the area. Nineteen empty ropes take 478 bytes of a base in form 1, and 497 in form 2.
const NINETEEN: &[(u64, u64, u64)] = &[(1, 1, 63), (5, 1, 7), (6, 2, 17), (7, 2, 3), (8, 3, 17)];

#[test]
fn nineteen_ropes_stay_in_the_first_form(rt: HostRuntime) -> Result<(), Fail> {
    let mut disk = nineteen_ropes(&rt, rt.alloc())?;
    for row in NINETEEN {
        disk = advanced_to(&rt, rt.alloc(), disk, *row)?;
    }
    Ok(())
}

// The recording of rope 1, of 20 samples, at the addresses 0 to 2.
const RECORDED: [u8; 23] = [
    1, 0, 0, 0, 0, 0, 0, 0, 1, 0, 0, 0, 20, 0, 0, 0, 3, 0, 0, 0, 1, 0, 2,
];

// The edit that makes a rope of all of rope 1.
fn edited(id: u8) -> [u8; 27] {
    [
        2, 0, 0, 0, 0, 0, 0, 0, id, 0, 1, 0, 0, 0, 0, 0, 0, 0, 1, 0, 0, 0, 0, 0, 0, 0, 20,
    ]
}

// Puts a rope of 20 samples and 14 more of the same samples into a journal.
fn crowd(alloc: Global, disk: &mut MemDisk) -> Result<Did, Fail> {
    let mut opened = Journal::open(alloc, disk)?;
    let mut did = append(disk, &mut opened.journal, &RECORDED);
    for id in 2..=15 {
        if did == Did::Done {
            did = append(disk, &mut opened.journal, &edited(id));
        }
    }
    Ok(did)
}

// A disk of version 1 with such a journal. No manager makes that many ropes: their base takes 658 bytes.
fn crowded_disk(rt: &impl Abort, alloc: Global) -> Result<MemDisk, Fail> {
    let mut disk = small_disk(alloc, 1, &[])?;
    let did = crowd(alloc, &mut disk)?;
    assert_eq!(rt; did, Did::Done);
    Ok(disk)
}

// What is asked of it, what is printed, and what stands then.
type Asked = (&'static [u8], &'static [u8], (u64, u64, u8, u64));

// What makes the base no longer, and fits the rest of the area, is done though the base doesn't fit an area.
const CROWDED: &[Asked] = &[
    (
        b"1 sub 1 0 5\n",
        b"1 1 sub: no journal-full 698 495\n",
        (1, 19, 1, 0),
    ),
    (b"1 advance 60\n", b"1 1 advance: done\n", (1, 5, 1, 60)),
    (
        b"1 advance 61\n",
        b"1 1 advance: no journal-full 658 495\n",
        (1, 5, 1, 60),
    ),
    (
        b"1 sweep 4\n",
        b"1 1 sweep: no journal-full 498 495\n",
        (1, 5, 1, 60),
    ),
    (
        b"1 sweep 15\n",
        b"1 1 sweep: swept 0 rows 15 ropes 1 2 3 4 5 6 7 8 9 10 11 12 13 14 15\n",
        (2, 473, 2, 60),
    ),
    (
        b"1 record z128\n",
        b"1 1 record: rope 16 length 128\n",
        (2, 387, 2, 60),
    ),
];

// Asserts what is printed and what stands then, and gives the disk.
fn asked<R: Threads + Wait + Sync + Abort>(
    rt: &R,
    alloc: Global,
    disk: MemDisk,
    (script, wanted, (epoch, left, form, moment)): Asked,
) -> Result<MemDisk, Fail> {
    let mut disk = printed(rt, alloc, script, disk, wanted)?;
    let wanted = Standing {
        epoch,
        left,
        form,
        moment,
    };
    assert_standing(rt, alloc, &mut disk, wanted)?;
    Ok(disk)
}

#[test]
fn a_sweep_makes_room_in_a_crowded_journal(rt: HostRuntime) -> Result<(), Fail> {
    let mut disk = crowded_disk(&rt, rt.alloc())?;
    for row in CROWDED {
        disk = asked(&rt, rt.alloc(), disk, *row)?;
    }
    Ok(())
}
