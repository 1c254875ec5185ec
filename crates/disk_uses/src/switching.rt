//! Switches that are cut at each of their calls.

use crate::steps::{
    Did, append, bytes_of, disk_of, format, land, opens, part, payloads_of, switch,
};
use std::alloc::Global;
use std::test::Fail;
use voice_disk::{FuseDisk, MemDisk, image_of};
use voice_journal::{Journal, Opened};
use voice_outside::Disk;

// A disk with the second area current, after 16 calls: three format, five open, four append and four switch, since the other head was closed.
fn switched(alloc: Global, fails: &[u64]) -> Result<Option<(MemDisk, Opened)>, Fail> {
    let mut disk = disk_of(alloc, 0, fails)?;
    if format(&mut disk, 2) != Did::Done {
        return Ok(None);
    }
    let mut opened = Journal::open(alloc, &mut disk)?;
    if append(&mut disk, &mut opened.journal, &[9, 9]) != Did::Done {
        return Ok(None);
    }
    let payloads = payloads_of(alloc, &[1, 2])?;
    if switch(&mut disk, &mut opened.journal, &payloads) != Did::Done {
        return Ok(None);
    }
    Ok(Some((disk, opened)))
}

#[test]
fn a_switch_is_spelled(rt: HostRuntime) -> Result<(), Fail> {
    let Some((mut disk, mut opened)) = switched(rt.alloc(), &[])? else {
        panic!(rt; "not switched");
    };
    assert!(rt; disk.calls() == 16);
    assert!(rt; opened.journal.epoch() == 2 && opened.journal.left() == 483);
    let payloads = payloads_of(rt.alloc(), &[3])?;
    assert!(rt; switch(&mut disk, &mut opened.journal, &payloads) == Did::Done);
    assert!(rt; disk.calls() == 22);
    assert!(rt; opened.journal.epoch() == 3 && opened.journal.left() == 489);
    let bytes = bytes_of(rt.alloc(), &disk)?;
    let first = [
        1, 0, 0, 0, 0, 0, 0, 0, 0, 0, 0, 0, 0, 0, 0, 3, 1, 0, 0, 0, 1, 3, 0,
    ];
    let second = [
        1, 0, 0, 0, 0, 0, 0, 0, 0, 0, 0, 0, 0, 0, 0, 2, 1, 0, 0, 0, 1, 1, 1, 0, 0, 0, 1, 2, 0,
    ];
    assert!(rt; part(&bytes, 64, 87) == first.as_slice());
    assert!(rt; part(&bytes, 576, 605) == second.as_slice());
    assert!(rt; opens(rt.alloc(), &mut disk, &[&[3]])?);
    Ok(())
}

// From the gate's write on, the fifth call, it is in doubt which list stands.
#[test]
fn a_fault_in_a_switch(rt: HostRuntime) -> Result<(), Fail> {
    for k in 1..=6 {
        let Some((mut disk, mut opened)) = switched(rt.alloc(), &[16 + k])? else {
            panic!(rt; "not switched");
        };
        let payloads = payloads_of(rt.alloc(), &[3])?;
        let did = switch(&mut disk, &mut opened.journal, &payloads);
        let wanted = if k < 5 { Did::Before } else { Did::Doubt };
        assert!(rt; did == wanted, "call {k}");
        let is_new = k == 6;
        let list: &[&[u8]] = if is_new { &[&[3]] } else { &[&[1], &[2]] };
        assert!(rt; opens(rt.alloc(), &mut disk, list)?, "call {k}");
        if did == Did::Doubt {
            assert!(rt; land(&mut disk, &mut opened.journal) == Did::Done);
            assert!(rt;
                opens(rt.alloc(), &mut disk, &[&[3]])?,
                "landed after call {k}"
            );
        }
    }
    Ok(())
}

#[test]
fn a_disk_stops_in_a_switch(rt: HostRuntime) -> Result<(), Fail> {
    for k in 0..=6 {
        let Some((disk, mut opened)) = switched(rt.alloc(), &[])? else {
            panic!(rt; "not switched");
        };
        let mut stopping = FuseDisk::new(disk, k);
        let payloads = payloads_of(rt.alloc(), &[3])?;
        let did = switch(&mut stopping, &mut opened.journal, &payloads);
        let wanted = match k {
            0..=3 => Did::Before,
            4..=5 => Did::Doubt,
            _ => Did::Done,
        };
        assert!(rt; did == wanted, "after {k} calls");
        let mut disk = stopping.into_inner();
        let list: &[&[u8]] = if k < 5 { &[&[1], &[2]] } else { &[&[3]] };
        assert!(rt; opens(rt.alloc(), &mut disk, list)?, "after {k} calls");
    }
    Ok(())
}

// The head's gate is written by the fifth call of the switch, the twenty-first of the disk, in which a crash at moment 20 may come.
#[test]
fn a_crash_in_a_switch(rt: HostRuntime) -> Result<(), Fail> {
    let Some((mut disk, mut opened)) = switched(rt.alloc(), &[])? else {
        panic!(rt; "not switched");
    };
    let payloads = payloads_of(rt.alloc(), &[3])?;
    assert!(rt; switch(&mut disk, &mut opened.journal, &payloads) == Did::Done);
    for moment in 16..=22 {
        for choice in [0, 1, 7, 255, 257] {
            assert!(rt; moment <= disk.calls());
            let image = image_of(rt.alloc(), &disk, moment, choice)?;
            let mut left = MemDisk::of(rt.alloc(), image, Vec::new(rt.alloc()))?;
            let is_open = choice % 256 == 1;
            let is_new = moment == 22 || (moment >= 20 && is_open);
            let list: &[&[u8]] = if is_new { &[&[3]] } else { &[&[1], &[2]] };
            assert!(rt;
                opens(rt.alloc(), &mut left, list)?,
                "moment {moment} choice {choice}"
            );
        }
    }
    Ok(())
}
