//! Switches of the journal's areas: over and over, and from the first form of the disk to the second.

use crate::runs::{assert_prints, ended_so, fill_journal, printed, small_disk};
use disk_uses::steps::{bytes_of, fits, part};
use std::alloc::Global;
use std::process::Abort;
use std::sync::Wait;
use std::test::Fail;
use std::thread::Threads;
use voice_disk::MemDisk;
use voice_journal::Journal;
use voice_outside::Disk;
use voice_units::{Graces, Shape};

// A disk with areas of 16 KiB.
fn wide_disk(alloc: Global) -> Result<MemDisk, Fail> {
    let mut disk = MemDisk::new(alloc, 65_536, Vec::new(alloc))?;
    let graces = Graces {
        common: 60,
        held: 60,
        until: 60,
        listed: 60,
    };
    let shape = Shape::new(2, 8, 16, 16_384, graces, 4, 65_536)?;
    if fits(&disk, &shape) {
        Journal::format(&mut disk, &shape)?;
    }
    Ok(disk)
}

// So many edits of rope 1.
fn edits(alloc: Global, count: u32) -> Result<Vec<u8>, Fail> {
    let mut script = Vec::new(alloc);
    for _ in 0..count {
        script.extend_from_slice(b"1 sub 1 0 20\n")?;
    }
    Ok(script)
}

// Asserts the epoch of the journal on a disk.
fn assert_epoch(
    rt: &impl Abort,
    alloc: Global,
    disk: &mut MemDisk,
    wanted: u64,
) -> Result<(), Fail> {
    let opened = Journal::open(alloc, disk)?;
    assert_eq!(rt; opened.journal.epoch(), wanted);
    Ok(())
}

// Fills the journal with advances behind a moment, asserts its epoch, and gives the last moment.
fn fill(
    rt: &impl Abort,
    alloc: Global,
    disk: &mut MemDisk,
    moment: u64,
    round: u64,
) -> Result<u64, Fail> {
    let (next, epoch) = fill_journal(alloc, disk, moment)?;
    assert!(rt; next > moment && epoch == round, "round {round}");
    Ok(next)
}

// Ten times twenty edits, each time behind a journal that is full.
fn edited<R: Threads + Wait + Sync + Abort>(
    rt: &R,
    alloc: Global,
    mut disk: MemDisk,
) -> Result<MemDisk, Fail> {
    let script = edits(alloc, 20)?;
    let mut moment = 1;
    for round in 1..=10u64 {
        moment = fill(rt, alloc, &mut disk, moment, round)?;
        disk = ended_so(rt, alloc, &script, disk, (b" length 20\n", round))?;
    }
    Ok(disk)
}

// The journal gets full of advances before each twenty edits, so each round switches once.
#[test]
fn two_hundred_edits_switch_ten_times(rt: HostRuntime) -> Result<(), Fail> {
    let disk = wide_disk(rt.alloc())?;
    let text = b"1 1 record: rope 1 length 20\n";
    let disk = printed(&rt, rt.alloc(), b"1 record f20\n", disk, text)?;
    let mut disk = edited(&rt, rt.alloc(), disk)?;
    assert_epoch(&rt, rt.alloc(), &mut disk, 11)?;
    let wanted = b"1 1 length: number 20\n2 1 length: no unknown-rope 202\n";
    assert_prints(
        &rt,
        rt.alloc(),
        b"1 length 201\n1 length 202\n",
        disk,
        wanted,
    )
}

// A disk of version 1 whose journal is full.
fn first_form(rt: &impl Abort, alloc: Global) -> Result<MemDisk, Fail> {
    let mut disk = small_disk(alloc, 1, &[])?;
    let (last, _) = fill_journal(alloc, &mut disk, 1)?;
    assert_eq!(rt; last, 36);
    Ok(disk)
}

// Asserts the kind of the first payload of the second area, which stands at byte 597, and the epoch.
fn assert_migrated(rt: &impl Abort, alloc: Global, disk: &mut MemDisk) -> Result<(), Fail> {
    let bytes = bytes_of(alloc, disk)?;
    assert!(rt; part(&bytes, 597, 598) == [12].as_slice());
    assert_epoch(rt, alloc, disk, 2)
}

#[test]
fn a_switch_migrates_the_first_form(rt: HostRuntime) -> Result<(), Fail> {
    let disk = first_form(&rt, rt.alloc())?;
    let script = b"1 a = record f20\n1 sub a 0 5\n";
    let text = b"1 1 record: rope 1 length 20\n2 1 sub: rope 2 length 5\n";
    let mut disk = printed(&rt, rt.alloc(), script, disk, text)?;
    assert_migrated(&rt, rt.alloc(), &mut disk)?;
    let wanted = b"1 1 length: number 20\n2 1 length: number 5\n";
    assert_prints(&rt, rt.alloc(), b"1 length 1\n1 length 2\n", disk, wanted)
}
