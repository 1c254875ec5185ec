//! A crash at each moment of a script with a switch in it.

use crate::runs::done;
use crate::tables::{
    FILLED, Found, LENGTHS, SCRIPT, TEXT, disk_with, full_disk, has_samples, ropes_on,
};
use std::alloc::Global;
use std::process::Abort;
use std::sync::Wait;
use std::test::Fail;
use std::thread::Threads;
use voice_disk::{MemDisk, image_of};
use voice_main::Ended;
use voice_model::{Entry, Reply};
use voice_outside::Disk;

// How many ropes were acknowledged by that moment.
fn made_by(history: &[Entry], moment: u64) -> usize {
    let mut made = 0;
    for entry in history {
        if entry.ack <= moment
            && matches!(&entry.reply, Reply::Rope(_, _))
            && made < LENGTHS.len()
        {
            made += 1;
        }
    }
    made
}

// Whether just the first ropes were found, with their lengths.
fn are_the_first(found: &[Found; 7], ropes: usize) -> bool {
    found.iter().zip(LENGTHS).enumerate().all(|(k, (one, length))| {
        if k < ropes {
            *one == Found::Length(length)
        } else {
            *one == Found::Absent
        }
    })
}

// Whether what a crash at a moment leaves opens with the ropes that were acknowledged by then, perhaps with one more, and nothing else.
fn survives<R: Threads + Wait + Sync>(
    rt: &R,
    alloc: Global,
    disk: &MemDisk,
    history: &[Entry],
    moment: u64,
    choice: u16,
) -> Result<bool, Fail> {
    if moment > disk.calls() {
        return Ok(false);
    }
    let image = image_of(alloc, disk, moment, choice)?;
    let left = disk_with(alloc, image.as_slice().to_vec(alloc)?)?;
    let found = ropes_on(rt, alloc, left)?;
    let least = made_by(history, moment);
    for ropes in [least, least.saturating_add(1)] {
        if are_the_first(&found, ropes) {
            return Ok(has_samples(&image, ropes));
        }
    }
    Ok(false)
}

// Asserts how many calls fill a disk.
fn filled(rt: &impl Abort, alloc: Global) -> Result<MemDisk, Fail> {
    let disk = full_disk(alloc, &[])?;
    assert_eq!(rt; disk.calls(), FILLED);
    Ok(disk)
}

// The script over such a disk, which is done and prints its text.
fn ran<R: Threads + Wait + Sync + Abort>(rt: &R, alloc: Global) -> Result<Ended<MemDisk>, Fail> {
    let disk = filled(rt, alloc)?;
    let (ended, text) = done(rt, alloc, &["run", "s"], SCRIPT, disk)?;
    assert_eq!(rt; text.as_slice(), TEXT);
    Ok(ended)
}

// Asserts that each moment of the script survives a crash, with each choice of what isn't settled.
fn assert_survives<R: Threads + Wait + Sync + Abort>(
    rt: &R,
    alloc: Global,
    disk: &MemDisk,
    history: &[Entry],
) -> Result<(), Fail> {
    for moment in FILLED + 1..=disk.calls() {
        for choice in [0, 1, 7, 255] {
            let held = survives(rt, alloc, disk, history, moment, choice)?;
            assert!(rt; held, "moment {moment} choice {choice}");
        }
    }
    Ok(())
}

#[test]
fn each_crash_leaves_what_was_acknowledged(rt: HostRuntime) -> Result<(), Fail> {
    let ended = ran(&rt, rt.alloc())?;
    assert_survives(&rt, rt.alloc(), &ended.disk, &ended.history)
}
