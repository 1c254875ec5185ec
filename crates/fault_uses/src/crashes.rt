//! A crash at each moment of a run, and a crash behind a fault.

use crate::histories::shown_after;
use crate::runs::{Ran, Start, disk_at, run_script};
use crate::scripts::{REPLACED, SWITCHED, Script};
use crate::shown::shown_by;
use std::alloc::Global;
use std::process::Abort;
use std::sync::Wait;
use std::test::Fail;
use std::thread::Threads;
use voice_disk::{MemDisk, image_of};
use voice_main::{Ended, Status};
use voice_model::Entry;
use voice_outside::Disk;

// What may stand in place of bytes that aren't settled: what was there, what was written, and other bytes, of which the last two are 0 and 1.
const CHOICES: &[u16] = &[0, 1, 7, 255, 256, 257];

// What a disk may show that crashes at a moment: the state after the entries that were told by then, or after the next one too, each perhaps with the change that is in doubt there.
fn allowed_at(
    alloc: Global,
    start: Start,
    history: &[Entry],
    moment: u64,
) -> Result<Vec<Vec<u8>>, Fail> {
    let told = history.iter().filter(|entry| entry.ack <= moment).count();
    let mut allowed = Vec::new(alloc);
    for count in [told, told.saturating_add(1)] {
        let behind = history.get(..count).unwrap_or(history);
        allowed.push(shown_after(alloc, start, behind, false)?)?;
        allowed.push(shown_after(alloc, start, behind, true)?)?;
    }
    Ok(allowed)
}

// Whether a text is one of these.
fn is_among(text: &[u8], allowed: &[Vec<u8>]) -> bool {
    for one in allowed {
        if one.as_slice() == text {
            return true;
        }
    }
    false
}

// What the disk shows that a crash at a moment leaves, with a choice of what isn't settled.
fn shown_at(alloc: Global, disk: &MemDisk, moment: u64, choice: u16) -> Result<Vec<u8>, Fail> {
    if moment > disk.calls() {
        return Err(Fail::new("no such moment"));
    }
    let bytes = image_of(alloc, disk, moment, choice)?;
    let left = MemDisk::of(alloc, bytes, Vec::new(alloc))?;
    shown_by(alloc, left)
}

// Asserts that a crash at a moment leaves what may be there, with each of these choices.
fn assert_crash_at(
    rt: &impl Abort,
    alloc: Global,
    start: Start,
    ended: &Ended<MemDisk>,
    (moment, choices, place): (u64, &[u16], &str),
) -> Result<(), Fail> {
    let allowed = allowed_at(alloc, start, &ended.history, moment)?;
    for &choice in choices {
        let found = shown_at(alloc, &ended.disk, moment, choice)?;
        let holds = is_among(&found, &allowed);
        assert!(rt; holds, "{place}, moment {moment}, choice {choice}");
    }
    Ok(())
}

// How many calls open a disk.
const OPENING: u64 = 5;

// A script, done, and the moment at which its disk was open.
fn ran<R: Threads + Wait + Sync + Abort>(
    rt: &R,
    alloc: Global,
    (start, script): (Start, &Script),
) -> Result<(Ran<MemDisk>, u64), Fail> {
    let disk = disk_at(alloc, start, &[])?;
    let opened = disk.calls().saturating_add(OPENING);
    let ran = run_script(rt, alloc, script.lines, disk)?;
    assert_eq!(rt; ran.ended.status, Status::Done);
    assert!(rt; ran.text.as_slice() == script.text.as_bytes());
    Ok((ran, opened))
}

// Asserts it at each moment from the end of opening on.
fn assert_crashes<R: Threads + Wait + Sync + Abort>(
    rt: &R,
    alloc: Global,
    (start, script): (Start, &Script),
) -> Result<(), Fail> {
    let (ran, opened) = ran(rt, alloc, (start, script))?;
    let name = script.name;
    let place = format!(in alloc; "{name}, {start:?}")?;
    for moment in opened..=ran.ended.disk.calls() {
        assert_crash_at(rt, alloc, start, &ran.ended, (moment, CHOICES, &place))?;
    }
    Ok(())
}

#[test]
fn a_crash_leaves_what_was_acknowledged(rt: HostRuntime) -> Result<(), Fail> {
    for start in [Start::New, Start::Full] {
        assert_crashes(&rt, rt.alloc(), (start, &REPLACED))?;
    }
    Ok(())
}

#[test]
fn a_crash_beside_switches_leaves_what_was_acknowledged(rt: HostRuntime) -> Result<(), Fail> {
    for start in [Start::New, Start::Full] {
        assert_crashes(&rt, rt.alloc(), (start, &SWITCHED))?;
    }
    Ok(())
}

// Fewer of them.
const FEW: &[u16] = &[0, 1, 7, 255];

// Asserts what crashes leave at a few moments from a call on that fails.
fn assert_crashes_behind<R: Threads + Wait + Sync + Abort>(
    rt: &R,
    alloc: Global,
    script: &Script,
    call: u64,
) -> Result<(), Fail> {
    let start = Start::New;
    let disk = disk_at(alloc, start, &[call])?;
    let ran = run_script(rt, alloc, script.lines, disk)?;
    let name = script.name;
    let place = format!(in alloc; "{name}, call {call}")?;
    let last = ran.ended.disk.calls();
    for moment in call..=last.min(call.saturating_add(3)) {
        assert_crash_at(rt, alloc, start, &ran.ended, (moment, FEW, &place))?;
    }
    Ok(())
}

// Asserts it behind a fault at each call from the end of opening on.
fn assert_crashes_behind_faults<R: Threads + Wait + Sync + Abort>(
    rt: &R,
    alloc: Global,
    script: &Script,
) -> Result<(), Fail> {
    let (ran, opened) = ran(rt, alloc, (Start::New, script))?;
    for call in opened..=ran.ended.disk.calls() {
        assert_crashes_behind(rt, alloc, script, call)?;
    }
    Ok(())
}

#[test]
fn a_crash_behind_a_fault_leaves_what_was_acknowledged(rt: HostRuntime) -> Result<(), Fail> {
    assert_crashes_behind_faults(&rt, rt.alloc(), &REPLACED)
}

#[test]
fn a_crash_behind_a_fault_beside_switches_leaves_it(rt: HostRuntime) -> Result<(), Fail> {
    assert_crashes_behind_faults(&rt, rt.alloc(), &SWITCHED)
}
