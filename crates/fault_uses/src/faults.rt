//! A fault at each device call of a run, and disks that stop after each number of calls.

use crate::histories::{faults_in, shown_after};
use crate::runs::{Ran, Start, disk_at, file_of, run_script};
use crate::scripts::{REPLACED, SWITCHED, Script};
use crate::shown::shown_by;
use disk_uses::steps::bytes_of;
use std::alloc::Global;
use std::process::Abort;
use std::sync::Wait;
use std::test::Fail;
use std::thread::Threads;
use voice_disk::{FuseDisk, MemDisk};
use voice_journal::Journal;
use voice_main::{Ended, Status};
use voice_model::{Call, Entry, Reply};
use voice_outside::{Disk, MemShelf};

// The disks that the scripts run over: whether the journal is full, so that the first change switches.
const STARTS: [Start; 2] = [Start::New, Start::Full];

// The bytes that are on a disk, on one whose calls don't fail.
fn copy_of(alloc: Global, disk: &MemDisk) -> Result<MemDisk, Fail> {
    let bytes = bytes_of(alloc, disk)?;
    Ok(MemDisk::of(alloc, bytes, Vec::new(alloc))?)
}

// How much was heard of the job of a lane, where it is over.
fn heard_in(history: &[Entry], lane: u16) -> Option<u32> {
    for entry in history {
        let Call::Feed(on, _) = &entry.call else {
            continue;
        };
        if on.0 != lane {
            continue;
        }
        if let Reply::Ended(_, n) | Reply::Stopped(_, n) = &entry.reply {
            return Some(*n);
        }
    }
    None
}

// Whether a file has just what was heard of a passage, or isn't there where the job isn't over.
fn is_heard(passage: &[u8], heard: Option<u32>, file: &Option<Vec<u8>>) -> bool {
    match (heard, file) {
        (Some(n), Some(bytes)) => match passage.get(..n as usize) {
            Some(front) => front == bytes.as_slice(),
            None => false,
        },
        (None, None) => true,
        _ => false,
    }
}

/// Asserts that each file has just what was heard, and that there is none where its job isn't over.
pub fn assert_heard(
    rt: &impl Abort,
    script: &Script,
    history: &[Entry],
    shelf: &mut MemShelf,
    place: &str,
) -> Result<(), Fail> {
    for serving in script.servings {
        let heard = heard_in(history, serving.lane);
        let file = file_of(shelf, serving.file)?;
        let holds = is_heard(serving.passage, heard, &file);
        assert!(rt; holds, "{place}");
    }
    Ok(())
}

// Asserts that a disk opens and shows what its history says, perhaps with the change that is in doubt.
pub fn assert_shows(
    rt: &impl Abort,
    alloc: Global,
    start: Start,
    ended: &Ended<MemDisk>,
    place: &str,
) -> Result<(), Fail> {
    let found = shown_by(alloc, copy_of(alloc, &ended.disk)?)?;
    if found == shown_after(alloc, start, &ended.history, false)? {
        return Ok(());
    }
    let landed = shown_after(alloc, start, &ended.history, true)?;
    assert!(rt; found == landed, "{place}");
    Ok(())
}

// Whether a fault before the first call was told.
fn is_refused(ended: &Ended<MemDisk>) -> bool {
    ended.status == Status::DiskFault && ended.history.is_empty()
}

// Asserts what a run leaves on a disk that failed so often, at most.
fn assert_left(
    rt: &impl Abort,
    alloc: Global,
    (start, script): (Start, &Script),
    ran: Ran<MemDisk>,
    (faults, place): (usize, &str),
) -> Result<(), Fail> {
    let Ran {
        ended,
        text: _,
        mut shelf,
    } = ran;
    let is_told = ended.status == Status::Done && faults_in(&ended.history) <= faults;
    assert!(rt; is_refused(&ended) || is_told, "{place}");
    assert_heard(rt, script, &ended.history, &mut shelf, place)?;
    assert_shows(rt, alloc, start, &ended, place)
}

/// How often a disk has switched areas.
pub fn switches_of(alloc: Global, disk: &MemDisk) -> Result<u64, Fail> {
    let mut disk = copy_of(alloc, disk)?;
    let opened = Journal::open(alloc, &mut disk)?;
    Ok(opened.journal.epoch().saturating_sub(1))
}

// The number of the first device call of a script, and that of its last one.
fn calls_of<R: Threads + Wait + Sync + Abort>(
    rt: &R,
    alloc: Global,
    (start, script): (Start, &Script),
) -> Result<(u64, u64), Fail> {
    let disk = disk_at(alloc, start, &[])?;
    let first = disk.calls();
    let ran = run_script(rt, alloc, script.lines, disk)?;
    let name = script.name;
    let text = str::from_utf8(&ran.text).unwrap_or("");
    assert_eq!(rt; ran.ended.status, Status::Done, "{name}");
    assert!(rt; text == script.text, "{name}: {text}");
    let switches = switches_of(alloc, &ran.ended.disk)?;
    let [new, full] = script.switches;
    let wanted = if start == Start::New { new } else { full };
    assert_eq!(rt; switches, wanted, "{name}, {start:?}");
    Ok((first.saturating_add(1), ran.ended.disk.calls()))
}

// Asserts what a fault at a device call leaves. It is told once, where it comes.
fn assert_fault_at<R: Threads + Wait + Sync + Abort>(
    rt: &R,
    alloc: Global,
    (start, script): (Start, &Script),
    (call, last): (u64, u64),
) -> Result<(), Fail> {
    let name = script.name;
    let place = format!(in alloc; "{name}, {start:?}, call {call}")?;
    let disk = disk_at(alloc, start, &[call])?;
    let ran = run_script(rt, alloc, script.lines, disk)?;
    let told = faults_in(&ran.ended.history);
    assert!(rt;
        (call <= last) == (is_refused(&ran.ended) || told == 1),
        "{place}"
    );
    assert_left(rt, alloc, (start, script), ran, (1, &place))
}

// Asserts it of each call.
fn assert_faults<R: Threads + Wait + Sync + Abort>(
    rt: &R,
    alloc: Global,
    script: &Script,
) -> Result<(), Fail> {
    for start in STARTS {
        let (first, last) = calls_of(rt, alloc, (start, script))?;
        for call in first..=last.saturating_add(1) {
            assert_fault_at(rt, alloc, (start, script), (call, last))?;
        }
    }
    Ok(())
}

#[test]
fn a_fault_at_each_call_leaves_what_was_acknowledged(rt: HostRuntime) -> Result<(), Fail> {
    assert_faults(&rt, rt.alloc(), &REPLACED)
}

#[test]
fn a_fault_beside_switches_leaves_what_was_acknowledged(rt: HostRuntime) -> Result<(), Fail> {
    assert_faults(&rt, rt.alloc(), &SWITCHED)
}

// A script over a disk that stops after so many calls, and the disk behind it then.
fn stopped<R: Threads + Wait + Sync>(
    rt: &R,
    alloc: Global,
    script: &Script,
    (disk, calls): (MemDisk, u64),
) -> Result<Ran<MemDisk>, Fail> {
    let fused = FuseDisk::new(disk, calls);
    let Ran { ended, text, shelf } = run_script(rt, alloc, script.lines, fused)?;
    let Ended {
        status,
        disk,
        history,
    } = ended;
    let ended = Ended {
        status,
        disk: disk.into_inner(),
        history,
    };
    Ok(Ran { ended, text, shelf })
}

// Asserts what a disk that stops after so many calls keeps.
fn assert_stop_after<R: Threads + Wait + Sync + Abort>(
    rt: &R,
    alloc: Global,
    (start, script): (Start, &Script),
    calls: u64,
) -> Result<(), Fail> {
    let name = script.name;
    let place = format!(in alloc; "{name}, {start:?}, after {calls} calls")?;
    let disk = disk_at(alloc, start, &[])?;
    let ran = stopped(rt, alloc, script, (disk, calls))?;
    let entries = ran.ended.history.len();
    assert_left(rt, alloc, (start, script), ran, (entries, &place))
}

// Asserts it after each number of calls.
fn assert_stops<R: Threads + Wait + Sync + Abort>(
    rt: &R,
    alloc: Global,
    script: &Script,
) -> Result<(), Fail> {
    for start in STARTS {
        let (first, last) = calls_of(rt, alloc, (start, script))?;
        for calls in 0..=last.saturating_sub(first).saturating_add(1) {
            assert_stop_after(rt, alloc, (start, script), calls)?;
        }
    }
    Ok(())
}

#[test]
fn a_disk_that_stops_keeps_what_was_acknowledged(rt: HostRuntime) -> Result<(), Fail> {
    assert_stops(&rt, rt.alloc(), &REPLACED)
}

#[test]
fn a_disk_that_stops_beside_switches_keeps_it(rt: HostRuntime) -> Result<(), Fail> {
    assert_stops(&rt, rt.alloc(), &SWITCHED)
}

// Asserts what two faults leave, the second of them a few calls behind the first one.
fn assert_faults_at<R: Threads + Wait + Sync + Abort>(
    rt: &R,
    alloc: Global,
    (start, script): (Start, &Script),
    calls: [u64; 2],
) -> Result<(), Fail> {
    let name = script.name;
    let place = format!(in alloc; "{name}, {start:?}, calls {calls:?}")?;
    let disk = disk_at(alloc, start, &calls)?;
    let ran = run_script(rt, alloc, script.lines, disk)?;
    assert_left(rt, alloc, (start, script), ran, (2, &place))
}

// Asserts it of each two calls up to three apart.
fn assert_two_faults<R: Threads + Wait + Sync + Abort>(
    rt: &R,
    alloc: Global,
    script: &Script,
) -> Result<(), Fail> {
    for start in STARTS {
        let (first, last) = calls_of(rt, alloc, (start, script))?;
        for call in first..=last {
            for behind in 1..=3 {
                let calls = [call, call.saturating_add(behind)];
                assert_faults_at(rt, alloc, (start, script), calls)?;
            }
        }
    }
    Ok(())
}

#[test]
fn two_faults_leave_what_was_acknowledged(rt: HostRuntime) -> Result<(), Fail> {
    assert_two_faults(&rt, rt.alloc(), &REPLACED)
}

#[test]
fn two_faults_beside_switches_leave_it(rt: HostRuntime) -> Result<(), Fail> {
    assert_two_faults(&rt, rt.alloc(), &SWITCHED)
}
