//! A fault at each device call of a script with a switch in it, and disks that stop.

use crate::runs::run_script;
use crate::tables::{FILLED, Found, SCRIPT, copy_of, full_disk, ropes_on};
use std::alloc::Global;
use std::process::Abort;
use std::sync::Wait;
use std::test::Fail;
use std::thread::Threads;
use voice_disk::{FuseDisk, MemDisk};
use voice_main::{Ended, Status};
use voice_model::{Entry, Reply, Why};

// How many entries tell of a fault.
fn faults_in(history: &[Entry]) -> usize {
    history
        .iter()
        .filter(|entry| matches!(&entry.reply, Reply::No(Why::DiskFault | Why::InDoubt)))
        .count()
}

fn is_in_doubt(history: &[Entry]) -> bool {
    history
        .iter()
        .any(|entry| matches!(&entry.reply, Reply::No(Why::InDoubt)))
}

// The length of a rope that was acknowledged.
fn acknowledged(history: &[Entry], id: u64) -> Option<u64> {
    for entry in history {
        if let Reply::Rope(rope, length) = &entry.reply {
            if rope.number() == id {
                return Some(u64::from(*length));
            }
        }
    }
    None
}

// Whether a disk holds just the ropes that a history acknowledged, or besides one that was in doubt.
fn agrees<R: Threads + Wait + Sync>(
    rt: &R,
    alloc: Global,
    history: &[Entry],
    disk: &MemDisk,
) -> Result<bool, Fail> {
    let found = ropes_on(rt, alloc, copy_of(alloc, disk)?)?;
    let mut more = 0usize;
    for (id, one) in (1..=7).zip(found) {
        match (acknowledged(history, id), one) {
            (Some(length), Found::Length(n)) if n == length => {}
            (None, Found::Absent) => {}
            (None, Found::Length(_)) if more == 0 => more = 1,
            _ => return Ok(false),
        }
    }
    Ok(more == 0 || is_in_doubt(history))
}

// The number of the last device call of the script without faults.
fn last_call<R: Threads + Wait + Sync>(rt: &R, alloc: Global) -> Result<u64, Fail> {
    let (ended, _) = run_script(rt, alloc, SCRIPT, full_disk(alloc, &[])?)?;
    Ok(ended.history.last().map_or(0, |entry| entry.ack))
}

// Whether a fault before the first call was told.
fn is_refused(ended: &Ended<MemDisk>) -> bool {
    ended.status == Status::DiskFault && ended.history.is_empty()
}

// Asserts that a run tells one fault, before its first call or in one of its entries, and what its disk holds then.
fn assert_one_fault<R: Threads + Wait + Sync + Abort>(
    rt: &R,
    alloc: Global,
    ended: &Ended<MemDisk>,
    call: u64,
) -> Result<(), Fail> {
    let is_told = ended.status == Status::Done && faults_in(&ended.history) == 1;
    let is_kept = agrees(rt, alloc, &ended.history, &ended.disk)?;
    assert!(rt; is_refused(ended) || is_told, "call {call}");
    assert!(rt; is_kept, "call {call}");
    Ok(())
}

// Asserts it of the script over a disk one of whose calls fails.
fn assert_fault_at<R: Threads + Wait + Sync + Abort>(
    rt: &R,
    alloc: Global,
    call: u64,
) -> Result<(), Fail> {
    let disk = full_disk(alloc, &[call])?;
    let (ended, _) = run_script(rt, alloc, SCRIPT, disk)?;
    assert_one_fault(rt, alloc, &ended, call)
}

#[test]
fn one_fault_is_told_at_most_once(rt: HostRuntime) -> Result<(), Fail> {
    let last = last_call(&rt, rt.alloc())?;
    assert!(rt; last > FILLED + 30);
    for call in FILLED + 1..=last {
        assert_fault_at(&rt, rt.alloc(), call)?;
    }
    Ok(())
}

// The script over a disk that stops after so many calls.
fn stopped<R: Threads + Wait + Sync>(
    rt: &R,
    alloc: Global,
    calls: u64,
) -> Result<Ended<MemDisk>, Fail> {
    let disk = FuseDisk::new(full_disk(alloc, &[])?, calls);
    let (ended, _) = run_script(rt, alloc, SCRIPT, disk)?;
    let Ended {
        status,
        disk,
        history,
    } = ended;
    Ok(Ended {
        status,
        disk: disk.into_inner(),
        history,
    })
}

// Asserts that a run over a disk that stopped was done, or told of it before its first call, and what its disk holds then.
fn assert_stopped<R: Threads + Wait + Sync + Abort>(
    rt: &R,
    alloc: Global,
    ended: &Ended<MemDisk>,
    calls: u64,
) -> Result<(), Fail> {
    let is_kept = agrees(rt, alloc, &ended.history, &ended.disk)?;
    assert!(rt;
        is_refused(ended) || ended.status == Status::Done,
        "after {calls} calls"
    );
    assert!(rt; is_kept, "after {calls} calls");
    Ok(())
}

// Asserts it of the script over a disk that stops after so many calls.
fn assert_stop_after<R: Threads + Wait + Sync + Abort>(
    rt: &R,
    alloc: Global,
    calls: u64,
) -> Result<(), Fail> {
    let ended = stopped(rt, alloc, calls)?;
    assert_stopped(rt, alloc, &ended, calls)
}

#[test]
fn a_disk_that_stops_keeps_what_was_acknowledged(rt: HostRuntime) -> Result<(), Fail> {
    let last = last_call(&rt, rt.alloc())?;
    for calls in 0..=last - FILLED.min(last) {
        assert_stop_after(&rt, rt.alloc(), calls)?;
    }
    Ok(())
}
