//! Mirrors and promotions that may find no memory. By itself a test sees runs that are done; `rt try --test --fail-alloc N` refuses one growth of memory, which one run at most meets.

use crate::runs::{F20, Ran, run_with, small_disk};
use std::alloc::Global;
use std::process::Abort;
use std::sync::Wait;
use std::test::Fail;
use std::thread::Threads;
use voice_disk::MemDisk;
use voice_main::Status;

// Packet 1 up to the 20 samples of its voice file, and packet 2, a row of it.
const VOICE: &[u8] = &[
    0, 0, 0, 0, 0, 0, 0, 1, 0, 0, 0, 29, 0x20, 0, 0, 0, 0, 0, 0, 0, 1,
];

const ROW: &[u8] = &[
    0, 0, 0, 0, 0, 0, 0, 2, 0, 0, 0, 13, 3, 1, 1, b'k', 0, 0, 0, 0, 0, 0, 0, 1, 0,
];

fn packets(alloc: Global) -> Result<Vec<u8>, Fail> {
    let mut all = VOICE.to_vec(alloc)?;
    all.extend_from_slice(F20)?;
    all.extend_from_slice(ROW)?;
    Ok(all)
}

// Whether a run ended as it may: done; for want of memory; or with a fault where its disk had no memory for its own record.
fn is_told(ran: &Ran) -> bool {
    match ran.status {
        Status::Done | Status::NoMemory => true,
        Status::DiskFault | Status::InDoubt => ran.disk.starved() > 0,
        _ => false,
    }
}

// A run that ends as it may.
fn told<R: Threads + Wait + Sync + Abort>(
    rt: &R,
    alloc: Global,
    asked: &[&str],
    bytes: &[u8],
    disk: MemDisk,
) -> Result<Ran, Fail> {
    let files = [(b"p".as_slice(), bytes)];
    let ran = run_with(rt, alloc, asked, &files, disk)?;
    assert!(rt; is_told(&ran), "{}", ran.status);
    Ok(ran)
}

// Asserts what the third run of one file prints: one of the two before it had all memory, and took all.
fn assert_all_there(rt: &impl Abort, ran: &Ran, starved: u64) {
    if ran.status != Status::Done || ran.disk.starved() > starved {
        return;
    }
    assert_eq!(rt;
        ran.text.as_slice(),
        b"packet 1 again\npacket 2 again\nposition 2\n".as_slice()
    );
}

// Feeds packets in three runs.
fn fed_thrice<R: Threads + Wait + Sync + Abort>(rt: &R, alloc: Global) -> Result<MemDisk, Fail> {
    let file = packets(alloc)?;
    let disk = small_disk(alloc, 2, &[])?;
    let first = told(rt, alloc, &["mirror", "p"], &file, disk)?;
    let second = told(rt, alloc, &["mirror", "p"], &file, first.disk)?;
    let starved = second.disk.starved();
    let third = told(rt, alloc, &["mirror", "p"], &file, second.disk)?;
    assert_all_there(rt, &third, starved);
    Ok(third.disk)
}

#[test]
fn what_was_fed_is_there_in_the_end(rt: HostRuntime) -> Result<(), Fail> {
    let _disk = fed_thrice(&rt, rt.alloc())?;
    Ok(())
}

// Promotes a mirror in one run, or in two where the first one met a want.
fn promoted_at_last<R: Threads + Wait + Sync + Abort>(
    rt: &R,
    alloc: Global,
    disk: MemDisk,
) -> Result<MemDisk, Fail> {
    let Ran {
        status,
        text: _,
        disk,
    } = told(rt, alloc, &["promote"], b"", disk)?;
    if status == Status::Done {
        return Ok(disk);
    }
    let second = run_with(rt, alloc, &["promote"], &[], disk)?;
    if status == Status::InDoubt && second.status == Status::BadDisk(592) {
        return Ok(second.disk);
    }
    assert_eq!(rt; second.status, Status::Done);
    Ok(second.disk)
}

#[test]
fn a_mirror_is_promoted_in_the_end(rt: HostRuntime) -> Result<(), Fail> {
    let disk = fed_thrice(&rt, rt.alloc())?;
    let disk = promoted_at_last(&rt, rt.alloc(), disk)?;
    let script = b"1 v = lookup held k\n1 length v\n";
    let ran = told(&rt, rt.alloc(), &["run", "p"], script, disk)?;
    if ran.status == Status::Done {
        assert_eq!(rt;
            ran.text.as_slice(),
            b"1 1 lookup: found 1 -\n2 1 length: number 20\n".as_slice()
        );
    }
    Ok(())
}
