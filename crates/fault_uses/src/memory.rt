//! A run that may find no memory. By itself the test sees a run that is done; docs/TESTED.md has the command that refuses each growth of it in turn.

use crate::faults::{assert_heard, assert_shows};
use crate::histories::faults_in;
use crate::runs::{Ran, Start, disk_at, run_script};
use crate::scripts::REPLACED;
use std::test::Fail;
use voice_disk::MemDisk;
use voice_main::Status;

// Whether a run ended as it may: done; for want of memory; or with a fault where its disk had no memory for its own record.
fn is_told(ran: &Ran<MemDisk>) -> bool {
    let starved = ran.ended.disk.starved() > 0;
    let faults = faults_in(&ran.ended.history);
    match ran.ended.status {
        Status::Done => faults == 0 || starved && faults == 1,
        Status::NoMemory => faults == 0,
        Status::DiskFault => starved && ran.ended.history.is_empty(),
        _ => false,
    }
}

// Where the test itself finds no memory, before the run or behind it, it says so by an `Err` and not by an assertion.
#[test]
fn want_of_memory_is_told(rt: HostRuntime) -> Result<(), Fail> {
    let disk = disk_at(rt.alloc(), Start::New, &[])?;
    let mut ran = run_script(&rt, rt.alloc(), REPLACED.lines, disk)?;
    assert!(rt; is_told(&ran));
    if ran.ended.status == Status::Done {
        assert_heard(
            &rt,
            &REPLACED,
            &ran.ended.history,
            &mut ran.shelf,
            "wanting memory",
        )?;
    }
    assert_shows(&rt, rt.alloc(), Start::New, &ran.ended, "wanting memory")
}
