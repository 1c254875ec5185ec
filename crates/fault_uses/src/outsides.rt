//! Shelves and sinks that fail, and sinks that take nothing or little of each piece.

ghost use Rattle.std.specs.Prelude.{None};

use crate::faults::{assert_heard, assert_shows};
use crate::runs::{Start, disk_at, file_of, run_with, shelf_of};
use crate::scripts::{SCRIPTS, Script};
use std::alloc::Global;
use std::process::Abort;
use std::sync::Wait;
use std::test::Fail;
use std::thread::Threads;
use voice_disk::MemDisk;
use voice_main::{Ended, Status};
use voice_outside::{Disk, MemShelf, MemSink, OutsideError, Sink};

// How many calls make a new disk.
const MADE: u64 = 3;

// How many files of a script's jobs are there.
fn files_in(shelf: &mut MemShelf, script: &Script) -> Result<u64, Fail> {
    let mut files = 0u64;
    for serving in script.servings {
        if file_of(shelf, serving.file)?.is_some() {
            files = files.saturating_add(1);
        }
    }
    Ok(files)
}

// Asserts that a run left the disk as it was, and printed nothing.
fn assert_untouched(rt: &impl Abort, ended: &Ended<MemDisk>, text: &[u8], place: &str) {
    assert!(rt; ended.history.is_empty(), "{place}");
    assert_eq!(rt; ended.disk.calls(), MADE, "{place}");
    assert!(rt; text.is_empty(), "{place}");
}

// How a run ends whose shelf fails at a call, where it makes so many: before the calls, behind them, or not at all.
fn status_of(call: u64, all: u64) -> Status {
    if call > all {
        return Status::Done;
    }
    Status::ShelfFault
}

// Asserts how a run ends over a shelf one of whose calls fails, and what it leaves. The shelf's calls read the script and the sample files, and write a file for each job.
fn assert_shelf<R: Threads + Wait + Sync + Abort>(
    rt: &R,
    alloc: Global,
    script: &Script,
    call: u64,
) -> Result<(), Fail> {
    let name = script.name;
    let place = format!(in alloc; "{name}, shelf call {call}")?;
    let mut shelf = shelf_of(alloc, script.lines, &[call])?;
    let mut sink = MemSink::new(alloc, Vec::new(alloc));
    let disk = disk_at(alloc, Start::New, &[])?;
    let ended = run_with(rt, alloc, &mut shelf, &mut sink, disk)?;
    let reads = script.samples.saturating_add(1);
    let all = reads.saturating_add(script.servings.len() as u64);
    assert_eq!(rt; ended.status, status_of(call, all), "{place}");
    // Behind the last call this one of the test is the one that fails.
    if call <= all {
        let files = files_in(&mut shelf, script)?;
        let wanted = call.saturating_sub(reads).saturating_sub(1);
        assert_eq!(rt; files, wanted, "{place}");
    }
    if call <= reads {
        assert_untouched(rt, &ended, sink.bytes(), &place);
        return Ok(());
    }
    let printed = if call > all { script.text } else { "" };
    assert_eq!(rt; ended.history.len(), script.entries, "{place}");
    assert!(rt; sink.bytes() == printed.as_bytes(), "{place}");
    assert_shows(rt, alloc, Start::New, &ended, &place)
}

// More than any script's shelf has calls.
const SHELF_CALLS: u64 = 7;

#[test]
fn a_failing_shelf_is_told(rt: HostRuntime) -> Result<(), Fail> {
    for script in SCRIPTS {
        for call in 1..=SHELF_CALLS {
            assert_shelf(&rt, rt.alloc(), script, call)?;
        }
    }
    Ok(())
}

/// A sink that takes at most so many bytes of each piece.
#[derive(Drop)]
struct Sipping {
    most: usize,
    held: Vec<u8>,
    faults: u64,
    empty_takes: u64,
}

impl Sink for Sipping {
    ghost contents = { λ s. None };

    ghost faults = { λ s. s.faults };

    ghost empty_takes = { λ s. s.empty_takes };

    fn write(&mut self, bytes: &[u8]) -> Result<usize, OutsideError> {
        let n = self.most.min(bytes.len());
        if n == 0 {
            self.empty_takes = self.empty_takes.saturating_add(1);
            return Ok(0);
        }
        if self.held.extend_from_slice(&bytes[..n]).is_err() {
            return Err(OutsideError::NoMemory);
        }
        Ok(n)
    }
}

// Asserts how a run ends, that its calls were made all the same, and that its files are there.
fn assert_ended<R: Threads + Wait + Sync + Abort, O: Sink>(
    rt: &R,
    alloc: Global,
    script: &Script,
    sink: &mut O,
    (wanted, place): (Status, &str),
) -> Result<(), Fail> {
    let mut shelf = shelf_of(alloc, script.lines, &[])?;
    let disk = disk_at(alloc, Start::New, &[])?;
    let ended = run_with(rt, alloc, &mut shelf, sink, disk)?;
    assert_eq!(rt; ended.status, wanted, "{place}");
    assert_eq!(rt; ended.history.len(), script.entries, "{place}");
    assert_heard(rt, script, &ended.history, &mut shelf, place)?;
    assert_shows(rt, alloc, Start::New, &ended, place)
}

// How much a sink takes of each piece, how the run ends, and whether the sink has the text then.
const SINKS: [(usize, Status, bool); 4] = [
    (0, Status::SinkFault, false),
    (1, Status::Done, true),
    (7, Status::Done, true),
    (4096, Status::Done, true),
];

// Asserts it of a sink that takes so much of each piece.
fn assert_sipped<R: Threads + Wait + Sync + Abort>(
    rt: &R,
    alloc: Global,
    script: &Script,
    (most, wanted, is_told): (usize, Status, bool),
) -> Result<(), Fail> {
    let name = script.name;
    let place = format!(in alloc; "{name}, a sink that takes {most}")?;
    let mut sink = Sipping {
        most,
        held: Vec::new(alloc),
        faults: 0,
        empty_takes: 0,
    };
    assert_ended(rt, alloc, script, &mut sink, (wanted, &place))?;
    let text = if is_told { script.text } else { "" };
    assert!(rt; sink.held.as_slice() == text.as_bytes(), "{place}");
    Ok(())
}

#[test]
fn a_sink_that_takes_nothing_is_told(rt: HostRuntime) -> Result<(), Fail> {
    for script in SCRIPTS {
        for row in SINKS {
            assert_sipped(&rt, rt.alloc(), script, row)?;
        }
    }
    Ok(())
}

#[test]
fn a_failing_sink_is_told(rt: HostRuntime) -> Result<(), Fail> {
    for script in SCRIPTS {
        let fails = [1].to_vec(rt.alloc())?;
        let mut sink = MemSink::new(rt.alloc(), fails);
        assert_ended(
            &rt,
            rt.alloc(),
            script,
            &mut sink,
            (Status::SinkFault, script.name),
        )?;
        assert!(rt; sink.bytes().is_empty());
    }
    Ok(())
}
