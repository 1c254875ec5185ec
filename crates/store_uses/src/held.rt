//! Gates that hold callers back: what they are told, and that each caller has a thread of its own.

use crate::runs::{run_gated, small_disk};
use std::alloc::Global;
use std::process::Abort;
use std::sync::Wait;
use std::sync::atomic::{AtomicBool, AtomicU32, AtomicUsize, Ordering};
use std::test::Fail;
use std::thread::{self, Threads};
use voice_main::Status;
use voice_model::Entry;
use voice_outside::Gate;

// Line 1 waits for line 2, and line 3 for line 1: no body on one thread does them all.
const SCRIPT: &[u8] = b"2 a = record z8\n1 b = record z1\n1 c = concat b b\n2 d = concat a a a\n";

// So often a caller looks at most before it goes on all the same.
const LIMIT: u32 = 1_000_000;

// So often a caller lets other threads run before it looks again, where another thread is to come: many seconds, since a loaded machine may hold a thread back for long.
const YIELDS: u32 = 100;

/// A gate that lets a line wait for another one, and keeps what it was told.
#[derive(Drop)]
struct Meeting {
    yields: u32,
    done: [AtomicBool; 5],
    late: AtomicBool,
    told: [AtomicU32; 16],
    next: AtomicUsize,
}

impl Meeting {
    // Whose callers let other threads run so often between two looks.
    fn new(yields: u32) -> Meeting {
        Meeting {
            yields,
            done: [
                AtomicBool::new(false),
                AtomicBool::new(false),
                AtomicBool::new(false),
                AtomicBool::new(false),
                AtomicBool::new(false),
            ],
            late: AtomicBool::new(false),
            told: [
                AtomicU32::new(0),
                AtomicU32::new(0),
                AtomicU32::new(0),
                AtomicU32::new(0),
                AtomicU32::new(0),
                AtomicU32::new(0),
                AtomicU32::new(0),
                AtomicU32::new(0),
                AtomicU32::new(0),
                AtomicU32::new(0),
                AtomicU32::new(0),
                AtomicU32::new(0),
                AtomicU32::new(0),
                AtomicU32::new(0),
                AtomicU32::new(0),
                AtomicU32::new(0),
            ],
            next: AtomicUsize::new(0),
        }
    }

    // Keeps what the gate was told, as digits: before or after, caller, line.
    fn keep(&self, when: u16, caller: u16, line: u32) {
        let place = self.next.fetch_add(1, Ordering::SeqCst);
        if let Some(told) = self.told.get(place) {
            told.store(
                u32::from(when) + 10 * u32::from(caller) + line % 10,
                Ordering::SeqCst,
            );
        }
    }

    // Waits until a line is done.
    fn wait_for(&self, line: usize) {
        for _ in 0..LIMIT {
            if self.done[line % 5].load(Ordering::SeqCst) {
                return;
            }
            for _ in 0..self.yields {
                thread::yield_now();
            }
        }
        self.late.store(true, Ordering::SeqCst);
    }

    // What it was told of a caller, in order.
    fn told_of(&self, alloc: Global, caller: u32) -> Result<Vec<u32>, Fail> {
        let mut all = Vec::new(alloc);
        for told in &self.told {
            let code = told.load(Ordering::SeqCst);
            if code / 10 % 10 == caller {
                all.push(code)?;
            }
        }
        Ok(all)
    }
}

impl Gate for Meeting {
    fn is_open(&self) -> bool {
        false
    }

    fn before(&self, caller: u16, line: u32, turn: u32) {
        self.keep(100 + 1000 * ((turn % 10) as u16), caller, line);
        if line == 1 {
            self.wait_for(2);
        }
        if line == 3 {
            self.wait_for(1);
        }
    }

    fn after(&self, caller: u16, line: u32) {
        self.keep(200, caller, line);
        if line < 5 {
            self.done[line as usize].store(true, Ordering::SeqCst);
        }
    }
}

// Whether the first entries are of these callers: a gate that is told of a line only behind its call would hold nobody back.
fn begins_with(history: &[Entry], callers: &[u16]) -> bool {
    history.len() >= callers.len()
        && history
            .iter()
            .zip(callers)
            .all(|(entry, caller)| entry.caller == *caller)
}

// Runs the script before a gate, which has to be done, and gives the history.
fn held<R: Threads + Wait + Sync + Abort>(
    rt: &R,
    alloc: Global,
    asked: &[&str],
    gate: &Meeting,
) -> Result<Vec<Entry>, Fail> {
    let disk = small_disk(alloc, 2, &[])?;
    let (ended, _text) = run_gated(rt, alloc, asked, SCRIPT, disk, gate)?;
    assert_eq!(rt; ended.status, Status::Done);
    Ok(ended.history)
}

// Asserts just what a gate was told of a caller.
fn assert_told(
    rt: &impl Abort,
    alloc: Global,
    gate: &Meeting,
    caller: u32,
    wanted: &[u32],
) -> Result<(), Fail> {
    let told = gate.told_of(alloc, caller)?;
    assert!(rt; told.as_slice() == wanted);
    Ok(())
}

// Asserts that callers on threads who wait for one another end, in time and in order, and what the gate was told of them.
fn assert_meets<R: Threads + Wait + Sync + Abort>(
    rt: &R,
    alloc: Global,
    gate: &Meeting,
) -> Result<(), Fail> {
    let history = held(rt, alloc, &["run", "s", "--threads"], gate)?;
    assert!(rt; !gate.late.load(Ordering::SeqCst));
    assert!(rt; begins_with(&history, &[1, 2]));
    assert_told(rt, alloc, gate, 1, &[112, 212, 113, 213])?;
    assert_told(rt, alloc, gate, 2, &[121, 221, 124, 224])
}

// Asserts that one thread is late at a gate.
fn assert_late<R: Threads + Wait + Sync + Abort>(
    rt: &R,
    alloc: Global,
    gate: &Meeting,
) -> Result<(), Fail> {
    let _history = held(rt, alloc, &["run", "s"], gate)?;
    assert!(rt; gate.late.load(Ordering::SeqCst));
    Ok(())
}

#[test]
fn callers_that_wait_for_one_another_end(rt: HostRuntime) -> Result<(), Fail> {
    for _ in 0..20 {
        let gate = Meeting::new(YIELDS);
        assert_meets(&rt, rt.alloc(), &gate)?;
    }
    Ok(())
}

#[test]
fn one_thread_keeps_them_waiting(rt: HostRuntime) -> Result<(), Fail> {
    let gate = Meeting::new(1);
    assert_late(&rt, rt.alloc(), &gate)
}
