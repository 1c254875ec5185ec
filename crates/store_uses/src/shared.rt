//! Callers on threads of their own.

use crate::runs::{done, small_disk};
use std::alloc::Global;
use std::process::Abort;
use std::sync::Wait;
use std::test::Fail;
use std::thread::Threads;
use voice_model::{Entry, Reply};

const SCRIPT: &[u8] =
    b"1 a = record z8\n1 b = concat a a\n1 length b\n2 c = record z1\n2 d = concat c c c\n2 length d\n";

// How many entries a caller has, and the number that the last of them answers.
fn last_of(history: &[Entry], caller: u16) -> (u32, u64) {
    let mut found = (0u32, 0);
    for entry in history {
        if entry.caller == caller {
            found.0 = found.0.saturating_add(1);
            if let Reply::Number(n) = &entry.reply {
                found.1 = *n;
            }
        }
    }
    found
}

// Runs a script of two callers over a new disk, which is done, and gives the history.
fn shared<R: Threads + Wait + Sync + Abort>(
    rt: &R,
    alloc: Global,
    asked: &[&str],
    script: &[u8],
) -> Result<Vec<Entry>, Fail> {
    let disk = small_disk(alloc, 2, &[])?;
    let (ended, _text) = done(rt, alloc, asked, script, disk)?;
    Ok(ended.history)
}

// Asserts how many entries there are, how many each of two callers has, and the number that the last of them answers.
fn assert_shared<R: Threads + Wait + Sync + Abort>(
    rt: &R,
    alloc: Global,
    asked: &[&str],
    script: &[u8],
    (all, first, second): (usize, (u32, u64), (u32, u64)),
) -> Result<(), Fail> {
    let history = shared(rt, alloc, asked, script)?;
    assert_eq!(rt; history.len(), all);
    assert!(rt; last_of(&history, 1) == first);
    assert!(rt; last_of(&history, 2) == second);
    Ok(())
}

const FOUR: &[u8] = b"1 a = record z8\n1 length a\n2 b = record z1\n2 length b\n";

// The four lines stand in one of the six orders that keep each caller's own.
#[test]
fn two_callers_take_turns_in_any_order(rt: HostRuntime) -> Result<(), Fail> {
    for _ in 0..200 {
        let asked = ["run", "s", "--threads"];
        assert_shared(&rt, rt.alloc(), &asked, FOUR, (4, (2, 8), (2, 1)))?;
    }
    Ok(())
}

#[test]
fn each_callers_lines_run_in_order(rt: HostRuntime) -> Result<(), Fail> {
    for asked in [["run", "s", "--threads"], ["run", "--threads", "s"]] {
        for _ in 0..50 {
            assert_shared(&rt, rt.alloc(), &asked, SCRIPT, (6, (3, 16), (3, 3)))?;
        }
    }
    Ok(())
}
