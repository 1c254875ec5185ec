//! Sixteen callers on threads, and what a crash at any moment leaves of what they made.

use crate::runs::done;
use crate::tables::disk_with;
use disk_uses::steps::fits;
use rope_table::RopeTable;
use std::alloc::Global;
use std::process::Abort;
use std::sync::{Arc, Wait};
use std::test::Fail;
use std::thread::Threads;
use voice_disk::{MemDisk, image_of};
use voice_journal::Journal;
use voice_main::Ended;
use voice_model::{Entry, Reply, Tapes};
use voice_outside::Disk;
use voice_store::Store;
use voice_units::{Graces, Shape};

const CALLERS: u16 = 16;

// How often each caller edits and asks, behind its recording and its first question.
const TURNS: u16 = 99;

// A disk with room for all that the callers make.
fn wide_disk(alloc: Global) -> Result<MemDisk, Fail> {
    let graces = Graces {
        common: 60,
        held: 60,
        until: 60,
        listed: 60,
    };
    let mut disk = MemDisk::new(alloc, 1 << 19, Vec::new(alloc))?;
    let Ok(shape) = Shape::new(2, 8, 64, 1 << 17, graces, 4, 1 << 19) else {
        return Err(Fail::new("no such shape"));
    };
    if !format_as(&mut disk, &shape) {
        return Err(Fail::new("not formatted"));
    }
    Ok(disk)
}

// Formats a disk, where it has room for the shape.
fn format_as<D: Disk>(disk: &mut D, shape: &Shape) -> bool {
    if !fits(disk, shape) {
        return false;
    }
    Journal::format(disk, shape).is_ok()
}

fn push_line(script: &mut Vec<u8>, caller: u16, line: &[u8]) -> Result<(), Fail> {
    if caller >= 10 {
        script.push(b'1')?;
    }
    script.push(b"0123456789"[usize::from(caller % 10)])?;
    script.extend_from_slice(line)?;
    Ok(())
}

// Each caller's 200 lines: a recording, and 99 edits of it, with a question behind each.
fn crowded_script(alloc: Global) -> Result<Vec<u8>, Fail> {
    let mut script = Vec::new(alloc);
    for caller in 1..=CALLERS {
        push_line(&mut script, caller, b" a = record z8\n")?;
        push_line(&mut script, caller, b" length a\n")?;
    }
    for _ in 0..TURNS {
        for caller in 1..=CALLERS {
            push_line(&mut script, caller, b" b = concat a a\n")?;
            push_line(&mut script, caller, b" length b\n")?;
        }
    }
    Ok(script)
}

// The length of each rope that was made, in the order of the history, and when it was acknowledged; none where their numbers don't rise one by one.
fn made_in(alloc: Global, history: &[Entry]) -> Result<Vec<(u64, u64)>, Fail> {
    let mut made = Vec::new(alloc);
    for entry in history {
        if let Reply::Rope(id, length) = &entry.reply {
            if id.number() != (made.len() as u64).saturating_add(1) {
                return Err(Fail::new("a number left out"));
            }
            made.push((u64::from(*length), entry.ack))?;
        }
    }
    Ok(made)
}

// The disk that a crash leaves at a moment.
fn left_at(alloc: Global, disk: &MemDisk, moment: u64, choice: u16) -> Result<MemDisk, Fail> {
    if moment > disk.calls() {
        return Err(Fail::new("no such moment"));
    }
    let image = image_of(alloc, disk, moment, choice)?;
    disk_with(alloc, image)
}

// The rope behind a number, where it is the next one and has this length.
fn next_rope(ropes: &RopeTable, above: u64, length: u64) -> Option<u64> {
    let id = ropes.after(above)?;
    let pieces = ropes.get(id)?;
    if id.number() != above.saturating_add(1) || u64::from(pieces.length()) != length {
        return None;
    }
    Some(id.number())
}

// Whether these are the ropes that were acknowledged by a moment, perhaps one more, each with its length, and nothing else.
fn are_front(ropes: &RopeTable, made: &[(u64, u64)], moment: u64) -> bool {
    let count = ropes.count() as usize;
    let least = made.iter().filter(|one| one.1 <= moment).count();
    if count < least || count > least.saturating_add(1) {
        return false;
    }
    let mut above = 0u64;
    for (length, _) in made.iter().take(count) {
        let Some(id) = next_rope(ropes, above, *length) else {
            return false;
        };
        above = id;
    }
    ropes.after(above).is_none()
}

// Whether an image of a moment opens, with such ropes.
fn survives(
    alloc: Global,
    disk: &MemDisk,
    made: &[(u64, u64)],
    moment: u64,
    choice: u16,
) -> Result<bool, Fail> {
    let Ok(tapes) = Arc::new(alloc, Tapes::new(Vec::new(alloc))) else {
        return Err(Fail::new("no memory"));
    };
    let left = left_at(alloc, disk, moment, choice)?;
    match Store::open(alloc, left, tapes) {
        Ok(store) => {
            let held = are_front(&store.parts().ropes, made, moment);
            let _handed_back = store.close();
            Ok(held)
        }
        Err(_) => Err(Fail::new("the image is refused")),
    }
}

// What sixteen callers made.
fn crowd<R: Threads + Wait + Sync + Abort>(rt: &R, alloc: Global) -> Result<Ended<MemDisk>, Fail> {
    let script = crowded_script(alloc)?;
    let disk = wide_disk(alloc)?;
    let asked = ["run", "s", "--threads"];
    let (ended, _text) = done(rt, alloc, &asked, script.as_slice(), disk)?;
    Ok(ended)
}

// Asserts that images of fifty moments hold a front of what was made.
fn assert_fronts(
    rt: &impl Abort,
    alloc: Global,
    disk: &MemDisk,
    made: &[(u64, u64)],
) -> Result<(), Fail> {
    let calls = disk.calls();
    let mut moment = 12u64;
    for k in 0..50u16 {
        moment = moment
            .wrapping_mul(6364136223846793005)
            .wrapping_add(1442695040888963407);
        let at = 10 + (moment >> 16) % calls.saturating_sub(10).max(1);
        let held = survives(alloc, disk, made, at, k % 5)?;
        assert!(rt; held, "moment {at}");
    }
    Ok(())
}

// Asserts how much the callers made, and what a crash leaves of it.
fn assert_crowd(rt: &impl Abort, alloc: Global, ended: &Ended<MemDisk>) -> Result<(), Fail> {
    assert_eq!(rt; ended.history.len(), 3200);
    let made = made_in(alloc, &ended.history)?;
    assert_eq!(rt; made.len(), 1600);
    assert_fronts(rt, alloc, &ended.disk, made.as_slice())
}

#[test]
fn each_crash_leaves_a_front_of_what_sixteen_callers_made(rt: HostRuntime) -> Result<(), Fail> {
    let ended = crowd(&rt, rt.alloc())?;
    assert_crowd(&rt, rt.alloc(), &ended)
}
