//! Replay of changes.

use crate::changes::{BLOCK, Kind, changes_of, mail_of};
use bench_report::disks::shape_of;
use bench_report::report::ratio;
use change_codec::get;
use recovery::{Parts, replay};
use std::alloc::{AllocError, Global};
use std::io::{self, ErrorKind};
use std::rt::Clock;
use std::time::{Duration, Instant};
use voice_journal::RecordList;
use voice_model::{Change, Class, Key};
use voice_units::{Piece, RopeId, Shape};

const BYTES: u64 = 16 << 20;

// The best of so many times counts.
const TIMES: u32 = 4;

// What the changes rebuild, and how long that took. None of them may be refused.
fn replay_all<R: Clock>(
    rt: &R,
    alloc: Global,
    shape: &Shape,
    list: &RecordList,
) -> io::Result<(Parts, Duration)> {
    if list.len() > 9_999_999 {
        return Err(io::Error::from(ErrorKind::InvalidInput));
    }
    let start = Instant::now(rt)?;
    let rebuilt = replay(alloc, shape, list);
    let took = start.elapsed(rt)?;
    match rebuilt {
        Ok(parts) => Ok((parts, took)),
        Err(_) => Err(io::Error::from(ErrorKind::InvalidData)),
    }
}

// The length of a rope, 0 where it is not live.
fn length_of(parts: &Parts, id: RopeId) -> u64 {
    match parts.ropes.get(id) {
        Some(pieces) => u64::from(pieces.length()),
        None => 0,
    }
}

// How many ropes use the blocks in which pieces begin, each counted for each piece.
fn uses_of(parts: &Parts, pieces: &[Piece]) -> u64 {
    let mut uses = 0u64;
    for piece in pieces {
        let used = parts.ropes.uses(piece.file, piece.from / BLOCK);
        uses = uses.wrapping_add(u64::from(used));
    }
    uses
}

// The rope of a row, 0 where there is none.
fn rope_of(parts: &Parts, class: Class, key: &Key) -> u64 {
    match parts.interests.find(class, key) {
        Some(row) => row.rope.number(),
        None => 0,
    }
}

// Looks up once each number that a change names: its ropes, its row and the blocks of its pieces.
fn look_up(parts: &Parts, change: &Change) -> u64 {
    match change {
        Change::Wide(id, _, _) => length_of(parts, *id),
        Change::Edited(id, pieces) => {
            length_of(parts, *id).wrapping_add(uses_of(parts, pieces.items()))
        }
        Change::Retained(class, key, id, _) => {
            length_of(parts, *id).wrapping_add(rope_of(parts, *class, key))
        }
        Change::Forgotten(class, key) => rope_of(parts, *class, key),
        _ => 0,
    }
}

// The sum of what is found of the numbers that changes name, and of a 1 for each change that is read.
fn read_plainly(alloc: Global, list: &RecordList, parts: &Parts) -> u64 {
    let mut sum = 0u64;
    for index in 0..u32::MAX {
        let Some(bytes) = list.get(index) else {
            return sum;
        };
        if let Ok(change) = get(alloc, bytes) {
            sum = sum.wrapping_add(1).wrapping_add(look_up(parts, &change));
        }
    }
    sum
}

// How long reading and looking up took, behind how long a replay took. Some change is read, and that is looked at so that no reading is left out.
fn time_plainly<R: Clock>(
    rt: &R,
    alloc: Global,
    list: &RecordList,
    parts: &Parts,
    replayed: Duration,
) -> io::Result<(Duration, Duration)> {
    let start = Instant::now(rt)?;
    let sum = read_plainly(alloc, list, parts);
    let took = start.elapsed(rt)?;
    if sum == 0 {
        return Err(io::Error::from(ErrorKind::InvalidData));
    }
    Ok((replayed, took))
}

// How long one replay took, and then reading and looking up.
fn compare_once<R: Clock>(
    rt: &R,
    alloc: Global,
    shape: &Shape,
    list: &RecordList,
) -> io::Result<(Duration, Duration)> {
    let (parts, took) = replay_all(rt, alloc, shape, list)?;
    time_plainly(rt, alloc, list, &parts, took)
}

// How long both take at their best.
fn compare<R: Clock>(rt: &R, alloc: Global, list: &RecordList) -> io::Result<(Duration, Duration)> {
    let shape = shape_of(BLOCK, 1 << 16, 1 << 24)?;
    let mut took = Duration::MAX;
    let mut bare = Duration::MAX;
    for _ in 0..TIMES {
        let (replayed, read) = compare_once(rt, alloc, &shape, list)?;
        took = took.min(replayed);
        bare = bare.min(read);
    }
    Ok((took, bare))
}

fn measure_kind<R: Print + Clock>(rt: &R, alloc: Global, name: &str, kind: Kind) -> io::Result<()> {
    let Ok(records) = changes_of(alloc, kind, BYTES) else {
        return Err(io::Error::from(AllocError));
    };
    let (took, bare) = compare(rt, alloc, &records.list)?;
    let count = records.list.len();
    print!(rt; "16 MiB, {count} changes: ")?;
    ratio(rt, name, took, bare)
}

// Prints what the replay of so many changes of mail costs, and what it costs beside reading them.
fn measure_mail<R: Print + Clock>(rt: &R, alloc: Global, changes: u32) -> io::Result<()> {
    let Ok(records) = mail_of(alloc, changes) else {
        return Err(io::Error::from(AllocError));
    };
    let (took, bare) = compare(rt, alloc, &records.list)?;
    let nanos = took.as_nanos() / (records.list.len() as u128).max(1);
    print!(rt; "{changes} changes, {nanos} ns each: ")?;
    ratio(rt, "replay of mail", took, bare)
}

/// Prints what the replay of mail costs that is kept and forgotten, the oldest first, by the number of changes.
pub fn measure_growth<R: Print + Clock + AllocGlobal>(rt: &R) -> io::Result<()> {
    measure_mail(rt, rt.alloc(), 25_000)?;
    measure_mail(rt, rt.alloc(), 50_000)?;
    measure_mail(rt, rt.alloc(), 100_000)?;
    measure_mail(rt, rt.alloc(), 200_000)
}

/// Prints what the replay of 16 MiB of changes costs beside reading them from their bytes and looking each number that they name up once.
pub fn measure<R: Print + Clock + AllocGlobal>(rt: &R) -> io::Result<()> {
    let alloc = rt.alloc();
    measure_kind(rt, alloc, "replay of moments", Kind::Moments)?;
    measure_kind(rt, alloc, "replay of interests", Kind::Interests)?;
    measure_kind(rt, alloc, "replay of edits", Kind::Edits)?;
    measure_kind(rt, alloc, "replay of all of these", Kind::Mixed)
}
