//! How many device calls each line takes.

use crate::runs::{Start, disk_at, run_script};
use std::alloc::Global;
use std::process::Abort;
use std::sync::Wait;
use std::test::Fail;
use std::thread::Threads;
use voice_main::Status;
use voice_model::Entry;
use voice_outside::Disk;

// A line, and how many device calls each of its entries takes.
type Line = (&'static str, &'static [u64]);

// Disks, and scripts over them. A recording makes a write for each run of whole blocks, one for a last block that isn't full, and the four calls of its record: payload, sync, gate, sync.
const ROWS: &[(&str, Start, &[Line])] = &[
    (
        "recordings",
        Start::New,
        &[
            ("1 record z0", &[4]),
            ("1 record z8", &[5]),
            ("1 record z16", &[5]),
            ("1 record f20", &[6]),
            ("1 record z32", &[5]),
            ("1 record z32", &[5]),
            ("1 record z32", &[0]),
        ],
    ),
    // The free blocks lie apart: one behind the first rope, and those behind the third one.
    (
        "a recording in blocks that lie apart",
        Start::New,
        &[
            ("1 a = record z8", &[5]),
            ("1 record z8", &[5]),
            ("1 c = record z8", &[5]),
            ("1 retain held a a -", &[4]),
            ("1 retain held c c -", &[4]),
            ("1 advance 100", &[4]),
            ("1 sweep 9", &[4]),
            ("1 record z32", &[6]),
            ("1 record f20", &[6]),
        ],
    ),
    (
        "changes, and calls that change nothing",
        Start::New,
        &[
            ("1 a = record f20", &[6]),
            ("1 retain held k a 00", &[4]),
            ("1 retain held k a 00", &[0]),
            ("1 b = sub a 5 10", &[4]),
            ("1 sub a 5 16", &[0]),
            ("1 c = concat a b", &[4]),
            ("1 d = replace a 5 10 c", &[4]),
            ("1 length d", &[0]),
            ("1 length 9", &[0]),
            ("1 lookup held k", &[0]),
            ("1 lookup held x", &[0]),
            ("1 forget held x", &[0]),
            ("1 census", &[0]),
            ("1 queue 0 d 0 40", &[0]),
            ("1 queue 0 d 0 41", &[0]),
            ("1 stop 0", &[0]),
            ("1 advance 0", &[0]),
            ("1 sweep 9", &[0]),
            ("1 forget held k", &[4]),
            ("1 advance 100", &[4]),
        ],
    ),
    // A play's feeds read the blocks of their windows that are not in frames, each once; the last feed ends the job. Blocks that a sweep freed are read again.
    (
        "plays",
        Start::New,
        &[
            ("1 a = record z32", &[5]),
            ("1 b = concat a a", &[4]),
            ("1 play 0 a 4 8 x", &[0, 2, 0]),
            ("1 play 0 a 0 32 x", &[0, 2, 0]),
            ("1 play 1 a 0 32 x", &[0, 0, 0]),
            ("1 play 0 b 0 64 x", &[0, 0, 0, 0]),
            ("1 play 0 a 0 0 x", &[0, 0]),
            ("1 play 0 9 0 1 x", &[0]),
            ("1 serve 0 x", &[0]),
            ("1 c = record f20", &[6]),
            ("1 play 0 c 0 20 x", &[0, 3, 0]),
            ("1 advance 100", &[4]),
            ("1 sweep 9", &[4]),
            ("1 d = record z32", &[5]),
            ("1 play 0 d 0 32 x", &[0, 4, 0]),
        ],
    ),
    (
        "talk and levels",
        Start::New,
        &[
            ("1 a = record z32", &[5]),
            ("1 b = sub a 4 8", &[4]),
            ("1 describe a", &[4]),
            ("1 levels a", &[4]),
            ("1 describe b", &[2]),
            ("1 describe 9", &[0]),
        ],
    ),
    // An Add writes the blocks that become whole, those behind one another at once; an End the last one, where it isn't.
    (
        "recordings in parts",
        Start::New,
        &[
            ("1 begin 0", &[0]),
            ("1 add 0 f20", &[1]),
            ("1 add 0 z8", &[1]),
            ("1 begin 1", &[0]),
            ("1 add 1 z8", &[1]),
            ("1 add 0 z0", &[0]),
            ("1 add 0 z16", &[2]),
            ("1 add 0 z32", &[1]),
            ("1 end 0", &[5]),
            ("1 end 1", &[4]),
            ("1 end 1", &[0]),
        ],
    ),
    // The first change writes a base into the other area, and its head.
    (
        "a switch",
        Start::Full,
        &[("1 record f20", &[6]), ("1 record z8", &[5])],
    ),
];

// The script of a row.
fn script_of(alloc: Global, lines: &[Line]) -> Result<String, Fail> {
    let mut script = String::new(alloc);
    for (line, _) in lines {
        script.push_str(line)?;
        script.push_str("\n")?;
    }
    Ok(script)
}

// How many device calls each entry takes, by a row.
fn wanted_of(alloc: Global, lines: &[Line]) -> Result<Vec<u64>, Fail> {
    let mut counts = Vec::new(alloc);
    for (_, calls) in lines {
        counts.extend_from_slice(calls)?;
    }
    Ok(counts)
}

// How many each entry of a history takes, of which the first begins behind so many calls.
fn counts_of(alloc: Global, history: &[Entry], opened: u64) -> Result<Vec<u64>, Fail> {
    let mut before = opened;
    let mut counts = Vec::new(alloc);
    for entry in history {
        counts.push(entry.ack.saturating_sub(before))?;
        before = entry.ack;
    }
    Ok(counts)
}

// How many calls open a disk.
const OPENING: u64 = 5;

// Asserts how many device calls the lines of a row take.
fn assert_counts<R: Threads + Wait + Sync + Abort>(
    rt: &R,
    alloc: Global,
    (name, start, lines): (&str, Start, &[Line]),
) -> Result<(), Fail> {
    let script = script_of(alloc, lines)?;
    let wanted = wanted_of(alloc, lines)?;
    let disk = disk_at(alloc, start, &[])?;
    let opened = disk.calls().saturating_add(OPENING);
    let ran = run_script(rt, alloc, &script, disk)?;
    assert_eq!(rt; ran.ended.status, Status::Done, "{name}");
    let found = counts_of(alloc, &ran.ended.history, opened)?;
    assert!(rt; found == wanted, "{name}: {found:?}, {wanted:?}");
    Ok(())
}

#[test]
fn each_line_takes_so_many_device_calls(rt: HostRuntime) -> Result<(), Fail> {
    for row in ROWS {
        assert_counts(&rt, rt.alloc(), *row)?;
    }
    Ok(())
}
