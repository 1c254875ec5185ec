//! Edits over a real file and in memory.

use crate::figures::print_middle;
use crate::images::{Contents, append, disk_with, fill, image};
use crate::stores::{cut, let_go, no_tapes, open_store, replace};
use bench_report::bare;
use bench_report::disks::{FILE, open_file, shape_of, size_of};
use bench_report::report::hundredths_of;
use std::alloc::Global;
use std::fs::{self, File};
use std::io::{self, ErrorKind};
use std::rt::{Clock, Files};
use std::sync::Arc;
use std::time::{Duration, Instant};
use voice_disk::{FileDisk, MemDisk};
use voice_journal::Journal;
use voice_model::Tapes;
use voice_outside::Disk;
use voice_store::Store;
use voice_units::{RopeId, Shape};

const RUNS: usize = 15;

// How many pairs of edits a run makes, over a real file and in memory.
const PAIRS_IN_FILE: u32 = 10;

const PAIRS_IN_MEMORY: u32 = 1_000;

// The area of the journal, in which the records of all edits fit behind one another: no switch is timed.
const AREA: u32 = 4 << 20;

// Behind the block of the recording, where nothing lies.
const FREE_BLOCKS: u64 = 64 + 2 * (4 << 20) + 4096;

// What the changes of a pair take: an edit of one piece, and one of three.
const ONE_PIECE: usize = 27;

const THREE_PIECES: usize = 59;

// What a record takes behind its gate besides the change: a length, and the next gate.
const FRAME: usize = 5;

// Rope 1 is a recording, and rope 2 a part of it.
const CONTENTS: Contents = Contents {
    blocks: 1,
    ropes: 1,
    rows: 0,
};

// Makes a pair of edits: a part of rope 1, and rope 1 with rope 2 in place of a part.
fn edit_pair<D: Disk>(store: &mut Store<D>, number: u32) -> bool {
    let start = 1 + number % 1000;
    let cut = cut(store, RopeId(1), start, 8);
    let replaced = replace(store, RopeId(1), start, 100, RopeId(2));
    cut && replaced
}

// Whether all edits of a run were made.
fn edit_run<D: Disk>(store: &mut Store<D>, pairs: u32) -> bool {
    let mut is_whole = true;
    for number in 0..pairs {
        is_whole &= edit_pair(store, number);
    }
    is_whole
}

fn time_edits<R: Clock, D: Disk>(rt: &R, store: &mut Store<D>, pairs: u32) -> io::Result<Duration> {
    let start = Instant::now(rt)?;
    let is_whole = edit_run(store, pairs);
    let took = start.elapsed(rt)?;
    if !is_whole {
        return Err(io::Error::from(ErrorKind::InvalidData));
    }
    Ok(took)
}

// The calls of the disk that a pair of edits makes, from a gate on.
fn call_pair<D: Disk>(disk: &mut D, gate: u64) -> io::Result<()> {
    bare::append(disk, gate, &[0; ONE_PIECE + FRAME])?;
    let next = gate.saturating_add((ONE_PIECE + FRAME) as u64);
    bare::append(disk, next, &[0; THREE_PIECES + FRAME])
}

// The calls of a run of edits, each run at a place of its own.
fn call_run<D: Disk>(disk: &mut D, run: usize) -> io::Result<()> {
    let pair = (ONE_PIECE + THREE_PIECES + 2 * FRAME) as u64;
    let first = u64::from(PAIRS_IN_FILE).saturating_mul(run as u64);
    for number in 0..PAIRS_IN_FILE {
        let pairs = first.saturating_add(u64::from(number));
        call_pair(disk, FREE_BLOCKS.saturating_add(pairs.saturating_mul(pair)))?;
    }
    Ok(())
}

fn time_calls<R: Clock, D: Disk>(rt: &R, disk: &mut D, run: usize) -> io::Result<Duration> {
    let start = Instant::now(rt)?;
    call_run(disk, run)?;
    start.elapsed(rt)
}

// How many times as long the edits of each run take as their calls, made bare between them in the same file.
fn compare_calls<R: Print + Clock, D: Disk>(
    rt: &R,
    store: &mut Store<D>,
    disk: &mut FileDisk,
) -> io::Result<()> {
    let mut figures = [0u128; RUNS];
    for (run, figure) in figures.iter_mut().enumerate() {
        let took = time_edits(rt, store, PAIRS_IN_FILE)?;
        let bare = time_calls(rt, disk, run)?;
        *figure = hundredths_of(took, bare);
    }
    print_middle(
        rt,
        "edits over a real file, to their calls of the disk",
        &mut figures,
    )
}

fn compare_in_file<R: Print + Clock>(
    rt: &R,
    alloc: Global,
    disk: FileDisk,
    tapes: Arc<Tapes, Global>,
    other: &mut FileDisk,
) -> io::Result<()> {
    let Some(mut store) = open_store(alloc, disk, tapes) else {
        return Err(io::Error::from(ErrorKind::InvalidData));
    };
    let compared = compare_calls(rt, &mut store, other);
    let_go(store);
    compared
}

// Fills the file.
fn make_file<R: Files<File = File>>(rt: &R, alloc: Global, shape: &Shape) -> io::Result<()> {
    let mut disk = open_file(rt, size_of(shape))?;
    if !fill(alloc, &mut disk, shape, CONTENTS) {
        return Err(io::Error::from(ErrorKind::InvalidData));
    }
    Ok(())
}

fn measure_in_file<R: Print + Clock + Files<File = File>>(rt: &R, alloc: Global) -> io::Result<()> {
    let shape = shape_of(4096, 16, AREA)?;
    make_file(rt, alloc, &shape)?;
    let tapes = no_tapes(alloc)?;
    let mut other = open_file(rt, size_of(&shape))?;
    let Ok(disk) = other.try_clone() else {
        return Err(io::Error::from(ErrorKind::Other));
    };
    compare_in_file(rt, alloc, disk, tapes, &mut other)
}

// Whether the appends of a run of edits were made.
fn append_run<D: Disk>(disk: &mut D, journal: &mut Journal) -> bool {
    let mut is_whole = true;
    for _ in 0..PAIRS_IN_MEMORY {
        is_whole &= append(disk, journal, &[0; ONE_PIECE]);
        is_whole &= append(disk, journal, &[0; THREE_PIECES]);
    }
    is_whole
}

fn time_appends<R: Clock, D: Disk>(
    rt: &R,
    disk: &mut D,
    journal: &mut Journal,
) -> io::Result<Duration> {
    let start = Instant::now(rt)?;
    let is_whole = append_run(disk, journal);
    let took = start.elapsed(rt)?;
    if !is_whole {
        return Err(io::Error::from(ErrorKind::InvalidData));
    }
    Ok(took)
}

// How many times as long the edits of each run take as appends of as long records between them, to another journal.
fn compare_appends<R: Print + Clock, D: Disk>(
    rt: &R,
    store: &mut Store<D>,
    disk: &mut MemDisk,
    journal: &mut Journal,
) -> io::Result<()> {
    let mut figures = [0u128; RUNS];
    for figure in figures.iter_mut() {
        let took = time_edits(rt, store, PAIRS_IN_MEMORY)?;
        let bare = time_appends(rt, disk, journal)?;
        *figure = hundredths_of(took, bare);
    }
    print_middle(
        rt,
        "edits in memory, to the appends of their records",
        &mut figures,
    )
}

fn compare_with_journal<R: Print + Clock, D: Disk>(
    rt: &R,
    alloc: Global,
    store: &mut Store<D>,
    other: &mut MemDisk,
) -> io::Result<()> {
    match Journal::open(alloc, other) {
        Ok(mut opened) => compare_appends(rt, store, other, &mut opened.journal),
        Err(_) => Err(io::Error::from(ErrorKind::InvalidData)),
    }
}

fn compare_in_memory<R: Print + Clock>(
    rt: &R,
    alloc: Global,
    disk: MemDisk,
    tapes: Arc<Tapes, Global>,
    other: &mut MemDisk,
) -> io::Result<()> {
    let Some(mut store) = open_store(alloc, disk, tapes) else {
        return Err(io::Error::from(ErrorKind::InvalidData));
    };
    let compared = compare_with_journal(rt, alloc, &mut store, other);
    let_go(store);
    compared
}

fn measure_in_memory<R: Print + Clock>(rt: &R, alloc: Global) -> io::Result<()> {
    let shape = shape_of(4096, 16, AREA)?;
    let image = image(alloc, &shape, CONTENTS)?;
    let tapes = no_tapes(alloc)?;
    let mut other = disk_with(alloc, &image)?;
    let disk = disk_with(alloc, &image)?;
    compare_in_memory(rt, alloc, disk, tapes, &mut other)
}

/// Prints what edits over a real file cost beside the same calls of the disk made bare, and edits in memory beside the appends of their records alone, the middle of some runs.
pub fn measure<R: Print + Clock + AllocGlobal + Files<File = File>>(rt: &R) -> io::Result<()> {
    let measured = measure_in_file(rt, rt.alloc());
    fs::remove_file(rt, FILE)?;
    measured?;
    measure_in_memory(rt, rt.alloc())
}
