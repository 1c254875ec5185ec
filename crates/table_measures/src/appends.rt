//! Appends to a journal, in memory and in a real file.

ghost use Rattle.std.specs.Prelude.{◌≡◌, ◌≤◌, IsTrue};
ghost use Rattle.voice_units.specs.Layout.{bytes_needed};

use bench_report::disks::{FILE, memory_disk, open_file};
use bench_report::report::ratio;
use std::alloc::{AllocError, Global};
use std::fs::{self, File};
use std::io;
use std::rt::{Clock, Files};
use std::time::{Duration, Instant};
use voice_journal::Journal;
use voice_outside::Disk;
use voice_units::{Graces, Shape};

const SIZE: u64 = 4 << 20;
// Where the usual disk's blocks begin.
const BLOCKS: u64 = 64 + (2 << 20);

const IN_MEMORY: u32 = 20_000;

const IN_A_FILE: u32 = 300;

const PAYLOAD: [u8; 9] = [7, 0, 0, 0, 0, 0, 0, 0, 60];

// A disk of sixteen blocks and the usual areas.
fn usual_shape() -> Option<Shape> {
    let graces = Graces {
        common: 60,
        held: 60,
        until: 60,
        listed: 60,
    };
    Shape::new(2, 4096, 16, 1 << 20, graces, 8, SIZE).ok()
}

fn fits(shape: &Shape, size: u64) -> bool
    ensures { IsTrue result → bytes_needed shape.now.block shape.now.blocks shape.now.area ≤ size }
{
    let needed = 64 + 2 * u64::from(shape.area) + u64::from(shape.block) * u64::from(shape.blocks);
    needed <= size
}

// A journal that was just formatted.
fn new_journal<D: Disk>(alloc: Global, disk: &mut D) -> Option<Journal> {
    let Some(shape) = usual_shape() else {
        return None;
    };
    if !fits(&shape, disk.size()) || Journal::format(disk, &shape).is_err() {
        return None;
    }
    let Ok(opened) = Journal::open(alloc, disk) else {
        return None;
    };
    Some(opened.journal)
}

fn append_one<D: Disk>(journal: &mut Journal, disk: &mut D) -> bool {
    if journal.in_doubt() || journal.left() < 14 || !fits(&journal.shape(), disk.size()) {
        return false;
    }
    journal.append(disk, &PAYLOAD).is_ok()
}

// The four calls of an append, at a place of its own.
fn append_bare<D: Disk>(disk: &mut D, at: u64) -> bool {
    let size = disk.size();
    if size < 15 || at > size - 15 {
        return false;
    }
    disk.write(at + 1, &[0, 0, 0, 9, 7, 0, 0, 0, 0, 0, 0, 0, 60, 0])
        .is_ok()
        && disk.sync().is_ok()
        && disk.write(at, &[1]).is_ok()
        && disk.sync().is_ok()
}

fn a_second(made: u32, took: Duration) -> u128 {
    u128::from(made) * 1_000_000_000 / took.as_nanos().max(1)
}

// How many of so many appends were made.
fn append_some<D: Disk>(journal: &mut Journal, disk: &mut D, times: u32) -> u32 {
    let mut made = 0u32;
    for _ in 0..times {
        if append_one(journal, disk) {
            made = made.saturating_add(1);
        }
    }
    made
}

// How many appends were made, and how long they took.
fn time_some<R: Clock, D: Disk>(
    rt: &R,
    journal: &mut Journal,
    disk: &mut D,
    times: u32,
) -> io::Result<(u32, Duration)> {
    let start = Instant::now(rt)?;
    let made = append_some(journal, disk, times);
    let took = start.elapsed(rt)?;
    Ok((made, took))
}

// The same over a new disk in memory.
fn append_in_memory<R: Clock>(rt: &R, alloc: Global) -> io::Result<(u32, Duration)> {
    let mut disk = memory_disk(alloc, SIZE)?;
    let Some(mut journal) = new_journal(alloc, &mut disk) else {
        return Err(io::Error::from(AllocError));
    };
    time_some(rt, &mut journal, &mut disk, IN_MEMORY)
}

fn time_one<R: Clock, D: Disk>(
    rt: &R,
    journal: &mut Journal,
    disk: &mut D,
) -> io::Result<Duration> {
    let start = Instant::now(rt)?;
    let _made = append_one(journal, disk);
    start.elapsed(rt)
}

fn time_bare<R: Clock, D: Disk>(rt: &R, disk: &mut D, at: u64) -> io::Result<Duration> {
    let start = Instant::now(rt)?;
    let _called = append_bare(disk, at);
    start.elapsed(rt)
}

// How long appends took, and the same calls made bare between them, where the disk's blocks lie.
fn compare<R: Clock, D: Disk>(
    rt: &R,
    journal: &mut Journal,
    disk: &mut D,
    times: u32,
) -> io::Result<(Duration, Duration)> {
    let mut took = Duration::ZERO;
    let mut bare = Duration::ZERO;
    for k in 0..times {
        took = took.saturating_add(time_one(rt, journal, disk)?);
        bare = bare.saturating_add(time_bare(rt, disk, BLOCKS + 14 * u64::from(k))?);
    }
    Ok((took, bare))
}

// The same over a real file.
fn compare_in_file<R: Clock + Files<File = File>>(
    rt: &R,
    alloc: Global,
) -> io::Result<(Duration, Duration)> {
    let mut disk = open_file(rt, SIZE)?;
    let Some(mut journal) = new_journal(alloc, &mut disk) else {
        return Err(io::Error::from(AllocError));
    };
    compare(rt, &mut journal, &mut disk, IN_A_FILE)
}

fn measure_memory<R: Print + Clock + AllocGlobal>(rt: &R) -> io::Result<()> {
    let (made, took) = append_in_memory(rt, rt.alloc())?;
    let rate = a_second(made, took);
    println!(rt; "appends over a disk in memory: {rate} a second")
}

fn measure_file<R: Print + Clock + AllocGlobal + Files<File = File>>(rt: &R) -> io::Result<()> {
    let (took, bare) = compare_in_file(rt, rt.alloc())?;
    fs::remove_file(rt, FILE)?;
    let rate = a_second(IN_A_FILE, took);
    println!(rt; "appends over a real file: {rate} a second")?;
    ratio(
        rt,
        "an append over a real file, to its four calls",
        took,
        bare,
    )
}

/// Prints appends a second over a disk in memory and over a real file, and the latter beside the same calls made bare.
pub fn measure<R: Print + Clock + AllocGlobal + Files<File = File>>(rt: &R) -> io::Result<()> {
    measure_memory(rt)?;
    measure_file(rt)
}
