//! A recording in parts over a file of this folder.

ghost use Rattle.std.specs.Prelude.{◌≡◌};
ghost use Rattle.std.specs.Arc.{arc_value};
ghost use Rattle.voice_store.specs.Shown.{tapes_in};

use crate::stores::{add, ask, format, let_go, open_store};
use bench_report::bare;
use bench_report::disks::{FILE, bytes_of, open_file, shape_of, size_of};
use bench_report::report::ratio;
use std::alloc::{AllocError, Global};
use std::fs::{self, File};
use std::io::{self, ErrorKind};
use std::rt::{Clock, Files};
use std::sync::Arc;
use std::time::{Duration, Instant};
use voice_disk::FileDisk;
use voice_model::{Call, Tapes};
use voice_outside::Disk;
use voice_store::Store;
use voice_units::{Lane, Take};

// 48 MiB, in parts of 64 KiB.
const PARTS: u32 = 768;

const PART: u32 = 1 << 16;

const BLOCK: u32 = 4096;

const BLOCKS: u32 = PARTS * (PART / BLOCK);

const AREA: u32 = 1 << 20;

// The lane that records.
const LANE: Lane = Lane(0);

// Whether all parts were added.
fn add_parts<D: Disk>(store: &mut Store<D>, tapes: &Tapes) -> bool
    requires { tapes_in store.old ≡ tapes.now }
    ensures { tapes_in store.new ≡ tapes_in store.old }
{
    let part = Take {
        tape: 0,
        from: 0,
        len: PART,
    };
    let mut is_done = true;
    for _ in 0..PARTS {
        is_done &= add(store, tapes, LANE, part);
    }
    is_done
}

// Whether the recording was made.
fn record_parts<D: Disk>(store: &mut Store<D>, tapes: &Tapes) -> bool
    requires { tapes_in store.old ≡ tapes.now }
{
    let is_begun = ask(store, Call::Begin(LANE));
    let is_added = add_parts(store, tapes);
    let is_ended = ask(store, Call::End(LANE));
    is_begun && is_added && is_ended
}

// How long the recording took.
fn time_store<R: Clock, D: Disk>(
    rt: &R,
    store: &mut Store<D>,
    tapes: &Tapes,
) -> io::Result<Duration>
    requires { tapes_in store.old ≡ tapes.now }
{
    let start = Instant::now(rt)?;
    let is_done = record_parts(store, tapes);
    let took = start.elapsed(rt)?;
    if !is_done {
        return Err(io::Error::from(ErrorKind::InvalidData));
    }
    Ok(took)
}

// The same bytes, written at the same places, and one sync.
fn write_parts<D: Disk>(disk: &mut D, part: &[u8]) -> io::Result<()> {
    let data = 64 + 2 * u64::from(AREA);
    for k in 0..PARTS {
        bare::write(disk, data + u64::from(k) * u64::from(PART), part)?;
    }
    bare::sync(disk)
}

// How long that took.
fn time_bare<R: Clock, D: Disk>(rt: &R, disk: &mut D, part: &[u8]) -> io::Result<Duration> {
    let start = Instant::now(rt)?;
    write_parts(disk, part)?;
    start.elapsed(rt)
}

fn compare<R: Print + Clock>(
    rt: &R,
    alloc: Global,
    disk: FileDisk,
    tapes: &Arc<Tapes, Global>,
    other: &mut FileDisk,
) -> io::Result<()> {
    let Ok(shared) = Arc::try_clone(tapes) else {
        return Err(io::Error::from(AllocError));
    };
    let part = bytes_of(alloc, 0x80, PART)?;
    // Both then write over pages that the system has.
    write_parts(other, &part)?;
    let Some(mut store) = open_store(alloc, disk, shared) else {
        return Err(io::Error::from(ErrorKind::InvalidData));
    };
    let took = time_store(rt, &mut store, tapes);
    let_go(store);
    let bare = time_bare(rt, other, &part)?;
    ratio(
        rt,
        "a recording of 48 MiB in parts over a real file, to its writes and a sync",
        took?,
        bare,
    )
}

// One tape, of a part.
fn one_tape(alloc: Global) -> io::Result<Arc<Tapes, Global>> {
    let samples = bytes_of(alloc, 0x80, PART)?;
    let Ok(files) = Vec::from_array(alloc, [samples]) else {
        return Err(io::Error::from(AllocError));
    };
    match Arc::new(alloc, Tapes::new(files)) {
        Ok(tapes) => Ok(tapes),
        Err(_) => Err(io::Error::from(AllocError)),
    }
}

fn measure_in_file<R: Print + Clock + Files<File = File>>(rt: &R, alloc: Global) -> io::Result<()> {
    let shape = shape_of(BLOCK, BLOCKS, AREA)?;
    let tapes = one_tape(alloc)?;
    let mut other = open_file(rt, size_of(&shape))?;
    format(&mut other, &shape)?;
    let Ok(disk) = other.try_clone() else {
        return Err(io::Error::from(ErrorKind::Other));
    };
    compare(rt, alloc, disk, &tapes, &mut other)
}

/// Prints what a recording of 48 MiB in parts of 64 KiB over a real file costs beside the same bytes written bare, with one sync.
pub fn measure<R: Print + Clock + AllocGlobal + Files<File = File>>(rt: &R) -> io::Result<()> {
    let measured = measure_in_file(rt, rt.alloc());
    fs::remove_file(rt, FILE)?;
    measured
}
