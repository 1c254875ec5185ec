//! Recordings over a disk in memory.

ghost use Rattle.std.specs.Prelude.{◌≡◌};
ghost use Rattle.std.specs.Arc.{arc_value};
ghost use Rattle.voice_store.specs.Shown.{tapes_in};

use crate::figures::print_middle;
use crate::stores::{format, let_go, open_store, record};
use bench_report::bare;
use bench_report::disks::{bytes_of, memory_disk, shape_of, size_of};
use bench_report::report::hundredths_of;
use std::alloc::{AllocError, Global};
use std::io::{self, ErrorKind};
use std::rt::Clock;
use std::sync::Arc;
use std::time::{Duration, Instant};
use voice_disk::MemDisk;
use voice_model::Tapes;
use voice_outside::Disk;
use voice_store::Store;
use voice_units::{Shape, Take};

const PIECES: u32 = 24;

const PIECE: u32 = 1 << 20;

const AREA: u32 = 1 << 20;

// It divides no piece, so that the last block of each is padded.
const BLOCK: u32 = 8184;

const BLOCKS_OF_A_PIECE: u32 = 129;

// What the record of a piece takes behind its gate: a length, the change with an address for each block, and the next gate.
const FRAME: u32 = 4 + 17 + 4 * BLOCKS_OF_A_PIECE + 1;

// A piece of the tape.
fn take_of(k: u32) -> Take {
    Take {
        tape: 0,
        from: k.wrapping_mul(PIECE),
        len: PIECE,
    }
}

// Puts bytes over the front of a room.
fn put_front(room: &mut [u8], bytes: &[u8]) {
    let n = room.len().min(bytes.len());
    room[..n].copy_from_slice(&bytes[..n]);
}

// Where the blocks of a piece begin.
fn blocks_at(k: u32) -> u64 {
    64 + 2 * u64::from(AREA) + u64::from(k) * u64::from(BLOCKS_OF_A_PIECE * BLOCK)
}

// The writes of a recording's blocks: the whole ones in one write, and the last one padded.
fn write_blocks<D: Disk>(disk: &mut D, at: u64, samples: &[u8], room: &mut [u8]) -> io::Result<()> {
    let whole = samples.len() - samples.len() % room.len().max(1);
    let (front, rest) = samples.split_at(whole);
    bare::write(disk, at, front)?;
    if rest.is_empty() {
        return Ok(());
    }
    put_front(room, rest);
    bare::write(disk, at.saturating_add(whole as u64), room)
}

// The calls of a recording: the writes of its blocks, and an append.
fn record_bare<D: Disk>(disk: &mut D, k: u32, samples: &[u8], room: &mut [u8]) -> io::Result<()> {
    write_blocks(disk, blocks_at(k), samples, room)?;
    bare::append(
        disk,
        80 + u64::from(k) * u64::from(FRAME),
        &[0; FRAME as usize],
    )
}

// How long a recording of the store took.
fn time_store<R: Clock, D: Disk>(
    rt: &R,
    store: &mut Store<D>,
    tapes: &Tapes,
    take: Take,
) -> io::Result<Duration>
    requires { tapes_in store.old ≡ tapes.now }
    ensures { tapes_in store.new ≡ tapes_in store.old }
{
    let start = Instant::now(rt)?;
    let is_done = record(store, tapes, take);
    let took = start.elapsed(rt)?;
    if !is_done {
        return Err(io::Error::from(ErrorKind::InvalidData));
    }
    Ok(took)
}

// How long the same calls took.
fn time_bare<R: Clock, D: Disk>(
    rt: &R,
    disk: &mut D,
    k: u32,
    samples: &[u8],
    room: &mut [u8],
) -> io::Result<Duration> {
    let start = Instant::now(rt)?;
    record_bare(disk, k, samples, room)?;
    start.elapsed(rt)
}

// The same of a piece of the tape.
fn time_bare_piece<R: Clock, D: Disk>(
    rt: &R,
    disk: &mut D,
    tapes: &Tapes,
    k: u32,
    room: &mut [u8],
) -> io::Result<Duration> {
    let take = take_of(k);
    if !tapes.has(take) {
        return Err(io::Error::from(ErrorKind::InvalidInput));
    }
    time_bare(rt, disk, k, tapes.samples(take), room)
}

// How many times as long the recording of a piece takes as the same calls of another disk, in hundredths.
fn compare_piece<R: Clock, D: Disk>(
    rt: &R,
    store: &mut Store<D>,
    disk: &mut MemDisk,
    tapes: &Tapes,
    k: u32,
    room: &mut [u8],
) -> io::Result<u128>
    requires { tapes_in store.old ≡ tapes.now }
    ensures { tapes_in store.new ≡ tapes_in store.old }
{
    let took = time_store(rt, store, tapes, take_of(k))?;
    let bare = time_bare_piece(rt, disk, tapes, k, room)?;
    Ok(hundredths_of(took, bare))
}

// The same of each piece of the tape.
fn compare_pieces<R: Clock, D: Disk>(
    rt: &R,
    store: &mut Store<D>,
    disk: &mut MemDisk,
    tapes: &Tapes,
    room: &mut [u8],
    figures: &mut [u128; PIECES as usize],
) -> io::Result<()>
    requires { tapes_in store.old ≡ tapes.now }
{
    for k in 0..PIECES {
        figures[k as usize] = compare_piece(rt, store, disk, tapes, k, room)?;
    }
    Ok(())
}

fn measure_store<R: Print + Clock, D: Disk>(
    rt: &R,
    alloc: Global,
    store: &mut Store<D>,
    disk: &mut MemDisk,
    tapes: &Tapes,
) -> io::Result<()>
    requires { tapes_in store.old ≡ tapes.now }
{
    let mut room = bytes_of(alloc, 0, BLOCK)?;
    let mut figures = [0u128; PIECES as usize];
    compare_pieces(rt, store, disk, tapes, &mut room, &mut figures)?;
    print_middle(
        rt,
        "recording 1 MiB in memory, to its calls of the disk",
        &mut figures,
    )
}

fn open_and_measure<R: Print + Clock>(
    rt: &R,
    alloc: Global,
    disk: MemDisk,
    other: &mut MemDisk,
    shared: Arc<Tapes, Global>,
    tapes: &Tapes,
) -> io::Result<()>
    requires { arc_value shared ≡ tapes.now }
{
    let Some(mut store) = open_store(alloc, disk, shared) else {
        return Err(io::Error::from(ErrorKind::InvalidData));
    };
    let measured = measure_store(rt, alloc, &mut store, other, tapes);
    let_go(store);
    measured
}

fn formatted(alloc: Global, shape: &Shape) -> io::Result<MemDisk> {
    let mut disk = memory_disk(alloc, size_of(shape))?;
    format(&mut disk, shape)?;
    Ok(disk)
}

// One tape, of all pieces.
fn one_tape(alloc: Global) -> io::Result<Arc<Tapes, Global>> {
    let samples = bytes_of(alloc, 0x80, PIECES * PIECE)?;
    let Ok(files) = Vec::from_array(alloc, [samples]) else {
        return Err(io::Error::from(AllocError));
    };
    match Arc::new(alloc, Tapes::new(files)) {
        Ok(tapes) => Ok(tapes),
        Err(_) => Err(io::Error::from(AllocError)),
    }
}

fn measure_tapes<R: Print + Clock>(
    rt: &R,
    alloc: Global,
    tapes: &Arc<Tapes, Global>,
) -> io::Result<()> {
    let shape = shape_of(BLOCK, PIECES * BLOCKS_OF_A_PIECE, AREA)?;
    let mut other = memory_disk(alloc, size_of(&shape))?;
    let disk = formatted(alloc, &shape)?;
    let Ok(shared) = Arc::try_clone(tapes) else {
        return Err(io::Error::from(AllocError));
    };
    open_and_measure(rt, alloc, disk, &mut other, shared, tapes)
}

/// Prints what recording a piece of 1 MiB in memory costs beside the same calls of a disk made bare, the middle of some pieces.
pub fn measure<R: Print + Clock + AllocGlobal>(rt: &R) -> io::Result<()> {
    let tapes = one_tape(rt.alloc())?;
    measure_tapes(rt, rt.alloc(), &tapes)
}
