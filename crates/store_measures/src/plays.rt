//! Plays of a rope of many pieces over a disk in memory, heard window by window.

ghost use Rattle.std.specs.Prelude.{◌≡◌, true, IfOk};
ghost use Rattle.std.specs.Arc.{arc_value};
ghost use Rattle.lane_calls.specs.Answers.{IsHandedOut};
ghost use Rattle.voice_store.specs.Shown.{pool_of, tapes_in};

use crate::feeds::measure_feeds;
use crate::stores::{ask, cut, format, let_go, open_store, record};
use bench_report::bare;
use bench_report::disks::{bytes_of, memory_disk, shape_of, size_of};
use bench_report::report::ratio;
use frame_pool::Lease;
use lane_calls::Fed;
use std::alloc::{AllocError, Global};
use std::fs;
use std::io::{self, ErrorKind};
use std::rt::{Clock, Files};
use std::sync::Arc;
use std::time::{Duration, Instant};
use voice_disk::MemDisk;
use voice_model::{Call, RopeList, Tapes};
use voice_outside::Disk;
use voice_store::Store;
use voice_units::{Lane, NoMemory, Piece, RopeId, Shape, Take};

pub(crate) const BLOCK: u32 = 4096;

const BLOCKS: u32 = 15_000;

// The area of the journal, in which the records of all calls fit behind one another.
const AREA: u32 = 4 << 20;

// Where the blocks begin.
const FIRST_BLOCK: u64 = 64 + 2 * (4 << 20);

// The recording that all pieces are of, which is rope 1.
const RECORDED: u32 = 48 << 20;

const RECORDING: Take = Take {
    tape: 0,
    from: 0,
    len: RECORDED,
};

// How many pieces the played rope has, and how long they are.
pub(crate) const PIECES: u32 = 4096;

const SHORTEST: u32 = 1 << 10;

const LONGEST: u32 = 11 << 10;

// No piece lies in more blocks.
const BLOCKS_OF_A_PIECE: u32 = 4;

// How many ropes are put together by a call.
const JOINED: u32 = 16;

// The numbers of the ropes: one for each piece, then those of 16 pieces, those of 256, and the played one.
const FIRST_PIECE: u32 = 2;

const FIRST_SHORT: u32 = FIRST_PIECE + PIECES;

const FIRST_LONG: u32 = FIRST_SHORT + PIECES / 16;

const PLAYED: u32 = FIRST_LONG + PIECES / 256;

// How many samples a run hears, in so many jobs at most.
const HEARD: u32 = 48 << 20;

const JOBS: u32 = 8;

pub(crate) const RUNS: usize = 7;

// The file that what was heard, or read, is written to.
const WRITTEN: &str = "voice_bench.heard";

// What is heard: the stretches of the played rope, those of all samples of a run, and the length of the rope.
#[derive(Drop)]
pub(crate) struct Sheet {
    pub(crate) passage: Vec<Piece>,
    heard: Vec<Piece>,
    pub(crate) length: u32,
}

impl Sheet {
    // How many windows the played rope has.
    pub(crate) fn windows(&self) -> u32 {
        (self.passage.len() / 4).min(1 << 20) as u32 + 1
    }
}

pub(crate) fn no_memory() -> io::Error {
    io::Error::from(AllocError)
}

pub(crate) fn refused() -> io::Error {
    io::Error::from(ErrorKind::InvalidData)
}

// The next of a row of numbers that look like random ones.
fn next_number(number: u64) -> u64 {
    number
        .wrapping_mul(6_364_136_223_846_793_005)
        .wrapping_add(1_442_695_040_888_963_407)
}

// A piece of the recording, by such a number.
fn piece_by(number: u64) -> Piece {
    let from = (number >> 32) % u64::from(RECORDED - LONGEST);
    let more = (number >> 8) % u64::from(LONGEST - SHORTEST + 1);
    Piece {
        file: RopeId(1),
        from: from as u32,
        len: SHORTEST + more as u32,
    }
}

// The pieces of the played rope, the same in each run.
fn pieces(alloc: Global) -> Result<Vec<Piece>, NoMemory> {
    let mut pieces = Vec::with_capacity(alloc, PIECES as usize)?;
    let mut number = 1u64;
    for _ in 0..PIECES {
        number = next_number(number);
        pieces.push(piece_by(number))?;
    }
    Ok(pieces)
}

// Puts the stretches of a piece behind others: what of it lies in a block each.
fn put_stretches(stretches: &mut Vec<Piece>, piece: Piece) -> Result<(), NoMemory> {
    let end = piece.from.saturating_add(piece.len);
    let mut from = piece.from;
    for _ in 0..BLOCKS_OF_A_PIECE {
        if from >= end {
            return Ok(());
        }
        let len = (BLOCK - from % BLOCK).min(end - from);
        stretches.push(Piece {
            file: piece.file,
            from,
            len,
        })?;
        from += len;
    }
    Ok(())
}

fn stretches_of(alloc: Global, pieces: &[Piece]) -> Result<Vec<Piece>, NoMemory> {
    let mut stretches = Vec::new(alloc);
    for piece in pieces {
        put_stretches(&mut stretches, *piece)?;
    }
    Ok(stretches)
}

// Puts stretches behind others until so many samples are left, and says how many then are.
fn put_heard(heard: &mut Vec<Piece>, passage: &[Piece], left: u32) -> Result<u32, NoMemory> {
    let mut left = left;
    for stretch in passage {
        let len = stretch.len.min(left);
        if len == 0 {
            return Ok(left);
        }
        heard.push(Piece {
            file: stretch.file,
            from: stretch.from,
            len,
        })?;
        left -= len;
    }
    Ok(left)
}

// The stretches of all samples that a run hears.
fn heard_of(alloc: Global, passage: &[Piece]) -> Result<Vec<Piece>, NoMemory> {
    let mut heard = Vec::new(alloc);
    let mut left = HEARD;
    for _ in 0..JOBS {
        left = put_heard(&mut heard, passage, left)?;
    }
    Ok(heard)
}

fn length_of(pieces: &[Piece]) -> u32 {
    let mut length = 0u32;
    for piece in pieces {
        length = length.saturating_add(piece.len);
    }
    length
}

fn sheet_of(alloc: Global, pieces: &[Piece]) -> Result<Sheet, NoMemory> {
    let passage = stretches_of(alloc, pieces)?;
    let heard = heard_of(alloc, &passage)?;
    Ok(Sheet {
        passage,
        heard,
        length: length_of(pieces),
    })
}

// Makes a rope of each piece.
fn cut_all<D: Disk>(store: &mut Store<D>, pieces: &[Piece]) -> bool {
    let mut is_whole = true;
    for piece in pieces {
        is_whole &= cut(store, piece.file, piece.from, piece.len);
    }
    is_whole
}

// Makes a rope of others, one after another.
fn join<D: Disk>(store: &mut Store<D>, ropes: RopeList) -> bool {
    let count = ropes.items().len();
    if count < 1 {
        return false;
    }
    if count > 16 {
        return false;
    }
    ask(store, Call::Concat(ropes))
}

// The ropes of 16 numbers.
fn ropes_from(alloc: Global, first: u32) -> Result<RopeList, NoMemory> {
    let mut ropes = Vec::with_capacity(alloc, JOINED as usize)?;
    for k in 0..JOINED {
        ropes.push(RopeId(u64::from(first) + u64::from(k)))?;
    }
    Ok(RopeList::of(ropes))
}

// Makes so many ropes, each of the next 16 from a number on.
fn join_all<D: Disk>(
    alloc: Global,
    store: &mut Store<D>,
    first: u32,
    count: u32,
) -> Result<bool, NoMemory> {
    let mut is_whole = true;
    for k in 0..count {
        let ropes = ropes_from(alloc, first.saturating_add(k.saturating_mul(JOINED)))?;
        is_whole &= join(store, ropes);
    }
    Ok(is_whole)
}

// Makes the played rope of the ropes of its pieces.
fn join_pieces<D: Disk>(alloc: Global, store: &mut Store<D>) -> Result<bool, NoMemory> {
    let short = join_all(alloc, store, FIRST_PIECE, PIECES / 16)?;
    let long = join_all(alloc, store, FIRST_SHORT, PIECES / 256)?;
    let played = join_all(alloc, store, FIRST_LONG, 1)?;
    Ok(short && long && played)
}

// Makes the recording and all ropes.
fn make_ropes<D: Disk>(
    alloc: Global,
    store: &mut Store<D>,
    tapes: &Tapes,
    pieces: &[Piece],
) -> io::Result<()>
    requires { tapes_in store.old ≡ tapes.now }
{
    let recorded = record(store, tapes, RECORDING);
    let cut = cut_all(store, pieces);
    let Ok(joined) = join_pieces(alloc, store) else {
        return Err(no_memory());
    };
    if recorded && cut && joined {
        return Ok(());
    }
    Err(refused())
}

// Copies a window to its place among the played samples, as far as there is room.
fn copy_window(lease: &mut Lease, at: u32, played: &mut [u8])
    requires { lease.old.live ≡ true }
    ensures { lease.new ≡ lease.old }
{
    let from = (at as usize).min(played.len());
    let _all = lease.copy(0, &mut played[from..]);
}

// Copies a window, and brings it back once at most so many of its samples are heard.
fn hear_lease<D: Disk>(
    store: &mut Store<D>,
    at: u32,
    lease: Lease,
    most: u32,
    played: &mut [u8],
) -> Result<Fed, NoMemory>
    requires pool { lease.pool ≡ pool_of store.old }
    requires lane { lease.lane ≡ 0 }
    requires live { lease.live ≡ true }
    ensures pool { pool_of store.new ≡ pool_of store.old }
    ensures out { IfOk result (IsHandedOut (pool_of store.new) 0) }
{
    let mut lease = lease;
    copy_window(&mut lease, at, played);
    let heard = most.min(lease.len());
    store.serve(1, &mut lease, heard)
}

// The same of what was fed; nothing where that is no window.
fn hear_window<D: Disk>(
    store: &mut Store<D>,
    fed: Fed,
    most: u32,
    played: &mut [u8],
) -> Result<Fed, NoMemory>
    requires out { IsHandedOut (pool_of store.old) 0 fed }
    ensures pool { pool_of store.new ≡ pool_of store.old }
    ensures out { IfOk result (IsHandedOut (pool_of store.new) 0) }
{
    match fed {
        Fed::Window(at, lease) => hear_lease(store, at, lease, most, played),
        other => Ok(other),
    }
}

// The same of so many windows, and what was fed last.
pub(crate) fn hear<D: Disk>(
    store: &mut Store<D>,
    fed: Fed,
    windows: u32,
    most: u32,
    played: &mut [u8],
) -> Result<Fed, NoMemory>
    requires out { IsHandedOut (pool_of store.old) 0 fed }
    ensures out { IfOk result (IsHandedOut (pool_of store.new) 0) }
{
    let mut fed = fed;
    for _ in 0..windows {
        fed = hear_window(store, fed, most, played)?;
    }
    Ok(fed)
}

// A job of the first samples of the played rope, and its first window.
pub(crate) fn begin<D: Disk>(store: &mut Store<D>, len: u32) -> Result<Fed, NoMemory>
    ensures out { IfOk result (IsHandedOut (pool_of store.new) 0) }
{
    if !ask(store, Call::Play(Lane(0), RopeId(PLAYED as u64), 0, len)) {
        return Ok(Fed::Fault);
    }
    store.feed(1, Lane(0))
}

// Plays the first samples of the rope, and says whether all were heard.
fn play_job<D: Disk>(
    store: &mut Store<D>,
    len: u32,
    windows: u32,
    played: &mut [u8],
) -> Result<bool, NoMemory> {
    let first = begin(store, len)?;
    let last = hear(store, first, windows, u32::MAX, played)?;
    Ok(matches!(last, Fed::Ended(_, _)))
}

// Plays the rope again and again until so many samples as a run hears were heard.
fn play_all<D: Disk>(
    store: &mut Store<D>,
    sheet: &Sheet,
    played: &mut [u8],
) -> Result<bool, NoMemory> {
    let windows = sheet.windows();
    let mut is_whole = true;
    for job in 0..JOBS {
        let from = sheet.length.saturating_mul(job);
        if from >= HEARD {
            return Ok(is_whole);
        }
        let len = sheet.length.min(HEARD - from);
        let place = (from as usize).min(played.len());
        is_whole &= play_job(store, len, windows, &mut played[place..])?;
    }
    Ok(is_whole)
}

// How long that takes.
fn time_plays<R: Clock, D: Disk>(
    rt: &R,
    store: &mut Store<D>,
    sheet: &Sheet,
    played: &mut [u8],
) -> io::Result<Duration> {
    let start = Instant::now(rt)?;
    let whole = play_all(store, sheet, played);
    let took = start.elapsed(rt)?;
    match whole {
        Ok(true) => Ok(took),
        Ok(false) => Err(refused()),
        Err(_) => Err(no_memory()),
    }
}

// Puts samples of a block, from a place of it on, over the front of others.
fn put_front(others: &mut [u8], block: &[u8], from: usize, len: usize) {
    let from = from.min(block.len());
    let n = len.min(block.len() - from).min(others.len());
    others[..n].copy_from_slice(&block[from..from + n]);
}

// Reads the block of a stretch, and copies the stretch out of it.
fn read_stretch<D: Disk>(
    disk: &mut D,
    stretch: Piece,
    room: &mut [u8],
    copied: &mut [u8],
) -> io::Result<()> {
    let block = u64::from(stretch.from / BLOCK);
    bare::read(disk, FIRST_BLOCK + block * u64::from(BLOCK), room)?;
    let from = stretch.from % BLOCK;
    put_front(copied, room, from as usize, stretch.len as usize);
    Ok(())
}

// The same of all stretches, which are put one behind another.
pub(crate) fn read_all<D: Disk>(
    disk: &mut D,
    stretches: &[Piece],
    room: &mut [u8],
    copied: &mut [u8],
) -> io::Result<()> {
    let mut at = 0usize;
    for stretch in stretches {
        let place = at.min(copied.len());
        read_stretch(disk, *stretch, room, &mut copied[place..])?;
        at = at.saturating_add(stretch.len as usize);
    }
    Ok(())
}

// How long that takes.
fn time_reads<R: Clock, D: Disk>(
    rt: &R,
    disk: &mut D,
    sheet: &Sheet,
    room: &mut [u8],
    copied: &mut [u8],
) -> io::Result<Duration> {
    let start = Instant::now(rt)?;
    read_all(disk, &sheet.heard, room, copied)?;
    start.elapsed(rt)
}

// The shortest times of some runs.
#[derive(Clone, Copy)]
struct Times {
    in_memory: Duration,
    to_a_file: Duration,
}

impl Times {
    fn longest() -> Times {
        Times {
            in_memory: Duration::MAX,
            to_a_file: Duration::MAX,
        }
    }

    // One more run took so long, and writing out what it gave.
    fn and(self, took: Duration, written: Duration) -> Times {
        Times {
            in_memory: self.in_memory.min(took),
            to_a_file: self.to_a_file.min(took.saturating_add(written)),
        }
    }
}

// How long it takes to write samples out.
fn time_write<R: Clock + Files>(rt: &R, samples: &[u8]) -> io::Result<Duration> {
    let start = Instant::now(rt)?;
    fs::write(rt, WRITTEN, samples)?;
    start.elapsed(rt)
}

// The times of the plays, and those of the reads, by turns.
fn time_both<R: Clock + Files, D: Disk>(
    rt: &R,
    alloc: Global,
    store: &mut Store<D>,
    disk: &mut MemDisk,
    sheet: &Sheet,
) -> io::Result<(Times, Times)> {
    let mut played = bytes_of(alloc, 1, HEARD)?;
    let mut copied = bytes_of(alloc, 2, HEARD)?;
    let mut room = bytes_of(alloc, 0, BLOCK)?;
    let mut plays = Times::longest();
    let mut reads = Times::longest();
    for _ in 0..RUNS {
        let took = time_plays(rt, store, sheet, &mut played)?;
        plays = plays.and(took, time_write(rt, &played)?);
        let took = time_reads(rt, disk, sheet, &mut room, &mut copied)?;
        reads = reads.and(took, time_write(rt, &copied)?);
    }
    fs::remove_file(rt, WRITTEN)?;
    if played != copied {
        return Err(refused());
    }
    Ok((plays, reads))
}

fn measure_plays<R: Print + Clock + Files, D: Disk>(
    rt: &R,
    alloc: Global,
    store: &mut Store<D>,
    disk: &mut MemDisk,
    sheet: &Sheet,
) -> io::Result<()> {
    let (plays, reads) = time_both(rt, alloc, store, disk, sheet)?;
    ratio(
        rt,
        "48 MiB of plays of a rope of 4,096 pieces, to plain reads of their blocks",
        plays.in_memory,
        reads.in_memory,
    )?;
    ratio(
        rt,
        "the same to a file, to the reads written out",
        plays.to_a_file,
        reads.to_a_file,
    )?;
    measure_feeds(rt, store, disk, sheet)
}

fn measure_store<R: Print + Clock + Files, D: Disk>(
    rt: &R,
    alloc: Global,
    store: &mut Store<D>,
    disk: &mut MemDisk,
    tapes: &Tapes,
) -> io::Result<()>
    requires { tapes_in store.old ≡ tapes.now }
{
    let Ok(pieces) = pieces(alloc) else {
        return Err(no_memory());
    };
    let Ok(sheet) = sheet_of(alloc, &pieces) else {
        return Err(no_memory());
    };
    make_ropes(alloc, store, tapes, &pieces)?;
    measure_plays(rt, alloc, store, disk, &sheet)
}

fn open_and_measure<R: Print + Clock + Files>(
    rt: &R,
    alloc: Global,
    disk: MemDisk,
    other: &mut MemDisk,
    shared: Arc<Tapes, Global>,
    tapes: &Tapes,
) -> io::Result<()>
    requires { arc_value shared ≡ tapes.now }
{
    let Some(mut store) = open_store(alloc, disk, shared) else {
        return Err(refused());
    };
    let measured = measure_store(rt, alloc, &mut store, other, tapes);
    let_go(store);
    measured
}

fn formatted(alloc: Global, shape: &Shape) -> io::Result<MemDisk> {
    let mut disk = memory_disk(alloc, size_of(shape))?;
    format(&mut disk, shape)?;
    Ok(disk)
}

// A disk that has the recording in its first blocks, and nothing else.
fn with_blocks(alloc: Global, shape: &Shape, tapes: &Tapes) -> io::Result<MemDisk> {
    if !tapes.has(RECORDING) {
        return Err(io::Error::from(ErrorKind::InvalidInput));
    }
    let mut disk = memory_disk(alloc, size_of(shape))?;
    bare::write(&mut disk, FIRST_BLOCK, tapes.samples(RECORDING))?;
    Ok(disk)
}

// One tape, of the recording.
fn one_tape(alloc: Global) -> io::Result<Arc<Tapes, Global>> {
    let mut samples = bytes_of(alloc, 0, RECORDED)?;
    for (k, sample) in samples.iter_mut().enumerate() {
        *sample = (k % 251) as u8;
    }
    let Ok(files) = Vec::from_array(alloc, [samples]) else {
        return Err(no_memory());
    };
    match Arc::new(alloc, Tapes::new(files)) {
        Ok(tapes) => Ok(tapes),
        Err(_) => Err(no_memory()),
    }
}

fn measure_tapes<R: Print + Clock + Files>(
    rt: &R,
    alloc: Global,
    tapes: &Arc<Tapes, Global>,
) -> io::Result<()> {
    let shape = shape_of(BLOCK, BLOCKS, AREA)?;
    let mut other = with_blocks(alloc, &shape, tapes)?;
    let disk = formatted(alloc, &shape)?;
    let Ok(shared) = Arc::try_clone(tapes) else {
        return Err(no_memory());
    };
    open_and_measure(rt, alloc, disk, &mut other, shared, tapes)
}

/// Prints what plays of 48 MiB cost beside plain reads of the blocks that their windows touch, once for each stretch, with a copy of its samples, both in memory and written to a file of this folder; and what a Feed costs by its place in a passage of 4,096 pieces, beside the reads of its blocks alone.
pub fn measure<R: Print + Clock + AllocGlobal + Files>(rt: &R) -> io::Result<()> {
    let tapes = one_tape(rt.alloc())?;
    measure_tapes(rt, rt.alloc(), &tapes)
}
