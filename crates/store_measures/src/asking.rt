//! Calls on rows, on the moment and of sweeps, as the number of rows grows, and edits, as that of ropes grows.

ghost use Rattle.std.specs.Prelude.{◌≡◌, IfSome, true};
ghost use Rattle.voice_model.specs.Spelling.{is_key};

use crate::images::{Contents, LATER, disk_with, image};
use crate::stores::{ask, cut, let_go, no_tapes, open_store};
use bench_report::disks::shape_of;
use bench_report::report::middle;
use std::alloc::Global;
use std::io::{self, ErrorKind};
use std::rt::Clock;
use std::sync::Arc;
use std::time::Instant;
use voice_disk::MemDisk;
use voice_model::{Call, Class, Key, KeyList, Note, Tapes};
use voice_outside::Disk;
use voice_store::Store;
use voice_units::{Moment, RopeId};

// How many calls of a kind are timed, one by one. The middle one counts.
const CALLS: u32 = 25;

// The area of the journal, in which the records of all calls fit behind one another: no switch is timed.
const AREA: u32 = 4 << 20;

// An edit has so many blocks, of so many samples each.
const BLOCKS: u32 = 1_000;

const BLOCK: u32 = 8;

// What is asked.
#[derive(Clone, Copy)]
enum Kind {
    Edit,
    Retain,
    ForgetLast,
    ForgetFirst,
    Lookup,
    Census,
    Advance,
    Sweep,
}

// A key that spells a number.
fn key_of(number: u32) -> Option<Key>
    ensures { IfSome result (λ key. is_key key ≡ true) }
{
    Key::new(&number.to_be_bytes()).ok()
}

// A row for rope 1, of class Until where there is a note, else of class Listed.
fn retain<D: Disk>(store: &mut Store<D>, class: Class, number: u32, note: &[u8]) -> bool {
    let (Some(key), Ok(note)) = (key_of(number), Note::new(note)) else {
        return false;
    };
    ask(store, Call::Retain(class, key, RopeId(1), note))
}

fn forget<D: Disk>(store: &mut Store<D>, number: u32) -> bool {
    let Some(key) = key_of(number) else {
        return false;
    };
    ask(store, Call::Forget(Class::Until, key))
}

fn look_up<D: Disk>(store: &mut Store<D>, number: u32) -> bool {
    let Some(key) = key_of(number) else {
        return false;
    };
    ask(store, Call::Lookup(Class::Until, key))
}

// A census of a key that no row has.
fn count_keys<D: Disk>(alloc: Global, store: &mut Store<D>) -> bool {
    let Some(key) = key_of(u32::MAX) else {
        return false;
    };
    let Ok(keys) = Vec::from_array(alloc, [key]) else {
        return false;
    };
    ask(store, Call::Census(KeyList::of(keys)))
}

fn advance<D: Disk>(store: &mut Store<D>, number: u32) -> bool {
    ask(store, Call::Advance(Moment(u64::from(number) + 1)))
}

fn sweep<D: Disk>(store: &mut Store<D>) -> bool {
    ask(store, Call::Sweep(100))
}

// The call of this number of a kind, where there were so many rows at first. An edit leaves out the first and the last sample of rope 1.
fn ask_kind<D: Disk>(
    alloc: Global,
    store: &mut Store<D>,
    rows: u32,
    kind: Kind,
    number: u32,
) -> bool {
    match kind {
        Kind::Edit => cut(store, RopeId(1), 1, BLOCK * BLOCKS - 2),
        Kind::Retain => retain(
            store,
            Class::Until,
            rows.saturating_add(number),
            &LATER.to_be_bytes(),
        ),
        Kind::ForgetLast => forget(store, rows.saturating_add(CALLS - 1 - number % CALLS)),
        Kind::ForgetFirst => forget(store, number),
        Kind::Lookup => look_up(store, (rows / 2).saturating_add(number)),
        Kind::Census => count_keys(alloc, store),
        Kind::Advance => advance(store, number),
        Kind::Sweep => sweep(store),
    }
}

// Makes the row that goes by a census.
fn prepare<D: Disk>(store: &mut Store<D>, kind: Kind, number: u32) -> bool {
    match kind {
        Kind::Census => retain(store, Class::Listed, number, &[]),
        _ => true,
    }
}

// The nanoseconds that a call of a kind takes.
fn time_call<R: Clock, D: Disk>(
    rt: &R,
    alloc: Global,
    store: &mut Store<D>,
    rows: u32,
    kind: Kind,
    number: u32,
) -> io::Result<u128> {
    let start = Instant::now(rt)?;
    let is_done = ask_kind(alloc, store, rows, kind, number);
    let took = start.elapsed(rt)?;
    if !is_done {
        return Err(io::Error::from(ErrorKind::InvalidData));
    }
    Ok(took.as_nanos())
}

// The same of the middle one of some calls.
fn time_kind<R: Clock, D: Disk>(
    rt: &R,
    alloc: Global,
    store: &mut Store<D>,
    rows: u32,
    kind: Kind,
) -> io::Result<u128> {
    let mut figures = [0u128; CALLS as usize];
    for number in 0..CALLS {
        if !prepare(store, kind, number) {
            return Err(io::Error::from(ErrorKind::InvalidData));
        }
        figures[number as usize] = time_call(rt, alloc, store, rows, kind, number)?;
    }
    Ok(middle(&mut figures))
}

// Prints the figures of the calls that make and end rows and look them up.
fn measure_rows<R: Print + Clock, D: Disk>(
    rt: &R,
    alloc: Global,
    store: &mut Store<D>,
    rows: u32,
) -> io::Result<()> {
    let retain = time_kind(rt, alloc, store, rows, Kind::Retain)?;
    let last = time_kind(rt, alloc, store, rows, Kind::ForgetLast)?;
    let first = time_kind(rt, alloc, store, rows, Kind::ForgetFirst)?;
    let lookup = time_kind(rt, alloc, store, rows, Kind::Lookup)?;
    println!(rt;
        "{rows} rows: retain {retain} ns, forget of the last row {last} ns, of the first {first} ns, lookup {lookup} ns"
    )
}

// Prints the figures of the other calls.
fn measure_moments<R: Print + Clock, D: Disk>(
    rt: &R,
    alloc: Global,
    store: &mut Store<D>,
    rows: u32,
) -> io::Result<()> {
    let census = time_kind(rt, alloc, store, rows, Kind::Census)?;
    let advance = time_kind(rt, alloc, store, rows, Kind::Advance)?;
    let sweep = time_kind(rt, alloc, store, rows, Kind::Sweep)?;
    println!(rt;
        "{rows} rows: a census of one key by which one row goes {census} ns, advance {advance} ns, an empty sweep {sweep} ns"
    )
}

fn measure_store<R: Print + Clock, D: Disk>(
    rt: &R,
    alloc: Global,
    store: &mut Store<D>,
    rows: u32,
) -> io::Result<()> {
    measure_rows(rt, alloc, store, rows)?;
    measure_moments(rt, alloc, store, rows)
}

fn measure_disk<R: Print + Clock>(
    rt: &R,
    alloc: Global,
    disk: MemDisk,
    tapes: Arc<Tapes, Global>,
    rows: u32,
) -> io::Result<()> {
    let Some(mut store) = open_store(alloc, disk, tapes) else {
        return Err(io::Error::from(ErrorKind::InvalidData));
    };
    let measured = measure_store(rt, alloc, &mut store, rows);
    let_go(store);
    measured
}

// A disk with so many rows.
fn disk_of(alloc: Global, rows: u32) -> io::Result<MemDisk> {
    let shape = shape_of(4096, 16, AREA)?;
    let contents = Contents {
        blocks: 1,
        ropes: 0,
        rows,
    };
    let image = image(alloc, &shape, contents)?;
    disk_with(alloc, &image)
}

// A disk with so many ropes, the first of so many blocks as an edit has.
fn disk_of_ropes(alloc: Global, ropes: u32) -> io::Result<MemDisk> {
    let shape = shape_of(BLOCK, BLOCKS, AREA)?;
    let contents = Contents {
        blocks: BLOCKS,
        ropes,
        rows: 0,
    };
    let image = image(alloc, &shape, contents)?;
    disk_with(alloc, &image)
}

fn measure_edits<R: Print + Clock>(
    rt: &R,
    alloc: Global,
    disk: MemDisk,
    tapes: Arc<Tapes, Global>,
    ropes: u32,
) -> io::Result<()> {
    let Some(mut store) = open_store(alloc, disk, tapes) else {
        return Err(io::Error::from(ErrorKind::InvalidData));
    };
    let timed = time_kind(rt, alloc, &mut store, ropes, Kind::Edit);
    let_go(store);
    let edit = timed?;
    println!(rt; "{ropes} ropes: an edit of {BLOCKS} blocks {edit} ns")
}

fn measure_at<R: Print + Clock>(rt: &R, alloc: Global, count: u32) -> io::Result<()> {
    let tapes = no_tapes(alloc)?;
    let disk = disk_of(alloc, count)?;
    measure_disk(rt, alloc, disk, tapes, count)?;
    let tapes = no_tapes(alloc)?;
    let disk = disk_of_ropes(alloc, count)?;
    measure_edits(rt, alloc, disk, tapes, count)
}

/// Prints what a call of each kind costs over a disk in memory, by the number of rows, which are of class Until and do not expire, and an edit by the number of ropes.
pub fn measure<R: Print + Clock + AllocGlobal>(rt: &R) -> io::Result<()> {
    measure_at(rt, rt.alloc(), 100)?;
    measure_at(rt, rt.alloc(), 1_000)?;
    measure_at(rt, rt.alloc(), 10_000)?;
    measure_at(rt, rt.alloc(), 100_000)
}
