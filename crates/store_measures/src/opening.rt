//! The opening of a store of many ropes.

use crate::figures::print_middle;
use crate::images::{Contents, disk_with, image};
use crate::stores::{let_go, no_tapes, open_store};
use bench_report::disks::shape_of;
use bench_report::report::hundredths_of;
use change_codec::get;
use std::alloc::Global;
use std::io::{self, ErrorKind};
use std::rt::Clock;
use std::sync::Arc;
use std::time::{Duration, Instant};
use voice_disk::MemDisk;
use voice_model::Tapes;
use voice_outside::Disk;
use voice_store::Store;

// Each of them is a change of the journal.
const ROPES: u32 = 20_000;

// All changes fit into an area.
const AREA: u32 = 1 << 20;

// Where the first record stands: behind the superblock and the head of the first area.
const FIRST: usize = 64 + 16;

const RUNS: usize = 11;

// The time since a start, where the store has so many ropes.
fn elapsed<R: Clock, D: Disk>(
    rt: &R,
    start: io::Result<Instant>,
    store: &Store<D>,
    ropes: u32,
) -> io::Result<Duration> {
    let took = start?.elapsed(rt)?;
    if store.parts().ropes.count() != ropes as usize {
        return Err(io::Error::from(ErrorKind::InvalidData));
    }
    Ok(took)
}

// How long it takes to open the store of a disk.
fn time_disk<R: Clock>(
    rt: &R,
    alloc: Global,
    disk: MemDisk,
    tapes: Arc<Tapes, Global>,
    ropes: u32,
) -> io::Result<Duration> {
    let start = Instant::now(rt);
    let Some(store) = open_store(alloc, disk, tapes) else {
        return Err(io::Error::from(ErrorKind::InvalidData));
    };
    let took = elapsed(rt, start, &store, ropes);
    let_go(store);
    took
}

/// How long it takes to open the store of a disk of these bytes, which has so many ropes.
pub fn time_opening<R: Clock>(
    rt: &R,
    alloc: Global,
    image: &[u8],
    ropes: u32,
) -> io::Result<Duration> {
    let tapes = no_tapes(alloc)?;
    let disk = disk_with(alloc, image)?;
    time_disk(rt, alloc, disk, tapes, ropes)
}

// The payload of the first record, and the bytes behind it; none where its gate is closed.
fn first_record(bytes: &[u8]) -> Option<(&[u8], &[u8])> {
    if bytes.len() < 5 || bytes[0] != 1 {
        return None;
    }
    let length = u32::from_be_bytes([bytes[1], bytes[2], bytes[3], bytes[4]]) as usize;
    let rest = &bytes[5..];
    if length > rest.len() {
        return None;
    }
    Some(rest.split_at(length))
}

fn is_change(alloc: Global, payload: &[u8]) -> bool {
    get(alloc, payload).is_ok()
}

// How many changes the records spell, up to one more than there are.
fn count_changes(alloc: Global, records: &[u8]) -> u32 {
    let mut count = 0u32;
    let mut rest = records;
    for _ in 0..=ROPES {
        let Some((payload, behind)) = first_record(rest) else {
            return count;
        };
        if is_change(alloc, payload) {
            count = count.saturating_add(1);
        }
        rest = behind;
    }
    count
}

// How long it takes to parse the records of a disk of these bytes, none of which may be missing.
fn time_parsing<R: Clock>(rt: &R, alloc: Global, image: &[u8]) -> io::Result<Duration> {
    let records = &image[FIRST.min(image.len())..];
    let start = Instant::now(rt)?;
    let count = count_changes(alloc, records);
    let took = start.elapsed(rt)?;
    if count != ROPES {
        return Err(io::Error::from(ErrorKind::InvalidData));
    }
    Ok(took)
}

// How many times as long opening takes as parsing, in hundredths.
fn compare<R: Clock>(rt: &R, alloc: Global, image: &[u8]) -> io::Result<u128> {
    let bare = time_parsing(rt, alloc, image)?;
    let took = time_opening(rt, alloc, image, ROPES)?;
    Ok(hundredths_of(took, bare))
}

fn measure_image<R: Print + Clock>(rt: &R, alloc: Global, image: &[u8]) -> io::Result<()> {
    let mut figures = [0u128; RUNS];
    for figure in figures.iter_mut() {
        *figure = compare(rt, alloc, image)?;
    }
    print_middle(
        rt,
        "opening a store of 20,000 ropes, to parsing its records",
        &mut figures,
    )
}

/// Prints what opening a store of 20,000 ropes costs beside parsing its records, that is finding and decoding them, the middle of some runs.
pub fn measure<R: Print + Clock + AllocGlobal>(rt: &R) -> io::Result<()> {
    let shape = shape_of(4096, 16, AREA)?;
    let contents = Contents {
        blocks: 1,
        ropes: ROPES - 1,
        rows: 0,
    };
    let image = image(rt.alloc(), &shape, contents)?;
    measure_image(rt, rt.alloc(), &image)
}
