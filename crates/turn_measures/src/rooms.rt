//! The disk, the store and the server of a run.

ghost use Rattle.std.specs.Prelude.{◌≡◌, ◌<◌, ◌≤◌};
ghost use Rattle.voice_store.specs.Shown.{tapes_in};
ghost use Rattle.voice_server.specs.Kept.{IsKept};

use crate::acts::{PIECE, PIECES};
use crate::crowd::run_passes;
use crate::serving::open_kept;
use crate::session::Tally;
use bench_report::disks::{bytes_of, memory_disk, size_of};
use std::alloc::{AllocError, Global};
use std::io::{self, ErrorKind};
use std::rt::Clock;
use std::sync::{Arc, Wait};
use std::thread::Threads;
use store_measures::stores::{format, let_go};
use voice_disk::MemDisk;
use voice_model::Tapes;
use voice_outside::Disk;
use voice_server::Server;
use voice_store::Store;
use voice_units::{Graces, Shape};

const BLOCK: u32 = 4096;

// Room for the rope that is played, and for as many pieces again as the tape has.
const BLOCKS: u32 = 2 * (PIECES * PIECE / BLOCK);

const AREA: u32 = 1 << 20;

// A lane for each of 16 players.
const LANES: u32 = 16;

// More bytes than the disk has.
const LARGE: u64 = 1 << 32;

fn shape() -> io::Result<Shape> {
    let graces = Graces {
        common: 60,
        held: 60,
        until: 60,
        listed: 60,
    };
    match Shape::new(2, BLOCK, BLOCKS, AREA, graces, LANES, LARGE) {
        Ok(shape) => Ok(shape),
        Err(_) => Err(io::Error::from(ErrorKind::InvalidInput)),
    }
}

fn new_disk(alloc: Global) -> io::Result<MemDisk> {
    let shape = shape()?;
    let mut disk = memory_disk(alloc, size_of(&shape))?;
    format(&mut disk, &shape)?;
    Ok(disk)
}

// One tape, of all pieces.
fn one_tape(alloc: Global) -> io::Result<Arc<Tapes, Global>> {
    let mut samples = bytes_of(alloc, 0, PIECES * PIECE)?;
    for (k, sample) in samples.iter_mut().enumerate() {
        *sample = (k % 251) as u8;
    }
    let Ok(files) = Vec::from_array(alloc, [samples]) else {
        return Err(io::Error::from(AllocError));
    };
    match Arc::new(alloc, Tapes::new(files)) {
        Ok(tapes) => Ok(tapes),
        Err(_) => Err(io::Error::from(AllocError)),
    }
}

// What so many callers of a server of a store did.
fn run_store<R: Clock + Threads + Wait + Sync, D: Disk + Drop>(
    rt: &R,
    alloc: Global,
    store: Store<D>,
    tapes: &Tapes,
    callers: u16,
) -> io::Result<Tally>
    requires callers { (0 < callers) × (callers ≤ 16) }
    requires kept { IsKept D.told store }
    requires tapes { tapes_in store ≡ tapes.now }
{
    let (server, mut passes) = match Server::new(alloc, store, callers) {
        Ok(made) => made,
        Err((_none, store)) => {
            let_go(store);
            return Err(io::Error::from(AllocError));
        }
    };
    let tally = run_passes(rt, &server, passes.as_mut_slice(), tapes);
    let_go(server.close(passes, Vec::new(alloc)));
    tally
}

/// Has so many callers play for a while, each on a thread of its own, over a new disk in memory, and says what they did.
pub(crate) fn run_callers<R: Clock + Threads + Wait + Sync>(
    rt: &R,
    alloc: Global,
    callers: u16,
) -> io::Result<Tally>
    requires { (0 < callers) × (callers ≤ 16) }
{
    let tapes = one_tape(alloc)?;
    let disk = new_disk(alloc)?;
    let Ok(shared) = Arc::try_clone(&tapes) else {
        return Err(io::Error::from(AllocError));
    };
    let Some(store) = open_kept(alloc, disk, shared) else {
        return Err(io::Error::from(ErrorKind::InvalidData));
    };
    run_store(rt, alloc, store, &tapes, callers)
}
