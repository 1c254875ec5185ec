//! The calls of a script, made of the store alone.

use crate::scripts::CALLS;
use std::alloc::{AllocError, Global};
use std::io::{self, ErrorKind};
use std::rt::Clock;
use std::time::{Duration, Instant};
use store_measures::images::disk_with;
use store_measures::stores::{is_live, let_go, no_tapes, open_store};
use voice_outside::Disk;
use voice_store::Store;
use voice_units::RopeId;

// Whether rope 1 is there at each call.
fn ask_all<D: Disk>(store: &mut Store<D>) -> bool {
    let mut is_whole = true;
    for _ in 0..CALLS {
        is_whole &= is_live(store, RopeId(1));
    }
    is_whole
}

fn time_calls<R: Clock, D: Disk>(rt: &R, store: &mut Store<D>) -> io::Result<Duration> {
    let start = Instant::now(rt)?;
    let is_whole = ask_all(store);
    let took = start.elapsed(rt)?;
    if !is_whole {
        return Err(io::Error::from(ErrorKind::InvalidData));
    }
    Ok(took)
}

/// How long all calls take a new store of a disk of these bytes, without a server.
pub fn time_alone<R: Clock>(rt: &R, alloc: Global, image: &[u8]) -> io::Result<Duration> {
    let tapes = no_tapes(alloc)?;
    let disk = disk_with(alloc, image)?;
    let Some(mut store) = open_store(alloc, disk, tapes) else {
        return Err(io::Error::from(AllocError));
    };
    let took = time_calls(rt, &mut store);
    let_go(store);
    took
}
