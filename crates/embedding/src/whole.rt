//! All of it, from a new disk to the history.

use crate::hearing::hear;
use crate::opening::{new_disk, open};
use crate::sharing::record_both;
use crate::telephone::play_back;
use std::alloc::Global;
use std::sync::{Arc, Wait};
use std::thread::Threads;
use voice_model::{Call, Entry, Reply, Tapes};
use voice_units::{Lane, Take};

/// What two callers did on a new disk; none where there was no memory for the disk or the store.
pub fn exchange<R: Threads + Wait + Sync>(
    rt: &R,
    alloc: Global,
    tapes: &Arc<Tapes, Global>,
) -> Option<Vec<Entry>> {
    let disk = new_disk(alloc)?;
    let Ok(shared) = Arc::try_clone(tapes) else {
        return None;
    };
    let store = open(alloc, disk, shared)?;
    let store = record_both(rt, alloc, store, tapes);
    let (_disk, history) = store.close();
    Some(history)
}

/// What is heard of the first tape's first samples, which are recorded on a new disk and played; none where they aren't there, or there was no memory or no room.
pub fn echo(alloc: Global, tapes: &Arc<Tapes, Global>, len: u32) -> Option<Vec<u8>> {
    let take = Take {
        tape: 0,
        from: 0,
        len,
    };
    if !tapes.has(take) {
        return None;
    }
    let disk = new_disk(alloc)?;
    let Ok(shared) = Arc::try_clone(tapes) else {
        return None;
    };
    let mut store = open(alloc, disk, shared)?;
    let reply = store.apply(1, Call::Record(take)).ok()?;
    let Reply::Rope(rope, _) = reply else {
        return None;
    };
    let _job = store.apply(1, Call::Play(Lane(0), rope, 0, len));
    let heard = hear(alloc, &mut store, 1, Lane(0));
    let (_disk, _history) = store.close();
    heard.ok()
}

/// What a telephone hears of the first 64 samples of the first tape, through a server of a new disk; none where there was no memory for the disk or the store.
pub fn call_up<R: Wait>(rt: &R, alloc: Global, tapes: &Arc<Tapes, Global>) -> Option<Vec<u8>> {
    let disk = new_disk(alloc)?;
    let Ok(shared) = Arc::try_clone(tapes) else {
        return None;
    };
    let store = open(alloc, disk, shared)?;
    let mut heard = Vec::new(alloc);
    let store = play_back(rt, alloc, store, tapes, &mut heard);
    let (_disk, _history) = store.close();
    Some(heard)
}
