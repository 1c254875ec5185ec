//! Two lanes that play the same blocks.

use crate::runs::{Start, disk_at};
use frame_pool::Lease;
use lane_calls::Fed;
use std::alloc::Global;
use std::process::Abort;
use std::sync::Arc;
use std::test::Fail;
use voice_disk::MemDisk;
use voice_model::{Call, Reply, Tapes};
use voice_store::Store;
use voice_units::{Lane, RopeId, Take};

// Who makes all calls.
const CALLER: u16 = 1;

// What is recorded: four blocks.
const SIGNS: &[u8; 32] = b"ABCDEFGHIJKLMNOPQRSTUVWXYZabcdef";

fn signs(alloc: Global) -> Result<Tapes, Fail> {
    let mut tapes = Vec::new(alloc);
    tapes.push(SIGNS.to_vec(alloc)?)?;
    Ok(Tapes::new(tapes))
}

// The samples of a window.
fn copied(alloc: Global, lease: &mut Lease) -> Result<Vec<u8>, Fail> {
    if !lease.live() {
        return Err(Fail::new("the window is over"));
    }
    let mut samples = vec![in alloc; 0u8; lease.len() as usize]?;
    let _all = lease.copy(0, &mut samples);
    Ok(samples)
}

// The number of device calls that were made as the last call was answered.
fn last_of(store: &Store<MemDisk>) -> u64 {
    match store.history() {
        [.., last] => last.ack,
        _ => 0,
    }
}

// Asserts that a lane's next window begins the passage and has all its samples, and how many device calls bring it.
fn assert_window(
    rt: &impl Abort,
    alloc: Global,
    store: &mut Store<MemDisk>,
    lane: Lane,
    calls: u64,
) -> Result<(), Fail> {
    let before = last_of(store);
    let Fed::Window(at, mut lease) = store.feed(CALLER, lane)? else {
        return Err(Fail::new("no window"));
    };
    assert_eq!(rt; (at, lease.len()), (0, 32));
    assert_eq!(rt; last_of(store).saturating_sub(before), calls);
    let samples = copied(alloc, &mut lease)?;
    assert!(rt; samples.as_slice() == SIGNS.as_slice());
    Ok(())
}

// Queues the rope on a lane.
fn queue(store: &mut Store<MemDisk>, lane: Lane) -> Result<(), Fail> {
    match store.apply(CALLER, Call::Play(lane, RopeId(1), 0, 32))? {
        Reply::Job(_) => Ok(()),
        _ => Err(Fail::new("no job")),
    }
}

// Asserts that the first lane's Feed reads the four blocks, and the second one's none.
fn assert_lanes(rt: &impl Abort, alloc: Global, store: &mut Store<MemDisk>) -> Result<(), Fail> {
    queue(store, Lane(0))?;
    queue(store, Lane(1))?;
    assert_window(rt, alloc, store, Lane(0), 4)?;
    assert_window(rt, alloc, store, Lane(1), 0)
}

// A store of a new disk with the recording.
fn recorded(alloc: Global) -> Result<Store<MemDisk>, Fail> {
    let Ok(tapes) = Arc::new(alloc, signs(alloc)?) else {
        return Err(Fail::new("no memory"));
    };
    let take = Take {
        tape: 0,
        from: 0,
        len: 32,
    };
    if !tapes.has(take) {
        return Err(Fail::new("no such samples"));
    }
    match Store::open(alloc, disk_at(alloc, Start::New, &[])?, tapes) {
        Ok(mut store) => {
            let _rope = store.apply(CALLER, Call::Record(take))?;
            Ok(store)
        }
        Err(_) => Err(Fail::new("the disk is refused")),
    }
}

#[test]
fn two_lanes_share_what_is_read(rt: HostRuntime) -> Result<(), Fail> {
    let mut store = recorded(rt.alloc())?;
    let heard = assert_lanes(&rt, rt.alloc(), &mut store);
    let _handed_back = store.close();
    heard
}
