//! The store's own calls: its room, its free blocks, its shape and its tables.

use crate::runs::{F20, small_disk};
use std::alloc::Global;
use std::process::Abort;
use std::sync::Arc;
use std::test::Fail;
use voice_disk::MemDisk;
use voice_model::{Call, Reply, Tapes};
use voice_outside::Disk;
use voice_store::Store;
use voice_units::RopeId;

fn one_tape(alloc: Global) -> Result<Arc<Tapes, Global>, Fail> {
    let mut files = Vec::new(alloc);
    files.push(F20.to_vec(alloc)?)?;
    match Arc::new(alloc, Tapes::new(files)) {
        Ok(tapes) => Ok(tapes),
        Err(_) => Err(Fail::new("no memory")),
    }
}

// The length of a rope, 0 where it is not told. There is room for the entry.
fn length<D: Disk>(store: &mut Store<D>, rope: RopeId) -> Result<u64, Fail> {
    store.reserve(2)?;
    match store.apply(1, Call::Length(rope))? {
        Reply::Number(n) => Ok(n),
        _ => Ok(0),
    }
}

// Asserts that there is no rope, and how many blocks are free and there, and how many lanes.
fn assert_empty(rt: &impl Abort, store: &mut Store<MemDisk>) -> Result<(), Fail> {
    let found = length(store, RopeId(1))?;
    assert_eq!(rt; found, 0);
    let sizes = (store.free(), store.shape().blocks, store.lanes());
    assert_eq!(rt; sizes, (16, 16, 4));
    assert_eq!(rt; store.parts().ropes.count(), 0);
    Ok(())
}

// Asserts how many entries a store hands back.
fn assert_closes(rt: &impl Abort, store: Store<MemDisk>, wanted: usize) {
    let (_disk, history) = store.close();
    assert_eq!(rt; history.len(), wanted);
}

#[test]
fn a_new_store_is_empty(rt: HostRuntime) -> Result<(), Fail> {
    let tapes = one_tape(rt.alloc())?;
    let disk = small_disk(rt.alloc(), 2, &[])?;
    match Store::open(rt.alloc(), disk, tapes) {
        Ok(mut store) => {
            let looked = assert_empty(&rt, &mut store);
            assert_closes(&rt, store, 1);
            looked
        }
        Err(_) => Err(Fail::new("the disk is refused")),
    }
}
