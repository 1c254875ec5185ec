//! A new disk, and the store over it.

ghost use Rattle.std.specs.Prelude.{◌≡◌, [], IfSome};
ghost use Rattle.std.specs.Arc.{arc_value};
ghost use Rattle.voice_store.specs.Shown.{history_of, tapes_in};
ghost use Rattle.voice_server.specs.Kept.{IsKept};

use std::alloc::Global;
use std::sync::Arc;
use voice_disk::MemDisk;
use voice_model::Tapes;
use voice_outside::Disk;
use voice_store::Store;
use voice_units::{Graces, Shape};

// 16 blocks of 8 samples, two areas of 512 bytes for the journal, and 64 bytes in front: 1,216 bytes.
const SIZE: u64 = 1216;

// The shape of a disk of that size, of 4 lanes, on which a rope that nobody keeps stays for a minute.
fn shape() -> Option<Shape> {
    let graces = Graces {
        common: 60,
        held: 60,
        until: 60,
        listed: 60,
    };
    Shape::new(2, 8, 16, 512, graces, 4, SIZE).ok()
}

/// A disk in memory, formatted; none where there is no memory for it.
pub fn new_disk(alloc: Global) -> Option<MemDisk> {
    let mut disk = MemDisk::new(alloc, SIZE, Vec::new(alloc)).ok()?;
    let shape = shape()?;
    // `format` has a condition, that the disk has room for the shape. A test meets it.
    let blocks = u64::from(shape.block) * u64::from(shape.blocks);
    if disk.size() < 64 + 2 * u64::from(shape.area) + blocks {
        return None;
    }
    Store::format(&mut disk, &shape).ok()?;
    Some(disk)
}

/// The store of a disk, whose callers record from these tapes; none where the disk has damage, a call of it fails, or there is no memory.
pub fn open<D: Disk + Drop>(alloc: Global, disk: D, tapes: Arc<Tapes, Global>) -> Option<Store<D>>
    ensures kept { IfSome result (λ store. IsKept D.told store) }
    ensures tapes { IfSome result (λ store. tapes_in store ≡ arc_value tapes) }
    ensures new { IfSome result (λ store. history_of store ≡ []) }
{
    match Store::open(alloc, disk, tapes) {
        Ok(store) => Some(store),
        Err((_why, _disk)) => None,
    }
}
