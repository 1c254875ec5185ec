//! Disks in memory of several shapes, and the records that are put on them.

ghost use Rattle.std.specs.Prelude.{◌≤◌, ◌↔◌, IsTrue};
ghost use Rattle.voice_journal.specs.Readings.{extent};

use std::alloc::Global;
use std::test::Fail;
use voice_disk::MemDisk;
use voice_journal::{Journal, Opened};
use voice_mirror::{Mirror, OpenError};
use voice_outside::Disk;
use voice_units::{Graces, Shape};

/// Block, blocks and area of a disk.
pub type Sizes = (u32, u32, u32);

/// With these a few recordings need more than an area as a base, and less as records.
pub const NARROW: Sizes = (8, 16, 512);

/// More than any of the shapes takes.
const DISK: u64 = 16384;

fn shape_of(version: u32, (block, blocks, area): Sizes, size: u64) -> Option<Shape> {
    let graces = Graces {
        common: 60,
        held: 60,
        until: 60,
        listed: 60,
    };
    Shape::new(version, block, blocks, area, graces, 4, size).ok()
}

// Whether a disk has room for a shape.
fn fits<D: Disk>(disk: &D, shape: &Shape) -> bool
    ensures { IsTrue result ↔ (extent shape.now ≤ (D.told disk.now).size) }
{
    let blocks = u64::from(shape.block) * u64::from(shape.blocks);
    64 + 2 * u64::from(shape.area) + blocks <= disk.size()
}

/// A disk that was just formatted in a version, whose listed calls fail; formatting makes the calls 1 to 3.
pub fn formatted(
    alloc: Global,
    version: u32,
    sizes: Sizes,
    fails: &[u64],
) -> Result<MemDisk, Fail> {
    let mut disk = MemDisk::new(alloc, DISK, fails.to_vec(alloc)?)?;
    let Some(shape) = shape_of(version, sizes, disk.size()) else {
        return Err(Fail::from("no shape"));
    };
    if !fits(&disk, &shape) || Journal::format(&mut disk, &shape).is_err() {
        return Err(Fail::from("no disk"));
    }
    Ok(disk)
}

/// The same in version 2: the disk of a mirror that has nothing yet.
pub fn disk_of(alloc: Global, sizes: Sizes, fails: &[u64]) -> Result<MemDisk, Fail> {
    formatted(alloc, 2, sizes, fails)
}

// Appends a payload.
fn append(disk: &mut MemDisk, journal: &mut Journal, payload: &[u8]) -> bool {
    if journal.in_doubt() || !fits(disk, &journal.shape()) {
        return false;
    }
    let left = journal.left();
    if left < 5 || payload.len() as u64 > left - 5 {
        return false;
    }
    journal.append(disk, payload).is_ok()
}

/// Puts payloads on a disk, in this order, by 5 calls and 4 for each of them.
pub fn put(alloc: Global, disk: &mut MemDisk, payloads: &[Vec<u8>]) -> Result<(), Fail> {
    let Ok(Opened { mut journal, .. }) = Journal::open(alloc, disk) else {
        return Err(Fail::from("no journal"));
    };
    for payload in payloads {
        if !append(disk, &mut journal, payload) {
            return Err(Fail::from("no record"));
        }
    }
    Ok(())
}

/// The position of the mirror of a disk, or why it doesn't open.
pub fn position(alloc: Global, disk: MemDisk) -> Result<u64, OpenError> {
    match Mirror::open(alloc, disk) {
        Ok(mirror) => {
            let position = mirror.position();
            let _disk = mirror.close();
            Ok(position)
        }
        Err((e, _disk)) => Err(e),
    }
}
