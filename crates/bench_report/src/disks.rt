//! Disks of measurements, and their shapes.

ghost use Rattle.std.specs.Prelude.{◌≡◌};
ghost use Rattle.voice_journal.specs.Readings.{extent};

use std::alloc::{AllocError, Global};
use std::fs::File;
use std::io::{self, ErrorKind};
use std::rt::Files;
use voice_disk::{FileDisk, MemDisk};
use voice_units::{Graces, Name, Shape};

// More bytes than any disk of these measurements has.
const LARGE: u64 = 1 << 40;

/// The file that the measurements over a real file use.
pub const FILE: &str = "voice_bench.disk";

/// A disk of so many bytes in that file.
pub fn open_file<R: Files<File = File>>(rt: &R, size: u64) -> io::Result<FileDisk> {
    let Ok(name) = Name::new(FILE.as_bytes()) else {
        return Err(io::Error::from(AllocError));
    };
    match FileDisk::open_or_make(rt, &name, size) {
        Ok(disk) => Ok(disk),
        Err(_) => Err(io::Error::from(AllocError)),
    }
}

/// A shape of version 2 with blocks and areas of these sizes.
pub fn shape_of(block: u32, blocks: u32, area: u32) -> io::Result<Shape> {
    let graces = Graces {
        common: 60,
        held: 60,
        until: 60,
        listed: 60,
    };
    match Shape::new(2, block, blocks, area, graces, 8, LARGE) {
        Ok(shape) => Ok(shape),
        Err(_) => Err(io::Error::from(ErrorKind::InvalidInput)),
    }
}

/// The bytes that a disk of this shape takes.
pub fn size_of(shape: &Shape) -> u64
    ensures { result ≡ extent shape.now }
{
    let blocks = u64::from(shape.block) * u64::from(shape.blocks);
    64 + 2 * u64::from(shape.area) + blocks
}

/// So many bytes of one value.
pub fn bytes_of(alloc: Global, byte: u8, count: u32) -> Result<Vec<u8>, AllocError> {
    vec![in alloc; byte; count as usize]
}

/// A disk in memory of so many zero bytes, with no call that fails.
pub fn memory_disk(alloc: Global, size: u64) -> io::Result<MemDisk> {
    match MemDisk::new(alloc, size, Vec::new(alloc)) {
        Ok(disk) => Ok(disk),
        Err(_) => Err(io::Error::from(AllocError)),
    }
}
