//! Steps that the tests take. Each tests at run time what the call requires.

ghost use Rattle.std.specs.Prelude.{◌≤◌, ◌↔◌, IsTrue};
ghost use Rattle.voice_journal.specs.Readings.{extent};

use std::alloc::Global;
use voice_disk::{MemDisk, image_of};
use voice_journal::{Fault, Journal, OpenError, Opened, Payloads};
use voice_outside::Disk;
use voice_units::{Graces, NoMemory, Shape};

/// What a call answered, or that it was not made, since what it requires doesn't hold.
#[derive(Clone, Copy, Debug, PartialEq, Eq)]
pub enum Did {
    Done,
    Before,
    Doubt,
    Failed,
    Unfit,
}

/// The small shape: blocks of 8, 16 of them, areas of 512, graces of 60, 4 lanes.
pub fn small(version: u32, size: u64) -> Option<Shape> {
    let graces = Graces {
        common: 60,
        held: 60,
        until: 60,
        listed: 60,
    };
    Shape::new(version, 8, 16, 512, graces, 4, size).ok()
}

/// Whether a disk has room for a shape.
pub fn fits<D: Disk>(disk: &D, shape: &Shape) -> bool
    ensures { IsTrue result ↔ (extent shape.now ≤ (D.told disk.now).size) }
{
    let blocks = u64::from(shape.block) * u64::from(shape.blocks);
    64 + 2 * u64::from(shape.area) + blocks <= disk.size()
}

fn answer(done: Result<(), Fault>) -> Did {
    match done {
        Ok(()) => Did::Done,
        Err(Fault::Before) => Did::Before,
        Err(Fault::Doubt) => Did::Doubt,
    }
}

/// A disk of 4,096 bytes of one value, whose listed calls fail.
pub fn disk_of(alloc: Global, byte: u8, fails: &[u64]) -> Result<MemDisk, NoMemory> {
    let bytes = vec![in alloc; byte; 4096]?;
    let fails = fails.to_vec(alloc)?;
    MemDisk::of(alloc, bytes, fails)
}

/// Formats as the small shape.
pub fn format<D: Disk>(disk: &mut D, version: u32) -> Did {
    let Some(shape) = small(version, disk.size()) else {
        return Did::Unfit;
    };
    if !fits(disk, &shape) {
        return Did::Unfit;
    }
    match Journal::format(disk, &shape) {
        Ok(()) => Did::Done,
        Err(_) => Did::Failed,
    }
}

/// Appends a payload.
pub fn append<D: Disk>(disk: &mut D, journal: &mut Journal, payload: &[u8]) -> Did {
    if journal.in_doubt() || !fits(disk, &journal.shape()) {
        return Did::Unfit;
    }
    let left = journal.left();
    if left < 5 || payload.len() as u64 > left - 5 {
        return Did::Unfit;
    }
    answer(journal.append(disk, payload))
}

/// Lands what is in doubt.
pub fn land<D: Disk>(disk: &mut D, journal: &mut Journal) -> Did {
    if !journal.in_doubt() || !fits(disk, &journal.shape()) {
        return Did::Unfit;
    }
    match journal.land(disk) {
        Ok(()) => Did::Done,
        Err(_) => Did::Failed,
    }
}

/// Switches to the other area with these payloads.
pub fn switch<D: Disk>(disk: &mut D, journal: &mut Journal, payloads: &Payloads) -> Did {
    if journal.in_doubt() || !fits(disk, &journal.shape()) || journal.epoch() >= 1 << 48 {
        return Did::Unfit;
    }
    let area = u64::from(journal.shape().area);
    if area < 17 || payloads.size() > area - 17 {
        return Did::Unfit;
    }
    answer(journal.switch(disk, payloads))
}

/// Payloads of one byte each.
pub fn payloads_of(alloc: Global, bytes: &[u8]) -> Result<Payloads, NoMemory> {
    let mut payloads = Payloads::new(alloc);
    for byte in bytes {
        let one = [*byte].to_vec(alloc)?;
        if payloads.size() < 1 << 32 && one.len() == 1 {
            payloads.push(one)?;
        }
    }
    Ok(payloads)
}

/// Whether a disk opens with these payloads.
pub fn opens<D: Disk>(alloc: Global, disk: &mut D, wanted: &[&[u8]]) -> Result<bool, OpenError> {
    let opened = Journal::open(alloc, disk)?;
    Ok(has(&opened, wanted))
}

/// Whether these are the payloads that were read.
pub fn has(opened: &Opened, wanted: &[&[u8]]) -> bool {
    let found = &opened.payloads;
    if found.len() != wanted.len() {
        return false;
    }
    let mut index = 0u32;
    for bytes in wanted {
        if found.get(index) != Some(*bytes) {
            return false;
        }
        index = index.saturating_add(1);
    }
    true
}

/// The bytes of a disk.
pub fn bytes_of(alloc: Global, disk: &MemDisk) -> Result<Vec<u8>, NoMemory> {
    image_of(alloc, disk, disk.calls(), 1)
}

/// The bytes from one place to another, none where there is no such part.
pub fn part(bytes: &[u8], from: usize, to: usize) -> &[u8] {
    if from <= to && to <= bytes.len() {
        &bytes[from..to]
    } else {
        &[]
    }
}

/// Puts bytes over those that are there, where they fit.
pub fn change(bytes: &mut [u8], at: usize, from: &[u8]) -> bool {
    let len = bytes.len();
    if at > len || from.len() > len - at {
        return false;
    }
    let end = at + from.len();
    bytes[at..end].copy_from_slice(from);
    true
}
