//! What measured disks hold: changes that are appended to a new journal, without a store.

ghost use Rattle.std.specs.Prelude.{◌≤◌, IsTrue};
ghost use Rattle.voice_journal.specs.Readings.{extent};

use bench_report::bare;
use bench_report::disks::{memory_disk, size_of};
use std::alloc::{AllocError, Global};
use std::io::{self, ErrorKind};
use voice_disk::MemDisk;
use voice_journal::Journal;
use voice_outside::Disk;
use voice_units::Shape;

/// A moment that no measurement reaches: no row of class Until expires before it.
pub const LATER: u64 = 1 << 39;

/// What a measured disk holds: rope 1, which is a recording that fills so many blocks, so many ropes of eight samples of it, with the numbers from 2 on, and so many rows of class Until for it, whose keys spell the numbers from 0 on in four bytes. Ropes and rows come by turns.
#[derive(Clone, Copy)]
pub struct Contents {
    pub blocks: u32,
    pub ropes: u32,
    pub rows: u32,
}

// The change that makes rope 1, a recording that fills the first blocks of these sizes.
fn recording_change(alloc: Global, block: u32, blocks: u32) -> Result<Vec<u8>, AllocError> {
    let mut change = Vec::new(alloc);
    change.extend_from_slice(&[11, 0, 0, 0, 0, 0, 0, 0, 1])?;
    change.extend_from_slice(&block.saturating_mul(blocks).to_be_bytes())?;
    change.extend_from_slice(&blocks.to_be_bytes())?;
    for address in 0..blocks {
        change.extend_from_slice(&address.to_be_bytes())?;
    }
    Ok(change)
}

// The change that makes a rope: eight samples of rope 1, from a place on.
fn rope_change(id: u32, from: u32) -> [u8; 27] {
    let [i, j, k, l] = id.to_be_bytes();
    let [p, q, r, s] = from.to_be_bytes();
    [
        2, 0, 0, 0, 0, i, j, k, l, 0, 1, 0, 0, 0, 0, 0, 0, 0, 1, p, q, r, s, 0, 0, 0, 8,
    ]
}

// The change that makes a row of class Until for rope 1, whose key spells a number.
fn row_change(number: u32) -> [u8; 24] {
    let [i, j, k, l] = number.to_be_bytes();
    let [m, n, o, p, q, r, s, t] = LATER.to_be_bytes();
    [
        3, 2, 4, i, j, k, l, 0, 0, 0, 0, 0, 0, 0, 1, 8, m, n, o, p, q, r, s, t,
    ]
}

fn fits(shape: &Shape, size: u64) -> bool
    ensures { IsTrue result → extent shape.now ≤ size }
{
    size_of(shape) <= size
}

/// Appends a record, where it fits; false where it was not appended.
pub fn append<D: Disk>(disk: &mut D, journal: &mut Journal, payload: &[u8]) -> bool {
    if journal.in_doubt() || !fits(&journal.shape(), disk.size()) {
        return false;
    }
    let left = journal.left();
    if left < 5 || payload.len() as u64 > left - 5 {
        return false;
    }
    journal.append(disk, payload).is_ok()
}

fn append_rope<D: Disk>(disk: &mut D, journal: &mut Journal, number: u32) -> bool {
    append(
        disk,
        journal,
        &rope_change(number.saturating_add(2), number % 1000),
    )
}

fn append_row<D: Disk>(disk: &mut D, journal: &mut Journal, number: u32) -> bool {
    append(disk, journal, &row_change(number))
}

// Whether the rope and the row of a number were appended, where there are so many.
fn append_both<D: Disk>(
    disk: &mut D,
    journal: &mut Journal,
    contents: Contents,
    number: u32,
) -> bool {
    let rope = number >= contents.ropes || append_rope(disk, journal, number);
    let row = number >= contents.rows || append_row(disk, journal, number);
    rope && row
}

// Whether all contents were appended.
fn append_all<D: Disk>(
    alloc: Global,
    disk: &mut D,
    journal: &mut Journal,
    contents: Contents,
) -> bool {
    let block = journal.shape().block;
    let Ok(recording) = recording_change(alloc, block, contents.blocks) else {
        return false;
    };
    let mut is_whole = append(disk, journal, &recording);
    for number in 0..contents.ropes.max(contents.rows) {
        is_whole &= append_both(disk, journal, contents, number);
    }
    is_whole
}

// Appends all contents to the journal of a disk that was just formatted.
fn fill_formatted<D: Disk>(alloc: Global, disk: &mut D, contents: Contents) -> bool {
    match Journal::open(alloc, disk) {
        Ok(mut opened) => append_all(alloc, disk, &mut opened.journal, contents),
        Err(_) => false,
    }
}

/// Formats a disk for a shape, and appends the contents to its journal; false where they don't fit, or a call of the disk fails.
pub fn fill<D: Disk>(alloc: Global, disk: &mut D, shape: &Shape, contents: Contents) -> bool {
    if !fits(shape, disk.size()) {
        return false;
    }
    Journal::format(disk, shape).is_ok() && fill_formatted(alloc, disk, contents)
}

// The bytes of a disk.
fn bytes_on<D: Disk>(alloc: Global, disk: &mut D) -> io::Result<Vec<u8>> {
    let mut bytes = vec![in alloc; 0u8; disk.size() as usize]?;
    bare::read(disk, 0, &mut bytes)?;
    Ok(bytes)
}

// The bytes of a disk once it is filled.
fn bytes_filled<D: Disk>(
    alloc: Global,
    disk: &mut D,
    shape: &Shape,
    contents: Contents,
) -> io::Result<Vec<u8>> {
    if !fill(alloc, disk, shape, contents) {
        return Err(io::Error::from(ErrorKind::InvalidData));
    }
    bytes_on(alloc, disk)
}

/// The bytes of a disk of this shape with these contents.
pub fn image(alloc: Global, shape: &Shape, contents: Contents) -> io::Result<Vec<u8>> {
    let mut disk = memory_disk(alloc, size_of(shape))?;
    bytes_filled(alloc, &mut disk, shape, contents)
}

/// A disk in memory of these bytes, with no call that fails.
pub fn disk_with(alloc: Global, image: &[u8]) -> io::Result<MemDisk> {
    let bytes = image.to_vec(alloc)?;
    match MemDisk::of(alloc, bytes, Vec::new(alloc)) {
        Ok(disk) => Ok(disk),
        Err(_) => Err(io::Error::from(AllocError)),
    }
}
