//! Runs of scripts, the disks that they run over, and what a run leaves.

use crate::scripts::{F20, G20, Z8, Z32};
use disk_uses::steps::{Did, append, fits};
use std::alloc::Global;
use std::sync::{Arc, Wait};
use std::test::Fail;
use std::thread::Threads;
use voice_disk::MemDisk;
use voice_journal::Journal;
use voice_main::{Ended, run};
use voice_model::Tapes;
use voice_outside::{Disk, MemShelf, MemSink, OpenGate, Shelf, Sink};
use voice_units::{Graces, Name, Shape};

/// How many bytes a disk has.
pub const SIZE: u64 = 4096;

// The files of a run, besides the script.
const FILES: &[(&[u8], &[u8])] = &[
    (b"f20", F20),
    (b"g20", G20),
    (b"z0", b""),
    (b"z8", Z8),
    (b"z16", &[0x80; 16]),
    (b"z32", Z32),
];

/// The disk that a script runs over: just formatted, with a full journal, or with areas that drawn scripts fill now and then.
#[derive(Clone, Copy, Debug, PartialEq, Eq)]
pub enum Start {
    New,
    Full,
    Drawn,
}

/// The samples that scripts over such a disk record, in the order in which they name their files.
pub fn tapes(alloc: Global, start: Start) -> Result<Tapes, Fail> {
    let named: &[&[u8]] = match start {
        Start::New | Start::Full => &[F20, G20, Z32],
        Start::Drawn => &[F20, Z8, G20, b""],
    };
    let mut tapes = Vec::new(alloc);
    for samples in named {
        tapes.push(samples.to_vec(alloc)?)?;
    }
    Ok(Tapes::new(tapes))
}

/// No samples, for a store that records nothing.
pub fn no_tapes(alloc: Global) -> Result<Arc<Tapes, Global>, Fail> {
    match Arc::new(alloc, Tapes::new(Vec::new(alloc))) {
        Ok(tapes) => Ok(tapes),
        Err(_) => Err(Fail::new("no memory")),
    }
}

/// The shape of the disks: blocks of 8, 16 of them, areas of 512 or of 1,024, graces of 60, and 16 lanes.
pub fn shape(start: Start) -> Result<Shape, Fail> {
    let area = match start {
        Start::New | Start::Full => 512,
        Start::Drawn => 1024,
    };
    let graces = Graces {
        common: 60,
        held: 60,
        until: 60,
        listed: 60,
    };
    match Shape::new(2, 8, 16, area, graces, 16, SIZE) {
        Ok(shape) => Ok(shape),
        Err(_) => Err(Fail::new("no such shape")),
    }
}

// Such a disk that is formatted, whose listed calls fail; the first three are those of formatting.
fn formatted(alloc: Global, start: Start, fails: &[u64]) -> Result<MemDisk, Fail> {
    let mut disk = MemDisk::new(alloc, SIZE, fails.to_vec(alloc)?)?;
    let shape = shape(start)?;
    if !fits(&disk, &shape) {
        return Err(Fail::new("the disk is too small"));
    }
    Journal::format(&mut disk, &shape)?;
    Ok(disk)
}

// The change that advances to a moment.
fn advance(moment: u64) -> [u8; 9] {
    let [a, b, c, d, e, f, g, h] = moment.to_be_bytes();
    [7, a, b, c, d, e, f, g, h]
}

/// The moment that stands on a disk whose journal is full.
pub const FULL_MOMENT: u64 = 35;

// Fills the journal with advances to the moments from 1 on, so that the next change switches.
fn fill(alloc: Global, disk: &mut MemDisk) -> Result<(), Fail> {
    let mut opened = Journal::open(alloc, disk)?;
    for moment in 1..=FULL_MOMENT {
        let did = append(disk, &mut opened.journal, &advance(moment));
        if did != Did::Done {
            return Err(Fail::new("the journal is full before"));
        }
    }
    Ok(())
}

/// Such a disk, whose listed calls fail; the first three are those of formatting.
pub fn disk_at(alloc: Global, start: Start, fails: &[u64]) -> Result<MemDisk, Fail> {
    let mut disk = formatted(alloc, start, fails)?;
    if start == Start::Full {
        fill(alloc, &mut disk)?;
    }
    Ok(disk)
}

/// How a run ended, what it printed, and the shelf with the files that it wrote.
#[derive(Drop)]
pub struct Ran<D> {
    pub ended: Ended<D>,
    pub text: Vec<u8>,
    pub shelf: MemShelf,
}

/// Puts a file behind the others.
pub fn put_file(
    alloc: Global,
    files: &mut Vec<(Name, Vec<u8>)>,
    name: &[u8],
    bytes: &[u8],
) -> Result<(), Fail> {
    let name = Name::new(name)?;
    let bytes = bytes.to_vec(alloc)?;
    files.push((name, bytes))?;
    Ok(())
}

/// The shelf of a run: the script `s` and the sample files. The listed calls fail.
pub fn shelf_of(alloc: Global, script: &str, fails: &[u64]) -> Result<MemShelf, Fail> {
    let mut files = Vec::new(alloc);
    put_file(alloc, &mut files, b"s", script.as_bytes())?;
    for &(name, bytes) in FILES {
        put_file(alloc, &mut files, name, bytes)?;
    }
    Ok(MemShelf::new(alloc, files, fails.to_vec(alloc)?))
}

fn words(alloc: Global) -> Result<Vec<String>, Fail> {
    let mut words = Vec::new(alloc);
    for word in ["run", "s"] {
        words.push(String::from_str(alloc, word)?)?;
    }
    Ok(words)
}

/// A file of a shelf.
pub fn file_of(shelf: &mut MemShelf, name: &[u8]) -> Result<Option<Vec<u8>>, Fail> {
    match shelf.get(&Name::new(name)?) {
        Ok(found) => Ok(found),
        Err(_) => Err(Fail::new("the shelf failed")),
    }
}

/// Runs the script of a shelf over a sink and a disk.
pub fn run_with<R: Threads + Wait + Sync, O: Sink, D: Disk + Drop>(
    rt: &R,
    alloc: Global,
    shelf: &mut MemShelf,
    sink: &mut O,
    disk: D,
) -> Result<Ended<D>, Fail> {
    let words = words(alloc)?;
    Ok(run(rt, alloc, &words, shelf, sink, disk, &OpenGate))
}

/// Runs a script over a disk.
pub fn run_script<R: Threads + Wait + Sync, D: Disk + Drop>(
    rt: &R,
    alloc: Global,
    script: &str,
    disk: D,
) -> Result<Ran<D>, Fail> {
    let mut shelf = shelf_of(alloc, script, &[])?;
    let mut sink = MemSink::new(alloc, Vec::new(alloc));
    let ended = run_with(rt, alloc, &mut shelf, &mut sink, disk)?;
    let text = sink.bytes().to_vec(alloc)?;
    Ok(Ran { ended, text, shelf })
}
