//! Runs of scripts over a disk, with the sample files that the tests name.

use disk_uses::steps::{Did, append, format};
use std::alloc::Global;
use std::process::Abort;
use std::sync::Wait;
use std::test::Fail;
use std::thread::Threads;
use voice_disk::MemDisk;
use voice_journal::Journal;
use voice_main::{Ended, Status, run};
use voice_outside::{Disk, Gate, MemShelf, MemSink, OpenGate};
use voice_units::Name;

/// The samples of the file `f20`.
pub const F20: &[u8; 20] = b"ABCDEFGHIJKLMNOPQRST";

// The files of a run.
type Files = Vec<(Name, Vec<u8>)>;

// The letters from A to T, and so many bytes 0x80.
const FILES: &[(&[u8], &[u8])] = &[
    (b"f20", F20),
    (b"z128", &[0x80; 128]),
    (b"z0", b""),
    (b"z1", b"\x80"),
    (b"z8", &[0x80; 8]),
];

// Puts a file behind the others.
fn put_file(alloc: Global, files: &mut Files, name: &[u8], bytes: &[u8]) -> Result<(), Fail> {
    let name = Name::new(name)?;
    let bytes = bytes.to_vec(alloc)?;
    files.push((name, bytes))?;
    Ok(())
}

// The script `s` and these files.
fn files_with(alloc: Global, script: &[u8]) -> Result<Files, Fail> {
    let mut files = Vec::new(alloc);
    put_file(alloc, &mut files, b"s", script)?;
    for &(name, bytes) in FILES {
        put_file(alloc, &mut files, name, bytes)?;
    }
    Ok(files)
}

fn words_of(alloc: Global, asked: &[&str]) -> Result<Vec<String>, Fail> {
    let mut words = Vec::new(alloc);
    for word in asked {
        words.push(String::from_str(alloc, word)?)?;
    }
    Ok(words)
}

/// Runs a script over a disk, and gives how it ended and what was printed. Its files are `f20`, the letters from A to T, and `z0`, `z1`, `z8` and `z128` of so many bytes 0x80.
pub fn run_script<R: Threads + Wait + Sync, D: Disk + Drop>(
    rt: &R,
    alloc: Global,
    script: &[u8],
    disk: D,
) -> Result<(Ended<D>, Vec<u8>), Fail> {
    run_words(rt, alloc, &["run", "s"], script, disk)
}

/// Runs these words over a script and a disk.
pub fn run_words<R: Threads + Wait + Sync, D: Disk + Drop>(
    rt: &R,
    alloc: Global,
    asked: &[&str],
    script: &[u8],
    disk: D,
) -> Result<(Ended<D>, Vec<u8>), Fail> {
    run_gated(rt, alloc, asked, script, disk, &OpenGate)
}

/// Runs these words over a script and a disk, with a gate that may hold callers back.
pub fn run_gated<R: Threads + Wait + Sync, D: Disk + Drop, G: Gate>(
    rt: &R,
    alloc: Global,
    asked: &[&str],
    script: &[u8],
    disk: D,
    gate: &G,
) -> Result<(Ended<D>, Vec<u8>), Fail> {
    let words = words_of(alloc, asked)?;
    let files = files_with(alloc, script)?;
    let mut shelf = MemShelf::new(alloc, files, Vec::new(alloc));
    let mut sink = MemSink::new(alloc, Vec::new(alloc));
    let ended = run(rt, alloc, &words, &mut shelf, &mut sink, disk, gate);
    let text = sink.bytes().to_vec(alloc)?;
    Ok((ended, text))
}

/// Runs these words over a script and a disk, which have to be done.
pub fn done<R: Threads + Wait + Sync + Abort>(
    rt: &R,
    alloc: Global,
    asked: &[&str],
    script: &[u8],
    disk: MemDisk,
) -> Result<(Ended<MemDisk>, Vec<u8>), Fail> {
    let (ended, text) = run_words(rt, alloc, asked, script, disk)?;
    assert_eq!(rt; ended.status, Status::Done);
    Ok((ended, text))
}

/// Runs a script that is done and prints just this, and gives the disk then.
pub fn printed<R: Threads + Wait + Sync + Abort>(
    rt: &R,
    alloc: Global,
    script: &[u8],
    disk: MemDisk,
    wanted: &[u8],
) -> Result<MemDisk, Fail> {
    let (ended, text) = done(rt, alloc, &["run", "s"], script, disk)?;
    assert_eq!(rt; text.as_slice(), wanted);
    Ok(ended.disk)
}

/// Asserts that a script is done and prints just this.
pub fn assert_prints<R: Threads + Wait + Sync + Abort>(
    rt: &R,
    alloc: Global,
    script: &[u8],
    disk: MemDisk,
    wanted: &[u8],
) -> Result<(), Fail> {
    let _disk = printed(rt, alloc, script, disk, wanted)?;
    Ok(())
}

/// Runs a script that is done and whose text ends so, and gives the disk then.
pub fn ended_so<R: Threads + Wait + Sync + Abort>(
    rt: &R,
    alloc: Global,
    script: &[u8],
    disk: MemDisk,
    (end, row): (&[u8], u64),
) -> Result<MemDisk, Fail> {
    let (ended, text) = done(rt, alloc, &["run", "s"], script, disk)?;
    assert!(rt; text.as_slice().ends_with(end), "row {row}");
    Ok(ended.disk)
}

/// A disk of 4,096 bytes that is formatted small, in that version; the listed calls fail, of which the first three are those of formatting.
pub fn small_disk(alloc: Global, version: u32, fails: &[u64]) -> Result<MemDisk, Fail> {
    let mut disk = MemDisk::new(alloc, 4096, fails.to_vec(alloc)?)?;
    let _did = format(&mut disk, version);
    Ok(disk)
}

// The change that advances to a moment.
fn advance(moment: u64) -> [u8; 9] {
    let [a, b, c, d, e, f, g, h] = moment.to_be_bytes();
    [7, a, b, c, d, e, f, g, h]
}

/// Appends advances to the moments behind this one, as long as they fit, and gives the last moment and the epoch.
pub fn fill_journal(alloc: Global, disk: &mut MemDisk, from: u64) -> Result<(u64, u64), Fail> {
    let mut opened = Journal::open(alloc, disk)?;
    for moment in from..from.saturating_add(2000) {
        let did = append(disk, &mut opened.journal, &advance(moment));
        if did != Did::Done {
            return Ok((moment, opened.journal.epoch()));
        }
    }
    Ok((from, 0))
}
