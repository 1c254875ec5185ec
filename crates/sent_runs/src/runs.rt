//! Runs of words over disks and shelves in memory.

use disk_uses::steps::{Did, disk_of, format, part};
use std::alloc::Global;
use std::process::Abort;
use std::sync::Wait;
use std::test::Fail;
use std::thread::Threads;
use voice_disk::MemDisk;
use voice_main::{Status, run};
use voice_outside::{MemShelf, MemSink, OpenGate, Shelf};
use voice_units::Name;

/// 20 samples.
pub const F20: &[u8; 20] = b"ABCDEFGHIJKLMNOPQRST";

/// A script that gives three packets: a voice file of 20 samples, a row, and its end.
pub const ROWS: &[u8] = b"1 a = record f20\n1 retain held k a -\n1 forget held k\n";

/// Where the packets of `ROWS` begin and end.
pub const ONE: (usize, usize) = (0, 41);

pub const TWO: (usize, usize) = (41, 66);

pub const THREE: (usize, usize) = (66, 82);

/// A disk of the small shape and a version, whose listed calls fail; formatting makes the calls 1 to 3.
pub fn small_disk(alloc: Global, version: u32, fails: &[u64]) -> Result<MemDisk, Fail> {
    let mut disk = disk_of(alloc, 0x55, fails)?;
    match format(&mut disk, version) {
        Did::Done => Ok(disk),
        _ => Err(Fail::from("no disk")),
    }
}

/// A shelf of these files and `f20`, whose listed calls fail.
pub fn shelf_with(
    alloc: Global,
    files: &[(&[u8], &[u8])],
    fails: &[u64],
) -> Result<MemShelf, Fail> {
    let mut all = Vec::new(alloc);
    for &(name, bytes) in files {
        all.push((Name::new(name)?, bytes.to_vec(alloc)?))?;
    }
    all.push((Name::new(b"f20")?, F20.to_vec(alloc)?))?;
    Ok(MemShelf::new(alloc, all, fails.to_vec(alloc)?))
}

fn words_of(alloc: Global, asked: &[&str]) -> Result<Vec<String>, Fail> {
    let mut words = Vec::new(alloc);
    for word in asked {
        words.push(String::from_str(alloc, word)?)?;
    }
    Ok(words)
}

/// How a run ended, its text, and the disk then.
#[derive(Drop)]
pub struct Ran {
    pub status: Status,
    pub text: Vec<u8>,
    pub disk: MemDisk,
}

/// A run of these words over a shelf and a disk; the listed calls of the sink fail.
pub fn run_on<R: Threads + Wait + Sync>(
    rt: &R,
    alloc: Global,
    asked: &[&str],
    shelf: &mut MemShelf,
    sink_fails: &[u64],
    disk: MemDisk,
) -> Result<Ran, Fail> {
    let words = words_of(alloc, asked)?;
    let mut sink = MemSink::new(alloc, sink_fails.to_vec(alloc)?);
    let ended = run(rt, alloc, &words, shelf, &mut sink, disk, &OpenGate);
    Ok(Ran {
        status: ended.status,
        text: sink.bytes().to_vec(alloc)?,
        disk: ended.disk,
    })
}

/// A run of these words over files and a disk.
pub fn run_with<R: Threads + Wait + Sync>(
    rt: &R,
    alloc: Global,
    asked: &[&str],
    files: &[(&[u8], &[u8])],
    disk: MemDisk,
) -> Result<Ran, Fail> {
    let mut shelf = shelf_with(alloc, files, &[])?;
    run_on(rt, alloc, asked, &mut shelf, &[], disk)
}

/// Asserts that words are done and print just this, and gives the disk then.
pub fn printed<R: Threads + Wait + Sync + Abort>(
    rt: &R,
    alloc: Global,
    asked: &[&str],
    files: &[(&[u8], &[u8])],
    disk: MemDisk,
    wanted: &[u8],
) -> Result<MemDisk, Fail> {
    let ran = run_with(rt, alloc, asked, files, disk)?;
    assert_eq!(rt; ran.status, Status::Done);
    assert_eq!(rt; ran.text.as_slice(), wanted);
    Ok(ran.disk)
}

/// Asserts that words have this status and print nothing, and gives the disk then.
pub fn refused<R: Threads + Wait + Sync + Abort>(
    rt: &R,
    alloc: Global,
    asked: &[&str],
    files: &[(&[u8], &[u8])],
    disk: MemDisk,
    status: Status,
) -> Result<MemDisk, Fail> {
    let ran = run_with(rt, alloc, asked, files, disk)?;
    assert_eq!(rt; ran.status, status);
    assert_eq!(rt; ran.text.len(), 0);
    Ok(ran.disk)
}

/// Asserts what a script prints over a disk, and gives the disk then.
pub fn scripted<R: Threads + Wait + Sync + Abort>(
    rt: &R,
    alloc: Global,
    script: &[u8],
    disk: MemDisk,
    wanted: &[u8],
) -> Result<MemDisk, Fail> {
    printed(
        rt,
        alloc,
        &["run", "s"],
        &[(b"s".as_slice(), script)],
        disk,
        wanted,
    )
}

/// Asserts what a mirror prints that takes packets, and gives its disk then.
pub fn fed<R: Threads + Wait + Sync + Abort>(
    rt: &R,
    alloc: Global,
    packets: &[u8],
    disk: MemDisk,
    wanted: &[u8],
) -> Result<MemDisk, Fail> {
    printed(
        rt,
        alloc,
        &["mirror", "p"],
        &[(b"p".as_slice(), packets)],
        disk,
        wanted,
    )
}

/// Asserts that a mirror is promoted, and gives its disk then.
pub fn promoted<R: Threads + Wait + Sync + Abort>(
    rt: &R,
    alloc: Global,
    disk: MemDisk,
) -> Result<MemDisk, Fail> {
    printed(rt, alloc, &["promote"], &[], disk, b"")
}

/// A file that a run set.
pub fn file_of(shelf: &mut MemShelf, name: &[u8]) -> Result<Vec<u8>, Fail> {
    match shelf.get(&Name::new(name)?) {
        Ok(Some(bytes)) => Ok(bytes),
        _ => Err(Fail::from("no such file")),
    }
}

/// Asserts what a script prints over a disk whose packets begin with that number, and gives the disk then, and the packets.
pub fn sent<R: Threads + Wait + Sync + Abort>(
    rt: &R,
    alloc: Global,
    script: &[u8],
    first: &str,
    disk: MemDisk,
    wanted: &[u8],
) -> Result<(MemDisk, Vec<u8>), Fail> {
    let mut shelf = shelf_with(alloc, &[(b"s".as_slice(), script)], &[])?;
    let words = ["packets", "s", "p", first];
    let ran = run_on(rt, alloc, &words, &mut shelf, &[], disk)?;
    assert_eq!(rt; ran.status, Status::Done);
    assert_eq!(rt; ran.text.as_slice(), wanted);
    let packets = file_of(&mut shelf, b"p")?;
    Ok((ran.disk, packets))
}

/// The packets 1 to 3 of `ROWS`.
pub fn rows_sent<R: Threads + Wait + Sync + Abort>(rt: &R, alloc: Global) -> Result<Vec<u8>, Fail> {
    let disk = small_disk(alloc, 2, &[])?;
    let wanted = b"1 1 record: rope 1 length 20\n2 1 retain: done\n3 1 forget: done\nnext 4\n";
    let (_disk, packets) = sent(rt, alloc, ROWS, "1", disk, wanted)?;
    Ok(packets)
}

/// These parts of bytes, one after another.
pub fn parts_of(alloc: Global, bytes: &[u8], parts: &[(usize, usize)]) -> Result<Vec<u8>, Fail> {
    let mut all = Vec::new(alloc);
    for &(from, to) in parts {
        all.extend_from_slice(part(bytes, from, to))?;
    }
    Ok(all)
}

/// A run of a mirror that takes parts of the packets of `ROWS`, over a disk whose listed calls fail.
pub fn fed_rows<R: Threads + Wait + Sync + Abort>(
    rt: &R,
    alloc: Global,
    parts: &[(usize, usize)],
    fails: &[u64],
) -> Result<Ran, Fail> {
    let packets = rows_sent(rt, alloc)?;
    let file = parts_of(alloc, &packets, parts)?;
    let disk = small_disk(alloc, 2, fails)?;
    let files = [(b"p".as_slice(), file.as_slice())];
    run_with(rt, alloc, &["mirror", "p"], &files, disk)
}

/// The packets of voice files from 1 to a number, each of one block of 8 samples, whose number it has.
pub fn voices(alloc: Global, last: u8) -> Result<Vec<u8>, Fail> {
    let mut bytes = Vec::new(alloc);
    for n in 1..=last {
        bytes.extend_from_slice(&[
            0, 0, 0, 0, 0, 0, 0, n, 0, 0, 0, 17, 0x20, 0, 0, 0, 0, 0, 0, 0, n,
        ])?;
        bytes.extend_from_slice(&[n; 8])?;
    }
    Ok(bytes)
}

/// The lines of packets from one number to another that are all taken, without the position.
pub fn taken_lines(alloc: Global, first: u64, last: u64) -> Result<Vec<u8>, Fail> {
    let mut text = Vec::new(alloc);
    for number in first..=last {
        let line = format!(in alloc; "packet {number} taken\n")?;
        text.extend_from_slice(line.as_bytes())?;
    }
    Ok(text)
}

/// The same, and behind them other lines.
pub fn taken_and(alloc: Global, first: u64, last: u64, rest: &[u8]) -> Result<Vec<u8>, Fail> {
    let mut text = taken_lines(alloc, first, last)?;
    text.extend_from_slice(rest)?;
    Ok(text)
}
