//! Runs of scripts over disks in memory, and what stands on a disk then.

use disk_uses::steps::format;
use recovery::replay;
use std::alloc::Global;
use std::process::Abort;
use std::sync::Wait;
use std::test::Fail;
use std::thread::Threads;
use voice_disk::{MemDisk, image_of};
use voice_journal::{Journal, RecordList};
use voice_main::{Ended, Status, run};
use voice_model::{Entry, Reply};
use voice_outside::{Disk, MemShelf, MemSink, OpenGate};
use voice_units::{Name, Shape};

/// The files of a run.
pub type Files = Vec<(Name, Vec<u8>)>;

fn words_of(alloc: Global, asked: &[&str]) -> Result<Vec<String>, Fail> {
    let mut words = Vec::new(alloc);
    for word in asked {
        words.push(String::from_str(alloc, word)?)?;
    }
    Ok(words)
}

/// Runs these words over files and a disk, and gives how it ended and what was printed.
pub fn run_words<R: Threads + Wait + Sync>(
    rt: &R,
    alloc: Global,
    asked: &[&str],
    files: Files,
    disk: MemDisk,
) -> Result<(Ended<MemDisk>, Vec<u8>), Fail> {
    let words = words_of(alloc, asked)?;
    let mut shelf = MemShelf::new(alloc, files, Vec::new(alloc));
    let mut sink = MemSink::new(alloc, Vec::new(alloc));
    let ended = run(rt, alloc, &words, &mut shelf, &mut sink, disk, &OpenGate);
    let text = sink.bytes().to_vec(alloc)?;
    Ok((ended, text))
}

/// Puts a file behind the others.
pub fn put_file(alloc: Global, files: &mut Files, name: &[u8], bytes: &[u8]) -> Result<(), Fail> {
    let name = Name::new(name)?;
    let bytes = bytes.to_vec(alloc)?;
    files.push((name, bytes))?;
    Ok(())
}

// The letters from A to T, and so many bytes 0x80.
const FILES: &[(&[u8], &[u8])] = &[
    (b"f20", b"ABCDEFGHIJKLMNOPQRST"),
    (b"z0", b""),
    (b"z1", b"\x80"),
    (b"z128", &[0x80; 128]),
];

// The script `s` and these files.
fn files_with(alloc: Global, script: &[u8]) -> Result<Files, Fail> {
    let mut files = Vec::new(alloc);
    put_file(alloc, &mut files, b"s", script)?;
    for &(name, bytes) in FILES {
        put_file(alloc, &mut files, name, bytes)?;
    }
    Ok(files)
}

/// Runs a script over a disk. Its files are `f20`, the letters from A to T, and `z0`, `z1` and `z128` of so many bytes 0x80.
pub fn run_script<R: Threads + Wait + Sync>(
    rt: &R,
    alloc: Global,
    script: &[u8],
    disk: MemDisk,
) -> Result<(Ended<MemDisk>, Vec<u8>), Fail> {
    let files = files_with(alloc, script)?;
    run_words(rt, alloc, &["run", "s"], files, disk)
}

/// Runs a script that is done, and gives the disk then and what was printed.
pub fn done<R: Threads + Wait + Sync + Abort>(
    rt: &R,
    alloc: Global,
    script: &[u8],
    disk: MemDisk,
) -> Result<(MemDisk, Vec<u8>), Fail> {
    let (ended, text) = run_script(rt, alloc, script, disk)?;
    assert_eq!(rt; ended.status, Status::Done);
    Ok((ended.disk, text))
}

/// Runs a script that is done, and gives the disk then.
pub fn after<R: Threads + Wait + Sync + Abort>(
    rt: &R,
    alloc: Global,
    script: &[u8],
    disk: MemDisk,
) -> Result<MemDisk, Fail> {
    let (disk, _text) = done(rt, alloc, script, disk)?;
    Ok(disk)
}

/// Runs a script that is done and prints just this, and gives the disk then.
pub fn printed<R: Threads + Wait + Sync + Abort>(
    rt: &R,
    alloc: Global,
    script: &[u8],
    disk: MemDisk,
    wanted: &[u8],
) -> Result<MemDisk, Fail> {
    let (disk, text) = done(rt, alloc, script, disk)?;
    assert_eq!(rt; text.as_slice(), wanted);
    Ok(disk)
}

/// Asserts that a script is done and prints just this.
pub fn assert_prints<R: Threads + Wait + Sync + Abort>(
    rt: &R,
    alloc: Global,
    script: &[u8],
    disk: MemDisk,
    wanted: &[u8],
) -> Result<(), Fail> {
    let _disk = printed(rt, alloc, script, disk, wanted)?;
    Ok(())
}

/// A disk of 4,096 bytes of that version: blocks of 8, 16 of them, areas of 512, graces of 60, 4 lanes. The listed calls fail, of which the first three are those of formatting.
pub fn small_disk(alloc: Global, version: u32, fails: &[u64]) -> Result<MemDisk, Fail> {
    let mut disk = MemDisk::new(alloc, 4096, fails.to_vec(alloc)?)?;
    let _did = format(&mut disk, version);
    Ok(disk)
}

// Advances to each moment from one to another.
fn advances(alloc: Global, from: u64, to: u64) -> Result<Vec<u8>, Fail> {
    let mut script = Vec::new(alloc);
    for moment in from..=to {
        let line = format!(in alloc; "1 advance {moment}\n")?;
        script.extend_from_slice(line.as_bytes())?;
    }
    Ok(script)
}

// How many calls were done.
fn count_done(history: &[Entry]) -> u64 {
    let mut count = 0u64;
    for entry in history {
        if matches!(&entry.reply, Reply::Done) {
            count = count.saturating_add(1);
        }
    }
    count
}

/// Advances to each moment from one to another, and gives the disk where each advance was done.
pub fn advanced<R: Threads + Wait + Sync>(
    rt: &R,
    alloc: Global,
    disk: MemDisk,
    from: u64,
    to: u64,
) -> Result<MemDisk, Fail> {
    let script = advances(alloc, from, to)?;
    let (ended, _) = run_script(rt, alloc, &script, disk)?;
    let done = count_done(&ended.history);
    if ended.status != Status::Done {
        return Err(Fail::new("the advances were not done"));
    }
    if from.saturating_add(done) != to.saturating_add(1) {
        return Err(Fail::new("an advance was not done"));
    }
    Ok(ended.disk)
}

/// What stands on a disk: the epoch of its journal, the bytes that are left there, the form, and the moment.
#[derive(Clone, Copy, Debug, PartialEq, Eq)]
pub struct Standing {
    pub epoch: u64,
    pub left: u64,
    pub form: u8,
    pub moment: u64,
}

// The form and the moment that payloads come to.
fn replayed(alloc: Global, shape: &Shape, payloads: &RecordList) -> Result<(u8, u64), Fail> {
    if payloads.len() >= 1 << 31 {
        return Err(Fail::new("too many payloads"));
    }
    match replay(alloc, shape, payloads) {
        Ok(parts) => Ok((parts.form, parts.moment.0)),
        Err(e) => Err(Fail::from(e)),
    }
}

/// What stands on a disk that opens.
pub fn standing_on(alloc: Global, disk: &mut MemDisk) -> Result<Standing, Fail> {
    let opened = Journal::open(alloc, disk)?;
    let (form, moment) = replayed(alloc, &opened.journal.shape(), &opened.payloads)?;
    Ok(Standing {
        epoch: opened.journal.epoch(),
        left: opened.journal.left(),
        form,
        moment,
    })
}

/// Asserts what stands on a disk that opens.
pub fn assert_standing(
    rt: &impl Abort,
    alloc: Global,
    disk: &mut MemDisk,
    wanted: Standing,
) -> Result<(), Fail> {
    let found = standing_on(alloc, disk)?;
    assert_eq!(rt; found, wanted);
    Ok(())
}

/// Asserts what stands on the disk that a crash leaves at a moment, with a choice of what isn't settled.
pub fn assert_left(
    rt: &impl Abort,
    alloc: Global,
    left: &mut MemDisk,
    (moment, choice): (u64, u16),
    wanted: Standing,
) -> Result<(), Fail> {
    let found = standing_on(alloc, left)?;
    assert_eq!(rt; found, wanted, "moment {moment} choice {choice}");
    Ok(())
}

/// The disk that a crash leaves: at a moment, with a choice of what isn't settled.
pub fn image(alloc: Global, disk: &MemDisk, moment: u64, choice: u16) -> Result<MemDisk, Fail> {
    if moment > disk.calls() {
        return Err(Fail::new("no such moment"));
    }
    let bytes = image_of(alloc, disk, moment, choice)?;
    Ok(MemDisk::of(alloc, bytes, Vec::new(alloc))?)
}

/// What may stand in place of bytes that aren't settled: what was there, what was written, and two other bytes.
pub const CHOICES: &[u16] = &[0, 1, 7, 255];

/// Whether a change that was acknowledged at a moment shows in an image of an earlier one: the call before was its gate's write, and only the byte that this writes opens the gate.
pub fn shows(ack: u64, moment: u64, choice: u16) -> bool {
    moment >= ack || choice == 1 && ack - moment <= 2
}
