//! A day of mail: a message of 360,000 samples, 45 seconds at 8,000 a second, and a note that is put into it.

use crate::runs::{Files, put_file, run_words};
use std::alloc::Global;
use std::process::Abort;
use std::sync::Wait;
use std::test::Fail;
use std::thread::Threads;
use voice_disk::MemDisk;
use voice_main::Status;

const FORMAT: [&str; 11] = [
    "format", "--block", "4096", "--blocks", "90", "--area", "4096", "--grace", "3600", "--lanes",
    "1",
];

// So many equal samples behind others.
fn extend(alloc: Global, samples: &mut Vec<u8>, sample: u8, count: usize) -> Result<(), Fail> {
    let more = vec![in alloc; sample; count]?;
    samples.extend_from_slice(&more)?;
    Ok(())
}

// The message: 20 seconds of talk, a second of silence, 24 seconds of talk.
fn message(alloc: Global) -> Result<Vec<u8>, Fail> {
    let mut samples = Vec::new(alloc);
    extend(alloc, &mut samples, 0x41, 160_000)?;
    extend(alloc, &mut samples, 0xff, 8000)?;
    extend(alloc, &mut samples, 0x41, 192_000)?;
    Ok(samples)
}

// A file of so many equal samples behind the others.
fn put_tape(
    alloc: Global,
    files: &mut Files,
    name: &[u8],
    sample: u8,
    count: usize,
) -> Result<(), Fail> {
    let samples = vec![in alloc; sample; count]?;
    put_file(alloc, files, name, &samples)
}

// The sample files of the day, with a script.
fn files(alloc: Global, script: &[u8]) -> Result<Files, Fail> {
    let mut files = Vec::new(alloc);
    let message = message(alloc)?;
    put_file(alloc, &mut files, b"s", script)?;
    put_file(alloc, &mut files, b"msg", &message)?;
    put_tape(alloc, &mut files, b"note", 0x42, 8000)?;
    put_tape(alloc, &mut files, b"two", 0x43, 4097)?;
    Ok(files)
}

// The runs of the day, one after another, and what each prints.
const DAY: &[(&[u8], &[u8])] = &[
    // The silence is cut out of the message, and the note is put there.
    (
        b"1 a = record msg\n1 describe a\n1 e = sub a 0 0\n1 b = replace a 160000 8000 e\n1 n = record note\n1 c = replace b 160000 0 n\n1 retain held mail.1 c 6869\n1 retain until note.1 n 0000000000001c20\n",
        b"1 1 record: rope 1 length 360000\n2 1 describe: talk 2 0+160000 168000+192000\n3 1 sub: rope 2 length 0\n4 1 replace: rope 3 length 352000\n5 1 record: rope 4 length 8000\n6 1 replace: rope 5 length 360000\n7 1 retain: done\n8 1 retain: done\n",
    ),
    (
        b"2 v = lookup held mail.1\n2 describe v\n2 x = sub v 159840 320\n2 levels x\n2 record two\n",
        b"1 2 lookup: found 5 6869\n2 2 describe: talk 1 0+360000\n3 2 sub: rope 6 length 320\n4 2 levels: peaks 2 62 61\n5 2 record: no no-room 2 0\n",
    ),
    // An hour later. The one block that lies in the silence is free.
    (
        b"1 advance 3600\n1 sweep 100\n2 record two\n2 forget held mail.1\n",
        b"1 1 advance: done\n2 1 sweep: swept 0 rows 4 ropes 1 2 3 6\n3 2 record: no no-room 2 1\n4 2 forget: done\n",
    ),
    // A second less than an hour after that, and a second later: the note loses its last interest.
    (
        b"1 advance 7199\n1 sweep 100\n1 advance 7200\n1 sweep 100\n2 length 5\n2 describe 4\n",
        b"1 1 advance: done\n2 1 sweep: swept 0 rows 0 ropes\n3 1 advance: done\n4 1 sweep: swept 1 rows 1 ropes 5\n5 2 length: no unknown-rope 5\n6 2 describe: talk 1 0+8000\n",
    ),
    (
        b"1 record msg\n1 advance 10800\n1 sweep 100\n1 sweep 100\n",
        b"1 1 record: rope 7 length 360000\n2 1 advance: done\n3 1 sweep: swept 0 rows 2 ropes 4 7\n4 1 sweep: swept 0 rows 0 ropes\n",
    ),
    (
        b"1 record msg\n1 record note\n1 describe 8\n",
        b"1 1 record: rope 8 length 360000\n2 1 record: rope 9 length 8000\n3 1 describe: talk 2 0+160000 168000+192000\n",
    ),
];

// Runs these words over the disk of the day, which have to be done, and gives the disk then and what was printed.
fn run_done<R: Threads + Wait + Sync + Abort>(
    rt: &R,
    alloc: Global,
    asked: &[&str],
    files: Files,
    disk: MemDisk,
) -> Result<(MemDisk, Vec<u8>), Fail> {
    let (ended, text) = run_words(rt, alloc, asked, files, disk)?;
    assert_eq!(rt; ended.status, Status::Done);
    Ok((ended.disk, text))
}

// The formatted disk of the day.
fn day_disk<R: Threads + Wait + Sync + Abort>(rt: &R, alloc: Global) -> Result<MemDisk, Fail> {
    let size = 64 + 2 * 4096 + 90 * 4096;
    let disk = MemDisk::new(alloc, size, Vec::new(alloc))?;
    let (disk, _) = run_done(rt, alloc, &FORMAT, Vec::new(alloc), disk)?;
    Ok(disk)
}

// Asserts what a script of the day prints, and gives the disk then.
fn run_part<R: Threads + Wait + Sync + Abort>(
    rt: &R,
    alloc: Global,
    script: &[u8],
    disk: MemDisk,
    wanted: &[u8],
) -> Result<MemDisk, Fail> {
    let files = files(alloc, script)?;
    let (disk, text) = run_done(rt, alloc, &["run", "s"], files, disk)?;
    assert_eq!(rt; text.as_slice(), wanted);
    Ok(disk)
}

#[test]
fn a_day_of_mail(rt: HostRuntime) -> Result<(), Fail> {
    let mut disk = day_disk(&rt, rt.alloc())?;
    for &(script, wanted) in DAY {
        disk = run_part(&rt, rt.alloc(), script, disk, wanted)?;
    }
    Ok(())
}
