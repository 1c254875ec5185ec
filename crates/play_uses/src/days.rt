//! A day of mail: a message of 360,000 samples, 45 seconds at 8,000 a second, of which a second of silence is cut out; a note comes behind it. Two lanes play it.

use crate::desk::{Desk, hear, new_disk};
use crate::steps::{Step, Told, assert_told, told_from};
use std::alloc::Global;
use std::process::Abort;
use std::test::Fail;
use voice_units::Lane;

// Blocks of 4,096, 2,000 of them, and areas of 2^20, on a disk that has just room for them.
const LARGE: (u32, u32, u32, u64) = (4096, 2000, 1_048_576, 10_289_216);

// The tapes, by their numbers.
const MESSAGE: u32 = 0;

const NOTE: u32 = 1;

// The message takes 88 blocks, the note 2.
const MORNING: &[Told] = &[
    (Step::Record(MESSAGE, 360_000), "rope 1 length 360000\n"),
    (Step::Sub(1, 0, 0), "rope 2 length 0\n"),
    (Step::Replace(1, 160_000, 8000, 2), "rope 3 length 352000\n"),
    (Step::Record(NOTE, 8000), "rope 4 length 8000\n"),
    (Step::Concat(&[3, 4]), "rope 5 length 360000\n"),
    (Step::Hold(b"mail.1", 5), "done\n"),
    (Step::Lookup(b"mail.1"), "found 5 -\n"),
    (Step::Play(0, 5, 0, 360_000), "job 1\n"),
    (Step::Play(1, 5, 0, 360_000), "job 2\n"),
];

// One block lies in the silence, and is free once the message's rope is gone.
const EVENING: &[Told] = &[
    (Step::Free(2000 - 90), ""),
    (Step::Advance(100), "done\n"),
    (Step::Sweep(100), "swept 0 rows 4 ropes 1 2 3 4\n"),
    (Step::Free(2000 - 89), ""),
];

// The windows of a job, of four blocks each. The tenth one ends with the 256 samples in front of the silence, the next one begins with the 4,032 behind it, and the last but one ends with the first block of the note.
const WINDOWS: &str =
    "window 0 16384\nwindow 16384 16384\nwindow 32768 16384\nwindow 49152 16384\nwindow 65536 16384\nwindow 81920 16384\nwindow 98304 16384\nwindow 114688 16384\nwindow 131072 16384\nwindow 147456 12544\nwindow 160000 16320\nwindow 176320 16384\nwindow 192704 16384\nwindow 209088 16384\nwindow 225472 16384\nwindow 241856 16384\nwindow 258240 16384\nwindow 274624 16384\nwindow 291008 16384\nwindow 307392 16384\nwindow 323776 16384\nwindow 340160 15936\nwindow 356096 3904\n";

// So many equal samples behind others.
fn extend(alloc: Global, samples: &mut Vec<u8>, sample: u8, count: usize) -> Result<(), Fail> {
    let more = vec![in alloc; sample; count]?;
    samples.extend_from_slice(&more)?;
    Ok(())
}

// The message, 20 seconds of talk, a second of silence, and 24 seconds of talk; and the note.
fn tapes(alloc: Global) -> Result<Vec<Vec<u8>>, Fail> {
    let mut message = Vec::new(alloc);
    extend(alloc, &mut message, 0x80, 160_000)?;
    extend(alloc, &mut message, 0xff, 8000)?;
    extend(alloc, &mut message, 0x80, 192_000)?;
    let note = vec![in alloc; 0x80u8; 8000]?;
    let mut tapes = Vec::new(alloc);
    tapes.push(message)?;
    tapes.push(note)?;
    Ok(tapes)
}

// Asserts that a lane plays all but the silence, in which windows, and how its job ends.
fn assert_played(
    rt: &impl Abort,
    alloc: Global,
    desk: &mut Desk,
    lane: u16,
    ended: &str,
) -> Result<(), Fail> {
    let before = desk.history().len();
    let heard = hear(alloc, desk, Lane(lane))?;
    assert_eq!(rt; heard.len(), 160_000 + 192_000 + 8000);
    assert!(rt; heard.iter().all(|sample| *sample == 0x80));
    let told = told_from(alloc, desk.history(), before)?;
    let wanted = format!(in alloc; "{WINDOWS}{ended}\n")?;
    assert_eq!(rt; told.as_str(), wanted.as_str());
    Ok(())
}

// Asserts what the calls of the day are answered, and what is heard.
fn assert_day(rt: &impl Abort, alloc: Global, desk: &mut Desk) -> Result<(), Fail> {
    assert_told(rt, alloc, desk, "the morning", MORNING)?;
    assert_played(rt, alloc, desk, 0, "ended 1 360000")?;
    assert_played(rt, alloc, desk, 1, "ended 2 360000")?;
    assert_told(rt, alloc, desk, "the evening", EVENING)
}

#[test]
fn a_day_of_mail(rt: HostRuntime) -> Result<(), Fail> {
    let disk = new_disk(rt.alloc(), LARGE)?;
    let tapes = tapes(rt.alloc())?;
    let mut desk = Desk::open(rt.alloc(), disk, tapes)?;
    let done = assert_day(&rt, rt.alloc(), &mut desk);
    desk.close();
    done
}
