//! Plays on a small disk.

use crate::desk::{Desk, new_disk};
use crate::steps::{Step, Told, assert_told};
use std::alloc::Global;
use std::process::Abort;
use std::test::Fail;

// Blocks of 8, 16 of them, and areas of 512, on a disk of 4,096 bytes.
const SMALL: (u32, u32, u32, u64) = (8, 16, 512, 4096);

// The tapes, by their numbers: letters; 64 samples that all differ; 128 equal ones; and 128 others.
const LETTERS: u32 = 0;

const SIGNS: u32 = 1;

const QUIET: u32 = 2;

const LOUD: u32 = 3;

const TAPES: &[&[u8]] = &[
    b"ABCDEFGHIJKLMNOPQRST",
    b"ABCDEFGHIJKLMNOPQRSTUVWXYZabcdefghijklmnopqrstuvwxyz0123456789+/",
    &[0x80; 128],
    &[0x11; 128],
];

// What the signs are, and their halves, of four blocks each.
const ALL: &[u8] = b"ABCDEFGHIJKLMNOPQRSTUVWXYZabcdefghijklmnopqrstuvwxyz0123456789+/";

const EARLY: &[u8] = b"ABCDEFGHIJKLMNOPQRSTUVWXYZabcdef";

const LATE: &[u8] = b"ghijklmnopqrstuvwxyz0123456789+/";

// What is played, step by step, on a disk that was just formatted.
const CASES: &[(&str, &[Told])] = &[
    (
        "a rope whose end was replaced",
        &[
            (Step::Record(LETTERS, 20), "rope 1 length 20\n"),
            (Step::Sub(1, 0, 0), "rope 2 length 0\n"),
            (Step::Replace(1, 5, 10, 2), "rope 3 length 10\n"),
            (Step::Play(0, 3, 0, 10), "job 1\n"),
            (Step::Hear(0, b"ABCDEPQRST"), "window 0 10\nended 1 10\n"),
        ],
    ),
    (
        "two windows",
        &[
            (Step::Record(SIGNS, 64), "rope 1 length 64\n"),
            (Step::Play(0, 1, 0, 64), "job 1\n"),
            (
                Step::Hear(0, ALL),
                "window 0 32\nwindow 32 32\nended 1 64\n",
            ),
        ],
    ),
    // Its pieces begin and end in the middle of blocks, so each of its stretches has 4 samples. The first window has the four stretches of two pieces, and the second one the three that are left: shorter than the 32 samples of four whole blocks.
    (
        "windows of parts of blocks",
        &[
            (Step::Record(SIGNS, 64), "rope 1 length 64\n"),
            (Step::Sub(1, 4, 8), "rope 2 length 8\n"),
            (Step::Sub(1, 20, 8), "rope 3 length 8\n"),
            (Step::Sub(1, 36, 8), "rope 4 length 8\n"),
            (Step::Sub(1, 52, 4), "rope 5 length 4\n"),
            (Step::Concat(&[2, 3, 4, 5]), "rope 6 length 28\n"),
            (Step::Play(0, 6, 0, 28), "job 1\n"),
            (
                Step::Hear(0, b"EFGHIJKLUVWXYZabklmnopqr0123"),
                "window 0 16\nwindow 16 12\nended 1 28\n",
            ),
        ],
    ),
    // The passage keeps its eight blocks until the job has ended, though its rope is gone and the other eight are recorded over; then frames forget them.
    (
        "a rope that is swept while it is played",
        &[
            (Step::Record(SIGNS, 64), "rope 1 length 64\n"),
            (Step::Play(0, 1, 0, 64), "job 1\n"),
            (Step::Resident(1, &[]), ""),
            (Step::Feed(0), "window 0 32\n"),
            (Step::Advance(60), "done\n"),
            (Step::Sweep(9), "swept 0 rows 1 ropes 1\n"),
            (Step::Record(LOUD, 64), "rope 2 length 64\n"),
            (Step::Record(LOUD, 1), "no no-room 1 0\n"),
            (Step::Resident(1, &[0, 1, 2, 3]), ""),
            (Step::Copy(0, EARLY), ""),
            (Step::Serve(0, 32), "window 32 32\n"),
            (Step::Resident(1, &[4, 5, 6, 7]), ""),
            (Step::Copy(0, LATE), ""),
            (Step::Serve(0, 32), "ended 1 64\n"),
            (Step::Resident(1, &[]), ""),
            (Step::Record(LOUD, 1), "rope 3 length 1\n"),
        ],
    ),
    (
        "blocks that are recorded over",
        &[
            (Step::Record(QUIET, 128), "rope 1 length 128\n"),
            (Step::Play(0, 1, 0, 128), "job 1\n"),
            (
                Step::HearEqual(0, 0x80, 128),
                "window 0 32\nwindow 32 32\nwindow 64 32\nwindow 96 32\nended 1 128\n",
            ),
            (Step::Advance(60), "done\n"),
            (Step::Sweep(9), "swept 0 rows 1 ropes 1\n"),
            (Step::Record(LOUD, 128), "rope 2 length 128\n"),
            (Step::Play(0, 2, 0, 128), "job 2\n"),
            (
                Step::HearEqual(0, 0x11, 128),
                "window 0 32\nwindow 32 32\nwindow 64 32\nwindow 96 32\nended 2 128\n",
            ),
        ],
    ),
    (
        "a full lane",
        &[
            (Step::Record(LETTERS, 20), "rope 1 length 20\n"),
            (Step::Play(0, 1, 0, 20), "job 1\n"),
            (Step::Play(0, 1, 0, 20), "job 2\n"),
            (Step::Play(0, 1, 0, 20), "job 3\n"),
            (Step::Play(0, 1, 0, 20), "job 4\n"),
            (Step::Play(0, 1, 0, 20), "job 5\n"),
            (Step::Play(0, 1, 0, 20), "job 6\n"),
            (Step::Play(0, 1, 0, 20), "job 7\n"),
            (Step::Play(0, 1, 0, 20), "job 8\n"),
            (Step::Play(0, 1, 0, 20), "no queue-full\n"),
            (Step::Stop(0), "number 8\n"),
            (Step::Feed(0), "stopped 1 0\n"),
            (Step::Play(9, 1, 0, 20), "no unknown-lane 4\n"),
        ],
    ),
    (
        "a stop after the first window",
        &[
            (Step::Record(SIGNS, 64), "rope 1 length 64\n"),
            (Step::Play(0, 1, 0, 64), "job 1\n"),
            (Step::Feed(0), "window 0 32\n"),
            (Step::Copy(0, EARLY), ""),
            (Step::Stop(0), "number 1\n"),
            (Step::Serve(0, 32), "stopped 1 32\n"),
            (Step::Stop(0), "number 0\n"),
            (Step::Feed(0), "no no-job\n"),
        ],
    ),
    // A job that was stopped stays on its lane until a Feed tells of it; a second stop doesn't count it again.
    (
        "a stop before anything is heard",
        &[
            (Step::Record(SIGNS, 64), "rope 1 length 64\n"),
            (Step::Play(0, 1, 0, 64), "job 1\n"),
            (Step::Play(0, 1, 32, 32), "job 2\n"),
            (Step::Feed(0), "window 0 32\n"),
            (Step::Stop(0), "number 2\n"),
            (Step::Stop(0), "number 0\n"),
            (Step::Serve(0, 0), "stopped 1 0\n"),
            (Step::Feed(0), "stopped 2 0\n"),
            (Step::Feed(0), "no no-job\n"),
        ],
    ),
    // The next window begins behind what was heard, in the middle of a block: it has 6 samples of this one and three whole blocks.
    (
        "a part of a window",
        &[
            (Step::Record(SIGNS, 64), "rope 1 length 64\n"),
            (Step::Play(0, 1, 0, 64), "job 1\n"),
            (Step::Feed(0), "window 0 32\n"),
            (Step::Serve(0, 10), "window 10 30\n"),
            (Step::Copy(0, b"KLMNOPQRSTUVWXYZabcdefghijklmn"), ""),
        ],
    ),
    // The first lane's window brings its four blocks in, and the other lane finds them there.
    (
        "two lanes turn by turn",
        &[
            (Step::Record(SIGNS, 64), "rope 1 length 64\n"),
            (Step::Play(0, 1, 0, 64), "job 1\n"),
            (Step::Play(1, 1, 0, 64), "job 2\n"),
            (Step::Feed(0), "window 0 32\n"),
            (Step::DeviceCalls(4), ""),
            (Step::Feed(1), "window 0 32\n"),
            (Step::DeviceCalls(0), ""),
            (Step::Copy(0, EARLY), ""),
            (Step::Copy(1, EARLY), ""),
            (Step::Serve(0, 32), "window 32 32\n"),
            (Step::DeviceCalls(4), ""),
            (Step::Copy(1, EARLY), ""),
            (Step::Serve(1, 32), "window 32 32\n"),
            (Step::DeviceCalls(0), ""),
            (Step::Copy(0, LATE), ""),
            (Step::Copy(1, LATE), ""),
            (Step::Serve(0, 32), "ended 1 64\n"),
            (Step::Serve(1, 32), "ended 2 64\n"),
        ],
    ),
    (
        "feeds that are refused",
        &[
            (Step::Record(SIGNS, 64), "rope 1 length 64\n"),
            (Step::Feed(0), "no no-job\n"),
            (Step::Play(0, 1, 0, 64), "job 1\n"),
            (Step::Feed(0), "window 0 32\n"),
            (Step::Feed(0), "no window-out\n"),
            (Step::Feed(1), "no no-job\n"),
            (Step::Feed(4), "no unknown-lane 4\n"),
        ],
    ),
    // No call tells of it, and the window stays out until its lease comes back in a Feed, which knows it by its length.
    (
        "a window that is taken back",
        &[
            (Step::Record(SIGNS, 64), "rope 1 length 64\n"),
            (Step::Play(0, 1, 0, 64), "job 1\n"),
            (Step::Feed(0), "window 0 32\n"),
            (Step::TakeBack(0), ""),
            (Step::Feed(0), "no window-out\n"),
            (Step::TakeBack(0), ""),
            (Step::Serve(0, 10), "window 10 30\n"),
            (Step::Copy(0, b"KLMNOPQRSTUVWXYZabcdefghijklmn"), ""),
            (Step::Serve(0, 30), "window 40 24\n"),
            (Step::Serve(0, 24), "ended 1 64\n"),
        ],
    ),
];

fn tapes(alloc: Global) -> Result<Vec<Vec<u8>>, Fail> {
    let mut tapes = Vec::new(alloc);
    for tape in TAPES {
        tapes.push(tape.to_vec(alloc)?)?;
    }
    Ok(tapes)
}

// Asserts what a case is answered.
fn assert_case(rt: &impl Abort, alloc: Global, name: &str, steps: &[Told]) -> Result<(), Fail> {
    let disk = new_disk(alloc, SMALL)?;
    let tapes = tapes(alloc)?;
    let mut desk = Desk::open(alloc, disk, tapes)?;
    let told = assert_told(rt, alloc, &mut desk, name, steps);
    desk.close();
    told
}

#[test]
fn plays_are_answered(rt: HostRuntime) -> Result<(), Fail> {
    for &(name, steps) in CASES {
        assert_case(&rt, rt.alloc(), name, steps)?;
    }
    Ok(())
}
