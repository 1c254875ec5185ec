//! A caller that hears two windows, and what another one does between them: each has a thread of its own.

use disk_uses::steps::format;
use std::alloc::Global;
use std::process::Abort;
use std::sync::Wait;
use std::sync::atomic::{AtomicBool, Ordering};
use std::test::Fail;
use std::thread::{self, Threads};
use voice_disk::MemDisk;
use voice_main::{Status, run};
use voice_outside::{Gate, MemShelf, MemSink, Shelf};
use voice_units::Name;

// So often a caller looks at most before it goes on all the same, and so often it lets other threads run between two looks.
const LIMIT: u32 = 1_000_000;

const YIELDS: u32 = 100;

/// Caller 2 is held before its line 3 until caller 1 stands before turn 2 of line 2, its second feed; caller 1 is held there until the last line is done.
#[derive(Drop)]
struct Between {
    last: u32,
    stands: AtomicBool,
    done: AtomicBool,
    late: AtomicBool,
}

impl Between {
    fn new(last: u32) -> Between {
        Between {
            last,
            stands: AtomicBool::new(false),
            done: AtomicBool::new(false),
            late: AtomicBool::new(false),
        }
    }

    fn wait_for(&self, flag: &AtomicBool) {
        for _ in 0..LIMIT {
            if flag.load(Ordering::SeqCst) {
                return;
            }
            for _ in 0..YIELDS {
                thread::yield_now();
            }
        }
        self.late.store(true, Ordering::SeqCst);
    }
}

impl Gate for Between {
    fn is_open(&self) -> bool {
        false
    }

    fn before(&self, _caller: u16, line: u32, turn: u32) {
        if line == 3 {
            self.wait_for(&self.stands);
        }
        if line == 2 && turn == 2 {
            self.stands.store(true, Ordering::SeqCst);
            self.wait_for(&self.done);
        }
    }

    fn after(&self, _caller: u16, line: u32) {
        if line == self.last {
            self.done.store(true, Ordering::SeqCst);
        }
    }
}

// The samples of the file `c64`.
fn counted(alloc: Global) -> Result<Vec<u8>, Fail> {
    let mut bytes = Vec::new(alloc);
    for k in 0..64 {
        bytes.push(k)?;
    }
    Ok(bytes)
}

// The script `s`, and 64 samples that count from 0 as `c64`.
fn files_with(alloc: Global, script: &str) -> Result<Vec<(Name, Vec<u8>)>, Fail> {
    let mut files = Vec::new(alloc);
    files.push((Name::new(b"s")?, script.as_bytes().to_vec(alloc)?))?;
    files.push((Name::new(b"c64")?, counted(alloc)?))?;
    Ok(files)
}

fn words_of(alloc: Global) -> Result<Vec<String>, Fail> {
    let mut words = Vec::new(alloc);
    for word in ["run", "s", "--threads"] {
        words.push(String::from_str(alloc, word)?)?;
    }
    Ok(words)
}

// Asserts what a script with so many lines prints, and that its caller 1 hears so many samples of the recording.
fn assert_heard<R: Threads + Wait + Sync + Abort>(
    rt: &R,
    alloc: Global,
    script: &str,
    last: u32,
    wanted: &str,
    samples: usize,
) -> Result<(), Fail> {
    let mut disk = MemDisk::new(alloc, 4096, Vec::new(alloc))?;
    let _did = format(&mut disk, 2);
    let mut shelf = MemShelf::new(alloc, files_with(alloc, script)?, Vec::new(alloc));
    let mut sink = MemSink::new(alloc, Vec::new(alloc));
    let gate = Between::new(last);
    let words = words_of(alloc)?;
    let ended = run(rt, alloc, &words, &mut shelf, &mut sink, disk, &gate);
    assert_eq!(rt; ended.status, Status::Done);
    assert!(rt; !gate.late.load(Ordering::SeqCst));
    assert!(rt; sink.bytes() == wanted.as_bytes());
    let Ok(Some(heard)) = shelf.get(&Name::new(b"out")?) else {
        return Err(Fail::new("no file"));
    };
    assert!(rt; counted(alloc)?.as_slice().get(..samples) == Some(heard.as_slice()));
    Ok(())
}

// The script, its last line, what is printed, and how many samples are heard.
const ROWS: &[(&str, u32, &str, usize)] = &[
    (
        "1 a = record c64\n1 play 0 a 0 64 out\n2 replace 1 0 0 1\n",
        3,
        "1 1 record: rope 1 length 64\n2 1 play: job 1\n3 1 feed: window 0 32\n4 2 replace: rope 2 length 128\n5 1 feed: window 32 32\n6 1 feed: ended 1 64\n",
        64,
    ),
    (
        "1 a = record c64\n1 play 0 a 0 64 out\n2 advance 60\n2 sweep 9\n2 record c64\n2 record c64\n",
        6,
        "1 1 record: rope 1 length 64\n2 1 play: job 1\n3 1 feed: window 0 32\n4 2 advance: done\n5 2 sweep: swept 0 rows 1 ropes 1\n6 2 record: rope 2 length 64\n7 2 record: no no-room 8 0\n8 1 feed: window 32 32\n9 1 feed: ended 1 64\n",
        64,
    ),
    (
        "1 a = record c64\n1 play 0 a 0 64 out\n2 stop 0\n",
        3,
        "1 1 record: rope 1 length 64\n2 1 play: job 1\n3 1 feed: window 0 32\n4 2 stop: number 1\n5 1 feed: stopped 1 32\n",
        32,
    ),
    (
        "1 a = record c64\n1 play 0 a 0 64 out\n2 queue 0 1 0 8\n",
        3,
        "1 1 record: rope 1 length 64\n2 1 play: job 1\n3 1 feed: window 0 32\n4 2 play: job 2\n5 1 feed: window 32 32\n6 1 feed: ended 1 64\n",
        64,
    ),
];

#[test]
fn a_play_goes_on_beside_others(rt: HostRuntime) -> Result<(), Fail> {
    for &(script, last, wanted, samples) in ROWS {
        assert_heard(&rt, rt.alloc(), script, last, wanted, samples)?;
    }
    Ok(())
}
