//! How many device calls the talk of a rope of 67,108,864 samples takes.

use crate::runs::{put_file, run_with};
use disk_uses::steps::fits;
use std::alloc::Global;
use std::process::Abort;
use std::sync::Wait;
use std::test::Fail;
use std::thread::Threads;
use voice_disk::MemDisk;
use voice_journal::Journal;
use voice_main::{Ended, Status};
use voice_model::Entry;
use voice_outside::{Disk, MemShelf, MemSink};
use voice_units::{Graces, Shape};

// Blocks of 8,192, four of them, and areas with room for ropes of many pieces.
const BLOCK: u32 = 8192;

const AREA: u32 = 1 << 18;

const SIZE: u64 = 64 + 2 * AREA as u64 + 4 * BLOCK as u64;

/// A disk of that size, formatted with four blocks of that length and areas of that one.
pub fn large_disk(alloc: Global, block: u32, area: u32, size: u64) -> Result<MemDisk, Fail> {
    let mut disk = MemDisk::new(alloc, size, Vec::new(alloc))?;
    let graces = Graces {
        common: 60,
        held: 60,
        until: 60,
        listed: 60,
    };
    let Ok(shape) = Shape::new(2, block, 4, area, graces, 4, size) else {
        return Err(Fail::new("no such shape"));
    };
    if !fits(&disk, &shape) {
        return Err(Fail::new("the disk is too small"));
    }
    Journal::format(&mut disk, &shape)?;
    Ok(disk)
}

// A recording of two blocks, twelve times put behind itself, and its talk.
fn script(alloc: Global) -> Result<String, Fail> {
    let mut script = String::from_str(alloc, "1 a = record t\n")?;
    for _ in 0..12 {
        script.push_str("1 a = concat a a\n")?;
    }
    script.push_str("1 describe a\n")?;
    Ok(script)
}

// The script, done.
fn described<R: Threads + Wait + Sync>(
    rt: &R,
    alloc: Global,
) -> Result<(Ended<MemDisk>, Vec<u8>), Fail> {
    let script = script(alloc)?;
    let samples = vec![in alloc; 0x80u8; 2 * BLOCK as usize]?;
    let mut files = Vec::new(alloc);
    put_file(alloc, &mut files, b"s", script.as_bytes())?;
    put_file(alloc, &mut files, b"t", &samples)?;
    let mut shelf = MemShelf::new(alloc, files, Vec::new(alloc));
    let mut sink = MemSink::new(alloc, Vec::new(alloc));
    let ended = run_with(
        rt,
        alloc,
        &mut shelf,
        &mut sink,
        large_disk(alloc, BLOCK, AREA, SIZE)?,
    )?;
    let text = sink.bytes().to_vec(alloc)?;
    Ok((ended, text))
}

// How many device calls the last of these made.
fn calls_of_last(history: &[Entry]) -> u64 {
    match history {
        [.., before, last] => last.ack.saturating_sub(before.ack),
        _ => 0,
    }
}

// Each of its 4,096 pieces has two whole blocks.
#[test]
fn a_long_rope_is_read_block_by_block(rt: HostRuntime) -> Result<(), Fail> {
    let (ended, text) = described(&rt, rt.alloc())?;
    assert_eq!(rt; ended.status, Status::Done);
    let last = b"\n14 1 describe: talk 1 0+67108864\n";
    assert!(rt; text.as_slice().ends_with(last));
    assert_eq!(rt; calls_of_last(&ended.history), 8192);
    Ok(())
}
