//! Scripts over the small disk, and what they print.

use crate::runs::{assert_prints, ended_so, small_disk};
use std::alloc::Global;
use std::process::Abort;
use std::sync::Wait;
use std::test::Fail;
use std::thread::Threads;

// Scripts, and what they print over a disk of version 2.
const ROWS: &[(&[u8], &[u8])] = &[
    (b"", b""),
    (
        b"1 a = record f20\n1 length a\n",
        b"1 1 record: rope 1 length 20\n2 1 length: number 20\n",
    ),
    (
        b"1 a = record z0\n1 record z128",
        b"1 1 record: rope 1 length 0\n2 1 record: rope 2 length 128\n",
    ),
    (
        b"1 a = record f20\n1 sub a 12 8\n1 sub a 13 8\n1 sub a 20 0\n",
        b"1 1 record: rope 1 length 20\n2 1 sub: rope 2 length 8\n3 1 sub: no bad-interval 20\n4 1 sub: rope 3 length 0\n",
    ),
    (
        b"1 a = record f20\n1 b = sub a 0 0\n1 c = replace a 5 10 b\n1 d = replace a 20 0 a\n",
        b"1 1 record: rope 1 length 20\n2 1 sub: rope 2 length 0\n3 1 replace: rope 3 length 10\n4 1 replace: rope 4 length 40\n",
    ),
    (
        b"1 a = record z128\n1 concat a a a a a a a a a a a a a a a a\n1 record z1\n",
        b"1 1 record: rope 1 length 128\n2 1 concat: rope 2 length 2048\n3 1 record: no no-room 1 0\n",
    ),
    (b"1 length x\n", b"1 1 length: no unknown-rope 0\n"),
    (
        b"1 a = record f20\n2 length a\n2 length 1\n16 b = concat 1 1\n16 length b\n",
        b"1 1 record: rope 1 length 20\n2 2 length: no unknown-rope 0\n3 2 length: number 20\n4 16 concat: rope 2 length 40\n5 16 length: number 40\n",
    ),
];

#[test]
fn scripts_print_their_replies(rt: HostRuntime) -> Result<(), Fail> {
    for &(script, wanted) in ROWS {
        let disk = small_disk(rt.alloc(), 2, &[])?;
        assert_prints(&rt, rt.alloc(), script, disk, wanted)?;
    }
    Ok(())
}

// A line, and then another one so many times.
fn repeated(alloc: Global, first: &[u8], line: &[u8], times: u32) -> Result<Vec<u8>, Fail> {
    let mut script = first.to_vec(alloc)?;
    for _ in 0..times {
        script.extend_from_slice(line)?;
    }
    Ok(script)
}

const RECORD: &[u8] = b"1 a = record f20\n";

const SUB: &[u8] = b"1 sub a 0 20\n";

const EMPTY: &[u8] = b"1 record z0\n";

// The version, the first line of a script, another one and how often, and how what it prints ends.
type Full = (u32, &'static [u8], &'static [u8], u32, &'static [u8]);

// Where the journal gets full.
const FULL: &[Full] = &[
    (
        2,
        RECORD,
        SUB,
        11,
        b"\n10 1 sub: rope 10 length 20\n11 1 sub: no journal-full 515 495\n12 1 sub: no journal-full 515 495\n",
    ),
    (
        1,
        RECORD,
        SUB,
        11,
        b"\n10 1 sub: rope 10 length 20\n11 1 sub: no journal-full 498 495\n12 1 sub: no journal-full 498 495\n",
    ),
    (
        2,
        b"",
        EMPTY,
        20,
        b"\n18 1 record: rope 18 length 0\n19 1 record: no journal-full 497 495\n20 1 record: no journal-full 497 495\n",
    ),
    (
        1,
        b"",
        EMPTY,
        20,
        b"\n19 1 record: rope 19 length 0\n20 1 record: no journal-full 502 495\n",
    ),
];

// Asserts how the text of a row's script ends.
fn assert_full<R: Threads + Wait + Sync + Abort>(
    rt: &R,
    alloc: Global,
    (version, first, line, times, end): Full,
) -> Result<(), Fail> {
    let script = repeated(alloc, first, line, times)?;
    let disk = small_disk(alloc, version, &[])?;
    let _disk = ended_so(rt, alloc, &script, disk, (end, u64::from(version)))?;
    Ok(())
}

#[test]
fn a_small_journal_gets_full(rt: HostRuntime) -> Result<(), Fail> {
    for row in FULL {
        assert_full(&rt, rt.alloc(), *row)?;
    }
    Ok(())
}
