//! A long script.

use bench_report::report::ratio;
use script_lang::parse;
use std::alloc::{AllocError, Global};
use std::io::{self, ErrorKind};
use std::rt::Clock;
use std::time::{Duration, Instant};

const LINES: u32 = 65_535;

// The best of so many times counts: the first ones also pay for memory that the system has yet to hand out.
const TIMES: u32 = 9;

fn script(alloc: Global) -> Result<Vec<u8>, AllocError> {
    let mut bytes = Vec::new(alloc);
    for _ in 0..LINES {
        bytes.extend_from_slice(b"1 a = record sample.ul\n")?;
    }
    Ok(bytes)
}

// How many words there are, which stand apart by runs of spaces and tabs.
fn words_in(bytes: &[u8]) -> usize {
    let mut words = 0usize;
    for line in bytes.split(|b| *b == b'\n') {
        for word in line.split(|b| *b == b' ' || *b == b'\t') {
            if !word.is_empty() {
                words = words.saturating_add(1);
            }
        }
    }
    words
}

// How many lines were read, and how long that took. The script is let go when the clock has stopped.
fn read<R: Clock + AllocGlobal>(rt: &R, bytes: &[u8]) -> io::Result<(usize, Duration)> {
    let start = Instant::now(rt)?;
    let read = parse(rt.alloc(), bytes);
    let took = start.elapsed(rt)?;
    let lines = match &read {
        Ok(script) => script.lines.len(),
        Err(_) => 0,
    };
    Ok((lines, took))
}

// How many words were cut, and how long that took. There are some, and that is looked at so that no cutting is left out.
fn cut<R: Clock>(rt: &R, bytes: &[u8]) -> io::Result<(usize, Duration)> {
    let start = Instant::now(rt)?;
    let words = words_in(bytes);
    let took = start.elapsed(rt)?;
    if words == 0 {
        return Err(io::Error::from(ErrorKind::InvalidData));
    }
    Ok((words, took))
}

// The best of these times and of some more of each.
fn best<R: Clock + AllocGlobal>(
    rt: &R,
    bytes: &[u8],
    first: Duration,
    bare: Duration,
) -> io::Result<(Duration, Duration)> {
    let mut took = first;
    let mut bare = bare;
    for _ in 0..TIMES {
        let (_, again) = read(rt, bytes)?;
        took = took.min(again);
        let (_, again) = cut(rt, bytes)?;
        bare = bare.min(again);
    }
    Ok((took, bare))
}

fn measure_script<R: Print + Clock + AllocGlobal>(rt: &R, bytes: &[u8]) -> io::Result<()> {
    let (lines, first) = read(rt, bytes)?;
    let (words, bare) = cut(rt, bytes)?;
    println!(rt; "a script of {lines} lines, {words} words")?;
    ratio(rt, "reading it the first time", first, bare)?;
    let (took, bare) = best(rt, bytes, first, bare)?;
    ratio(rt, "reading it", took, bare)
}

/// Prints what reading a script of 65,535 lines costs beside cutting its bytes into words, each at its best of some times.
pub fn measure<R: Print + Clock + AllocGlobal>(rt: &R) -> io::Result<()> {
    let Ok(bytes) = script(rt.alloc()) else {
        return Err(io::Error::from(AllocError));
    };
    measure_script(rt, &bytes)
}
