//! Loudness of samples.

ghost use Rattle.std.specs.Prelude.{◌≤◌, length};

use bench_report::plain::plain_sum;
use bench_report::report::ratio;
use silence_scan::{Scanner, loud_sum};
use std::alloc::{AllocError, Global};
use std::io;
use std::rt::Clock;
use std::time::{Duration, Instant};
use voice_units::NoMemory;

/// How many samples are measured.
pub const BYTES: usize = 1 << 20;

const TIMES: u32 = 200;

/// So many samples.
pub fn samples(alloc: Global) -> Result<Vec<u8>, AllocError> {
    let mut bytes = Vec::new(alloc);
    for k in 0..BYTES {
        bytes.extend_from_slice(&[(k % 251) as u8])?;
    }
    Ok(bytes)
}

/// The bytes without some of the first ones, at most 448: how many is up to what was seen of the bytes before. So no round of a loop over the rest can be left out, nor be made once for all.
pub fn rest(bytes: &[u8], seen: u64) -> &[u8]
    ensures { length result.now ≤ length bytes.now }
{
    let from = 64 * (seen % 8) as usize;
    &bytes[from.min(bytes.len())..]
}

// How many intervals of talk there are.
fn scan(alloc: Global, bytes: &[u8]) -> Result<usize, NoMemory>
    requires { length bytes.now ≤ 1048576 }
{
    let mut scanner = Scanner::new(alloc);
    scanner.feed(bytes)?;
    let talk = scanner.finish()?;
    Ok(talk.items().len())
}

// What plain sums of the bytes come to, put together, and how long they took.
fn time_plain<R: Clock>(rt: &R, bytes: &[u8]) -> io::Result<(u64, Duration)> {
    let mut seen = 0u64;
    let start = Instant::now(rt)?;
    for _ in 0..TIMES {
        seen = seen.wrapping_add(plain_sum(rest(bytes, seen)));
    }
    let took = start.elapsed(rt)?;
    Ok((seen, took))
}

// The same of the sum of loudness.
fn time_loud<R: Clock>(rt: &R, bytes: &[u8]) -> io::Result<(u64, Duration)>
    requires { length bytes.now ≤ 1048576 }
{
    let mut seen = 0u64;
    let start = Instant::now(rt)?;
    for _ in 0..TIMES {
        seen = seen.wrapping_add(loud_sum(rest(bytes, seen)));
    }
    let took = start.elapsed(rt)?;
    Ok((seen, took))
}

// How many intervals of talk the last scan found, and how long all took.
fn time_scans<R: Clock>(rt: &R, alloc: Global, bytes: &[u8]) -> io::Result<(usize, Duration)>
    requires { length bytes.now ≤ 1048576 }
{
    let mut intervals = 0;
    let start = Instant::now(rt)?;
    for _ in 0..TIMES {
        intervals = scan(alloc, rest(bytes, intervals as u64)).unwrap_or(0);
    }
    let took = start.elapsed(rt)?;
    Ok((intervals, took))
}

fn measure_samples<R: Print + Clock>(rt: &R, alloc: Global, bytes: &[u8]) -> io::Result<()>
    requires { length bytes.now ≤ 1048576 }
{
    let (plain, bare) = time_plain(rt, bytes)?;
    let (sums, loud) = time_loud(rt, bytes)?;
    let (intervals, scanned) = time_scans(rt, alloc, bytes)?;
    let seen = plain ^ sums;
    println!(rt; "1 MiB of samples, {TIMES} times, {intervals} intervals of talk ({seen})")?;
    ratio(rt, "the sum of loudness, to a plain sum", loud, bare)?;
    ratio(
        rt,
        "the rule on silence, to the sum of loudness",
        scanned,
        loud,
    )
}

/// Prints what the sum of loudness and the rule on silence cost beside a plain sum of the same bytes.
pub fn measure<R: Print + Clock + AllocGlobal>(rt: &R) -> io::Result<()> {
    let Ok(bytes) = samples(rt.alloc()) else {
        return Err(io::Error::from(AllocError));
    };
    let some = &bytes[..bytes.len().min(BYTES)];
    measure_samples(rt, rt.alloc(), some)
}
