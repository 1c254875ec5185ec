//! Bases, as the number of ropes grows.

ghost use Rattle.voice_model.specs.Replay.{Rebuilt};
ghost use Rattle.checkpoint.specs.Compact.{ShowsUsed};

use crate::changes::changes_to;
use bench_report::disks::shape_of;
use bench_report::report::ratio;
use checkpoint::compact_parts;
use recovery::{Parts, replay};
use std::alloc::{AllocError, Global};
use std::io::{self, ErrorKind};
use std::rt::Clock;
use std::time::{Duration, Instant};
use voice_journal::RecordList;
use voice_units::Shape;

// How many ropes all bases of a measurement have together.
const ROPES: u32 = 300_000;

// How long a base of these parts takes to spell.
fn time_base<R: Clock>(rt: &R, alloc: Global, parts: &Parts) -> io::Result<Duration>
    requires shown { (r : Rebuilt) × ShowsUsed parts.now r }
{
    let start = Instant::now(rt)?;
    let base = compact_parts(alloc, 2, parts);
    let took = start.elapsed(rt)?;
    if base.is_err() {
        return Err(io::Error::from(AllocError));
    }
    Ok(took)
}

// The same, and how many ropes there are.
fn time_parts<R: Clock>(rt: &R, alloc: Global, parts: &Parts) -> io::Result<(Duration, usize)>
    requires shown { (r : Rebuilt) × ShowsUsed parts.now r }
{
    let took = time_base(rt, alloc, parts)?;
    Ok((took, parts.ropes.count()))
}

// How long a base of what changes rebuild takes to spell, and how many ropes it has.
fn spell_once<R: Clock>(
    rt: &R,
    alloc: Global,
    shape: &Shape,
    list: &RecordList,
) -> io::Result<(Duration, usize)> {
    if list.len() > 9_999_999 {
        return Err(io::Error::from(ErrorKind::InvalidInput));
    }
    let Ok(parts) = replay(alloc, shape, list) else {
        return Err(io::Error::from(ErrorKind::InvalidData));
    };
    time_parts(rt, alloc, &parts)
}

// How long so many bases take, and how many ropes each has.
fn spell_all<R: Clock>(
    rt: &R,
    alloc: Global,
    list: &RecordList,
    times: u32,
) -> io::Result<(Duration, usize)> {
    let shape = shape_of(4096, 1 << 16, 1 << 24)?;
    let mut took = Duration::ZERO;
    let mut ropes = 0;
    for _ in 0..times {
        let (time, found) = spell_once(rt, alloc, &shape, list)?;
        took = took.saturating_add(time);
        ropes = found;
    }
    Ok((took, ropes))
}

// The same of changes that make so many ropes.
fn spell_ropes<R: Clock>(
    rt: &R,
    alloc: Global,
    count: u32,
    times: u32,
) -> io::Result<(Duration, usize)> {
    let Ok(records) = changes_to(alloc, count) else {
        return Err(io::Error::from(AllocError));
    };
    spell_all(rt, alloc, &records.list, times)
}

// How long bases of so many ropes take, of 300,000 ropes in all.
fn measure_ropes<R: Print + Clock>(rt: &R, alloc: Global, count: u32) -> io::Result<Duration> {
    let times = ROPES / count.max(1);
    let (took, ropes) = spell_ropes(rt, alloc, count, times)?;
    let nanos = took.as_nanos() / (u128::from(times) * ropes as u128).max(1);
    println!(rt; "{ropes} ropes: {nanos} ns a rope for a base")?;
    Ok(took)
}

/// Prints what a base costs, by the number of ropes.
pub fn measure<R: Print + Clock + AllocGlobal>(rt: &R) -> io::Result<()> {
    let alloc = rt.alloc();
    let small = measure_ropes(rt, alloc, 1_000)?;
    let middle = measure_ropes(rt, alloc, 10_000)?;
    let large = measure_ropes(rt, alloc, 100_000)?;
    ratio(
        rt,
        "a base of 10,000 ropes, to bases of 1,000",
        middle,
        small,
    )?;
    ratio(
        rt,
        "a base of 100,000 ropes, to bases of 1,000",
        large,
        small,
    )
}
