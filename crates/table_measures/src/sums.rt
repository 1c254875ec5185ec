//! The sum of loudness beside plain sums.

ghost use Rattle.std.specs.Prelude.{◌≤◌, length};

use crate::loudness::{BYTES, rest, samples};
use bench_report::plain::{lanes_sum, plain_sum, rows_sum, short_sum};
use bench_report::report::{hundredths_of, middle};
use silence_scan::loud_sum;
use std::alloc::{AllocError, Global};
use std::io::{self, ErrorKind};
use std::rt::Clock;
use std::time::{Duration, Instant};

// How often a loop goes over the bytes in a run.
const TIMES: u32 = 100;

const RUNS: u32 = 12;

// A loop over all bytes: the sum of loudness, or one of the plain sums.
#[derive(Clone, Copy)]
enum Loop {
    Loud,
    Plain,
    Short,
    Lanes,
    Rows,
}

fn sum_by(form: Loop, bytes: &[u8]) -> u64
    requires { length bytes.now ≤ 1048576 }
{
    match form {
        Loop::Loud => loud_sum(bytes),
        Loop::Plain => plain_sum(bytes),
        Loop::Short => short_sum(bytes),
        Loop::Lanes => lanes_sum(bytes),
        Loop::Rows => rows_sum(bytes),
    }
}

// What the sums of all rounds come to. What a round goes over is up to the sums before it.
fn sum_often(form: Loop, bytes: &[u8]) -> u64
    requires { length bytes.now ≤ 1048576 }
{
    let mut seen = 0u64;
    for _ in 0..TIMES {
        seen = seen.wrapping_add(sum_by(form, rest(bytes, seen)));
    }
    seen
}

// How long all rounds take. They may not come to 0, and that is looked at so that none of them is left out.
fn time_loop<R: Clock>(rt: &R, form: Loop, bytes: &[u8]) -> io::Result<Duration>
    requires { length bytes.now ≤ 1048576 }
{
    let start = Instant::now(rt)?;
    let seen = sum_often(form, bytes);
    let took = start.elapsed(rt)?;
    if seen == 0 {
        return Err(io::Error::from(ErrorKind::InvalidData));
    }
    Ok(took)
}

// How long the fastest of the plain sums takes.
fn time_fastest<R: Clock>(rt: &R, bytes: &[u8]) -> io::Result<Duration>
    requires { length bytes.now ≤ 1048576 }
{
    let mut fastest = Duration::MAX;
    for form in [Loop::Plain, Loop::Short, Loop::Lanes, Loop::Rows] {
        fastest = fastest.min(time_loop(rt, form, bytes)?);
    }
    Ok(fastest)
}

// How many times as long the sum of loudness takes in each run, in hundredths. The first run is for warming up.
fn time_runs<R: Clock>(rt: &R, alloc: Global, bytes: &[u8]) -> io::Result<Vec<u128>>
    requires { length bytes.now ≤ 1048576 }
{
    let mut figures = Vec::new(alloc);
    let _warm = time_fastest(rt, bytes)?;
    for _ in 0..RUNS {
        let loud = time_loop(rt, Loop::Loud, bytes)?;
        let fastest = time_fastest(rt, bytes)?;
        figures.push(hundredths_of(loud, fastest))?;
    }
    Ok(figures)
}

// The bytes that a loop goes over in a microsecond.
fn rate(took: Duration) -> u128 {
    u128::from(TIMES) * BYTES as u128 / took.as_micros().max(1)
}

fn print_rates<R: Print + Clock>(rt: &R, bytes: &[u8]) -> io::Result<()>
    requires { length bytes.now ≤ 1048576 }
{
    let loud = rate(time_loop(rt, Loop::Loud, bytes)?);
    let plain = rate(time_loop(rt, Loop::Plain, bytes)?);
    let short = rate(time_loop(rt, Loop::Short, bytes)?);
    let lanes = rate(time_loop(rt, Loop::Lanes, bytes)?);
    let rows = rate(time_loop(rt, Loop::Rows, bytes)?);
    println!(rt;
        "1 MiB of samples, bytes a us: loudness {loud}, plain {plain}, in 32 bits {short}, in lanes {lanes}, in two rows of lanes {rows}"
    )
}

fn measure_sums<R: Print + Clock>(rt: &R, alloc: Global, bytes: &[u8]) -> io::Result<()>
    requires { length bytes.now ≤ 1048576 }
{
    let mut figures = time_runs(rt, alloc, bytes)?;
    print_rates(rt, bytes)?;
    let hundredths = middle(&mut figures);
    let whole = hundredths / 100;
    let part = hundredths % 100;
    println!(rt;
        "the sum of loudness, to the fastest of four plain sums: {whole}.{part:02} times, the middle of {RUNS} runs"
    )
}

/// Prints what the sum of loudness costs beside the fastest of four plain sums of the same bytes, the middle of twelve runs.
pub fn measure<R: Print + Clock + AllocGlobal>(rt: &R) -> io::Result<()> {
    let Ok(bytes) = samples(rt.alloc()) else {
        return Err(io::Error::from(AllocError));
    };
    let some = &bytes[..bytes.len().min(BYTES)];
    measure_sums(rt, rt.alloc(), some)
}
