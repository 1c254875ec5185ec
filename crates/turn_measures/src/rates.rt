//! How many samples a second players hear.

use crate::rooms::run_callers;
use crate::session::Tally;
use std::alloc::Global;
use std::io;
use std::rt::Clock;
use std::sync::Wait;
use std::thread::Threads;

// A server has so many callers at most. So the recorder and the sweeper are two of the players' callers.
const PLAYERS: u16 = 16;

// A telephone needs so many samples a second.
const RATE: u128 = 8_000;

// How many samples a second were heard.
fn rate_of(tally: &Tally) -> u128 {
    let nanos = tally.took.as_nanos().max(1);
    u128::from(tally.samples) * 1_000_000_000 / nanos
}

// Prints what 16 players heard, and how many times what 16 telephones need that is.
fn print_sixteen<R: Print>(rt: &R, tally: &Tally) -> io::Result<()> {
    let rate = rate_of(tally);
    let hundredths = rate.saturating_mul(100) / (RATE * u128::from(PLAYERS));
    let whole = hundredths / 100;
    let part = hundredths % 100;
    let recordings = tally.recordings;
    let sweeps = tally.sweeps;
    let millis = tally.took.as_millis();
    println!(rt;
        "16 players on 16 threads, of which one also records a piece and one sweeps behind each window: {rate} samples a second, {whole}.{part:02} times what 16 telephones need; {recordings} recordings of 64 KiB and {sweeps} sweeps in {millis} ms"
    )
}

/// Prints how many samples a second 16 players on 16 threads hear through a server, each on a lane of its own, while one of their callers also records behind each of its windows and one sweeps; and how many a player alone.
pub(crate) fn measure<R: Print + Clock + Threads + Wait + Sync>(
    rt: &R,
    alloc: Global,
) -> io::Result<()> {
    let sixteen = run_callers(rt, alloc, PLAYERS)?;
    print_sixteen(rt, &sixteen)?;
    let alone = run_callers(rt, alloc, 1)?;
    let rate = rate_of(&alone);
    println!(rt; "a player alone: {rate} samples a second")
}
