//! What a Feed costs by its place in a passage.

ghost use Rattle.std.specs.Prelude.{IfOk};
ghost use Rattle.lane_calls.specs.Answers.{IsHandedOut};
ghost use Rattle.voice_store.specs.Shown.{pool_of};

use crate::plays::{BLOCK, PIECES, RUNS, Sheet, begin, hear, no_memory, read_all, refused};
use bench_report::report::middle;
use lane_calls::Fed;
use std::io;
use std::rt::Clock;
use std::time::Instant;
use voice_outside::Disk;
use voice_store::Store;

// How many Feeds at a place are timed together.
const FEEDS: u32 = 200;

// The nanoseconds of a Feed, the mean of those that bring windows back from what was fed on, of which at most so much was heard; and what was fed last.
fn time_feeds<R: Clock, D: Disk>(
    rt: &R,
    store: &mut Store<D>,
    fed: Fed,
    most: u32,
) -> io::Result<(u128, Fed)>
    requires out { IsHandedOut (pool_of store.old) 0 fed }
    ensures out { IfOk result (λ timed. IsHandedOut (pool_of store.new) 0 timed.1) }
{
    let start = Instant::now(rt)?;
    let last = hear(store, fed, FEEDS, most, &mut []);
    let took = start.elapsed(rt)?;
    match last {
        Ok(last) => Ok((took.as_nanos() / u128::from(FEEDS), last)),
        Err(_) => Err(no_memory()),
    }
}

// What was fed behind so many windows, none of which is copied.
fn skip<D: Disk>(store: &mut Store<D>, fed: Fed, windows: u32) -> io::Result<Fed>
    requires out { IsHandedOut (pool_of store.old) 0 fed }
    ensures out { IfOk result (IsHandedOut (pool_of store.new) 0) }
{
    match hear(store, fed, windows, u32::MAX, &mut []) {
        Ok(last) => Ok(last),
        Err(_) => Err(no_memory()),
    }
}

// The same of Feeds from a window of the passage on; the job is then heard to its end.
fn time_place<R: Clock, D: Disk>(
    rt: &R,
    store: &mut Store<D>,
    sheet: &Sheet,
    window: u32,
    most: u32,
) -> io::Result<u128> {
    let Ok(first) = begin(store, sheet.length) else {
        return Err(no_memory());
    };
    let fed = skip(store, first, window)?;
    let (took, fed) = time_feeds(rt, store, fed, most)?;
    let last = skip(store, fed, sheet.windows())?;
    if !matches!(last, Fed::Ended(_, _)) {
        return Err(refused());
    }
    Ok(took)
}

// The middle one of some runs.
fn time_window<R: Clock, D: Disk>(
    rt: &R,
    store: &mut Store<D>,
    sheet: &Sheet,
    window: u32,
    most: u32,
) -> io::Result<u128> {
    let mut figures = [0u128; RUNS];
    for figure in figures.iter_mut() {
        *figure = time_place(rt, store, sheet, window, most)?;
    }
    Ok(middle(&mut figures))
}

// The nanoseconds that the reads of a window's blocks alone take, the mean of as many windows from one of the passage on. The rest of the passage is read before and behind them, so they lie in no cache, as those of a Feed.
fn time_reads<R: Clock, D: Disk>(
    rt: &R,
    disk: &mut D,
    sheet: &Sheet,
    window: u32,
) -> io::Result<u128> {
    let passage = &sheet.passage;
    let first = passage.len().min(4 * window as usize);
    let last = passage.len().min(first + 4 * FEEDS as usize);
    let mut room = [0; BLOCK as usize];
    read_all(disk, &passage[..first], &mut room, &mut [])?;
    let start = Instant::now(rt)?;
    read_all(disk, &passage[first..last], &mut room, &mut [])?;
    let took = start.elapsed(rt)?;
    read_all(disk, &passage[last..], &mut room, &mut [])?;
    Ok(took.as_nanos() / u128::from(FEEDS))
}

// The middle one of some runs.
fn read_window<R: Clock, D: Disk>(
    rt: &R,
    disk: &mut D,
    sheet: &Sheet,
    window: u32,
) -> io::Result<u128> {
    let mut figures = [0u128; RUNS];
    for figure in figures.iter_mut() {
        *figure = time_reads(rt, disk, sheet, window)?;
    }
    Ok(middle(&mut figures))
}

// Prints figures of the beginning, the middle and the end of the passage.
fn print_figures<R: Print>(rt: &R, name: &str, figures: [u128; 3]) -> io::Result<()> {
    let [first, half, end] = figures;
    println!(rt;
        "{name}: {first} ns at the beginning of a passage of {PIECES} pieces, {half} ns in its middle, {end} ns at its end"
    )
}

// Prints what a Feed costs by its place in the passage.
fn print_feeds<R: Print + Clock, D: Disk>(
    rt: &R,
    store: &mut Store<D>,
    sheet: &Sheet,
    name: &str,
    most: u32,
) -> io::Result<()> {
    let last = sheet.windows().saturating_sub(FEEDS + 2);
    let first = time_window(rt, store, sheet, 0, most)?;
    let half = time_window(rt, store, sheet, last / 2, most)?;
    let end = time_window(rt, store, sheet, last, most)?;
    print_figures(rt, name, [first, half, end])
}

// Prints what the reads of a window's blocks cost there.
fn print_reads<R: Print + Clock, D: Disk>(rt: &R, disk: &mut D, sheet: &Sheet) -> io::Result<()> {
    let last = sheet.windows().saturating_sub(FEEDS + 2);
    let first = read_window(rt, disk, sheet, 0)?;
    let half = read_window(rt, disk, sheet, last / 2)?;
    let end = read_window(rt, disk, sheet, last)?;
    print_figures(rt, "the reads of its four blocks alone", [first, half, end])
}

/// Prints what a Feed of a whole window costs by its place in the passage, beside the reads of its blocks alone on another disk; and what one costs of which nothing was heard, whose blocks lie in frames.
pub(crate) fn measure_feeds<R: Print + Clock, D: Disk, E: Disk>(
    rt: &R,
    store: &mut Store<D>,
    disk: &mut E,
    sheet: &Sheet,
) -> io::Result<()> {
    print_feeds(rt, store, sheet, "a Feed of a whole window", u32::MAX)?;
    print_reads(rt, disk, sheet)?;
    print_feeds(rt, store, sheet, "a Feed of nothing heard", 0)
}
