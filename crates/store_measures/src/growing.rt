//! The opening of a journal of mixed changes, as their number grows.

use crate::images::{Contents, image};
use crate::opening::time_opening;
use bench_report::disks::shape_of;
use bench_report::report::middle;
use std::alloc::Global;
use std::io;
use std::rt::Clock;

// The area of the journal, in which all changes fit behind one another.
const AREA: u32 = 8 << 20;

const RUNS: usize = 7;

// The nanoseconds of the middle one of some openings.
fn time_middle<R: Clock>(rt: &R, alloc: Global, image: &[u8], ropes: u32) -> io::Result<u128> {
    let mut figures = [0u128; RUNS];
    for figure in figures.iter_mut() {
        *figure = time_opening(rt, alloc, image, ropes)?.as_nanos();
    }
    Ok(middle(&mut figures))
}

// Prints what an opening costs where there are twice so many changes behind the recording, ropes and rows by turns.
fn measure_at<R: Print + Clock>(rt: &R, alloc: Global, pairs: u32) -> io::Result<()> {
    let shape = shape_of(4096, 16, AREA)?;
    let contents = Contents {
        blocks: 1,
        ropes: pairs,
        rows: pairs,
    };
    let image = image(alloc, &shape, contents)?;
    let nanos = time_middle(rt, alloc, &image, pairs.saturating_add(1))?;
    let changes = 2 * u128::from(pairs);
    let micros = nanos / 1000;
    let each = nanos / changes.max(1);
    println!(rt;
        "opening a journal of {changes} changes, ropes and rows by turns: {micros} us, {each} ns a change"
    )
}

/// Prints what opening a store costs by the number of changes in its journal, the middle of some runs.
pub fn measure<R: Print + Clock + AllocGlobal>(rt: &R) -> io::Result<()> {
    measure_at(rt, rt.alloc(), 1_000)?;
    measure_at(rt, rt.alloc(), 4_000)?;
    measure_at(rt, rt.alloc(), 16_000)?;
    measure_at(rt, rt.alloc(), 64_000)
}
