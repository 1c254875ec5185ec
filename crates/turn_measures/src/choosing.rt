//! Which measurements a word asks for.

ghost use Rattle.script_lang.specs.Verbs.{is_built_verb};
ghost use Rattle.script_lang.specs.Whole.{IsWhole};

use crate::alone::time_alone;
use crate::rates;
use crate::scripts::script_of;
use crate::serving::time_served;
use bench_report::disks::shape_of;
use bench_report::report::{hundredths_of, is_asked};
use script_lang::Script;
use std::alloc::Global;
use std::io;
use std::rt::Clock;
use std::sync::Wait;
use std::thread::Threads;
use store_measures::figures::print_middle;
use store_measures::images::{Contents, image};

const RUNS: usize = 7;

// How many times as long the calls of a script take through a server as of the store alone, in hundredths.
fn compare<R: Clock + Threads + Wait + Sync>(
    rt: &R,
    alloc: Global,
    image: &[u8],
    script: &Script,
) -> io::Result<u128>
    requires { IsWhole is_built_verb script.now }
{
    let bare = time_alone(rt, alloc, image)?;
    let took = time_served(rt, alloc, image, script)?;
    Ok(hundredths_of(took, bare))
}

// Prints what the calls of a script cost through a server, beside those of the store alone.
fn measure_script<R: Print + Clock + Threads + Wait + Sync>(
    rt: &R,
    alloc: Global,
    image: &[u8],
    script: &Script,
) -> io::Result<()>
    requires { IsWhole is_built_verb script.now }
{
    let mut figures = [0u128; RUNS];
    for figure in figures.iter_mut() {
        *figure = compare(rt, alloc, image, script)?;
    }
    let callers = script.callers;
    print!(rt; "{callers} callers: ")?;
    print_middle(
        rt,
        "calls through a server, to the store alone",
        &mut figures,
    )
}

fn measure_callers<R: Print + Clock + Threads + Wait + Sync>(
    rt: &R,
    alloc: Global,
    image: &[u8],
    callers: usize,
) -> io::Result<()> {
    let script = script_of(alloc, callers)?;
    measure_script(rt, alloc, image, &script)
}

fn measure_image<R: Print + Clock + Threads + Wait + Sync>(
    rt: &R,
    alloc: Global,
    image: &[u8],
) -> io::Result<()> {
    measure_callers(rt, alloc, image, 1)?;
    measure_callers(rt, alloc, image, 2)?;
    measure_callers(rt, alloc, image, 4)?;
    measure_callers(rt, alloc, image, 16)
}

// Prints the same of 1, 2, 4 and 16 callers, over a disk with rope 1.
fn measure_turns<R: Print + Clock + Threads + Wait + Sync>(
    rt: &R,
    alloc: Global,
) -> io::Result<()> {
    let shape = shape_of(4096, 16, 4096)?;
    let contents = Contents {
        blocks: 1,
        ropes: 0,
        rows: 0,
    };
    let image = image(alloc, &shape, contents)?;
    measure_image(rt, alloc, &image)
}

/// Makes the measurements over threads that a word asks for: `turns`, `players`, or `all`; none by another word. `turns` prints what the same calls cost through a server with 1, 2, 4 and 16 callers, each on a thread of its own, beside calls of the store alone, the middle of some runs; `players` how many samples a second 16 players hear, of whom two also record and sweep, and one alone.
pub fn measure<R: Print + Clock + AllocGlobal + Threads + Wait + Sync>(
    rt: &R,
    word: &str,
) -> io::Result<()> {
    if is_asked(word, "turns") {
        measure_turns(rt, rt.alloc())?;
    }
    if is_asked(word, "players") {
        rates::measure(rt, rt.alloc())?;
    }
    Ok(())
}
