//! Each caller on a thread of its own.

ghost use Rattle.std.specs.Prelude.{ℕ, ◌≡◌, ◌<◌, ◌⊎◌, false, length, All, slice_index_or};
ghost use Rattle.script_lang.specs.Verbs.{is_built_verb};
ghost use Rattle.script_lang.specs.Whole.{IsWhole};
ghost use Rattle.turnstile.specs.Passes.{AreOf};
ghost use Rattle.voice_server.specs.Served.{tapes_of};
ghost use Rattle.callers.specs.Seats.{IsReadyPass, IsReady, HasRun, EachRan, SomeStopped};

use crate::caller::run_caller;
use crate::places::Places;
use crate::seats::{Outcome, Runner, hand_back, line_up};
use script_lang::Script;
use std::alloc::Global;
use std::sync::Wait;
use std::thread;
use std::thread::Threads;
use turnstile::Pass;
use voice_model::Tapes;
use voice_outside::{Disk, Gate};
use voice_server::{Server, Standing};

// The lines of one caller.
fn run_one<R: Wait, D: Disk, G: Gate>(
    rt: &R,
    alloc: Global,
    server: &Server<D>,
    runner: &mut Runner<Pass<Standing<D>>>,
    script: &Script,
    tapes: &Tapes,
    gate: &G,
    places: &Places,
)
    requires pass { IsReady server.now runner.old }
    requires tapes { tapes_of server.now ≡ tapes.now }
    requires lines { IsWhole is_built_verb script.now }
    requires samples { length tapes.now ≡ length script.now.samples }
    ensures { HasRun D.told tapes.now script.now.lines server.now runner.old runner.new }
{
    runner.done = run_caller(
        rt,
        alloc,
        server,
        &mut runner.pass,
        script,
        tapes,
        &mut runner.heard,
        gate,
        places,
    );
}

// All callers, each on a thread of its own where one can be made.
fn run_all<R: Threads + Wait + Sync, D: Disk, G: Gate>(
    rt: &R,
    alloc: Global,
    server: &Server<D>,
    runners: &mut [Runner<Pass<Standing<D>>>],
    script: &Script,
    tapes: &Tapes,
    gate: &G,
    places: &Places,
)
    requires count { 0 < length runners.old }
    requires ready { All (IsReady server.now) runners.old }
    requires tapes { tapes_of server.now ≡ tapes.now }
    requires lines { IsWhole is_built_verb script.now }
    requires samples { length tapes.now ≡ length script.now.samples }
    ensures { (i : ℕ) (d : _) → i < length runners.old → HasRun D.told tapes.now script.now.lines server.now (slice_index_or runners.old i d) (slice_index_or runners.new i d) }
{
    let threads = runners.len();
    let run = move |_: usize, runner: &mut Runner<Pass<Standing<D>>>|
        requires { IsReady server.now runner.now × (tapes_of server.now ≡ tapes.now) × IsWhole is_built_verb script.now × (length tapes.now ≡ length script.now.samples) }
        ensures { HasRun D.told tapes.entry.now script.entry.now.lines server.entry.now runner.entry.now runner.exit.now }
    { run_one(rt, alloc, server, runner, script, tapes, gate, places) };
    thread::for_each_mut(rt, runners, threads, &run);
}

// There was no memory to begin.
fn none_began<D: Disk>(alloc: Global, passes: Vec<Pass<Standing<D>>>) -> Outcome<D>
    ensures passes { result.passes.items ≡ passes.items }
    ensures memory { result.memory ≡ false }
{
    Outcome {
        passes,
        heard: Vec::new(alloc),
        memory: false,
    }
}

/// Runs each caller's lines in order, on a thread of its own, or on this one where none could be made. A caller that meets want of memory stops; where there is no memory to begin, none begins.
pub fn run_threads<R: Threads + Wait + Sync, D: Disk, G: Gate>(
    rt: &R,
    alloc: Global,
    server: &Server<D>,
    mut passes: Vec<Pass<Standing<D>>>,
    script: &Script,
    tapes: &Tapes,
    gate: &G,
) -> Outcome<D>
    requires count { 0 < length passes.items }
    requires ready { All (IsReadyPass server.now) passes.items }
    requires tapes { tapes_of server.now ≡ tapes.now }
    requires lines { IsWhole is_built_verb script.now }
    requires samples { length tapes.now ≡ length script.now.samples }
    ensures of { AreOf server.now.turnstile result.passes.items }
    ensures each { EachRan D.told tapes.now script.now.lines server.now result.memory passes.items result.passes.items result.heard.items }
    // Where there was no memory, none began, or one stopped.
    ensures memory { result.memory ≡ false → (result.passes.items ≡ passes.items) ⊎ SomeStopped tapes.now script.now.lines passes.items result.passes.items }
{
    let Ok(mut heard) = Vec::with_capacity(alloc, passes.len()) else {
        return none_began(alloc, passes);
    };
    let Ok(mut runners) = Vec::with_capacity(alloc, passes.len()) else {
        return none_began(alloc, passes);
    };
    line_up(alloc, &mut passes, &mut runners);
    // A gate may hold a caller back until another one comes to some line, so nobody may wait for a place meanwhile.
    let places = Places::new(gate.is_open());
    run_all(
        rt,
        alloc,
        server,
        runners.as_mut_slice(),
        script,
        tapes,
        gate,
        &places,
    );
    let memory = hand_back(runners, &mut passes, &mut heard);
    Outcome {
        passes,
        heard,
        memory,
    }
}
