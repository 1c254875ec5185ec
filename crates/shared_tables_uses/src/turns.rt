// Turns of callers, each on a thread of its own.
ghost use Rattle.std.specs.Prelude.{◌≡◌, ◌+◌, ◌<◌, ℕ, length};
ghost use Rattle.turnstile.specs.Passes.{AreOf, mine};
ghost use Rattle.shared_tables_uses.specs.Turns.{IsReady, HasSeenAll};

use crate::hall::Hall;
use crate::tally::Tally;
use std::sync::Wait;
use std::thread;
use std::thread::Threads;
use turnstile::Pass;

/// One turn of a caller, and how many entries it made.
pub fn take_turn<R: Wait>(rt: &R, hall: &Hall<Tally>, pass: &mut Pass<Tally>) -> u32
    requires { IsReady hall.now pass.old }
    ensures ready { IsReady hall.now pass.new }
    ensures caller { pass.new.caller ≡ pass.old.caller }
    ensures mine { length (mine pass.new) ≡ length (mine pass.old) + result }
    ensures seen { HasSeenAll hall.now pass.new }
{
    let mut tally = hall.turnstile.enter(rt, pass);
    let caller = pass.caller();
    let entries = tally.count(caller);
    hall.turnstile.leave(pass, tally, entries);
    entries
}

/// Turns of a caller.
pub fn take_turns<R: Wait>(rt: &R, hall: &Hall<Tally>, pass: &mut Pass<Tally>, times: u32)
    requires { IsReady hall.now pass.old }
    ensures ready { IsReady hall.now pass.new }
    ensures caller { pass.new.caller ≡ pass.old.caller }
{
    for _ in 0..times {
        take_turn(rt, hall, pass);
    }
}

/// Turns of all callers, each on a thread of its own where one can be made.
pub fn run_all<R: Threads + Wait + Sync>(
    rt: &R,
    hall: &Hall<Tally>,
    passes: &mut [Pass<Tally>],
    times: u32,
)
    requires count { 0 < length passes.old }
    requires ready { AreOf hall.now.turnstile passes.old }
    ensures { AreOf hall.now.turnstile passes.new }
{
    let threads = passes.len();
    let run = move |_: usize, pass: &mut Pass<Tally>|
        requires { IsReady hall.now pass.now }
        ensures { IsReady hall.entry.now pass.exit.now }
    { take_turns(rt, hall, pass, times) };
    thread::for_each_mut(rt, passes, threads, &run);
}
