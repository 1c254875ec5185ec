//! Callers on threads that share a store.

ghost use Rattle.std.specs.Prelude.{◌≡◌, ◌<◌, length};
ghost use Rattle.voice_store.specs.Shown.{history_of, tapes_in};
ghost use Rattle.turnstile.specs.Turns.{Begins};
ghost use Rattle.turnstile.specs.Passes.{AreOf};
ghost use Rattle.voice_server.specs.Kept.{IsKept};
ghost use Rattle.voice_server.specs.Served.{tapes_of, IsPassOf};

use std::alloc::Global;
use std::sync::Wait;
use std::thread;
use std::thread::Threads;
use turnstile::Pass;
use voice_model::{Call, Reply, Tapes};
use voice_outside::Disk;
use voice_server::{Server, Standing};
use voice_store::Store;
use voice_units::{NoMemory, Take};

// What a caller does when its turns come: it records a tape, and cuts off the first half of what it recorded. Other callers may have turns in between.
fn speak<R: Wait, D: Disk>(
    rt: &R,
    server: &Server<D>,
    pass: &mut Pass<Standing<D>>,
    tapes: &Tapes,
) -> Result<(), NoMemory>
    requires pass { IsPassOf server.now pass.old }
    requires tapes { tapes_of server.now ≡ tapes.now }
    ensures { IsPassOf server.now pass.new }
{
    let take = Take {
        tape: u32::from(pass.caller()) - 1,
        from: 0,
        len: 20,
    };
    // `call` wants to know that the tape has these samples.
    if !tapes.has(take) {
        return Ok(());
    }
    // A refusal is an answer as any other: it stands in the history.
    if let Reply::Rope(rope, len) = server.call(rt, pass, Call::Record(take))? {
        server.call(rt, pass, Call::Sub(rope, 0, len / 2))?;
    }
    Ok(())
}

// Each caller on a thread of its own, or on this one where none can be made.
fn speak_all<R: Threads + Wait + Sync, D: Disk>(
    rt: &R,
    server: &Server<D>,
    passes: &mut [Pass<Standing<D>>],
    tapes: &Tapes,
)
    requires count { 0 < length passes.old }
    requires of { AreOf server.now.turnstile passes.old }
    requires tapes { tapes_of server.now ≡ tapes.now }
    ensures { AreOf server.now.turnstile passes.new }
{
    let threads = passes.len();
    let run = move |_: usize, pass: &mut Pass<Standing<D>>|
        requires { IsPassOf server.now pass.now × (tapes_of server.now ≡ tapes.now) }
        ensures { IsPassOf server.entry.now pass.exit.now }
    {
        // After want of memory the caller has stopped; what it did stands in the history.
        let _done = speak(rt, server, pass, tapes);
    };
    thread::for_each_mut(rt, passes, threads, &run);
}

/// Two callers record a tape each and cut it, on threads of their own. The history that the store had goes on with what they did, in the order of their turns, and the store keeps all that it kept: the history is legal, and the disk holds it.
pub fn record_both<R: Threads + Wait + Sync, D: Disk>(
    rt: &R,
    alloc: Global,
    store: Store<D>,
    tapes: &Tapes,
) -> Store<D>
    requires kept { IsKept D.told store }
    requires tapes { tapes_in store ≡ tapes.now }
    ensures kept { IsKept D.told result }
    ensures begins { Begins (history_of store) (history_of result) }
    ensures same { (result.origin ≡ store.origin) × (tapes_in result ≡ tapes_in store) }
{
    let (server, mut passes) = match Server::new(alloc, store, 2) {
        Ok(made) => made,
        Err((_none, store)) => return store,
    };
    speak_all(rt, &server, passes.as_mut_slice(), tapes);
    server.close(passes, Vec::new(alloc))
}
