//! A telephone: a caller's player hears a job while other callers have their turns.

ghost use Rattle.std.specs.Prelude.{◌≡◌, ◌<◌, length};
ghost use Rattle.turnstile.specs.Passes.{AreOf};
ghost use Rattle.voice_store.specs.Shown.{tapes_in};
ghost use Rattle.voice_server.specs.Kept.{IsKept};
ghost use Rattle.voice_server.specs.Served.{store_of, tapes_of, IsPassOf};

use servings::serve_job;
use std::alloc::Global;
use std::sync::Wait;
use turnstile::Pass;
use voice_model::{Call, Reply, Tapes};
use voice_outside::{Disk, OpenGate};
use voice_server::{Server, Standing};
use voice_store::Store;
use voice_units::{Lane, NoMemory, Take};

const LANE: Lane = Lane(0);

// The caller records a tape, and hears it on a lane.
fn recall<R: Wait, D: Disk>(
    rt: &R,
    server: &Server<D>,
    pass: &mut Pass<Standing<D>>,
    tapes: &Tapes,
    heard: &mut Vec<u8>,
) -> Result<(), NoMemory>
    requires pass { IsPassOf server.now pass.old }
    requires tapes { tapes_of server.now ≡ tapes.now }
    ensures { IsPassOf server.now pass.new }
{
    let take = Take {
        tape: 0,
        from: 0,
        len: 64,
    };
    if !tapes.has(take) {
        return Ok(());
    }
    let reply = server.call(rt, pass, Call::Record(take))?;
    let Reply::Rope(rope, len) = reply else {
        return Ok(());
    };
    server.call(rt, pass, Call::Play(LANE, rope, 0, len))?;
    let mut player = server.player(LANE);
    let _last = serve_job(rt, server, pass, &mut player, heard, &OpenGate, 1, 0)?;
    Ok(())
}

// The first of the callers does so.
fn recall_first<R: Wait, D: Disk>(
    rt: &R,
    server: &Server<D>,
    passes: &mut [Pass<Standing<D>>],
    tapes: &Tapes,
    heard: &mut Vec<u8>,
)
    requires count { 0 < length passes.old }
    requires of { AreOf server.now.turnstile passes.old }
    requires tapes { tapes_of server.now ≡ tapes.now }
    ensures { AreOf server.now.turnstile passes.new }
{
    // After want of memory less is heard.
    let _done = recall(rt, server, &mut passes[0], tapes, heard);
}

/// One caller records 64 samples of the first tape, and hears them through a player. The store keeps all that it kept.
pub fn play_back<R: Wait, D: Disk>(
    rt: &R,
    alloc: Global,
    store: Store<D>,
    tapes: &Tapes,
    heard: &mut Vec<u8>,
) -> Store<D>
    requires kept { IsKept D.told store }
    requires tapes { tapes_in store ≡ tapes.now }
    ensures kept { IsKept D.told result }
    ensures same { (result.origin ≡ store.origin) × (tapes_in result ≡ tapes_in store) }
{
    let (server, mut passes) = match Server::new(alloc, store, 1) {
        Ok(made) => made,
        Err((_none, store)) => return store,
    };
    recall_first(rt, &server, passes.as_mut_slice(), tapes, heard);
    server.close(passes, Vec::new(alloc))
}
