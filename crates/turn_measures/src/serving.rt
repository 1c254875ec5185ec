//! The calls of a script, made through a server.

ghost use Rattle.std.specs.Prelude.{◌≡◌, IfSome, length};
ghost use Rattle.std.specs.Arc.{arc_value};
ghost use Rattle.script_lang.specs.Verbs.{is_built_verb};
ghost use Rattle.script_lang.specs.Whole.{IsWhole};
ghost use Rattle.voice_store.specs.Shown.{tapes_in};
ghost use Rattle.voice_server.specs.Kept.{IsKept};

use callers::{Outcome, run_threads};
use script_lang::Script;
use std::alloc::{AllocError, Global};
use std::io::{self, ErrorKind};
use std::rt::Clock;
use std::sync::{Arc, Wait};
use std::thread::Threads;
use std::time::{Duration, Instant};
use store_measures::images::disk_with;
use store_measures::stores::{let_go, no_tapes};
use voice_disk::MemDisk;
use voice_model::Tapes;
use voice_outside::{Disk, OpenGate};
use voice_server::Server;
use voice_store::Store;

/// The store of a disk, which keeps all that a server wants of it; none where it isn't opened.
pub fn open_kept<D: Disk + Drop>(
    alloc: Global,
    disk: D,
    tapes: Arc<Tapes, Global>,
) -> Option<Store<D>>
    ensures kept { IfSome result (λ store. IsKept D.told store) }
    ensures tapes { IfSome result (λ store. tapes_in store ≡ arc_value tapes) }
{
    match Store::open(alloc, disk, tapes) {
        Ok(store) => Some(store),
        Err(_) => None,
    }
}

// The time since a start, where all lines were done.
fn elapsed<R: Clock>(rt: &R, start: io::Result<Instant>, is_whole: bool) -> io::Result<Duration> {
    let took = start?.elapsed(rt)?;
    if !is_whole {
        return Err(io::Error::from(AllocError));
    }
    Ok(took)
}

// How long the callers of a script take for all its lines, each on a thread of its own.
fn time_callers<R: Clock + Threads + Wait + Sync, D: Disk + Drop>(
    rt: &R,
    alloc: Global,
    store: Store<D>,
    script: &Script,
    tapes: &Tapes,
) -> io::Result<Duration>
    requires kept { IsKept D.told store }
    requires tapes { tapes_in store ≡ tapes.now }
    requires whole { IsWhole is_built_verb script.now }
    requires samples { length tapes.now ≡ length script.now.samples }
{
    let (server, passes) = match Server::new(alloc, store, script.callers) {
        Ok(made) => made,
        Err((_none, store)) => {
            let_go(store);
            return Err(io::Error::from(AllocError));
        }
    };
    let start = Instant::now(rt);
    let Outcome {
        passes,
        heard: _,
        memory,
    } = run_threads(rt, alloc, &server, passes, script, tapes, &OpenGate);
    let took = elapsed(rt, start, memory);
    let_go(server.close(passes, Vec::new(alloc)));
    took
}

// The same of a new store.
fn time_new<R: Clock + Threads + Wait + Sync>(
    rt: &R,
    alloc: Global,
    disk: MemDisk,
    script: &Script,
    tapes: &Arc<Tapes, Global>,
) -> io::Result<Duration>
    requires whole { IsWhole is_built_verb script.now }
    requires samples { length (arc_value tapes.now) ≡ length script.now.samples }
{
    let Ok(shared) = Arc::try_clone(tapes) else {
        return Err(io::Error::from(AllocError));
    };
    let Some(store) = open_kept(alloc, disk, shared) else {
        return Err(io::Error::from(ErrorKind::InvalidData));
    };
    time_callers(rt, alloc, store, script, tapes)
}

/// How long all calls of a script take a server of a new store of a disk of these bytes.
pub fn time_served<R: Clock + Threads + Wait + Sync>(
    rt: &R,
    alloc: Global,
    image: &[u8],
    script: &Script,
) -> io::Result<Duration>
    requires { IsWhole is_built_verb script.now }
{
    if !script.samples.is_empty() {
        return Err(io::Error::from(ErrorKind::InvalidInput));
    }
    let tapes = no_tapes(alloc)?;
    let disk = disk_with(alloc, image)?;
    time_new(rt, alloc, disk, script, &tapes)
}
