//! Stores, and calls of them that have to be answered.

ghost use Rattle.std.specs.Prelude.{◌≡◌, IfOk, IfSome, IsTrue, length};
ghost use Rattle.std.specs.Arc.{arc_value};
ghost use Rattle.built_calls.specs.Built.{is_built};
ghost use Rattle.voice_model.specs.Valid.{InRange};
ghost use Rattle.voice_store.specs.Facts.{TakesAreIn, HasRopes};
ghost use Rattle.voice_store.specs.Shown.{tapes_in};

use bench_report::disks::size_of;
use std::alloc::{AllocError, Global};
use std::io::{self, ErrorKind};
use std::sync::Arc;
use voice_model::{Call, Reply, Tapes};
use voice_outside::Disk;
use voice_store::Store;
use voice_units::{Lane, NoMemory, RopeId, Shape, Take};

/// No tapes.
pub fn no_tapes(alloc: Global) -> io::Result<Arc<Tapes, Global>>
    ensures { IfOk result (λ tapes. length (arc_value tapes) ≡ 0) }
{
    match Arc::new(alloc, Tapes::new(Vec::new(alloc))) {
        Ok(tapes) => Ok(tapes),
        Err(_) => Err(io::Error::from(AllocError)),
    }
}

/// The store of a disk; none where it isn't opened.
pub fn open_store<D: Disk + Drop>(
    alloc: Global,
    disk: D,
    tapes: Arc<Tapes, Global>,
) -> Option<Store<D>>
    ensures { IfSome result (λ store. tapes_in store ≡ arc_value tapes) }
{
    match Store::open(alloc, disk, tapes) {
        Ok(store) => Some(store),
        Err(_) => None,
    }
}

/// Lets a store go. One function does it for all measurements, since a proof has to go through all that is let go.
pub fn let_go<D: Disk + Drop>(store: Store<D>) {
    let (_disk, _history) = store.close();
}

// Whether there was memory, and the call was not refused.
fn is_done(reply: &Result<Reply, NoMemory>) -> bool {
    match reply {
        Ok(reply) => !matches!(reply, Reply::No(_)),
        Err(_) => false,
    }
}

/// Makes a call of the first caller, and says whether it is done: there was memory, and the call was not refused.
pub fn ask<D: Disk>(store: &mut Store<D>, call: Call) -> bool
    requires built { IsTrue (is_built call) }
    requires takes { TakesAreIn (tapes_in store.old) call }
    requires ropes { HasRopes call }
    requires range { InRange call }
    ensures tapes { tapes_in store.new ≡ tapes_in store.old }
{
    let reply = store.apply(1, call);
    is_done(&reply)
}

/// Formats a disk that is large enough for the shape.
pub fn format<D: Disk>(disk: &mut D, shape: &Shape) -> io::Result<()> {
    if size_of(shape) > disk.size() {
        return Err(io::Error::from(ErrorKind::InvalidInput));
    }
    if Store::format(disk, shape).is_err() {
        return Err(io::Error::from(ErrorKind::InvalidData));
    }
    Ok(())
}

/// Records samples of the tapes.
pub fn record<D: Disk>(store: &mut Store<D>, tapes: &Tapes, take: Take) -> bool
    requires { tapes_in store.old ≡ tapes.now }
    ensures { tapes_in store.new ≡ tapes_in store.old }
{
    if !tapes.has(take) {
        return false;
    }
    ask(store, Call::Record(take))
}

/// Adds samples of the tapes to a lane's open recording.
pub fn add<D: Disk>(store: &mut Store<D>, tapes: &Tapes, lane: Lane, take: Take) -> bool
    requires { tapes_in store.old ≡ tapes.now }
    ensures { tapes_in store.new ≡ tapes_in store.old }
{
    if !tapes.has(take) {
        return false;
    }
    ask(store, Call::Add(lane, take))
}

/// Makes a rope of `len` samples of another one, from `start` on.
pub fn cut<D: Disk>(store: &mut Store<D>, rope: RopeId, start: u32, len: u32) -> bool {
    ask(store, Call::Sub(rope, start, len))
}

/// Makes a rope with another in place of `len` samples from `start` on.
pub fn replace<D: Disk>(
    store: &mut Store<D>,
    rope: RopeId,
    start: u32,
    len: u32,
    with: RopeId,
) -> bool {
    ask(store, Call::Replace(rope, start, len, with))
}

/// Whether a rope is live.
pub fn is_live<D: Disk>(store: &mut Store<D>, rope: RopeId) -> bool {
    ask(store, Call::Length(rope))
}
