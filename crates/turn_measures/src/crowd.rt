//! Callers on threads of their own, who play one rope.

ghost use Rattle.std.specs.Prelude.{◌≡◌, ◌<◌, length};
ghost use Rattle.turnstile.specs.Passes.{AreOf};
ghost use Rattle.voice_server.specs.Served.{tapes_of, IsPassOf};

use crate::acts::{PIECE, PIECES, PLAYED, take_part};
use crate::session::{Session, Tally};
use std::io::{self, ErrorKind};
use std::rt::Clock;
use std::sync::Wait;
use std::thread;
use std::thread::Threads;
use turnstile::Pass;
use voice_model::{Call, Class, Key, Note, Reply, Tapes};
use voice_outside::Disk;
use voice_server::{Server, Standing};
use voice_units::{RopeId, Take};

// The whole tape, which is the rope that is played.
const WHOLE: Take = Take {
    tape: 0,
    from: 0,
    len: PIECES * PIECE,
};

fn refused() -> io::Error {
    io::Error::from(ErrorKind::InvalidData)
}

// Keeps the rope that is played, so that no sweep removes it.
fn keep<R: Wait, D: Disk>(rt: &R, server: &Server<D>, pass: &mut Pass<Standing<D>>) -> bool
    requires { IsPassOf server.now pass.old }
    ensures { IsPassOf server.now pass.new }
{
    let Ok(key) = Key::new(b"played") else {
        return false;
    };
    let Ok(note) = Note::new(&[]) else {
        return false;
    };
    let call = Call::Retain(Class::Held, key, RopeId(PLAYED), note);
    let reply = server.call(rt, pass, call);
    matches!(reply, Ok(Reply::Done))
}

// Records the rope that is played, and keeps it; false where that is refused.
fn prepare<R: Wait, D: Disk>(
    rt: &R,
    server: &Server<D>,
    pass: &mut Pass<Standing<D>>,
    tapes: &Tapes,
) -> bool
    requires pass { IsPassOf server.now pass.old }
    requires tapes { tapes_of server.now ≡ tapes.now }
    ensures { IsPassOf server.now pass.new }
{
    if !tapes.has(WHOLE) {
        return false;
    }
    let Ok(Reply::Rope(_, _)) = server.call(rt, pass, Call::Record(WHOLE)) else {
        return false;
    };
    keep(rt, server, pass)
}

// The first of the callers does so.
fn prepare_first<R: Wait, D: Disk>(
    rt: &R,
    server: &Server<D>,
    passes: &mut [Pass<Standing<D>>],
    tapes: &Tapes,
) -> bool
    requires count { 0 < length passes.old }
    requires of { AreOf server.now.turnstile passes.old }
    requires tapes { tapes_of server.now ≡ tapes.now }
    ensures { AreOf server.now.turnstile passes.new }
{
    prepare(rt, server, &mut passes[0], tapes)
}

// Each caller on a thread of its own, or on this one where none can be made.
fn run_all<R: Clock + Threads + Wait + Sync, D: Disk>(
    rt: &R,
    server: &Server<D>,
    passes: &mut [Pass<Standing<D>>],
    tapes: &Tapes,
    session: &Session,
)
    requires count { 0 < length passes.old }
    requires of { AreOf server.now.turnstile passes.old }
    requires tapes { tapes_of server.now ≡ tapes.now }
    ensures { AreOf server.now.turnstile passes.new }
{
    let threads = passes.len();
    let run = move |_: usize, pass: &mut Pass<Standing<D>>|
        requires { IsPassOf server.now pass.now × (tapes_of server.now ≡ tapes.now) }
        ensures { IsPassOf server.entry.now pass.exit.now }
    { take_part(rt, server, pass, tapes, session) };
    thread::for_each_mut(rt, passes, threads, &run);
}

/// Makes the rope that is played, runs all callers for a while, and says what came of it.
pub(crate) fn run_passes<R: Clock + Threads + Wait + Sync, D: Disk>(
    rt: &R,
    server: &Server<D>,
    passes: &mut [Pass<Standing<D>>],
    tapes: &Tapes,
) -> io::Result<Tally>
    requires count { 0 < length passes.old }
    requires of { AreOf server.now.turnstile passes.old }
    requires tapes { tapes_of server.now ≡ tapes.now }
    ensures { AreOf server.now.turnstile passes.new }
{
    if !prepare_first(rt, server, passes, tapes) {
        return Err(refused());
    }
    let session = Session::begin(rt)?;
    run_all(rt, server, passes, tapes, &session);
    match session.tally(rt)? {
        Some(tally) => Ok(tally),
        None => Err(refused()),
    }
}
