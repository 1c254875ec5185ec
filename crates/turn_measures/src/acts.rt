//! What each caller of a run does: it plays a rope on a lane of its own; one of them also records, and one sweeps.

ghost use Rattle.std.specs.Prelude.{◌≡◌};
ghost use Rattle.frame_pool.specs.Pool.{Identity};
ghost use Rattle.players.specs.Players.{IsOfPool};
ghost use Rattle.voice_server.specs.Served.{tapes_of, IsPassOf, IsPlayerOf};

use crate::session::{Session, count, counted};
use std::rt::Clock;
use std::sync::Wait;
use turnstile::Pass;
use voice_model::{Call, Reply, Tapes, Why};
use voice_outside::Disk;
use voice_server::{Player, Server, Standing, Took};
use voice_units::{Lane, Moment, RopeId, Take};

/// The rope that is played: the first one on its disk.
pub(crate) const PLAYED: u64 = 1;

// How many samples a job has. A player plays it from a place of its own in the rope.
const JOB: u32 = 4 << 20;

// How far behind one another the jobs begin.
const APART: u32 = 3 << 18;

// The samples of a window are copied into room for so many.
const ROOM: usize = 4096;

/// How many samples are recorded at a time.
pub(crate) const PIECE: u32 = 64 << 10;

/// How many pieces the tape has.
pub(crate) const PIECES: u32 = 256;

// The caller that also records.
const RECORDER: u16 = 15;

// The caller that also sweeps.
const SWEEPER: u16 = 16;

// By so many seconds time goes on before each sweep: longer than any rope stays that nobody keeps.
const STEP: u64 = 100;

// So many ropes a sweep removes at most.
const SWEPT: u16 = 100;

// The number of the pass's caller.
fn caller_of<D: Disk>(pass: &Pass<Standing<D>>) -> u16 {
    pass.caller()
}

// Copies all of a player's window, a roomful at a time, and says how many samples that were.
fn hear(player: &mut Player) -> u64
    ensures { (pool : Identity) → IsOfPool pool player.old.lease → IsOfPool pool player.new.lease }
{
    let mut room = [0u8; ROOM];
    let mut heard = 0u64;
    for _ in 0..JOB {
        let Took::Samples(n) = player.next(&mut room) else {
            return heard;
        };
        heard = heard.saturating_add(n as u64);
    }
    heard
}

// Records the next piece of the tape. Where the disk has no room until the next sweep, that is an answer too.
fn record<R: Wait, D: Disk>(
    rt: &R,
    server: &Server<D>,
    pass: &mut Pass<Standing<D>>,
    tapes: &Tapes,
    session: &Session,
) -> bool
    requires pass { IsPassOf server.now pass.old }
    requires tapes { tapes_of server.now ≡ tapes.now }
    ensures { IsPassOf server.now pass.new }
{
    let number = counted(&session.recordings) % u64::from(PIECES);
    let take = Take {
        tape: 0,
        from: (number as u32).wrapping_mul(PIECE),
        len: PIECE,
    };
    if !tapes.has(take) {
        return false;
    }
    match server.call(rt, pass, Call::Record(take)) {
        Ok(Reply::Rope(_, _)) => {
            count(&session.recordings, 1);
            true
        }
        Ok(Reply::No(Why::NoRoom(_, _))) => true,
        _ => false,
    }
}

// Lets time go on, and sweeps.
fn sweep<R: Wait, D: Disk>(
    rt: &R,
    server: &Server<D>,
    pass: &mut Pass<Standing<D>>,
    session: &Session,
) -> bool
    requires { IsPassOf server.now pass.old }
    ensures { IsPassOf server.now pass.new }
{
    let steps = counted(&session.sweeps).min(1 << 30) + 1;
    let advanced = server.call(rt, pass, Call::Advance(Moment(steps * STEP)));
    let swept = server.call(rt, pass, Call::Sweep(SWEPT));
    count(&session.sweeps, 1);
    matches!(advanced, Ok(Reply::Done)) && matches!(swept, Ok(Reply::Swept(_, _)))
}

// What a caller does behind each of its windows: the recorder records a piece, the sweeper sweeps, and all others do nothing.
fn work<R: Wait, D: Disk>(
    rt: &R,
    server: &Server<D>,
    pass: &mut Pass<Standing<D>>,
    tapes: &Tapes,
    session: &Session,
) -> bool
    requires pass { IsPassOf server.now pass.old }
    requires tapes { tapes_of server.now ≡ tapes.now }
    ensures { IsPassOf server.now pass.new }
{
    let caller = caller_of(pass);
    if caller == RECORDER {
        return record(rt, server, pass, tapes, session);
    }
    if caller == SWEEPER {
        return sweep(rt, server, pass, session);
    }
    true
}

// Hears the first job of a lane to its end, and works behind each window. Whether all of that went well.
fn serve<R: Wait, D: Disk>(
    rt: &R,
    server: &Server<D>,
    pass: &mut Pass<Standing<D>>,
    lane: Lane,
    tapes: &Tapes,
    session: &Session,
) -> bool
    requires pass { IsPassOf server.now pass.old }
    requires tapes { tapes_of server.now ≡ tapes.now }
    ensures { IsPassOf server.now pass.new }
{
    let mut player = server.player(lane);
    for _ in 0..JOB {
        let Ok(reply) = server.feed(rt, pass, &mut player) else {
            return false;
        };
        let Reply::Window(_, _) = reply else {
            return matches!(reply, Reply::Ended(_, JOB));
        };
        count(&session.samples, hear(&mut player));
        if !work(rt, server, pass, tapes, session) {
            return false;
        }
    }
    false
}

// A job on the caller's own lane, heard to its end.
fn play<R: Wait, D: Disk>(
    rt: &R,
    server: &Server<D>,
    pass: &mut Pass<Standing<D>>,
    tapes: &Tapes,
    session: &Session,
) -> bool
    requires pass { IsPassOf server.now pass.old }
    requires tapes { tapes_of server.now ≡ tapes.now }
    ensures { IsPassOf server.now pass.new }
{
    let own = caller_of(pass).saturating_sub(1);
    let start = u32::from(own).saturating_mul(APART);
    let call = Call::Play(Lane(own), RopeId(PLAYED), start, JOB);
    let Ok(Reply::Job(_)) = server.call(rt, pass, call) else {
        return false;
    };
    serve(rt, server, pass, Lane(own), tapes, session)
}

/// Plays a job again and again until the time of the run is over. A caller that fails stops, and is counted.
pub(crate) fn take_part<R: Clock + Wait, D: Disk>(
    rt: &R,
    server: &Server<D>,
    pass: &mut Pass<Standing<D>>,
    tapes: &Tapes,
    session: &Session,
)
    requires pass { IsPassOf server.now pass.old }
    requires tapes { tapes_of server.now ≡ tapes.now }
    ensures { IsPassOf server.now pass.new }
{
    for _ in 0..u64::MAX {
        if !play(rt, server, pass, tapes, session) {
            count(&session.failures, 1);
            return;
        }
        if session.is_over(rt) {
            return;
        }
    }
}
