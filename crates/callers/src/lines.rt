//! One line of a caller.

ghost use Rattle.std.specs.Prelude.{ℕ, List, ◌≡◌, ◌⊎◌, OnOk, OnErr, Some, length};
ghost use Rattle.voice_model.specs.Follows.{Binding};
ghost use Rattle.script_lang.specs.declared.scripts.Verb.TheVariants as verbs;
ghost use Rattle.script_lang.specs.Errands.{HasFile, SameValues};
ghost use Rattle.turnstile.specs.Turns.{Begins};
ghost use Rattle.turnstile.specs.Passes.{mine, seen, IsAllOf};
ghost use Rattle.voice_store.specs.Shown.{history_of};
ghost use Rattle.voice_server.specs.Served.{store_of, tapes_of, IsPassOf};
ghost use Rattle.servings.specs.Servings.{HasServedInto};
ghost use Rattle.callers.specs.Lines.{IsRunnable, LineBegan};
ghost use Rattle.served_files.specs.Given.{names_in, bytes_in};
ghost use Rattle.callers.specs.Passed.{LaneServed, LineServed, LineServedInto, CallFollowed, CallFollowedInto, LineDone, LinePassed, LaneIsHeard, IsMoreHeard, IsHeardIfOwn};

use script_lang::{Env, Line, Verb, resolve};
use served_files::{Heard, keep};
use servings::serve_job;
use std::alloc::Global;
use std::sync::Wait;
use turnstile::Pass;
use voice_model::{Reply, Tapes};
use voice_outside::{Disk, Gate};
use voice_server::{Server, Standing};
use voice_units::{Lane, Name, NoMemory};

// Serves the first job of a lane, and keeps what was heard of it, if there was one: the file of that name. After `NoMemory` part of the job may be served.
fn serve_lane<R: Wait, D: Disk, G: Gate>(
    rt: &R,
    alloc: Global,
    server: &Server<D>,
    pass: &mut Pass<Standing<D>>,
    lane: Lane,
    file: Name,
    heard: &mut Vec<Heard>,
    gate: &G,
    line: u32,
    turn: u32,
) -> Result<(), NoMemory>
    requires pass { IsPassOf server.now pass.old }
    requires all { IsAllOf (history_of (store_of server.now)) (seen pass.old) pass.old.caller (mine pass.old) }
    ensures pass { IsPassOf server.now pass.new }
    ensures caller { pass.new.caller ≡ pass.old.caller }
    ensures all { IsAllOf (history_of (store_of server.now)) (seen pass.new) pass.new.caller (mine pass.new) }
    ensures seen { Begins (seen pass.old) (seen pass.new) }
    ensures ok { OnOk result (LaneServed lane (Some file) (mine pass.old) (mine pass.new) (names_in heard.old.items) (names_in heard.new.items)) }
    ensures err { OnErr result (HasServedInto lane pass.old pass.new) }
    ensures bytes { OnOk result (LaneIsHeard D.told server.now lane pass.old pass.new (bytes_in heard.old.items) (bytes_in heard.new.items)) }
{
    let mut player = server.player(lane);
    let mut bytes = Vec::new(alloc);
    let reply = serve_job(rt, server, pass, &mut player, &mut bytes, gate, line, turn)?;
    keep(heard, file, bytes, &reply)
}

// Does a serve line, which makes no call.
fn run_serve_line<R: Wait, D: Disk, G: Gate>(
    rt: &R,
    alloc: Global,
    server: &Server<D>,
    pass: &mut Pass<Standing<D>>,
    line: &Line,
    heard: &mut Vec<Heard>,
    gate: &G,
) -> Result<(), NoMemory>
    requires pass { IsPassOf server.now pass.old }
    requires all { IsAllOf (history_of (store_of server.now)) (seen pass.old) pass.old.caller (mine pass.old) }
    requires serves { (lane : ℕ) × (line.now.verb ≡ verbs.Serve lane) }
    requires file { HasFile line.now.verb line.now.file }
    ensures pass { IsPassOf server.now pass.new }
    ensures caller { pass.new.caller ≡ pass.old.caller }
    ensures all { IsAllOf (history_of (store_of server.now)) (seen pass.new) pass.new.caller (mine pass.new) }
    ensures seen { Begins (seen pass.old) (seen pass.new) }
    ensures ok { OnOk result (LineServed line.now.verb line.now.file (mine pass.old) (mine pass.new) (names_in heard.old.items) (names_in heard.new.items)) }
    ensures err { OnErr result (LineServedInto line.now.verb (mine pass.old) (mine pass.new)) }
    ensures bytes { OnOk result (IsMoreHeard D.told (tapes_of server.now) server.now line.now.verb pass.old pass.new (bytes_in heard.old.items) (bytes_in heard.new.items)) }
{
    let Verb::Serve(lane) = &line.verb else {
        unreachable!()
    };
    let Some(file) = &line.file else {
        unreachable!()
    };
    serve_lane(
        rt,
        alloc,
        server,
        pass,
        *lane,
        file.name(),
        heard,
        gate,
        line.number,
        0,
    )
}

// Serves the lane of a play line whose call made a job; behind the call of every other line nothing comes.
fn serve_played<R: Wait, D: Disk, G: Gate>(
    rt: &R,
    alloc: Global,
    server: &Server<D>,
    pass: &mut Pass<Standing<D>>,
    line: &Line,
    reply: &Reply,
    heard: &mut Vec<Heard>,
    gate: &G,
) -> Result<(), NoMemory>
    requires pass { IsPassOf server.now pass.old }
    requires all { IsAllOf (history_of (store_of server.now)) (seen pass.old) pass.old.caller (mine pass.old) }
    requires file { HasFile line.now.verb line.now.file }
    ensures pass { IsPassOf server.now pass.new }
    ensures caller { pass.new.caller ≡ pass.old.caller }
    ensures all { IsAllOf (history_of (store_of server.now)) (seen pass.new) pass.new.caller (mine pass.new) }
    ensures seen { Begins (seen pass.old) (seen pass.new) }
    ensures ok { OnOk result (CallFollowed line.now.verb reply.now line.now.file (mine pass.old) (mine pass.new) (names_in heard.old.items) (names_in heard.new.items)) }
    ensures err { OnErr result (CallFollowedInto line.now.verb reply.now (mine pass.old) (mine pass.new)) }
    ensures bytes { OnOk result (IsMoreHeard D.told (tapes_of server.now) server.now line.now.verb pass.old pass.new (bytes_in heard.old.items) (bytes_in heard.new.items)) }
{
    let Verb::Play(lane, _, _, _) = &line.verb else {
        return Ok(());
    };
    let Reply::Job(_) = reply else {
        return Ok(());
    };
    let Some(file) = &line.file else {
        unreachable!()
    };
    serve_lane(
        rt,
        alloc,
        server,
        pass,
        *lane,
        file.name(),
        heard,
        gate,
        line.number,
        1,
    )
}

/// Does a line: makes its call, if it asks for one, and sets the variable that it binds; then it serves its lane, if it serves one. After `NoMemory` the first of the line's entries may stand.
pub(crate) fn run_line<R: Wait, D: Disk, G: Gate>(
    rt: &R,
    alloc: Global,
    server: &Server<D>,
    pass: &mut Pass<Standing<D>>,
    tapes: &Tapes,
    line: &Line,
    variables: &mut Env,
    heard: &mut Vec<Heard>,
    gate: &G,
) -> Result<(), NoMemory>
    requires pass { IsPassOf server.now pass.old }
    requires all { IsAllOf (history_of (store_of server.now)) (seen pass.old) pass.old.caller (mine pass.old) }
    requires tapes { tapes_of server.now ≡ tapes.now }
    requires line { IsRunnable (length tapes.now) line.now }
    ensures pass { IsPassOf server.now pass.new }
    ensures caller { pass.new.caller ≡ pass.old.caller }
    ensures all { IsAllOf (history_of (store_of server.now)) (seen pass.new) pass.new.caller (mine pass.new) }
    ensures seen { Begins (seen pass.old) (seen pass.new) }
    ensures began { (stand : List Binding) → SameValues variables.old stand → OnErr result ((mine pass.new ≡ mine pass.old) ⊎ LineBegan tapes.now line.now stand (mine pass.old) (mine pass.new)) }
    ensures ok { (stand : List Binding) → SameValues variables.old stand → OnOk result (LineDone tapes.now line.now stand variables.new (mine pass.old) (mine pass.new) (names_in heard.old.items) (names_in heard.new.items)) }
    ensures bytes { OnOk result (IsMoreHeard D.told tapes.now server.now line.now.verb pass.old pass.new (bytes_in heard.old.items) (bytes_in heard.new.items)) }
{
    let Some(call) = resolve(alloc, line, variables, tapes)? else {
        run_serve_line(rt, alloc, server, pass, line, heard, gate)?;
        gate.after(line.caller, line.number);
        return Ok(());
    };
    gate.before(line.caller, line.number, 0);
    let reply = server.call(rt, pass, call)?;
    serve_played(rt, alloc, server, pass, line, &reply, heard, gate)?;
    gate.after(line.caller, line.number);
    variables.bind(line, &reply)
}

/// The same, where the line is one of this caller; else nothing.
pub(crate) fn run_own_line<R: Wait, D: Disk, G: Gate>(
    rt: &R,
    alloc: Global,
    server: &Server<D>,
    pass: &mut Pass<Standing<D>>,
    tapes: &Tapes,
    line: &Line,
    variables: &mut Env,
    heard: &mut Vec<Heard>,
    gate: &G,
) -> Result<(), NoMemory>
    requires pass { IsPassOf server.now pass.old }
    requires all { IsAllOf (history_of (store_of server.now)) (seen pass.old) pass.old.caller (mine pass.old) }
    requires tapes { tapes_of server.now ≡ tapes.now }
    requires line { IsRunnable (length tapes.now) line.now }
    ensures pass { IsPassOf server.now pass.new }
    ensures caller { pass.new.caller ≡ pass.old.caller }
    ensures all { IsAllOf (history_of (store_of server.now)) (seen pass.new) pass.new.caller (mine pass.new) }
    ensures seen { Begins (seen pass.old) (seen pass.new) }
    ensures began { (stand : List Binding) → SameValues variables.old stand → OnErr result ((mine pass.new ≡ mine pass.old) ⊎ LineBegan tapes.now line.now stand (mine pass.old) (mine pass.new)) }
    ensures err { OnErr result (line.now.caller ≡ pass.old.caller) }
    ensures ok { (stand : List Binding) → SameValues variables.old stand → OnOk result (LinePassed pass.old.caller tapes.now line.now stand variables.old variables.new (mine pass.old) (mine pass.new) (names_in heard.old.items) (names_in heard.new.items)) }
    ensures bytes { OnOk result (IsHeardIfOwn D.told tapes.now server.now line.now pass.old pass.new (bytes_in heard.old.items) (bytes_in heard.new.items)) }
{
    if line.caller != pass.caller() {
        return Ok(());
    }
    run_line(rt, alloc, server, pass, tapes, line, variables, heard, gate)
}
