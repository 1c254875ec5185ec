//! A job, served through a server.

ghost use Rattle.std.specs.Prelude.{◌≡◌, None, Some, [], IfOk, OnErr, IsTrue};
ghost use Rattle.voice_model.specs.Image.{opened_from};
ghost use Rattle.voice_model.specs.State.{State};
ghost use Rattle.voice_model.specs.Step.{after};
ghost use Rattle.turnstile.specs.Turns.{Begins};
ghost use Rattle.turnstile.specs.Passes.{mine, seen, IsAllOf};
ghost use Rattle.voice_store.specs.Shown.{history_of};
ghost use Rattle.voice_server.specs.Served.{store_of, tapes_of, IsPassOf, IsPlayerOf, HasWindow};
ghost use Rattle.serving_laws.specs.Lanes.{FedBy, IsAtRest};
ghost use Rattle.servings.specs.Turns.{WentOn};
ghost use Rattle.servings.specs.Servings.{HasServed, HasServedInto, HasHeard};

use crate::copying::hear_window;
use std::sync::Wait;
use turnstile::Pass;
use voice_model::{Call, Reply, Why};
use voice_outside::{Disk, Gate};
use voice_server::{Player, Server, Standing};
use voice_units::NoMemory;

// The gate is told of a turn. Which one the next is.
fn tell<D: Disk, G: Gate>(pass: &Pass<Standing<D>>, gate: &G, line: u32, turn: u32) -> u32 {
    gate.before(pass.caller(), line, turn);
    turn.wrapping_add(1)
}

// What a feed's reply asks for: its window is heard, a fault is followed by a stop of the lane, which is a turn of its own. Whether another feed follows.
fn go_on<R: Wait, D: Disk, G: Gate>(
    rt: &R,
    server: &Server<D>,
    pass: &mut Pass<Standing<D>>,
    player: &mut Player,
    heard: &mut Vec<u8>,
    reply: &Reply,
    gate: &G,
    line: u32,
    turn: &mut u32,
) -> Result<bool, NoMemory>
    requires pass { IsPassOf server.now pass.old }
    requires player { IsPlayerOf server.now player.old }
    requires all { IsAllOf (history_of (store_of server.now)) (seen pass.old) pass.old.caller (mine pass.old) }
    requires window { HasWindow reply.now player.old }
    ensures pass { IsPassOf server.now pass.new }
    ensures caller { pass.new.caller ≡ pass.old.caller }
    ensures player { IsPlayerOf server.now player.new }
    ensures lane { player.new.lane ≡ player.old.lane }
    ensures all { IsAllOf (history_of (store_of server.now)) (seen pass.new) pass.new.caller (mine pass.new) }
    ensures seen { Begins (seen pass.old) (seen pass.new) }
    ensures ok { IfOk result (λ on. WentOn reply.now on pass.old pass.new player.old player.new heard.old.items heard.new.items) }
    ensures err { OnErr result (mine pass.new ≡ mine pass.old) }
{
    if let Reply::Window(_at, _len) = reply {
        hear_window(player, heard)?;
        return Ok(true);
    }
    if let Reply::No(Why::DiskFault) = reply {
        *turn = tell(pass, gate, line, *turn);
        let _stopped = server.call(rt, pass, Call::Stop(player.lane()))?;
        return Ok(true);
    }
    Ok(false)
}

/// Serves one job, the first of the player's lane, to its end, by turns of the pass's caller: each window is heard behind what was heard before, and brought back; less of it is heard where the hint of a stop is seen. After a fault the lane is stopped, so that the next turn ends the job with what was heard of it. The reply is the last one: that the job ended or was stopped, or why there was none to serve.
/// The gate is told of each turn before it, as a turn of that line, counted from `turn` on.
/// After `NoMemory` part of the job was served, and a window may be out, which the player has.
pub fn serve_job<R: Wait, D: Disk, G: Gate>(
    rt: &R,
    server: &Server<D>,
    pass: &mut Pass<Standing<D>>,
    player: &mut Player,
    heard: &mut Vec<u8>,
    gate: &G,
    line: u32,
    turn: u32,
) -> Result<Reply, NoMemory>
    requires pass { IsPassOf server.now pass.old }
    requires player { IsPlayerOf server.now player.old }
    requires all { IsAllOf (history_of (store_of server.now)) (seen pass.old) pass.old.caller (mine pass.old) }
    requires idle { player.old.lease ≡ None }
    ensures pass { IsPassOf server.now pass.new }
    ensures caller { pass.new.caller ≡ pass.old.caller }
    ensures player { IsPlayerOf server.now player.new }
    ensures lane { player.new.lane ≡ player.old.lane }
    ensures all { IsAllOf (history_of (store_of server.now)) (seen pass.new) pass.new.caller (mine pass.new) }
    ensures seen { Begins (seen pass.old) (seen pass.new) }
    // What the pass gained is a serving of the lane, and this reply is its last one.
    ensures ok { IfOk result (λ reply. HasServed player.old.lane reply pass.old pass.new) }
    ensures done { IfOk result (λ _. player.new.lease ≡ None) }
    ensures err { OnErr result (HasServedInto player.old.lane pass.old pass.new) }
    // On an honest disk, where this caller alone feeds the lane and its first job had not begun, what was heard is the job's passage as far as the reply says, and the next job has not begun.
    ensures bytes { IsTrue (D.told (store_of server.now).origin).honest → (first : State) → opened_from (D.told (store_of server.now).origin).bytes ≡ Some first → FedBy pass.old.caller player.old.lane (seen pass.new) → IsAtRest (after first (tapes_of server.now) (seen pass.old)) player.old.lane → heard.old.items ≡ [] → IfOk result (λ reply. HasHeard first (tapes_of server.now) (seen pass.new) player.old.lane reply heard.new.items) }
{
    let mut n = turn;
    for _ in rt.forever() {
        n = tell(pass, gate, line, n);
        let reply = server.feed(rt, pass, player)?;
        let on = go_on(rt, server, pass, player, heard, &reply, gate, line, &mut n)?;
        if !on {
            return Ok(reply);
        }
    }
    unreachable!()
}
