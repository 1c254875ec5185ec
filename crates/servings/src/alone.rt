//! A job, served on a store by one caller.

ghost use Rattle.std.specs.Prelude.{◌≡◌, ◌≤◌, Some, [], IfOk, OnErr, IsTrue};
ghost use Rattle.voice_model.specs.Image.{opened_from};
ghost use Rattle.voice_model.specs.State.{State};
ghost use Rattle.voice_model.specs.Step.{after};
ghost use Rattle.players.specs.Players.{IsOfPool};
ghost use Rattle.voice_store.specs.Facts.{AddsLanding, GoesOn};
ghost use Rattle.voice_store.specs.Shown.{Keeps, history_of, tapes_in, pool_of};
ghost use Rattle.voice_server.specs.Served.{HasWindow};
ghost use Rattle.serving_laws.specs.Lanes.{FedBy, IsAtRest};
ghost use Rattle.servings.specs.AloneTurns.{WentOnAlone};
ghost use Rattle.servings.specs.Alone.{HasServedAlone, HasServedAloneInto};
ghost use Rattle.servings.specs.Servings.{HasHeard};

use crate::copying::hear_window;
use players::Player;
use voice_model::{Call, Reply, Why};
use voice_outside::{Disk, Gate};
use voice_server::feed_player;
use voice_store::Store;
use voice_units::{Lane, NoMemory};

// What a feed's reply asks for: its window is heard, a fault is followed by a stop of the lane, which is a turn of its own. Whether another feed follows.
fn go_on_alone<D: Disk, G: Gate>(
    store: &mut Store<D>,
    caller: u16,
    player: &mut Player,
    heard: &mut Vec<u8>,
    reply: &Reply,
    gate: &G,
    line: u32,
    turn: &mut u32,
) -> Result<bool, NoMemory>
    requires least { 1 ≤ caller }
    requires most { caller ≤ 16 }
    requires pool { IsOfPool (pool_of store.old) player.old.lease }
    requires window { HasWindow reply.now player.old }
    ensures pool { IsOfPool (pool_of store.old) player.new.lease }
    ensures lane { player.new.lane ≡ player.old.lane }
    ensures state { (first : State) → Keeps D.told first store.old → Keeps D.told first store.new }
    ensures goes { GoesOn (D.told store.old.disk) (D.told store.new.disk) }
    ensures same { (store.new.origin ≡ store.old.origin) × (tapes_in store.new ≡ tapes_in store.old) × (pool_of store.new ≡ pool_of store.old) }
    ensures ok { IfOk result (λ on. WentOnAlone reply.now on caller (history_of store.old) (history_of store.new) player.old player.new heard.old.items heard.new.items) }
    ensures err { OnErr result (AddsLanding (history_of store.old) (history_of store.new)) }
{
    if let Reply::Window(_at, _len) = reply {
        hear_window(player, heard)?;
        return Ok(true);
    }
    if let Reply::No(Why::DiskFault) = reply {
        gate.before(caller, line, *turn);
        *turn = turn.wrapping_add(1);
        let _stopped = store.apply(caller, Call::Stop(player.lane()))?;
        return Ok(true);
    }
    Ok(false)
}

/// Serves one job, the first of the lane, to its end, for one caller of a store. As `serve_job`, but that nobody else has a turn meanwhile: each window is heard behind what was heard before, and brought back. After a fault the lane is stopped, so that the next turn ends the job with what was heard of it. The reply is the last one: that the job ended or was stopped, or why there was none to serve.
/// The gate is told of each turn before it, as a turn of that line, counted from `turn` on.
/// After `NoMemory` part of the job was served, and a window may be out, which nobody can bring back.
pub fn serve_alone<D: Disk, G: Gate>(
    store: &mut Store<D>,
    caller: u16,
    lane: Lane,
    heard: &mut Vec<u8>,
    gate: &G,
    line: u32,
    turn: u32,
) -> Result<Reply, NoMemory>
    requires least { 1 ≤ caller }
    requires most { caller ≤ 16 }
    ensures stands { (first : State) → Keeps D.told first store.old → Keeps D.told first store.new }
    ensures goes { GoesOn (D.told store.old.disk) (D.told store.new.disk) }
    ensures origin { store.new.origin ≡ store.old.origin }
    ensures tapes { tapes_in store.new ≡ tapes_in store.old }
    // What the history gained is a serving of the lane by the caller, and this reply is its last one.
    ensures ok { IfOk result (λ reply. HasServedAlone caller lane reply (history_of store.old) (history_of store.new)) }
    ensures err { OnErr result (HasServedAloneInto caller lane (history_of store.old) (history_of store.new)) }
    // On an honest disk, where this caller alone feeds the lane and its first job had not begun, what was heard is the job's passage as far as the reply says, and the next job has not begun.
    ensures bytes { IsTrue (D.told store.old.origin).honest → (first : State) → opened_from (D.told store.old.origin).bytes ≡ Some first → Keeps D.told first store.old → FedBy caller lane (history_of store.new) → IsAtRest (after first (tapes_in store.old) (history_of store.old)) lane → heard.old.items ≡ [] → IfOk result (λ reply. HasHeard first (tapes_in store.old) (history_of store.new) lane reply heard.new.items) }
{
    let mut player = Player::new(lane);
    let mut n = turn;
    // A count that no run uses up: the loop ends with the job.
    for _ in 0..u64::MAX {
        gate.before(caller, line, n);
        n = n.wrapping_add(1);
        let last = feed_player(store, caller, &mut player)?;
        let on = go_on_alone(store, caller, &mut player, heard, &last, gate, line, &mut n)?;
        if !on {
            return Ok(last);
        }
    }
    Err(NoMemory)
}
