//! A player's Feed of the store.

ghost use Rattle.std.specs.Prelude.{◌≡◌, ◌≢◌, ◌∷◌, ◌++◌, [], None, IfOk, OnErr, IsTrue};
ghost use Rattle.frame_pool.specs.Pool.{Identity};
ghost use Rattle.lane_calls.specs.Answers.{IsHandedOut, HasStopped};
ghost use Rattle.turnstile.specs.Turns.{Every};
ghost use Rattle.voice_model.specs.State.{State};
ghost use Rattle.voice_model.specs.declared.calls.Why.{Why};
ghost use Rattle.voice_store.specs.Facts.{entry_of, GoesOn};
ghost use Rattle.voice_store.specs.Feeding.{told, HasSamples};
ghost use Rattle.voice_store.specs.Shown.{Keeps, history_of, tapes_in, pool_of, state_of};
ghost use Rattle.players.specs.Players.{IsOfPool};
ghost use Rattle.voice_server.specs.Served.{feed_of, HasWindow, HearsPassage, IsHinted, TellsStop, IsSpared};

use players::Player;
use voice_model::{Reply, Why};
use voice_outside::Disk;
use voice_store::{Fed, Store};
use voice_units::NoMemory;

// The reply of a Feed, whose window, if there is one, the player begins to hear.
fn received(player: &mut Player, fed: Fed) -> Reply
    requires none { player.old.lease ≡ None }
    requires fresh { (pool : Identity) × IsHandedOut pool player.old.lane fed }
    ensures reply { result ≡ told fed }
    ensures lane { player.new.lane ≡ player.old.lane }
    ensures window { HasWindow result player.new }
    ensures samples { (s : State) → HasSamples s player.old.lane fed → HearsPassage s result player.new }
    ensures stopped { HasStopped fed → ((reason : Why) → fed ≢ Fed.Refused reason) → TellsStop result }
    ensures pool { (pool : Identity) → IsHandedOut pool player.old.lane fed → IsOfPool pool player.new.lease }
{
    match fed {
        Fed::Refused(why) => Reply::No(why),
        Fed::Stopped(job, heard) => Reply::Stopped(job, heard),
        Fed::Ended(job, heard) => Reply::Ended(job, heard),
        Fed::Window(at, lease) => {
            let len = lease.len();
            player.hear(lease);
            Reply::Window(at, len)
        }
        Fed::Fault => Reply::No(Why::DiskFault),
    }
}

/// One Feed of a player's lane, which brings its window back, if it has one. After `NoMemory` it has it still.
pub fn feed_player<D: Disk>(
    store: &mut Store<D>,
    caller: u16,
    player: &mut Player,
) -> Result<Reply, NoMemory>
    requires pool { IsOfPool (pool_of store.old) player.old.lease }
    ensures entry { IfOk result (λ reply. history_of store.new ≡ history_of store.old ++ entry_of caller (feed_of player.old) reply (D.told store.new.disk).calls ∷ []) }
    ensures err { OnErr result (history_of store.new ≡ history_of store.old) }
    ensures state { (first : State) → Keeps D.told first store.old → Keeps D.told first store.new }
    ensures goes { GoesOn (D.told store.old.disk) (D.told store.new.disk) }
    ensures same { (store.new.origin ≡ store.old.origin) × (tapes_in store.new ≡ tapes_in store.old) × (pool_of store.new ≡ pool_of store.old) }
    ensures player { IsOfPool (pool_of store.old) player.new.lease }
    ensures lane { player.new.lane ≡ player.old.lane }
    ensures window { IfOk result (λ reply. HasWindow reply player.new) }
    ensures hinted { IsHinted player.old.lease → IfOk result TellsStop }
    ensures samples { IsTrue (D.told store.old.disk).honest → (first : State) → Keeps D.told first store.old → IfOk result (λ reply. HearsPassage (state_of first store.old) reply player.new) }
    ensures spared { OnErr result (IsSpared player.old player.new) }
{
    let lane = player.lane();
    let Some(mut lease) = player.hand_out() else {
        let fed = store.feed(caller, lane)?;
        return Ok(received(player, fed));
    };
    let heard = player.copied();
    let Ok(fed) = store.serve(caller, &mut lease, heard) else {
        player.keep(lease);
        return Err(NoMemory);
    };
    Ok(received(player, fed))
}

// Takes a player's window back, if it has one, without a Feed.
fn take_window<D: Disk>(store: &mut Store<D>, player: Player)
    requires pool { IsOfPool (pool_of store.old) player.lease }
    ensures history { history_of store.new ≡ history_of store.old }
    ensures state { (first : State) → Keeps D.told first store.old → Keeps D.told first store.new }
    ensures same { (store.new.disk ≡ store.old.disk) × (store.new.origin ≡ store.old.origin) × (tapes_in store.new ≡ tapes_in store.old) × (pool_of store.new ≡ pool_of store.old) }
{
    let mut player = player;
    let Some(mut lease) = player.hand_out() else {
        return;
    };
    store.take_back(&mut lease);
}

/// Takes the windows of all players back.
pub(crate) fn take_windows<D: Disk>(store: &mut Store<D>, mut players: Vec<Player>)
    requires pool { Every (λ player. IsOfPool (pool_of store.old) player.lease) players.items }
    ensures history { history_of store.new ≡ history_of store.old }
    ensures state { (first : State) → Keeps D.told first store.old → Keeps D.told first store.new }
    ensures same { (store.new.disk ≡ store.old.disk) × (store.new.origin ≡ store.old.origin) × (tapes_in store.new ≡ tapes_in store.old) × (pool_of store.new ≡ pool_of store.old) }
{
    while let Some(player) = players.pop() {
        take_window(store, player);
    }
}
