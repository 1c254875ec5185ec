//! Calls under turns.

ghost use Rattle.std.specs.Prelude.{◌≡◌, ◌<◌, ◌≤◌, ◌+◌, length, IfOk, IfErr, OnErr, IsTrue};
ghost use Rattle.voice_model.specs.Valid.{InRange};
ghost use Rattle.voice_store.specs.Facts.{Adds, AddsLanding, TakesAreIn, HasRopes};
ghost use Rattle.built_calls.specs.Built.{is_built};
ghost use Rattle.turnstile.specs.Turns.{Begins, Every};
ghost use Rattle.turnstile.specs.Passes.{mine, seen, callers_of, AreOf, AreNewFrom, IsAllOf};
ghost use Rattle.voice_store.specs.Shown.{history_of, tapes_in};
ghost use Rattle.voice_server.specs.Kept.{IsKept};
ghost use Rattle.voice_server.specs.Kept as kept;
ghost use Rattle.players.specs.Players.{new_player};
ghost use Rattle.voice_server.specs.Served.{store_of, tapes_of, IsPassOf, IsPlayerOf, AddsEntry, AddsFeed, IsSpared, IsLegalFrom, IsClosed};

use crate::feeding::{feed_player, take_windows};
use crate::hall::{Hall, Server};
use crate::standing::Standing;
use players::Player;
use std::alloc::Global;
use std::sync::Wait;
use turnstile::{Pass, Turnstile};
use voice_model::{Call, Reply};
use voice_outside::Disk;
use voice_store::Store;
use voice_units::{Lane, NoMemory};

// How many entries a history of length `before` gained.
fn gained<D: Disk>(store: &Store<D>, before: usize) -> u32
    requires { (before ≤ length (history_of store.now)) × (length (history_of store.now) ≤ before + 2) }
    ensures { before + result ≡ length (history_of store.now) }
{
    (store.history().len() - before) as u32
}

impl<D: Disk> Hall<Standing<D>> {
    /// A server of the store, with as many passes as there are callers.
    pub fn new(
        alloc: Global,
        store: Store<D>,
        callers: u16,
    ) -> Result<(Server<D>, Vec<Pass<Standing<D>>>), (NoMemory, Store<D>)>
        requires callers { (0 < callers) × (callers ≤ 16) }
        requires kept { IsKept D.told store }
        ensures ok { IfOk result (λ r. (store_of r.0 ≡ store) × (callers_of r.0.turnstile ≡ callers) × (length r.1.items ≡ callers) × AreNewFrom kept.history_of r.0.turnstile 1 r.1.items) }
        ensures of { IfOk result (λ r. AreOf r.0.turnstile r.1.items) }
        ensures err { IfErr result (λ r. r.1 ≡ store) }
    {
        match Turnstile::new(alloc, Standing { store }, callers) {
            Ok((turnstile, passes)) => Ok((Hall { turnstile }, passes)),
            Err((none, Standing { store })) => Err((none, store)),
        }
    }

    /// One turn with one call of the store, for the pass's caller. After `NoMemory` nothing of the call is done, but a change in doubt may have landed.
    pub fn call<R: Wait>(
        &self,
        rt: &R,
        pass: &mut Pass<Standing<D>>,
        call: Call,
    ) -> Result<Reply, NoMemory>
        requires pass { IsPassOf self.now pass.old }
        requires built { IsTrue (is_built call) }
        requires takes { TakesAreIn (tapes_of self.now) call }
        requires ropes { HasRopes call }
        requires range { InRange call }
        ensures pass { IsPassOf self.now pass.new }
        ensures caller { pass.new.caller ≡ pass.old.caller }
        ensures seen { Begins (seen pass.old) (seen pass.new) }
        // What the pass has seen is legal from the disk that was opened: on an honest disk all of it, on every other but for the talk and peaks that were read off the disk.
        ensures legal { IsLegalFrom D.told self.now (seen pass.new) }
        // Its caller's entries are all that this history has of it since the server was made.
        ensures all { IsAllOf (history_of (store_of self.now)) (seen pass.new) pass.new.caller (mine pass.new) }
        ensures ok { IfOk result (λ reply. AddsEntry call reply pass.old pass.new) }
        ensures err { OnErr result (mine pass.new ≡ mine pass.old) }
    {
        let Standing { mut store } = self.turnstile.enter(rt, pass);
        let before = store.history().len();
        let reply = store.apply(pass.caller(), call);
        let entries = gained(&store, before);
        self.turnstile.leave(pass, Standing { store }, entries);
        reply
    }

    /// A player of a lane, with no window.
    pub fn player(&self, lane: Lane) -> Player
        ensures player { result ≡ new_player lane }
        ensures of { IsPlayerOf self.now result }
    {
        Player::new(lane)
    }

    /// One turn with a Feed of the player's lane, for the pass's caller, which brings the player's window back, if it has one, with as much of it as was copied. After `NoMemory` nothing is done, and the player has its window still, which may be live no longer; it can be brought back again.
    pub fn feed<R: Wait>(
        &self,
        rt: &R,
        pass: &mut Pass<Standing<D>>,
        player: &mut Player,
    ) -> Result<Reply, NoMemory>
        requires pass { IsPassOf self.now pass.old }
        requires player { IsPlayerOf self.now player.old }
        ensures pass { IsPassOf self.now pass.new }
        ensures player { IsPlayerOf self.now player.new }
        ensures caller { pass.new.caller ≡ pass.old.caller }
        ensures lane { player.new.lane ≡ player.old.lane }
        ensures seen { Begins (seen pass.old) (seen pass.new) }
        // What the pass has seen is legal, as after a call.
        ensures legal { IsLegalFrom D.told self.now (seen pass.new) }
        ensures all { IsAllOf (history_of (store_of self.now)) (seen pass.new) pass.new.caller (mine pass.new) }
        // The window that comes has the samples of the first job's passage, whatever was removed, freed or recorded meanwhile.
        ensures ok { IfOk result (λ reply. AddsFeed D.told self.now player.old reply pass.old pass.new player.new) }
        ensures err { OnErr result ((mine pass.new ≡ mine pass.old) × IsSpared player.old player.new) }
    {
        let Standing { mut store } = self.turnstile.enter(rt, pass);
        let before = store.history().len();
        let reply = feed_player(&mut store, pass.caller(), player);
        let entries = gained(&store, before);
        self.turnstile.leave(pass, Standing { store }, entries);
        reply
    }

    /// The store. The passes are used up, and the players' windows are taken back without a Feed: their lanes are fed no more.
    pub fn close(self, passes: Vec<Pass<Standing<D>>>, players: Vec<Player>) -> Store<D>
        requires of { AreOf self.turnstile passes.items }
        requires all { length passes.items ≡ callers_of self.turnstile }
        requires players { Every (IsPlayerOf self) players.items }
        ensures kept { IsKept D.told result }
        ensures same { (result.origin ≡ (store_of self).origin) × (tapes_in result ≡ tapes_of self) }
        // What each pass has seen begins the history; what its caller did is all that the history has of it since the server was made, and all else are landings.
        ensures closed { IsClosed self passes.items (history_of result) }
    {
        let Hall { turnstile } = self;
        let Standing { mut store } = turnstile.close(passes);
        take_windows(&mut store, players);
        store
    }
}
