//! A player of a lane.

ghost use Rattle.std.specs.Prelude.{◌≡◌, ◌<◌, ◌≤◌, length, None, Some, is_some, MatchOption, IsTrue, ◌↔◌};
ghost use Rattle.frame_pool.specs.Pool.{Identity};
ghost use Rattle.players.specs.Players.{Gets, IsOfPool, new_player, holding, hung_up, without_lease};

use crate::Took;
use frame_pool::Lease;
use std::marker::Model;
use voice_units::Lane;

/// A player of a lane: the lease of the window that it hears, if one is out, and how many samples of it it copied. Contracts see all of it.
#[derive(Drop)]
pub struct Player {
    lane: Lane,
    at: u32,
    lease: Option<Lease>,
}

impl Model for Player {
    ghost use Rattle.players.specs.Players.{PlayerState, IsPlayer};

    ghost Value = { PlayerState };

    ghost view = { λ p. record { lane = p.lane; at = p.at; lease = p.lease } };

    ghost invariant = { λ p. IsPlayer p.lane p.at p.lease };
}

impl Player {
    /// A player of a lane, with no window.
    pub fn new(lane: Lane) -> Player
        ensures { result ≡ new_player lane }
    {
        Player {
            lane,
            at: 0,
            lease: None,
        }
    }

    /// Its lane.
    pub fn lane(&self) -> Lane
        ensures { result ≡ self.now.lane }
    {
        self.lane
    }

    /// How many samples of its window were copied.
    pub fn copied(&self) -> u32
        ensures { result ≡ self.now.at }
    {
        self.at
    }

    /// Whether it has a window, which may be live no longer.
    pub fn has_window(&self) -> bool
        ensures { result ≡ is_some self.now.lease }
    {
        self.lease.is_some()
    }

    /// Copies the next samples of its window: as many as there are, or as fit, at least one. `Dry` comes exactly where there is no live window or all of it was copied, and then the hint isn't looked at; `Hinted` only where the hint was on, and `Samples` only where it was off. It takes no memory and never waits.
    pub fn next(&mut self, out: &mut [u8]) -> Took
        requires some { 0 < length out.old }
        ensures gets { Gets self.old result out.old out.new self.new }
        ensures pool { (pool : Identity) → IsOfPool pool self.old.lease → IsOfPool pool self.new.lease }
    {
        let Some(lease) = &mut self.lease else {
            return Took::Dry;
        };
        if !lease.live() || self.at == lease.len() {
            return Took::Dry;
        }
        if lease.hinted() {
            return Took::Hinted;
        }
        let n = lease.copy(self.at, out);
        self.at += n as u32;
        Took::Samples(n)
    }

    /// Hears its window no longer. It keeps the lease, to bring it back. A second time it does nothing.
    pub fn hang_up(&mut self)
        ensures hung_up { self.new ≡ hung_up self.old }
        ensures pool { (pool : Identity) → IsOfPool pool self.old.lease → IsOfPool pool self.new.lease }
    {
        if let Some(lease) = &mut self.lease {
            lease.release();
        }
    }

    /// Begins to hear a window of its lane, in place of the one that it has.
    pub fn hear(&mut self, lease: Lease)
        requires on { lease.lane ≡ self.old.lane }
        ensures { self.new ≡ holding self.old.lane lease }
    {
        self.at = 0;
        self.lease = Some(lease);
    }

    /// Hands its window out, to be brought back. How much of it was copied stays known.
    pub fn hand_out(&mut self) -> Option<Lease>
        ensures lease { result ≡ self.old.lease }
        ensures rest { self.new ≡ without_lease self.old }
        ensures most { MatchOption result (self.old.lease ≡ None) (λ lease. (self.old.at ≤ lease.len) × (lease.lane ≡ self.old.lane)) }
    {
        self.lease.take()
    }

    /// Takes a window back that it had handed out, and of which no more was copied than it has.
    pub fn keep(&mut self, lease: Lease)
        requires on { lease.lane ≡ self.old.lane }
        requires most { self.old.at ≤ lease.len }
        ensures { self.new ≡ record self.old { lease = Some lease } }
    {
        self.lease = Some(lease);
    }
}
