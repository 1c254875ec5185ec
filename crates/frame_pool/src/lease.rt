// A lease of the samples of some parts of a pool's frames.
ghost use Rattle.std.specs.Prelude.{true, false, ◌≡◌, ℕ, ◌+◌, ◌-◌, ◌*◌, ◌/◌, ◌<◌, ◌≤◌, ◌^◌, [], ◌++◌, length, take, drop, min, slice_index, slice_range, MatchOption};
ghost use Rattle.std.specs.Arc.{arc_value};
ghost use Rattle.frame_pool.specs.Words.{total};
ghost use Rattle.frame_pool.specs.Steps.{IsLease, lease_view};
ghost use Rattle.frame_pool.specs.Pool.{AreParts, LeaseIs, GivesUp, with_look, spent};

use crate::pool::Pool;
use crate::steps::{Place, end_lease, load_hint};
use crate::views::Part;
use std::marker::Model;
use std::sync::Arc;
use voice_units::Lane;

/// Reads the samples that it was granted, whatever the keeper fills meanwhile.
#[derive(Drop)]
pub struct Lease {
    pool: Arc<Pool>,
    seat: Option<Place>,
    lane: Lane,
    samples: Vec<u8>,
    len: u32,
    live: bool,
}

impl Model for Lease {
    ghost use Rattle.std.specs.Prelude.{is_none};
    ghost use Rattle.std.specs.Arc.{arc_value};
    ghost use Rattle.frame_pool.specs.Pool.{LeaseState, LeaseOf, lease_view_in};

    ghost Value = { LeaseState };

    ghost view = { λ x. record { pool = arc_value x.pool; lane = x.lane; len = x.len; live = x.live; taken = is_none x.seat; parts = (lease_view_in x.seat).parts; samples = x.samples.items; hinted = (lease_view_in x.seat).hinted; looks = (lease_view_in x.seat).looks } };

    ghost invariant = { λ x. LeaseOf (arc_value x.pool) x.lane x.len x.live x.samples.items x.seat };
}

// The sum of the parts' lengths.
pub(crate) fn total_len(parts: &[Part]) -> u32
    requires { total parts.now < 2 ^ 32 }
    ensures { result ≡ total parts.now }
{
    let mut len = 0;
    for part in parts {
        len += part.len;
    }
    len
}

impl Lease {
    pub fn lane(&self) -> Lane
        ensures { result ≡ self.now.lane }
    {
        self.lane
    }

    /// How many samples it has.
    pub fn len(&self) -> u32
        ensures { result ≡ self.now.len }
    {
        self.len
    }

    /// Neither released nor taken back.
    pub fn live(&self) -> bool
        ensures value { result ≡ self.now.live }
        ensures seated { self.now.live ≡ true → self.now.taken ≡ false }
        ensures whole { self.now.taken ≡ false → length self.now.samples ≡ self.now.len }
    {
        self.live
    }

    pub fn taken_back(&self) -> bool
        ensures { result ≡ self.now.taken }
    {
        self.seat.is_none()
    }

    /// Copies samples from `at` on: as many as there are, or as fit.
    pub fn copy(&mut self, at: u32, out: &mut [u8]) -> usize
        requires live { self.old.live ≡ true }
        requires at { at ≤ self.old.len }
        ensures count { result ≡ min (length out.old) (self.old.len - at) }
        ensures samples { take result out.new ≡ slice_range self.old.samples at (at + result) }
        ensures rest { drop result out.new ≡ drop result out.old }
        ensures same { self.new ≡ self.old }
    {
        let n = out.len().min((self.len - at) as usize);
        let at = at as usize;
        out[..n].copy_from_slice(&self.samples[at..at + n]);
        n
    }

    /// Loads the lane's hint word, and says whether it was 1.
    pub fn hinted(&mut self) -> bool
        requires { self.old.taken ≡ false }
        ensures { self.new ≡ with_look self.old result }
    {
        let sizes = self.pool.sizes();
        let lane = self.lane;
        let Some(seat) = &mut self.seat else {
            unreachable!()
        };
        let found = load_hint(self.pool.steps(), seat, sizes, lane.0);
        found == 1
    }

    /// Ends the lease. A second time it does nothing.
    pub fn release(&mut self)
        ensures ended { self.new ≡ record self.old { live = false } }
        ensures taken { self.old.taken ≡ true → self.new ≡ self.old }
    {
        if self.live {
            let sizes = self.pool.sizes();
            let lane = self.lane;
            let Some(seat) = &mut self.seat else {
                unreachable!()
            };
            end_lease(self.pool.steps(), seat, sizes, lane.0);
            self.live = false;
        }
    }

    // Takes the seat out, once the lease is not live, and lets the samples go.
    pub(crate) fn give_up(&mut self) -> Option<Place>
        ensures { MatchOption result ((self.old.taken ≡ true) × (self.new ≡ self.old)) (λ s. (self.old.taken ≡ false) × (self.new ≡ spent self.old) × GivesUp self.old s) }
    {
        self.release();
        let seat = self.seat.take()?;
        self.samples.clear();
        Some(seat)
    }

    pub(crate) fn of(pool: Arc<Pool>, seat: Place, lane: Lane, samples: Vec<u8>, len: u32) -> Lease
        requires { LeaseIs (arc_value pool) lane len true samples.items seat }
        ensures { result ≡ record { pool = arc_value pool; lane = lane; len = len; live = true; taken = false; parts = (lease_view seat.me.0).parts; samples = samples.items; hinted = (lease_view seat.me.0).hinted; looks = (lease_view seat.me.0).looks } }
    {
        Lease {
            pool,
            seat: Some(seat),
            lane,
            samples,
            len,
            live: true,
        }
    }
}
