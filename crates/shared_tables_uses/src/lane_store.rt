// A store of one lane.
ghost use Rattle.std.specs.Prelude.{◌≡◌, true, false};
ghost use Rattle.frame_pool.specs.Pool.{hint_of};

use frame_pool::{Keeper, Lease};
use std::marker::Model;
use voice_units::Lane;

/// A lane, whether its first job is stopped, and whether a window is out.
#[derive(Drop)]
pub struct LaneStore {
    keeper: Keeper,
    stopped: bool,
    out: bool,
}

impl Model for LaneStore {
    ghost use Rattle.shared_tables_uses.specs.Lane.{Shown, StoreIs};

    ghost Value = { Shown };

    ghost view = { λ s. record { keeper = s.keeper; stopped = s.stopped; out = s.out } };

    ghost invariant = { λ s. StoreIs s.keeper s.stopped s.out };
}

impl LaneStore {
    /// Stops the lane's first job.
    pub fn stop(&mut self)
        ensures { (self.new.stopped ≡ true) × (hint_of self.new.keeper 0 ≡ 1) × (self.new.out ≡ self.old.out) }
    {
        self.stopped = true;
        self.keeper.hint(Lane(0), true);
    }

    /// Takes a window's lease back. One that was hinted, and not taken back before, was of a stopped job.
    pub fn bring_back(&mut self, lease: &mut Lease)
        requires lease { (lease.old.pool ≡ self.old.keeper.pool) × (lease.old.lane ≡ 0) }
        requires out { self.old.out ≡ true }
        ensures heard { lease.old.taken ≡ false → lease.old.hinted ≡ true → self.old.stopped ≡ true }
    {
        let before = lease.taken_back();
        self.keeper.take_back(lease);
        if !before {
            self.out = false;
        }
    }
}
