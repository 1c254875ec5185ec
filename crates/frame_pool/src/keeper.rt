// The keeper of a pool.
ghost use Rattle.std.specs.Prelude.{◌≡◌, ℕ, ◌+◌, ◌*◌, ◌/◌, ◌%◌, ◌<◌, ◌≤◌, [], ◌∷◌, ◌++◌, IfOk, OnOk, OnErr, IsTrue, ◌↔◌, ◌⊎◌, ◌≢◌, length, if◌then◌else◌, true, false};
ghost use Rattle.std.specs.Arc.{arc_value};
ghost use Rattle.frame_pool.specs.Words.{total};
ghost use Rattle.frame_pool.specs.Steps.{lane_at, ended, is_free, keeper_view};
ghost use Rattle.frame_pool.specs.declared.views.Stage.TheVariants.{Free, Handed, Ended};
ghost use Rattle.frame_pool.specs.Pool.{lanes_of, block_of, stage_of, hint_of, mark_of, looks_of, frame_of, ChangesLane, IsSpare, AreParts, word_of, granted, spent, KeeperIs, AreFrames};

use crate::frames::{Frame, copy_parts, swap_frame};
use crate::lease::{Lease, total_len};
use crate::pool::Pool;
use crate::steps::{Place, free_lane, hand_out, join, load_lane, reserve_lane, store_hint};
use crate::views::{Part, Parts};
use std::alloc::Global;
use std::marker::Model;
use std::sync::Arc;
use voice_units::{Lane, NoMemory};

/// Has the frames of a pool, fills them, and gives out leases of copies of their samples.
#[derive(Drop)]
pub struct Keeper {
    pool: Arc<Pool>,
    frames: Vec<Frame>,
    seat: Place,
}

impl Model for Keeper {
    ghost use Rattle.std.specs.Arc.{arc_value};
    ghost use Rattle.frame_pool.specs.Steps.{keeper_view};
    ghost use Rattle.frame_pool.specs.Pool.{KeeperState, KeeperIs, AreFrames};

    ghost Value = { KeeperState };

    ghost view = { λ k. record { pool = arc_value k.pool; frames = k.frames.items; view = keeper_view k.seat.me.0 } };

    ghost invariant = { λ k. KeeperIs (arc_value k.pool) k.seat × AreFrames (arc_value k.pool).sizes k.frames.items };
}

impl Keeper {
    pub(crate) fn of(pool: Arc<Pool>, frames: Vec<Frame>, seat: Place) -> Keeper
        requires seat { KeeperIs (arc_value pool) seat }
        requires frames { AreFrames (arc_value pool).sizes frames.items }
        ensures { result ≡ record { pool = arc_value pool; frames = frames.items; view = keeper_view seat.me.0 } }
    {
        Keeper { pool, frames, seat }
    }

    /// Loads the lane's word. `true`: it was 0, and the lane's frames may be filled.
    pub fn observe(&mut self, lane: Lane) -> bool
        requires lane { lane < lanes_of self.old }
        ensures others { ChangesLane self.old self.new lane }
        ensures hint { (hint_of self.new lane ≡ hint_of self.old lane) × (mark_of self.new lane ≡ mark_of self.old lane) }
        ensures looks { (n : ℕ) × (looks_of self.new lane ≡ looks_of self.old lane ++ n ∷ []) × (IsTrue result ↔ (n ≡ 0)) }
        ensures stage { stage_of self.new lane ≡ (if result then ended (stage_of self.old lane) else stage_of self.old lane) }
    {
        let sizes = self.pool.sizes();
        let found = load_lane(self.pool.steps(), &mut self.seat, sizes, lane.0);
        found == 0
    }

    /// Stores the lane's hint word.
    pub fn hint(&mut self, lane: Lane, on: bool)
        requires lane { lane < lanes_of self.old }
        ensures others { ChangesLane self.old self.new lane }
        ensures hint { hint_of self.new lane ≡ word_of on }
        ensures mark { mark_of self.new lane ≡ (if on then true else (if is_free (stage_of self.old lane) then false else mark_of self.old lane)) }
        ensures same { (stage_of self.new lane ≡ stage_of self.old lane) × (looks_of self.new lane ≡ looks_of self.old lane) }
    {
        let sizes = self.pool.sizes();
        let new = if on { 1 } else { 0 };
        store_hint(self.pool.steps(), &mut self.seat, sizes, lane.0, new);
    }

    /// Fills a frame that is in no lane's parts with the bytes of the room, which has what the frame had then.
    pub fn fill(&mut self, frame: u32, room: &mut Vec<u8>)
        requires block { length room.old.items ≡ block_of self.old }
        requires frame { frame < 4 * lanes_of self.old }
        requires spare { IsSpare self.old frame }
        ensures filled { frame_of self.new frame ≡ room.old.items }
        ensures room { length room.new.items ≡ length room.old.items }
        ensures others { (f : ℕ) → f ≢ frame → frame_of self.new f ≡ frame_of self.old f }
        ensures lanes { (self.new.pool ≡ self.old.pool) × ((l : ℕ) → lane_at self.new.view l ≡ lane_at self.old.view l) }
    {
        swap_frame(&mut self.frames, frame as usize, room);
    }

    /// Hands out a lease with the samples of these parts. After an error the lane is free, as before.
    pub fn grant(&mut self, alloc: Global, lane: Lane, parts: &[Part]) -> Result<Lease, NoMemory>
        requires lane { lane < lanes_of self.old }
        requires free { stage_of self.old lane ≡ Free }
        requires count { (1 ≤ length parts.now) × (length parts.now ≤ 4) }
        requires parts { AreParts self.old.pool.sizes parts.now }
        ensures lease { IfOk result (λ lease. lease ≡ granted self.old lane parts.now) }
        ensures others { OnOk result (ChangesLane self.old self.new lane) }
        ensures stage { OnOk result (stage_of self.new lane ≡ Handed parts.now) }
        ensures hint { OnOk result ((hint_of self.new lane ≡ 0) × (mark_of self.new lane ≡ false)) }
        ensures looks { OnOk result (looks_of self.new lane ≡ looks_of self.old lane) }
        ensures err { OnErr result (self.new ≡ self.old) }
    {
        let sizes = self.pool.sizes();
        let items = Parts::of(alloc, parts)?;
        let pool = Arc::try_clone(&self.pool)?;
        let len = total_len(parts);
        let samples = copy_parts(alloc, &self.frames, parts, len as usize)?;
        store_hint(self.pool.steps(), &mut self.seat, sizes, lane.0, 0);
        reserve_lane(self.pool.steps(), &mut self.seat, sizes, lane.0, &items);
        let seat = hand_out(self.pool.steps(), &mut self.seat, sizes);
        Ok(Lease::of(pool, seat, lane, samples, len))
    }

    /// Ends the lease and joins it, and its lane is free. A lease that was taken back before stays as it is.
    pub fn take_back(&mut self, lease: &mut Lease)
        requires pool { lease.old.pool ≡ self.old.pool }
        ensures again { lease.old.taken ≡ true → (self.new ≡ self.old) × (lease.new ≡ lease.old) }
        ensures lease { lease.old.taken ≡ false → lease.new ≡ spent lease.old }
        ensures others { lease.old.taken ≡ false → ChangesLane self.old self.new lease.old.lane }
        ensures stage { lease.old.taken ≡ false → stage_of self.new lease.old.lane ≡ Free }
        ensures hint { lease.old.taken ≡ false → (hint_of self.new lease.old.lane ≡ hint_of self.old lease.old.lane) × (mark_of self.new lease.old.lane ≡ mark_of self.old lease.old.lane) }
        ensures looks { lease.old.taken ≡ false → looks_of self.new lease.old.lane ≡ looks_of self.old lease.old.lane }
        ensures was_out { lease.old.taken ≡ false → (stage_of self.old lease.old.lane ≡ Handed lease.old.parts) ⊎ (stage_of self.old lease.old.lane ≡ Ended lease.old.len) }
        ensures long { lease.old.taken ≡ false → total lease.old.parts ≡ lease.old.len }
        ensures was_marked { lease.old.taken ≡ false → lease.old.hinted ≡ true → mark_of self.old lease.old.lane ≡ true }
    {
        let sizes = self.pool.sizes();
        let lane = lease.lane();
        if let Some(seat) = lease.give_up() {
            join(self.pool.steps(), &mut self.seat, sizes, seat);
            free_lane(self.pool.steps(), &mut self.seat, sizes, lane.0);
        }
    }
}
