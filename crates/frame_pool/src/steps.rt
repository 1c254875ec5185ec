// The steps on the pool's words, one function for each kind.
ghost use Rattle.std.specs.Prelude.{true, false, ◌≡◌, ℕ, ◌+◌, ◌*◌, ◌/◌, ◌%◌, ◌<◌, ◌≤◌, [], IfOk};
ghost use Rattle.frame_pool.specs.Words.{word_count};
ghost use Rattle.frame_pool.specs.Rule.{opened};
ghost use Rattle.frame_pool.specs.Steps.{IsKeeper, keeper_view, lease_view, IsLease, IsReserved, hinted, looked, reserved, freed, lane_at, handed, leased, joined, listened, dropped, Tells};
ghost use Rattle.frame_pool.specs.declared.views.View.TheVariants.{Keeper, Lease};
ghost use Rattle.frame_pool.specs.declared.views.Stage.TheVariants.{Free};

use crate::plays::{End, FreeLane, HandOut, Hint, LeaseRule, Listen, Look, Reserve, TakeBack};
use crate::views::{Parts, Sizes, View};
use atomic_table::{Seat, Shared, Table};
use std::alloc::Global;
use voice_units::NoMemory;

pub(crate) type Steps = Shared<Parts, View, Sizes, LeaseRule>;

pub(crate) type Place = Seat<Parts, View>;

// Stores a lane's hint word.
pub(crate) fn store_hint(steps: &Steps, seat: &mut Place, sizes: Sizes, lane: u16, new: u64)
    requires seat { (seat.old.table_id ≡ steps.now.table_id) × (steps.now.table_id.words ≡ word_count sizes.lanes) }
    requires view { IsKeeper sizes seat.old.id seat.old.me }
    requires lane { lane < sizes.lanes }
    requires bit { new ≤ 1 }
    ensures seat { (seat.new.table_id ≡ seat.old.table_id) × (seat.new.id ≡ seat.old.id) }
    ensures view { seat.new.me ≡ (Keeper (hinted (keeper_view seat.old.me.0) lane new), []) }
{
    steps.store::<Hint>(seat, lane as usize + sizes.lanes as usize + 1, new);
}

// Loads a lane's word.
pub(crate) fn load_lane(steps: &Steps, seat: &mut Place, sizes: Sizes, lane: u16) -> u64
    requires seat { (seat.old.table_id ≡ steps.now.table_id) × (steps.now.table_id.words ≡ word_count sizes.lanes) }
    requires view { IsKeeper sizes seat.old.id seat.old.me }
    requires lane { lane < sizes.lanes }
    ensures seat { (seat.new.table_id ≡ seat.old.table_id) × (seat.new.id ≡ seat.old.id) }
    ensures view { seat.new.me ≡ (Keeper (looked (keeper_view seat.old.me.0) lane result), []) }
{
    steps.load::<Look>(seat, lane as usize + 1)
}

// Reserves a lane for parts.
pub(crate) fn reserve_lane(steps: &Steps, seat: &mut Place, sizes: Sizes, lane: u16, parts: &Parts)
    requires seat { (seat.old.table_id ≡ steps.now.table_id) × (steps.now.table_id.words ≡ word_count sizes.lanes) }
    requires view { IsKeeper sizes seat.old.id seat.old.me }
    requires lane { lane < sizes.lanes }
    requires free { ((lane_at (keeper_view seat.old.me.0) lane).stage ≡ Free) × ((lane_at (keeper_view seat.old.me.0) lane).hint ≡ 0) }
    ensures seat { (seat.new.table_id ≡ seat.old.table_id) × (seat.new.id ≡ seat.old.id) }
    ensures view { seat.new.me ≡ (Keeper (reserved (keeper_view seat.old.me.0) lane parts.now), []) }
{
    steps.compare_exchange_with::<Reserve>(seat, lane as usize + 1, 0, 1, parts);
}

// Stores 0 into the word of a free lane. It tells what was found as a lease was joined.
pub(crate) fn free_lane(steps: &Steps, seat: &mut Place, sizes: Sizes, lane: u16)
    requires seat { (seat.old.table_id ≡ steps.now.table_id) × (steps.now.table_id.words ≡ word_count sizes.lanes) }
    requires view { IsKeeper sizes seat.old.id seat.old.me }
    requires lane { lane < sizes.lanes }
    requires free { (lane_at (keeper_view seat.old.me.0) lane).stage ≡ Free }
    ensures seat { (seat.new.table_id ≡ seat.old.table_id) × (seat.new.id ≡ seat.old.id) }
    ensures view { seat.new.me ≡ (Keeper (freed (keeper_view seat.old.me.0) lane), []) }
    ensures told { Tells (lane_at (keeper_view seat.old.me.0) lane) }
{
    steps.store::<FreeLane>(seat, lane as usize + 1, 0);
}

// Cuts off the lease of the lane that was reserved last.
pub(crate) fn hand_out(steps: &Steps, seat: &mut Place, sizes: Sizes) -> Place
    requires seat { (seat.old.table_id ≡ steps.now.table_id) × (steps.now.table_id.words ≡ word_count sizes.lanes) }
    requires view { IsKeeper sizes seat.old.id seat.old.me }
    requires lane { (keeper_view seat.old.me.0).latest < sizes.lanes }
    requires reserved { IsReserved (lane_at (keeper_view seat.old.me.0) (keeper_view seat.old.me.0).latest).stage }
    ensures seat { (seat.new.table_id ≡ seat.old.table_id) × (seat.new.id ≡ seat.old.id) × (result.table_id ≡ seat.old.table_id) }
    ensures view { seat.new.me ≡ (Keeper (handed (keeper_view seat.old.me.0)), []) }
    ensures lease { result.me ≡ (Lease (leased (keeper_view seat.old.me.0)), []) }
{
    steps.split_seat::<HandOut>(seat)
}

// Joins a lease that is not live.
pub(crate) fn join(steps: &Steps, seat: &mut Place, sizes: Sizes, lease: Place)
    requires seat { (seat.old.table_id ≡ steps.now.table_id) × (steps.now.table_id.words ≡ word_count sizes.lanes) × (lease.table_id ≡ steps.now.table_id) }
    requires view { IsKeeper sizes seat.old.id seat.old.me }
    requires lease { IsLease sizes lease.me }
    requires over { (lease_view lease.me.0).live ≡ false }
    ensures seat { (seat.new.table_id ≡ seat.old.table_id) × (seat.new.id ≡ seat.old.id) }
    ensures view { seat.new.me ≡ (Keeper (joined (keeper_view seat.old.me.0) (lease_view lease.me.0)), []) }
{
    steps.join_seat::<TakeBack>(seat, lease);
}

// Loads the hint word of the lease's lane.
pub(crate) fn load_hint(steps: &Steps, seat: &mut Place, sizes: Sizes, lane: u16) -> u64
    requires seat { (seat.old.table_id ≡ steps.now.table_id) × (steps.now.table_id.words ≡ word_count sizes.lanes) }
    requires view { IsLease sizes seat.old.me }
    requires lane { ((lease_view seat.old.me.0).lane ≡ lane) × (lane < sizes.lanes) }
    ensures seat { seat.new.table_id ≡ seat.old.table_id }
    ensures bit { result ≤ 1 }
    ensures view { seat.new.me ≡ (Lease (listened (lease_view seat.old.me.0) result), []) }
{
    steps.load::<Listen>(seat, lane as usize + sizes.lanes as usize + 1)
}

// Swaps the word of the lease's lane to 0.
pub(crate) fn end_lease(steps: &Steps, seat: &mut Place, sizes: Sizes, lane: u16)
    requires seat { (seat.old.table_id ≡ steps.now.table_id) × (steps.now.table_id.words ≡ word_count sizes.lanes) }
    requires view { IsLease sizes seat.old.me }
    requires lane { ((lease_view seat.old.me.0).lane ≡ lane) × (lane < sizes.lanes) }
    ensures seat { seat.new.table_id ≡ seat.old.table_id }
    ensures view { seat.new.me ≡ (Lease (dropped (lease_view seat.old.me.0)), []) }
{
    steps.swap::<End>(seat, lane as usize + 1, 0);
}
