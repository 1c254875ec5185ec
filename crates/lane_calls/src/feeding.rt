//! Feed: the next window of a lane's first job, or the job's end.

ghost use Rattle.std.specs.Prelude.{◌≡◌, ℕ, ◌+◌, ◌≤◌, List, Bool, true, false, None, Option, Some, length, is_some, IsTrue, Ok, IfOk, OnErr, if◌then◌else◌};
ghost use Rattle.voice_units.specs.declared.Piece.{Piece};
ghost use Rattle.voice_units.specs.Layout.{bytes_needed};
ghost use Rattle.voice_units.specs.Spots.{Spot};
ghost use Rattle.voice_units.specs.Blocks.{BlockPair};
ghost use Rattle.voice_model.specs.Samples.{Tagged};
ghost use Rattle.voice_model.specs.State.{State};
ghost use Rattle.voice_model.specs.Step.{refusal};
ghost use Rattle.voice_model.specs.Replay.{Rebuilt};
ghost use Rattle.voice_model.specs.declared.calls.Call.TheVariants as calls;
ghost use Rattle.voice_outside.specs.Counters.{HasRisen};
ghost use Rattle.rope_table.specs.Table.{uses_at};
ghost use Rattle.running_tables.specs.Running.{Runs};
ghost use Rattle.next_ropes.specs.Addresses.{KeepsAddresses};
ghost use Rattle.frame_pool.specs.Pool.{block_of, spent};
ghost use Rattle.play_queue.specs.Queued.{lane_of};
ghost use Rattle.playing.specs.Frames.{HasRead, HoldsBytes, AreOnDisk, AreUsed, missing, uses_of};
ghost use Rattle.playing.specs.Held.{held_by};
ghost use Rattle.playing.specs.Lanes.{next_window, stopped_at, IsBack};
ghost use Rattle.playing.specs.Moved.{MovesBlocks};
ghost use Rattle.lane_calls.specs.Lanes.{ShowsLanes, Stands, ArePledged};
ghost use Rattle.lane_calls.specs.Answers.{IsServed, StaysUnfed, MayFeed, MayEnd, IsTold, HasBytes, HoldsWindow, IsHandedOut, BringsBack, HasStopped, KeepsLease};

use crate::Fed;
use frame_pool::Lease;
use playing::{Fed as Turned, Lanes, let_go};
use recovery::Parts;
use std::alloc::Global;
use std::sync::ledger::Ledger;
use voice_model::Why;
use voice_outside::Disk;
use voice_units::{Lane, NoMemory, Shape, Steps};

/// Why a lane is not fed: it is unknown, it has no job, or a window is out and none comes back, in this order.
fn refused(lanes: &Lanes, shape: &Shape, lane: Lane, comes_back: bool) -> Option<Why>
    requires { length lanes.now.queues ≡ shape.now.lanes }
    ensures refused { (fill : Spot → Tagged) (made : ℕ) (s : State) (tapes : List (List ℕ)) (back : Option ℕ) → ShowsLanes fill lanes.now made s → is_some back ≡ comes_back → result ≡ refusal s tapes (calls.Feed lane back) }
    ensures may { result ≡ None → MayFeed lanes.now.queues lane comes_back }
    ensures back { result ≡ None → comes_back ≡ false → IsBack lanes.now lane }
{
    if lane.0 >= shape.lanes {
        return Some(Why::UnknownLane(shape.lanes));
    }
    let Some(job) = lanes.queues().head(lane) else {
        return Some(Why::NoJob);
    };
    if comes_back {
        return None;
    }
    if job.window > 0 {
        return Some(Why::WindowOut);
    }
    None
}

/// Tells what became of a lane's first job. The passage of one that was heard to its end is let go, with the blocks that nothing uses then.
fn tell<L: Ledger>(
    parts: &mut Parts,
    lanes: &mut Lanes,
    turned: Turned,
    steps: &mut Steps<L>,
) -> Fed
    requires { MayEnd turned parts.old.ropes }
    ensures told { IsTold turned parts.old lanes.old parts.new lanes.new result }
    ensures spare { parts.new.blocks.spare ≡ parts.old.blocks.spare }
    ensures spare_ropes { parts.new.ropes.spare_ropes ≡ parts.old.ropes.spare_ropes }
    ensures spare_pairs { parts.old.ropes.spare_pairs ≤ parts.new.ropes.spare_pairs }
    ensures uses { (q : BlockPair) → uses_at parts.new.ropes q ≤ uses_at parts.old.ropes q }
    ensures interests { parts.new.interests ≡ parts.old.interests }
    ensures pool { lanes.new.frames.keeper.pool ≡ lanes.old.frames.keeper.pool }
    ensures addresses { KeepsAddresses parts.old.blocks.holders parts.new.blocks.holders }
    ensures bytes { (bytes : ℕ → ℕ → List ℕ) → HoldsBytes bytes lanes.old.frames → HoldsBytes bytes lanes.new.frames }
{
    match turned {
        Turned::Stopped(job) => {
            lanes.forget_unused(&parts.ropes);
            Fed::Stopped(job.id, job.heard)
        }
        Turned::Ended(job) => {
            let_go(&mut parts.ropes, &mut parts.blocks, &job.passage, steps);
            lanes.forget_unused(&parts.ropes);
            Fed::Ended(job.id, job.heard)
        }
        Turned::Window(at, lease) => Fed::Window(at, lease),
        Turned::Fault => Fed::Fault,
    }
}

/// Asks for the next window of a lane's first job, while no window comes back. It is refused where the lane is unknown, has no job, or has a window out, in this order. A job that was stopped or heard to its end leaves the lane; the passage of the latter is let go, with the blocks that nothing uses then. After `NoMemory` the jobs are as before.
pub fn feed<D: Disk, L: Ledger>(
    alloc: Global,
    shape: &Shape,
    disk: &mut D,
    parts: &mut Parts,
    lanes: &mut Lanes,
    lane: Lane,
    steps: &mut Steps<L>,
) -> Result<Fed, NoMemory>
    requires runs { (pledged : List (List Piece)) × (takings : List ℕ) × (b : Rebuilt) × Runs (held_by lanes.old.queues) pledged takings parts.old b × (b.shape ≡ shape.now) }
    requires lanes { length lanes.old.queues ≡ shape.now.lanes }
    requires block { block_of lanes.old.frames.keeper ≡ shape.now.block }
    requires fits { bytes_needed shape.now.block shape.now.blocks shape.now.area ≤ (D.told disk.old).size }
    ensures served { (fill : Spot → Tagged) (pledged : List (List Piece)) (takings : List ℕ) (made : ℕ) (b : Rebuilt) (s : State) (tapes : List (List ℕ)) → Stands fill pledged takings parts.old lanes.old made b s → ArePledged b pledged → IfOk result (IsServed fill pledged takings b s tapes (calls.Feed lane None) made parts.new lanes.new) }
    ensures refused { IfOk result (StaysUnfed parts.old lanes.old parts.new lanes.new) }
    ensures fault { result ≡ Ok Fed.Fault → HasRisen (D.told disk.old).faults (D.told disk.new).faults }
    ensures made { HasRead (missing shape.now.block lanes.old.frames.resident (next_window shape.now.block 0 (lane_of lanes.old.queues lane))) (D.told disk.old) (D.told disk.new) }
    ensures still { stopped_at (lane_of lanes.old.queues lane) ≡ true → disk.new ≡ disk.old }
    ensures bytes { IsTrue (D.told disk.old).honest → (bytes : ℕ → ℕ → List ℕ) → AreOnDisk bytes shape.now (D.told disk.old).bytes parts.old.blocks.holders → HoldsBytes bytes lanes.old.frames → HoldsBytes bytes lanes.new.frames }
    ensures samples { IsTrue (D.told disk.old).honest → (bytes : ℕ → ℕ → List ℕ) → AreOnDisk bytes shape.now (D.told disk.old).bytes parts.old.blocks.holders → HoldsBytes bytes lanes.old.frames → IfOk result (HasBytes bytes shape.now.block 0 (lane_of lanes.old.queues lane)) }
    // Frames hold the blocks of the window that is handed out.
    ensures holds { IfOk result (HoldsWindow shape.now.block (next_window shape.now.block 0 (lane_of lanes.old.queues lane)) lanes.new.frames.resident) }
    // A block leaves its frame only for one of the window that was in none, or as nothing uses it.
    ensures moves { MovesBlocks (uses_of parts.new.ropes) shape.now.block (next_window shape.now.block 0 (lane_of lanes.old.queues lane)) lanes.old.frames.resident lanes.new.frames.resident }
    ensures fresh { IfOk result (IsHandedOut lanes.old.frames.keeper.pool lane) }
    ensures err { OnErr result ((parts.new ≡ parts.old) × (lanes.new.queues ≡ lanes.old.queues)) }
    ensures stays { (fill : Spot → Tagged) (pledged : List (List Piece)) (takings : List ℕ) (made : ℕ) (b : Rebuilt) (s : State) → Stands fill pledged takings parts.old lanes.old made b s → OnErr result (Stands fill pledged takings parts.new lanes.new made b s) }
    ensures spare { parts.new.blocks.spare ≡ parts.old.blocks.spare }
    ensures spare_ropes { parts.new.ropes.spare_ropes ≡ parts.old.ropes.spare_ropes }
    ensures spare_pairs { parts.old.ropes.spare_pairs ≤ parts.new.ropes.spare_pairs }
    ensures uses { (q : BlockPair) → uses_at parts.new.ropes q ≤ uses_at parts.old.ropes q }
    ensures interests { parts.new.interests ≡ parts.old.interests }
    ensures pool { lanes.new.frames.keeper.pool ≡ lanes.old.frames.keeper.pool }
    ensures addresses { KeepsAddresses parts.old.blocks.holders parts.new.blocks.holders }
{
    if let Some(why) = refused(lanes, shape, lane, false) {
        return Ok(Fed::Refused(why));
    }
    let turned = lanes.feed(alloc, shape, disk, &parts.blocks, lane, 0)?;
    Ok(tell(parts, lanes, turned, steps))
}

/// Brings the lease of a lane's window back, of which so much was heard, and asks for the next window of its first job. It is refused where the lane is unknown or has no job, in this order. A job that was stopped or heard to its end leaves the lane; the passage of the latter is let go, with the blocks that nothing uses then. After `NoMemory` the jobs are as before, and the lease can be brought back again.
pub fn serve<D: Disk, L: Ledger>(
    alloc: Global,
    shape: &Shape,
    disk: &mut D,
    parts: &mut Parts,
    lanes: &mut Lanes,
    lane: Lane,
    lease: &mut Lease,
    heard: u32,
    steps: &mut Steps<L>,
) -> Result<Fed, NoMemory>
    requires runs { (pledged : List (List Piece)) × (takings : List ℕ) × (b : Rebuilt) × Runs (held_by lanes.old.queues) pledged takings parts.old b × (b.shape ≡ shape.now) }
    requires lanes { length lanes.old.queues ≡ shape.now.lanes }
    requires block { block_of lanes.old.frames.keeper ≡ shape.now.block }
    requires fits { bytes_needed shape.now.block shape.now.blocks shape.now.area ≤ (D.told disk.old).size }
    requires on { lease.old.lane ≡ lane }
    requires pool { lease.old.pool ≡ lanes.old.frames.keeper.pool }
    requires most { heard ≤ lease.old.len }
    ensures served { (fill : Spot → Tagged) (pledged : List (List Piece)) (takings : List ℕ) (made : ℕ) (b : Rebuilt) (s : State) (tapes : List (List ℕ)) → Stands fill pledged takings parts.old lanes.old made b s → ArePledged b pledged → IfOk result (IsServed fill pledged takings b s tapes (calls.Feed lane (Some heard)) made parts.new lanes.new) }
    ensures refused { IfOk result (StaysUnfed parts.old lanes.old parts.new lanes.new) }
    ensures window { IfOk result (BringsBack lanes.old lane lease.old.len) }
    ensures hinted { lease.old.taken ≡ false → lease.old.hinted ≡ true → IfOk result HasStopped }
    ensures lease { IfOk result (KeepsLease lease.old (if lease.old.taken then lease.old else spent lease.old) lease.new) }
    ensures fault { result ≡ Ok Fed.Fault → HasRisen (D.told disk.old).faults (D.told disk.new).faults }
    ensures made { HasRead (missing shape.now.block lanes.old.frames.resident (next_window shape.now.block heard (lane_of lanes.old.queues lane))) (D.told disk.old) (D.told disk.new) }
    ensures still { stopped_at (lane_of lanes.old.queues lane) ≡ true → disk.new ≡ disk.old }
    ensures bytes { IsTrue (D.told disk.old).honest → (bytes : ℕ → ℕ → List ℕ) → AreOnDisk bytes shape.now (D.told disk.old).bytes parts.old.blocks.holders → HoldsBytes bytes lanes.old.frames → HoldsBytes bytes lanes.new.frames }
    ensures samples { IsTrue (D.told disk.old).honest → (bytes : ℕ → ℕ → List ℕ) → AreOnDisk bytes shape.now (D.told disk.old).bytes parts.old.blocks.holders → HoldsBytes bytes lanes.old.frames → IfOk result (HasBytes bytes shape.now.block heard (lane_of lanes.old.queues lane)) }
    // Frames hold the blocks of the window that is handed out.
    ensures holds { IfOk result (HoldsWindow shape.now.block (next_window shape.now.block heard (lane_of lanes.old.queues lane)) lanes.new.frames.resident) }
    // A block leaves its frame only for one of the window that was in none, or as nothing uses it.
    ensures moves { AreUsed (uses_of parts.old.ropes) lanes.old.frames → MovesBlocks (uses_of parts.new.ropes) shape.now.block (next_window shape.now.block heard (lane_of lanes.old.queues lane)) lanes.old.frames.resident lanes.new.frames.resident }
    ensures fresh { IfOk result (IsHandedOut lanes.old.frames.keeper.pool lane) }
    ensures err { OnErr result ((parts.new ≡ parts.old) × (lanes.new.queues ≡ lanes.old.queues) × (lease.new ≡ (if lease.old.taken then lease.old else spent lease.old))) }
    ensures stays { (fill : Spot → Tagged) (pledged : List (List Piece)) (takings : List ℕ) (made : ℕ) (b : Rebuilt) (s : State) → Stands fill pledged takings parts.old lanes.old made b s → OnErr result (Stands fill pledged takings parts.new lanes.new made b s) }
    ensures spare { parts.new.blocks.spare ≡ parts.old.blocks.spare }
    ensures spare_ropes { parts.new.ropes.spare_ropes ≡ parts.old.ropes.spare_ropes }
    ensures spare_pairs { parts.old.ropes.spare_pairs ≤ parts.new.ropes.spare_pairs }
    ensures uses { (q : BlockPair) → uses_at parts.new.ropes q ≤ uses_at parts.old.ropes q }
    ensures interests { parts.new.interests ≡ parts.old.interests }
    ensures pool { lanes.new.frames.keeper.pool ≡ lanes.old.frames.keeper.pool }
    ensures addresses { KeepsAddresses parts.old.blocks.holders parts.new.blocks.holders }
{
    if let Some(why) = refused(lanes, shape, lane, true) {
        return Ok(Fed::Refused(why));
    }
    let Ok(turned) = lanes.serve(alloc, shape, disk, &parts.blocks, lane, lease, heard) else {
        lanes.forget_unused(&parts.ropes);
        return Err(NoMemory);
    };
    Ok(tell(parts, lanes, turned, steps))
}
