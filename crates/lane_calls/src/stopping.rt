//! Stop: every job of a lane is stopped.

ghost use Rattle.std.specs.Prelude.{◌≡◌, ℕ, ◌+◌, ◌≤◌, List, length, map, OnOk, OnErr};
ghost use Rattle.voice_units.specs.declared.Piece.{Piece};
ghost use Rattle.voice_units.specs.Spots.{Spot};
ghost use Rattle.voice_units.specs.Blocks.{BlockPair};
ghost use Rattle.voice_model.specs.Samples.{Tagged};
ghost use Rattle.voice_model.specs.State.{State};
ghost use Rattle.voice_model.specs.Replay.{Rebuilt};
ghost use Rattle.voice_model.specs.declared.calls.Call.TheVariants as calls;
ghost use Rattle.rope_table.specs.Table.{Counts, uses_at};
ghost use Rattle.next_ropes.specs.Addresses.{KeepsAddresses};
ghost use Rattle.playing.specs.Frames.{HoldsBytes, if_used, uses_of};
ghost use Rattle.playing.specs.Held.{held_by, held_in, stretch_count};
ghost use Rattle.play_queue.specs.Queued.{lane_of};
ghost use Rattle.lane_calls.specs.Lanes.{Stands, ArePledged};
ghost use Rattle.lane_calls.specs.Answers.{IsStopped};

use playing::{Lanes, let_go_jobs};
use recovery::Parts;
use std::sync::ledger::Ledger;
use voice_model::Why;
use voice_units::{Lane, Shape, Steps};

/// Marks every job of a lane as stopped, hints its player, and lets the passages of the jobs go that were not stopped, with the blocks that nothing uses then. It says how many those were, or is refused where the lane is unknown.
pub fn stop<L: Ledger>(
    parts: &mut Parts,
    lanes: &mut Lanes,
    shape: &Shape,
    lane: Lane,
    steps: &mut Steps<L>,
) -> Result<u32, Why>
    requires held { Counts parts.old.ropes (held_by lanes.old.queues) }
    requires lanes { length lanes.old.queues ≡ shape.now.lanes }
    ensures stopped { (fill : Spot → Tagged) (pledged : List (List Piece)) (takings : List ℕ) (made : ℕ) (b : Rebuilt) (s : State) (tapes : List (List ℕ)) → Stands fill pledged takings parts.old lanes.old made b s → ArePledged b pledged → IsStopped fill pledged takings b s tapes (calls.Stop lane) made parts.old lanes.old parts.new lanes.new result }
    ensures bytes { (bytes : ℕ → ℕ → List ℕ) → HoldsBytes bytes lanes.old.frames → HoldsBytes bytes lanes.new.frames }
    ensures spare { parts.new.blocks.spare ≡ parts.old.blocks.spare }
    ensures spare_ropes { parts.new.ropes.spare_ropes ≡ parts.old.ropes.spare_ropes }
    ensures spare_pairs { parts.old.ropes.spare_pairs ≤ parts.new.ropes.spare_pairs }
    ensures addresses { KeepsAddresses parts.old.blocks.holders parts.new.blocks.holders }
    ensures uses { (q : BlockPair) → uses_at parts.new.ropes q ≤ uses_at parts.old.ropes q }
    ensures interests { parts.new.interests ≡ parts.old.interests }
    // Frames forget the blocks that nothing uses any more, and hold the others.
    ensures forgets { OnOk result (lanes.new.frames.resident ≡ map (if_used (uses_of parts.new.ropes)) lanes.old.frames.resident) }
    ensures err { OnErr result ((parts.new ≡ parts.old) × (lanes.new ≡ lanes.old)) }
    ensures pool { lanes.new.frames.keeper.pool ≡ lanes.old.frames.keeper.pool }
    ensures moment { parts.new.moment ≡ parts.old.moment }
    ensures next { parts.new.next ≡ parts.old.next }
    ensures form { parts.new.form ≡ parts.old.form }
    ensures steps { steps.new ≤ steps.old + stretch_count parts.old.ropes.block (held_in (lane_of lanes.old.queues lane)) }
{
    if lane.0 >= shape.lanes {
        return Err(Why::UnknownLane(shape.lanes));
    }
    let_go_jobs(
        lanes.queues(),
        lane,
        &mut parts.ropes,
        &mut parts.blocks,
        steps,
    );
    lanes.forget_unused(&parts.ropes);
    Ok(lanes.stop(lane))
}
