//! Passages that are let go.

ghost use Rattle.std.specs.Prelude.{◌≡◌, ◌+◌, ◌≤◌, ◌<◌, ◌++◌, ◌∷◌, [], List, length};
ghost use Rattle.voice_units.specs.declared.Piece.{Piece};
ghost use Rattle.rope_table.specs.Table.{Counts};
ghost use Rattle.play_queue.specs.Queued.{lane_of};
ghost use Rattle.playing.specs.Held.{LetsGo, held_in, stretch_count};

use collector::drop_unused;
use play_queue::Queues;
use rope_algebra::Pieces;
use rope_table::RopeTable;
use std::sync::ledger::Ledger;
use voice_blocks::BlockMap;
use voice_units::{Lane, Steps};

/// Holds a passage no longer, and drops the blocks of it that nothing uses then: a step for each of its stretches.
pub fn let_go<L: Ledger>(
    ropes: &mut RopeTable,
    blocks: &mut BlockMap,
    passage: &Pieces,
    steps: &mut Steps<L>,
)
    requires held { (rest : List (List Piece)) × Counts ropes.old (passage.now ∷ rest) }
    ensures gone { LetsGo ropes.old ropes.new blocks.old.holders blocks.new.holders (passage.now ∷ []) }
    ensures spare { blocks.new.spare ≡ blocks.old.spare }
    ensures spare_ropes { ropes.new.spare_ropes ≡ ropes.old.spare_ropes }
    ensures spare_pairs { ropes.old.spare_pairs ≤ ropes.new.spare_pairs }
    ensures steps { steps.new ≡ steps.old + stretch_count ropes.old.block (passage.now ∷ []) }
{
    ropes.release(passage);
    drop_unused(ropes, blocks, passage, steps);
}

/// Lets the passages of a lane's jobs go that are not stopped.
pub fn let_go_jobs<L: Ledger>(
    queues: &Queues,
    lane: Lane,
    ropes: &mut RopeTable,
    blocks: &mut BlockMap,
    steps: &mut Steps<L>,
)
    requires lane { lane < length queues.now }
    requires held { (rest : List (List Piece)) × Counts ropes.old (held_in (lane_of queues.now lane) ++ rest) }
    ensures gone { LetsGo ropes.old ropes.new blocks.old.holders blocks.new.holders (held_in (lane_of queues.now lane)) }
    ensures spare { blocks.new.spare ≡ blocks.old.spare }
    ensures spare_ropes { ropes.new.spare_ropes ≡ ropes.old.spare_ropes }
    ensures spare_pairs { ropes.old.spare_pairs ≤ ropes.new.spare_pairs }
    ensures steps { steps.new ≡ steps.old + stretch_count ropes.old.block (held_in (lane_of queues.now lane)) }
{
    for k in 0..queues.count(lane) {
        let Some(job) = queues.job(lane, k) else {
            return;
        };
        if job.stopped {
            continue;
        }
        let_go(ropes, blocks, &job.passage, steps);
    }
}
