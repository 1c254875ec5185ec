//! Play: a job comes last on a lane.

ghost use Rattle.std.specs.Prelude.{◌≡◌, ℕ, ◌+◌, ◌<◌, ◌≤◌, ◌^◌, List, None, true, length, is_some, IfOk, OnErr};
ghost use Rattle.voice_units.specs.declared.Piece.{Piece};
ghost use Rattle.voice_units.specs.Spots.{Spot, spots_of, pieces_of, samples_in, slice};
ghost use Rattle.voice_model.specs.Samples.{Tagged};
ghost use Rattle.voice_model.specs.State.{State, lane_at};
ghost use Rattle.voice_model.specs.Step.{refusal, if_outside};
ghost use Rattle.voice_model.specs.Replay.{Rebuilt};
ghost use Rattle.voice_model.specs.declared.calls.Call.TheVariants as calls;
ghost use Rattle.rope_table.specs.Table.{pieces_at};
ghost use Rattle.edits.specs.Tables.{pieces_here};
ghost use Rattle.next_ropes.specs.Ready.{most_held};
ghost use Rattle.running_tables.specs.Running.{Runs};
ghost use Rattle.playing.specs.Held.{held_by};
ghost use Rattle.lane_calls.specs.Lanes.{Stands};
ghost use Rattle.lane_calls.specs.Answers.{MayPlay, IsPlayed, IsJob, StaysRefused};

use crate::Played;
use playing::Lanes;
use recovery::Parts;
use rope_algebra::Pieces;
use rope_table::RopeTable;
use voice_model::Why;
use voice_units::{JobId, Lane, MOST_JOBS, MOST_ROPES, NoMemory, RopeId, Shape};

/// The refusal where an interval does not lie in a rope of this length.
fn if_outside(start: u32, len: u32, length: u32) -> Option<Why>
    ensures { result ≡ if_outside start len length }
{
    if u64::from(start) + u64::from(len) > u64::from(length) {
        return Some(Why::BadInterval(length));
    }
    None
}

/// Why a job may not come: its lane is unknown, its rope is not live, its lane records or has 8 jobs, or the interval ends behind the rope, in this order.
fn refused(
    parts: &Parts,
    lanes: &Lanes,
    shape: &Shape,
    records: bool,
    lane: Lane,
    rope: RopeId,
    start: u32,
    len: u32,
) -> Option<Why>
    requires { length lanes.now.queues ≡ shape.now.lanes }
    ensures refused { (fill : Spot → Tagged) (pledged : List (List Piece)) (takings : List ℕ) (made : ℕ) (b : Rebuilt) (s : State) (tapes : List (List ℕ)) → Stands fill pledged takings parts.now lanes.now made b s → is_some (lane_at s lane).taking ≡ records → result ≡ refusal s tapes (calls.Play lane rope start len) }
    ensures may { result ≡ None → MayPlay parts.now.ropes.ropes lanes.now.queues lane rope start len }
{
    if lane.0 >= shape.lanes {
        return Some(Why::UnknownLane(shape.lanes));
    }
    let Some(whole) = parts.ropes.get(rope) else {
        return Some(Why::UnknownRope(rope));
    };
    if records {
        return Some(Why::LaneRecording);
    }
    if lanes.queues().count(lane) >= MOST_JOBS {
        return Some(Why::QueueFull);
    }
    if_outside(start, len, whole.length())
}

/// The pieces of the `len` samples of a live rope from `start` on.
fn passage_of(ropes: &RopeTable, rope: RopeId, start: u32, len: u32) -> Result<Pieces, NoMemory>
    requires live { is_some (pieces_at ropes.now.ropes rope) ≡ true }
    requires inside { start + len ≤ samples_in (pieces_here ropes.now.ropes rope) }
    requires most { len ≤ 2 ^ 30 }
    ensures { IfOk result (λ pieces. pieces ≡ pieces_of (slice (spots_of (pieces_here ropes.now.ropes rope)) start len)) }
{
    let Some(whole) = ropes.get(rope) else {
        unreachable!()
    };
    whole.slice(start, len)
}

/// Asks for a job to come last on a lane: one of the `len` samples of a rope from `start` on, after so many jobs were made. It is refused where the lane is unknown, the rope is not live, the lane records or has 8 jobs, or the interval ends behind the rope, in this order. More than 2^32 - 2^16 - 3 ropes count as want of memory.
pub fn play(
    parts: &mut Parts,
    lanes: &mut Lanes,
    shape: &Shape,
    made: u64,
    records: bool,
    lane: Lane,
    rope: RopeId,
    start: u32,
    len: u32,
) -> Result<Played, NoMemory>
    requires runs { (pledged : List (List Piece)) × (takings : List ℕ) × (b : Rebuilt) × Runs (held_by lanes.old.queues) pledged takings parts.old b }
    requires few { length (held_by lanes.old.queues) ≤ most_held }
    requires lanes { length lanes.old.queues ≡ shape.now.lanes }
    requires number { made + 1 < 2 ^ 64 }
    ensures played { (fill : Spot → Tagged) (pledged : List (List Piece)) (takings : List ℕ) (b : Rebuilt) (s : State) (tapes : List (List ℕ)) → Stands fill pledged takings parts.old lanes.old made b s → is_some (lane_at s lane).taking ≡ records → IfOk result (IsPlayed fill pledged takings b s tapes (calls.Play lane rope start len) made parts.new lanes.new) }
    // So each block can be used once more.
    ensures few { IfOk result (λ played. IsJob played → length parts.old.ropes.ropes + most_held + 3 ≤ 2 ^ 32) }
    ensures refused { IfOk result (StaysRefused parts.old lanes.old parts.new lanes.new) }
    ensures err { OnErr result ((parts.new ≡ parts.old) × (lanes.new ≡ lanes.old)) }
    ensures frames { lanes.new.frames ≡ lanes.old.frames }
    ensures blocks { parts.new.blocks ≡ parts.old.blocks }
    ensures interests { parts.new.interests ≡ parts.old.interests }
    ensures moment { parts.new.moment ≡ parts.old.moment }
    ensures next { parts.new.next ≡ parts.old.next }
    ensures form { parts.new.form ≡ parts.old.form }
    ensures spare_ropes { parts.new.ropes.spare_ropes ≡ parts.old.ropes.spare_ropes }
    ensures spare_pairs { parts.old.ropes.spare_pairs ≤ parts.new.ropes.spare_pairs }
{
    if let Some(why) = refused(parts, lanes, shape, records, lane, rope, start, len) {
        return Ok(Played::Refused(why));
    }
    if parts.ropes.count() > MOST_ROPES {
        return Err(NoMemory);
    }
    let passage = passage_of(&parts.ropes, rope, start, len)?;
    parts.ropes.hold(&passage);
    let id = JobId(made + 1);
    lanes.push(lane, id, passage);
    Ok(Played::Job(id))
}
