//! Why the calls of recordings in parts are refused.

ghost use Rattle.std.specs.Prelude.{◌≡◌, ℕ, ◌+◌, ◌-◌, ◌≤◌, ◌<◌, ◌^◌, List, length, None};
ghost use Rattle.voice_units.specs.Blocks.{blocks_for};
ghost use Rattle.voice_units.specs.declared.pieces.Take.{Take};
ghost use Rattle.voice_model.specs.State.{State, lane_at};
ghost use Rattle.voice_model.specs.Tapes.{taken};
ghost use Rattle.voice_model.specs.Room.{free as free_in};
ghost use Rattle.voice_model.specs.Changes.{taking_of};
ghost use Rattle.voice_model.specs.Early.{all_but_last};
ghost use Rattle.voice_model.specs.Step.{conditions, first_of, refusal};
ghost use Rattle.voice_model.specs.declared.calls.Call.TheVariants as calls;
ghost use Rattle.recording_calls.specs.Shown.{ShowsRecordings, MayAdd};

use super::Recordings;
use voice_model::Why;
use voice_units::{LAST_ROPE, Lane, MOST_SAMPLES, Shape, blocks_needed};

impl Recordings {
    /// Why a recording may not open on a lane that has so many jobs: the lane is unknown, records, or has a job, in this order.
    pub(crate) fn begin_refused(&self, shape: &Shape, lane: Lane, jobs: u32) -> Option<Why>
        ensures { (s : State) (tapes : List (List ℕ)) → ShowsRecordings self.now s → s.shape ≡ shape.now → jobs ≡ length (lane_at s lane).jobs → result ≡ refusal s tapes (calls.Begin lane) }
    {
        if lane.0 >= shape.lanes {
            return Some(Why::UnknownLane(shape.lanes));
        }
        if self.is_open(lane) {
            return Some(Why::LaneRecording);
        }
        if jobs > 0 {
            return Some(Why::LaneBusy(jobs));
        }
        None
    }

    /// How many blocks more the open recording of a lane takes with so many more bytes.
    pub fn blocks_more(&self, shape: &Shape, lane: Lane, n: u32) -> u32
        ensures { (s : State) → ShowsRecordings self.now s → result ≡ blocks_for shape.now.block (length (taking_of s lane) + n) - blocks_for shape.now.block (length (taking_of s lane)) }
    {
        let total = u64::from(self.total(lane));
        let before = blocks_needed(shape.block, total);
        let after = blocks_needed(shape.block, total + u64::from(n));
        after - before
    }

    /// Why so many bytes may not be added to a lane's recording, while so many blocks are free: the lane is unknown, does not record, would record more than 2^30 bytes, or the blocks are too few, in this order.
    pub fn add_refused(&self, shape: &Shape, lane: Lane, n: u32, free: u32) -> Option<Why>
        ensures refused { (s : State) (tapes : List (List ℕ)) (take : Take) → ShowsRecordings self.now s → s.shape ≡ shape.now → n ≡ length (taken tapes take) → free ≡ free_in s → result ≡ refusal s tapes (calls.Add lane take) }
        ensures may { result ≡ None → MayAdd self.now lane n }
    {
        if lane.0 >= shape.lanes {
            return Some(Why::UnknownLane(shape.lanes));
        }
        if !self.is_open(lane) {
            return Some(Why::NoRecording);
        }
        let all = u64::from(self.total(lane)) + u64::from(n);
        if all > MOST_SAMPLES {
            return Some(Why::TooLong(all));
        }
        let needed = self.blocks_more(shape, lane, n);
        if needed > free {
            return Some(Why::NoRoom(needed, free));
        }
        None
    }

    /// Why a lane's recording may not end, before the journal is asked, where the next rope gets this number: the lane is unknown, does not record, or the numbers are spent, in this order.
    pub fn end_refused(&self, shape: &Shape, lane: Lane, next: u64) -> Option<Why>
        ensures { (s : State) (tapes : List (List ℕ)) → ShowsRecordings self.now s → s.shape ≡ shape.now → next ≡ s.next → result ≡ first_of (all_but_last (conditions s tapes (calls.End lane))) }
    {
        if lane.0 >= shape.lanes {
            return Some(Why::UnknownLane(shape.lanes));
        }
        if !self.is_open(lane) {
            return Some(Why::NoRecording);
        }
        if next > LAST_ROPE {
            return Some(Why::IdsSpent);
        }
        None
    }
}
