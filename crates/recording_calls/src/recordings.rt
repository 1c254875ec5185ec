//! The open recordings of the lanes.

ghost use Rattle.std.specs.Prelude.{◌≡◌, ℕ, ◌≤◌, ◌^◌, List, ◌++◌, length, replicate, slice_set, is_some, Option, Some, None, option_copied, Ok, IfOk, OnErr, IfSome};
ghost use Rattle.std.specs.Cow.{cow_slice_items};
ghost use Rattle.voice_units.specs.declared.pieces.Take.{Take};
ghost use Rattle.voice_model.specs.State.{State, lane_at, quiet_lane};
ghost use Rattle.voice_model.specs.Tapes.{taken};
ghost use Rattle.voice_model.specs.Changes.{taking_of};
ghost use Rattle.voice_model.specs.Step.{refusal, on_lanes, closed};
ghost use Rattle.voice_model.specs.declared.calls.Call.TheVariants as calls;
ghost use Rattle.record_job.specs.Recording.{filled_up, rest_of};
ghost use Rattle.recording_calls.specs.Shown.{ShowsRecordings, MayAdd, recording_at, total_in, more_of, between};

use record_job::Taking;
use std::alloc::Global;
use std::borrow::CowSlice;
use std::marker::Model;
use voice_model::Why;
use voice_units::{Lane, NoMemory, Shape};

/// The open recordings of the lanes. Contracts see the list of them, none where a lane has no recording.
#[derive(Drop)]
pub struct Recordings {
    lanes: Vec<Option<Taking>>,
}

impl Model for Recordings {
    ghost use Rattle.std.specs.Prelude.{List, Option};
    ghost use Rattle.record_job.specs.Recording.{Recording};

    ghost Value = { List (Option Recording) };

    ghost view = { λ r. r.lanes.items };
}

/// An open recording with more bytes, and the whole blocks that got complete.
#[derive(Drop)]
pub struct Added<'a> {
    pub taking: Taking,
    pub blocks: CowSlice<'a, u8, Global>,
}

impl Recordings {
    /// Lanes without recordings.
    pub fn new(alloc: Global, lanes: u16) -> Result<Recordings, NoMemory>
        ensures none { IfOk result (λ recordings. recordings ≡ replicate lanes None) }
        ensures shows { (s : State) → s.lanes ≡ replicate lanes quiet_lane → IfOk result (λ recordings. ShowsRecordings recordings s) }
    {
        let mut all = Vec::with_capacity(alloc, usize::from(lanes))?;
        for _ in 0..lanes {
            all.push(None)?;
        }
        Ok(Recordings { lanes: all })
    }

    /// The open recording of a lane.
    fn get(&self, lane: Lane) -> Option<&Taking>
        ensures { option_copied result ≡ recording_at self.now lane }
    {
        let slot = self.lanes.get(usize::from(lane.0))?;
        slot.as_ref()
    }

    /// Sets the open recording of a lane; nothing where the lane is not there.
    fn set(&mut self, lane: Lane, taking: Option<Taking>)
        ensures { self.new ≡ slice_set self.old lane taking }
    {
        let Some(slot) = self.lanes.get_mut(usize::from(lane.0)) else {
            return;
        };
        *slot = taking;
    }

    /// Whether a lane has an open recording.
    pub fn is_open(&self, lane: Lane) -> bool
        ensures own { result ≡ is_some (recording_at self.now lane) }
        ensures shown { (s : State) → ShowsRecordings self.now s → result ≡ is_some (lane_at s lane).taking }
    {
        self.get(lane).is_some()
    }

    /// How many bytes the open recording of a lane has, 0 where none is open.
    pub fn total(&self, lane: Lane) -> u32
        ensures own { result ≡ total_in (recording_at self.now lane) }
        ensures most { result ≤ 2 ^ 30 }
        ensures shown { (s : State) → ShowsRecordings self.now s → result ≡ length (taking_of s lane) }
    {
        let Some(taking) = self.get(lane) else {
            return 0;
        };
        taking.total()
    }

    /// Opens a recording on a lane that has so many jobs. It is refused where the lane is unknown, records, or has a job, in this order. After a refusal and after want of memory nothing changed.
    pub fn begin(
        &mut self,
        alloc: Global,
        shape: &Shape,
        lane: Lane,
        jobs: u32,
    ) -> Result<Option<Why>, NoMemory>
        ensures refused { (s : State) (tapes : List (List ℕ)) → ShowsRecordings self.old s → s.shape ≡ shape.now → jobs ≡ length (lane_at s lane).jobs → IfOk result (λ answer. answer ≡ refusal s tapes (calls.Begin lane)) }
        ensures begun { (s : State) (tapes : List (List ℕ)) → ShowsRecordings self.old s → s.shape ≡ shape.now → result ≡ Ok None → ShowsRecordings self.new (on_lanes s tapes (calls.Begin lane)) }
        ensures stays { IfOk result (λ answer. IfSome answer (λ _. self.new ≡ self.old)) }
        ensures err { OnErr result (self.new ≡ self.old) }
    {
        if let Some(why) = self.begin_refused(shape, lane, jobs) {
            return Ok(Some(why));
        }
        let taking = Taking::begin(alloc, lane, shape.block)?;
        self.set(lane, Some(taking));
        Ok(None)
    }

    /// The open recording of a lane with more bytes, as a copy of the few that are kept back, and the whole blocks that get complete: a front of these bytes where none before them were kept back.
    pub fn added<'a>(&self, lane: Lane, bytes: &'a [u8]) -> Result<Added<'a>, NoMemory>
        requires { MayAdd self.now lane (length bytes.now) }
        ensures taking { IfOk result (λ more. Some more.taking ≡ more_of (recording_at self.now lane) bytes.now) }
        ensures blocks { (s : State) → ShowsRecordings self.now s → IfOk result (λ more. cow_slice_items more.blocks ≡ between s.shape.block (length (taking_of s lane)) (taking_of s lane ++ bytes.now)) }
    {
        let Some(open) = self.get(lane) else {
            unreachable!()
        };
        let mut taking = open.copy()?;
        let blocks = taking.add(bytes)?;
        Ok(Added { taking, blocks })
    }

    /// Puts an open recording in the place of a lane's own. It takes no memory.
    pub fn put(&mut self, lane: Lane, taking: Taking)
        ensures after { self.new ≡ slice_set self.old lane (Some taking) }
        ensures shows { (s : State) (tapes : List (List ℕ)) (take : Take) → ShowsRecordings self.old s → Some taking ≡ more_of (recording_at self.old lane) (taken tapes take) → ShowsRecordings self.new (on_lanes s tapes (calls.Add lane take)) }
    {
        self.set(lane, Some(taking));
    }

    /// The last block of a lane's open recording, filled up with zero bytes; nothing where its bytes end with a block, or none is open.
    pub fn last_block(&self, alloc: Global, lane: Lane) -> Result<Vec<u8>, NoMemory>
        ensures { (s : State) → ShowsRecordings self.now s → IfOk result (λ last. last.items ≡ filled_up s.shape.block (rest_of s.shape.block (taking_of s lane))) }
    {
        let Some(open) = self.get(lane) else {
            return Ok(Vec::new(alloc));
        };
        let taking = open.copy()?;
        Ok(taking.end())
    }

    /// Drops the open recording of a lane. It takes no memory.
    pub fn close(&mut self, lane: Lane)
        ensures after { self.new ≡ slice_set self.old lane None }
        ensures shows { (s : State) → ShowsRecordings self.old s → ShowsRecordings self.new (closed s lane) }
    {
        self.set(lane, None);
    }
}
