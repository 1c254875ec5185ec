//! The jobs of the lanes, and the leases of their windows.

ghost use Rattle.std.specs.Prelude.{if◌then◌else◌, ◌↔◌, IsOk, ◌*◌, ◌%◌, None, ◌≡◌, ◌≢◌, ◌⊎◌, ◌+◌, ◌<◌, ◌≤◌, ◌++◌, ◌∷◌, ℕ, [], Bool, true, false, List, Ok, Err, Some, slice_get, length, slice_set, drop, IfOk, IfSome, OnOk, OnErr, IsTrue, replicate, map, count_by, not};
ghost use Rattle.voice_units.specs.Layout.{bytes_needed};
ghost use Rattle.voice_units.specs.Spots.{samples_in, spots_of};
ghost use Rattle.voice_outside.specs.Counters.{HasRisen};
ghost use Rattle.frame_pool.specs.Pool.{lanes_of, block_of, stage_of, hint_of, looks_of, spent};
ghost use Rattle.frame_pool.specs.Steps.{ended};
ghost use Rattle.play_queue.specs.Queued.{lane_of, stopped_job};
ghost use Rattle.playing.specs.Frames.{ChangesLaneAlone, HasRead, HaveAddresses, HoldsBytes, AreOnDisk, AreReady, missing, Forgets, AreUsed, uses_of, is_resident};
ghost use Rattle.playing.specs.Windows.{byte_in};
ghost use Rattle.playing.specs.Lanes.{new_job, window_at, stopped_at, IsOver, IsBack, HintsTell, home_with, next_window, next_start, passage_length, sent, IsSent, IsSentTo, IsTurn};
ghost use Rattle.playing.specs.Fed.{FedTo, HasSamples, IsStop};

use crate::frames::Frames;
use crate::turns::{Fed, Turn};
use crate::windows::window_of;
use frame_pool::Lease;
use play_queue::{Job, Queues};
use rope_algebra::Pieces;
use rope_table::RopeTable;
use std::alloc::Global;
use std::marker::Model;
use voice_blocks::BlockMap;
use voice_outside::Disk;
use voice_units::{JobId, Lane, NoMemory, Piece, RopeId, Shape};

// Why a window is not handed out: a read failed, or there is no memory.
#[derive(Clone, Copy, Debug, PartialEq, Eq)]
enum Trouble {
    Failed,
    NoMemory,
}

// Where a window begins, and its lease.
#[derive(Drop)]
struct Sent {
    at: u32,
    lease: Lease,
}

// Where a window begins, and its stretches.
#[derive(Drop)]
struct Next {
    at: u32,
    window: Vec<Piece>,
}

/// What the lanes play: their jobs, the frames of the pool, and whether the lease of a lane's window was taken back though the window is out.
#[derive(Drop)]
pub struct Lanes {
    queues: Queues,
    frames: Frames,
    taken: Vec<bool>,
}

impl Model for Lanes {
    ghost use Rattle.playing.specs.Lanes.{LanesState, AreLanes};

    ghost Value = { LanesState };

    ghost view = { λ s. record { queues = s.queues; frames = s.frames; taken = s.taken.items } };

    ghost invariant = { λ s. AreLanes s.queues s.frames s.taken.items };
}

// No lane's lease was taken back.
fn no_marks(alloc: Global, lanes: u16) -> Result<Vec<bool>, NoMemory>
    ensures { IfOk result (λ marks. marks.items ≡ replicate lanes false) }
{
    let mut marks = Vec::with_capacity(alloc, usize::from(lanes))?;
    for _ in 0..lanes {
        marks.push(false)?;
    }
    Ok(marks)
}

impl Lanes {
    /// Puts a job last on a lane that has fewer than 8.
    pub fn push(&mut self, lane: Lane, id: JobId, passage: Pieces)
        requires lane { lane < length self.old.queues }
        requires room { length (lane_of self.old.queues lane) < 8 }
        ensures queues { self.new.queues ≡ slice_set self.old.queues lane (lane_of self.old.queues lane ++ new_job id passage ∷ []) }
        ensures frames { self.new.frames ≡ self.old.frames }
        ensures taken { self.new.taken ≡ self.old.taken }
    {
        let job = Job {
            id,
            passage,
            heard: 0,
            window: 0,
            stopped: false,
        };
        let _pushed = self.queues.push(lane, job);
    }

    /// Marks every job of a lane as stopped and hints its player: how many were not stopped.
    pub fn stop(&mut self, lane: Lane) -> u32
        requires lane { lane < length self.old.queues }
        ensures newly { result ≡ count_by (λ job. not job.stopped) (lane_of self.old.queues lane) }
        ensures queues { self.new.queues ≡ slice_set self.old.queues lane (map stopped_job (lane_of self.old.queues lane)) }
        ensures hinted { hint_of self.new.frames.keeper lane ≡ 1 }
        ensures stage { stage_of self.new.frames.keeper lane ≡ stage_of self.old.frames.keeper lane }
        ensures frames { ChangesLaneAlone self.old.frames self.new.frames lane }
        ensures taken { self.new.taken ≡ self.old.taken }
    {
        self.frames.hint(lane, true);
        self.queues.stop(lane)
    }

    /// Takes the lease of the window that is out on a lane back, whose lane is free then; the window stays out. False exactly where it was taken back before and is not known to be that of the window: then nothing changed.
    pub fn bring_back(&mut self, lane: Lane, lease: &mut Lease) -> bool
        requires lane { lane < length self.old.queues }
        requires on { lease.old.lane ≡ lane }
        requires pool { lease.old.pool ≡ self.old.frames.keeper.pool }
        ensures fresh { lease.old.taken ≡ false → result ≡ true }
        ensures again { lease.old.taken ≡ true → IsBack self.old lane → 0 < window_at (lane_of self.old.queues lane) → window_at (lane_of self.old.queues lane) ≡ lease.old.len → result ≡ true }
        ensures window { result ≡ true → (0 < window_at (lane_of self.old.queues lane)) × (window_at (lane_of self.old.queues lane) ≡ lease.old.len) }
        ensures hinted { lease.old.taken ≡ false → lease.old.hinted ≡ true → stopped_at (lane_of self.old.queues lane) ≡ true }
        ensures back { result ≡ true → IsBack self.new lane }
        ensures queues { self.new.queues ≡ self.old.queues }
        ensures frames { ChangesLaneAlone self.old.frames self.new.frames lane }
        ensures lease { lease.new ≡ (if lease.old.taken then lease.old else spent lease.old) }
        ensures no { result ≡ false → (lease.old.taken ≡ true) × (self.new ≡ self.old) }
    {
        let k = usize::from(lane.0);
        if !lease.taken_back() {
            self.frames.take_back(lease);
            self.taken[k] = true;
            return true;
        }
        if !self.taken[k] {
            return false;
        }
        let Some(job) = self.queues.head(lane) else {
            return false;
        };
        job.window == lease.len()
    }

    // The window of a lane is back, and so much more of its first job was heard.
    fn hear(&mut self, lane: Lane, more: u32)
        requires lane { lane < length self.old.queues }
        requires back { IsBack self.old lane }
        requires some { 0 < length (lane_of self.old.queues lane) }
        requires most { more ≤ window_at (lane_of self.old.queues lane) }
        ensures queues { self.new.queues ≡ slice_set self.old.queues lane (home_with more (lane_of self.old.queues lane)) }
        ensures frames { self.new.frames ≡ self.old.frames }
    {
        self.queues.advance(lane, more);
        self.taken[usize::from(lane.0)] = false;
    }

    // Takes the first job of a lane out, of which nothing is out; `None` exactly where there is none.
    fn end(&mut self, lane: Lane) -> Option<Job>
        requires lane { lane < length self.old.queues }
        requires home { window_at (lane_of self.old.queues lane) ≡ 0 }
        ensures value { result ≡ slice_get (lane_of self.old.queues lane) 0 }
        ensures queues { self.new.queues ≡ slice_set self.old.queues lane (drop 1 (lane_of self.old.queues lane)) }
        ensures frames { self.new.frames ≡ self.old.frames }
        ensures taken { self.new.taken ≡ self.old.taken }
    {
        self.queues.pop(lane)
    }

    /// The jobs of the lanes. The hint of a lane on which a window is out is on exactly where its first job is stopped.
    pub fn queues(&self) -> &Queues
        ensures value { result.now ≡ self.now.queues }
        ensures hints { HintsTell self.now }
        // Where nothing is out the lane's lease is back.
        ensures home { (l : ℕ) → window_at (lane_of self.now.queues l) ≡ 0 → IsBack self.now l }
        ensures lanes { length self.now.queues ≡ lanes_of self.now.frames.keeper }
    {
        &self.queues
    }
}

impl Lanes {
    // Where the next window of a lane's first job begins, once more of it was heard, and its stretches.
    fn next(&self, alloc: Global, block: u32, lane: Lane, more: u32) -> Result<Next, NoMemory>
        requires least { 8 ≤ block }
        requires most_block { block ≤ 8192 }
        requires lane { lane < length self.now.queues }
        requires some { 0 < length (lane_of self.now.queues lane) }
        requires most { more ≤ window_at (lane_of self.now.queues lane) }
        ensures start { IfOk result (λ r. r.at ≡ next_start more (lane_of self.now.queues lane)) }
        ensures window { IfOk result (λ r. r.window.items ≡ next_window block more (lane_of self.now.queues lane)) }
    {
        let Some(job) = self.queues.head(lane) else {
            unreachable!()
        };
        let at = job.heard + more;
        let window = window_of(alloc, &job.passage, at, block)?;
        Ok(Next { at, window })
    }

    // Brings the next window of a lane's first job into frames, and hands out its lease. So much more of the job was heard; after an error that and the window that was out stay open. It reads each block of the window that is in no frame once.
    fn send<D: Disk>(
        &mut self,
        alloc: Global,
        shape: &Shape,
        disk: &mut D,
        blocks: &BlockMap,
        lane: Lane,
        more: u32,
    ) -> Result<Sent, Trouble>
        requires least { 8 ≤ shape.now.block }
        requires most_block { shape.now.block ≤ 8192 }
        requires block { shape.now.block ≡ block_of self.old.frames.keeper }
        requires fits { bytes_needed shape.now.block shape.now.blocks shape.now.area ≤ (D.told disk.old).size }
        requires count { length blocks.now.holders ≡ shape.now.blocks }
        requires lane { lane < length self.old.queues }
        requires back { IsBack self.old lane }
        requires some { 0 < length (lane_of self.old.queues lane) }
        requires most { more ≤ window_at (lane_of self.old.queues lane) }
        requires goes_on { stopped_at (lane_of self.old.queues lane) ≡ false }
        requires rest { next_start more (lane_of self.old.queues lane) < passage_length (lane_of self.old.queues lane) }
        requires addresses { HaveAddresses shape.now.block blocks.now.holders (next_window shape.now.block more (lane_of self.old.queues lane)) }
        ensures made { HasRead (missing shape.now.block self.old.frames.resident (next_window shape.now.block more (lane_of self.old.queues lane))) (D.told disk.old) (D.told disk.new) }
        ensures cause { result ≡ Err Trouble.Failed → HasRisen (D.told disk.old).faults (D.told disk.new).faults }
        ensures start { IfOk result (λ r. r.at ≡ next_start more (lane_of self.old.queues lane)) }
        ensures queues { OnOk result (self.new.queues ≡ slice_set self.old.queues lane (sent more (samples_in (next_window shape.now.block more (lane_of self.old.queues lane))) (lane_of self.old.queues lane))) }
        ensures lease { IfOk result (λ r. IsSent self.old lane (next_window shape.now.block more (lane_of self.old.queues lane)) r.lease) }
        ensures frames { IsSentTo shape.now.block (next_window shape.now.block more (lane_of self.old.queues lane)) lane self.old.frames self.new.frames }
        ensures ready { OnOk result (AreReady shape.now.block self.new.frames.resident (next_window shape.now.block more (lane_of self.old.queues lane)) (length (next_window shape.now.block more (lane_of self.old.queues lane)))) }
        ensures bytes { IsTrue (D.told disk.old).honest → (bytes : ℕ → ℕ → List ℕ) → AreOnDisk bytes shape.now (D.told disk.old).bytes blocks.now.holders → HoldsBytes bytes self.old.frames → HoldsBytes bytes self.new.frames }
        ensures samples { IsTrue (D.told disk.old).honest → (bytes : ℕ → ℕ → List ℕ) → AreOnDisk bytes shape.now (D.told disk.old).bytes blocks.now.holders → HoldsBytes bytes self.old.frames → IfOk result (λ r. r.lease.samples ≡ map (byte_in bytes shape.now.block) (spots_of (next_window shape.now.block more (lane_of self.old.queues lane)))) }
        ensures err { OnErr result ((self.new.queues ≡ self.old.queues) × (self.new.taken ≡ self.old.taken) × IsBack self.new lane) }
    {
        let Ok(next) = self.next(alloc, shape.block, lane, more) else {
            return Err(Trouble::NoMemory);
        };
        let window = &next.window;
        let Ok(found) = self.frames.bring_in(shape, disk, blocks, lane, window) else {
            return Err(Trouble::Failed);
        };
        let Ok(lease) = self.frames.grant(alloc, lane, window, &found, shape.block) else {
            return Err(Trouble::NoMemory);
        };
        self.queues.advance(lane, more);
        self.queues.set_window(lane, lease.len());
        self.taken[usize::from(lane.0)] = false;
        Ok(Sent { at: next.at, lease })
    }
}

impl Lanes {
    // How a lane's first job goes on, once more of it was heard.
    fn turn(&self, lane: Lane, more: u32) -> Turn
        requires lane { lane < length self.now.queues }
        requires some { 0 < length (lane_of self.now.queues lane) }
        requires most { more ≤ window_at (lane_of self.now.queues lane) }
        ensures { IsTurn result more (lane_of self.now.queues lane) }
    {
        let Some(job) = self.queues.head(lane) else {
            unreachable!()
        };
        if job.stopped {
            return Turn::Stopped;
        }
        if job.heard + more == job.passage.length() {
            return Turn::Ended;
        }
        Turn::Plays
    }

    // The first job leaves the lane, once more of it was heard.
    fn finish(&mut self, lane: Lane, more: u32) -> Job
        requires lane { lane < length self.old.queues }
        requires back { IsBack self.old lane }
        requires some { 0 < length (lane_of self.old.queues lane) }
        requires most { more ≤ window_at (lane_of self.old.queues lane) }
        ensures job { Some result ≡ slice_get (home_with more (lane_of self.old.queues lane)) 0 }
        ensures queues { self.new.queues ≡ slice_set self.old.queues lane (drop 1 (lane_of self.old.queues lane)) }
        ensures frames { self.new.frames ≡ self.old.frames }
    {
        self.hear(lane, more);
        let Some(job) = self.end(lane) else {
            unreachable!()
        };
        job
    }
}

impl Lanes {
    // The next window of a lane's first job, which goes on.
    fn play_on<D: Disk>(
        &mut self,
        alloc: Global,
        shape: &Shape,
        disk: &mut D,
        blocks: &BlockMap,
        lane: Lane,
        more: u32,
    ) -> Result<Fed, NoMemory>
        requires least { 8 ≤ shape.now.block }
        requires most_block { shape.now.block ≤ 8192 }
        requires block { shape.now.block ≡ block_of self.old.frames.keeper }
        requires fits { bytes_needed shape.now.block shape.now.blocks shape.now.area ≤ (D.told disk.old).size }
        requires count { length blocks.now.holders ≡ shape.now.blocks }
        requires lane { lane < length self.old.queues }
        requires back { IsBack self.old lane }
        requires some { 0 < length (lane_of self.old.queues lane) }
        requires most { more ≤ window_at (lane_of self.old.queues lane) }
        requires goes_on { stopped_at (lane_of self.old.queues lane) ≡ false }
        requires rest { next_start more (lane_of self.old.queues lane) < passage_length (lane_of self.old.queues lane) }
        requires addresses { HaveAddresses shape.now.block blocks.now.holders (next_window shape.now.block more (lane_of self.old.queues lane)) }
        ensures made { HasRead (missing shape.now.block self.old.frames.resident (next_window shape.now.block more (lane_of self.old.queues lane))) (D.told disk.old) (D.told disk.new) }
        ensures fed { IfOk result (λ fed. FedTo shape.now.block more lane fed self.old self.new) }
        ensures fault { result ≡ Ok Fed.Fault → HasRisen (D.told disk.old).faults (D.told disk.new).faults }
        ensures frames { IsSentTo shape.now.block (next_window shape.now.block more (lane_of self.old.queues lane)) lane self.old.frames self.new.frames }
        ensures bytes { IsTrue (D.told disk.old).honest → (bytes : ℕ → ℕ → List ℕ) → AreOnDisk bytes shape.now (D.told disk.old).bytes blocks.now.holders → HoldsBytes bytes self.old.frames → HoldsBytes bytes self.new.frames }
        ensures samples { IsTrue (D.told disk.old).honest → (bytes : ℕ → ℕ → List ℕ) → AreOnDisk bytes shape.now (D.told disk.old).bytes blocks.now.holders → HoldsBytes bytes self.old.frames → IfOk result (HasSamples bytes shape.now.block (next_window shape.now.block more (lane_of self.old.queues lane))) }
        ensures err { OnErr result ((self.new.queues ≡ self.old.queues) × (self.new.taken ≡ self.old.taken) × IsBack self.new lane) }
    {
        match self.send(alloc, shape, disk, blocks, lane, more) {
            Ok(sent) => Ok(Fed::Window(sent.at, sent.lease)),
            Err(Trouble::NoMemory) => Err(NoMemory),
            Err(Trouble::Failed) => {
                self.hear(lane, more);
                Ok(Fed::Fault)
            }
        }
    }

    /// The next window of a lane's first job, once more of it was heard; or the job leaves the lane, which takes no memory and no device call. After `NoMemory` the jobs are as before.
    pub fn feed<D: Disk>(
        &mut self,
        alloc: Global,
        shape: &Shape,
        disk: &mut D,
        blocks: &BlockMap,
        lane: Lane,
        more: u32,
    ) -> Result<Fed, NoMemory>
        requires least { 8 ≤ shape.now.block }
        requires most_block { shape.now.block ≤ 8192 }
        requires block { shape.now.block ≡ block_of self.old.frames.keeper }
        requires fits { bytes_needed shape.now.block shape.now.blocks shape.now.area ≤ (D.told disk.old).size }
        requires count { length blocks.now.holders ≡ shape.now.blocks }
        requires lane { lane < length self.old.queues }
        requires back { IsBack self.old lane }
        requires some { 0 < length (lane_of self.old.queues lane) }
        requires most { more ≤ window_at (lane_of self.old.queues lane) }
        requires addresses { stopped_at (lane_of self.old.queues lane) ≡ false → HaveAddresses shape.now.block blocks.now.holders (next_window shape.now.block more (lane_of self.old.queues lane)) }
        ensures made { HasRead (missing shape.now.block self.old.frames.resident (next_window shape.now.block more (lane_of self.old.queues lane))) (D.told disk.old) (D.told disk.new) }
        ensures still { IsOver more (lane_of self.old.queues lane) → disk.new ≡ disk.old }
        ensures spare { IsOver more (lane_of self.old.queues lane) → IsOk result }
        ensures stays { IsOver more (lane_of self.old.queues lane) → self.new.frames.resident ≡ self.old.frames.resident }
        ensures fed { IfOk result (λ fed. FedTo shape.now.block more lane fed self.old self.new) }
        ensures fault { result ≡ Ok Fed.Fault → HasRisen (D.told disk.old).faults (D.told disk.new).faults }
        ensures frames { IsSentTo shape.now.block (next_window shape.now.block more (lane_of self.old.queues lane)) lane self.old.frames self.new.frames }
        ensures bytes { IsTrue (D.told disk.old).honest → (bytes : ℕ → ℕ → List ℕ) → AreOnDisk bytes shape.now (D.told disk.old).bytes blocks.now.holders → HoldsBytes bytes self.old.frames → HoldsBytes bytes self.new.frames }
        ensures samples { IsTrue (D.told disk.old).honest → (bytes : ℕ → ℕ → List ℕ) → AreOnDisk bytes shape.now (D.told disk.old).bytes blocks.now.holders → HoldsBytes bytes self.old.frames → IfOk result (HasSamples bytes shape.now.block (next_window shape.now.block more (lane_of self.old.queues lane))) }
        ensures err { OnErr result ((self.new.queues ≡ self.old.queues) × (self.new.taken ≡ self.old.taken) × IsBack self.new lane) }
    {
        match self.turn(lane, more) {
            Turn::Stopped => Ok(Fed::Stopped(self.finish(lane, more))),
            Turn::Ended => Ok(Fed::Ended(self.finish(lane, more))),
            Turn::Plays => self.play_on(alloc, shape, disk, blocks, lane, more),
        }
    }
}

impl Lanes {
    /// So many lanes without a job, and their frames, which hold no block.
    pub fn new(alloc: Global, lanes: u16, block: u32) -> Result<Lanes, NoMemory>
        requires lanes { (1 ≤ lanes) × (lanes ≤ 16) }
        requires block { (block % 8 ≡ 0) × (8 ≤ block) × (block ≤ 8192) }
        ensures queues { IfOk result (λ s. s.queues ≡ replicate lanes []) }
        ensures sizes { IfOk result (λ s. (lanes_of s.frames.keeper ≡ lanes) × (block_of s.frames.keeper ≡ block)) }
        ensures empty { IfOk result (λ s. s.frames.resident ≡ replicate (4 * lanes) None) }
    {
        let queues = Queues::new(alloc, lanes)?;
        let frames = Frames::new(alloc, lanes, block)?;
        let taken = no_marks(alloc, lanes)?;
        Ok(Lanes {
            queues,
            frames,
            taken,
        })
    }

    /// Looks whether the player of a lane released its lease: then its frames may be filled.
    pub fn observe(&mut self, lane: Lane) -> bool
        requires lane { lane < length self.old.queues }
        ensures queues { self.new.queues ≡ self.old.queues }
        ensures taken { self.new.taken ≡ self.old.taken }
        ensures looks { (n : ℕ) × (looks_of self.new.frames.keeper lane ≡ looks_of self.old.frames.keeper lane ++ n ∷ []) × (IsTrue result ↔ (n ≡ 0)) }
        ensures stage { stage_of self.new.frames.keeper lane ≡ (if result then ended (stage_of self.old.frames.keeper lane) else stage_of self.old.frames.keeper lane) }
        ensures frames { ChangesLaneAlone self.old.frames self.new.frames lane }
    {
        self.frames.observe(lane)
    }

    /// Blocks that nothing uses are not known to be in a frame any longer.
    pub fn forget_unused(&mut self, ropes: &RopeTable)
        ensures queues { self.new.queues ≡ self.old.queues }
        ensures taken { self.new.taken ≡ self.old.taken }
        ensures forgets { Forgets (uses_of ropes.now) self.old.frames self.new.frames }
        ensures used { AreUsed (uses_of ropes.now) self.new.frames }
        ensures bytes { (bytes : ℕ → ℕ → List ℕ) → HoldsBytes bytes self.old.frames → HoldsBytes bytes self.new.frames }
    {
        self.frames.forget_unused(ropes);
    }

    /// Whether a frame holds a block.
    pub fn is_resident(&self, file: RopeId, index: u32) -> bool
        ensures { result ≡ is_resident self.now.frames.resident file index }
    {
        self.frames.is_resident(file, index)
    }
}

impl Lanes {
    /// Brings the lease of a lane's window back, of which so much was heard, and feeds the lane. After `NoMemory` the jobs are as before, and the lease may have been taken back; it can be brought back again.
    pub fn serve<D: Disk>(
        &mut self,
        alloc: Global,
        shape: &Shape,
        disk: &mut D,
        blocks: &BlockMap,
        lane: Lane,
        lease: &mut Lease,
        heard: u32,
    ) -> Result<Fed, NoMemory>
        requires least { 8 ≤ shape.now.block }
        requires most_block { shape.now.block ≤ 8192 }
        requires block { shape.now.block ≡ block_of self.old.frames.keeper }
        requires fits { bytes_needed shape.now.block shape.now.blocks shape.now.area ≤ (D.told disk.old).size }
        requires count { length blocks.now.holders ≡ shape.now.blocks }
        requires lane { lane < length self.old.queues }
        requires on { lease.old.lane ≡ lane }
        requires pool { lease.old.pool ≡ self.old.frames.keeper.pool }
        requires most { heard ≤ lease.old.len }
        requires addresses { stopped_at (lane_of self.old.queues lane) ≡ false → HaveAddresses shape.now.block blocks.now.holders (next_window shape.now.block heard (lane_of self.old.queues lane)) }
        ensures made { HasRead (missing shape.now.block self.old.frames.resident (next_window shape.now.block heard (lane_of self.old.queues lane))) (D.told disk.old) (D.told disk.new) }
        ensures still { IsOver heard (lane_of self.old.queues lane) → disk.new ≡ disk.old }
        ensures spare { lease.old.taken ≡ false → IsOver heard (lane_of self.old.queues lane) → IsOk result }
        ensures stays { IsOver heard (lane_of self.old.queues lane) → self.new.frames.resident ≡ self.old.frames.resident }
        ensures fed { IfOk result (λ fed. FedTo shape.now.block heard lane fed self.old self.new) }
        // It brings back the window that is out.
        ensures window { IsOk result → (0 < window_at (lane_of self.old.queues lane)) × (window_at (lane_of self.old.queues lane) ≡ lease.old.len) }
        ensures hinted { lease.old.taken ≡ false → lease.old.hinted ≡ true → IfOk result IsStop }
        ensures fault { result ≡ Ok Fed.Fault → HasRisen (D.told disk.old).faults (D.told disk.new).faults }
        ensures frames { IsSentTo shape.now.block (next_window shape.now.block heard (lane_of self.old.queues lane)) lane self.old.frames self.new.frames }
        ensures bytes { IsTrue (D.told disk.old).honest → (bytes : ℕ → ℕ → List ℕ) → AreOnDisk bytes shape.now (D.told disk.old).bytes blocks.now.holders → HoldsBytes bytes self.old.frames → HoldsBytes bytes self.new.frames }
        ensures samples { IsTrue (D.told disk.old).honest → (bytes : ℕ → ℕ → List ℕ) → AreOnDisk bytes shape.now (D.told disk.old).bytes blocks.now.holders → HoldsBytes bytes self.old.frames → IfOk result (HasSamples bytes shape.now.block (next_window shape.now.block heard (lane_of self.old.queues lane))) }
        // The lease is back then, and is known again; or it was before, as one of another window, and nothing changed.
        ensures err { OnErr result ((self.new.queues ≡ self.old.queues) × (IsBack self.new lane ⊎ ((lease.old.taken ≡ true) × (self.new ≡ self.old)))) }
        ensures lease { lease.new ≡ (if lease.old.taken then lease.old else spent lease.old) }
    {
        if !self.bring_back(lane, lease) {
            return Err(NoMemory);
        }
        self.feed(alloc, shape, disk, blocks, lane, heard)
    }
}
