//! The queues of the lanes.

ghost use Rattle.std.specs.Prelude.{◌≡◌, ℕ, ◌<◌, ◌≤◌, ◌++◌, ◌∷◌, ◌↔◌, ◌+◌, ◌^◌, [], length, map, drop, not, count_by, slice_get, slice_set, slice_index_or, replicate, IfOk, OnOk, IfErr, IfSome, IsOk, option_copied};
ghost use Rattle.circular_buffer.specs.Buffer.{buffer};
ghost use Rattle.voice_units.specs.Spots.{samples_in};
ghost use Rattle.play_queue.specs.Queued.{IsJob, IsQueue, lane_of, heard_more, with_window, stopped_job, first_job};
ghost use Rattle.play_queue.specs.declared.jobs.Job.{Job};

use super::jobs::Job;
use circular_buffer::HeapCircularBuffer;
use std::alloc::Global;
use std::marker::Model;
use voice_units::{Lane, MOST_JOBS, NoMemory};

/// A queue of jobs for each lane. Contracts see the list of the lanes' lists of jobs, the first job of each in front.
#[derive(Drop)]
pub struct Queues {
    lanes: Vec<HeapCircularBuffer<Job>>,
}

impl Model for Queues {
    ghost use Rattle.std.specs.Prelude.{List, map};
    ghost use Rattle.play_queue.specs.declared.jobs.Job.{Job};
    ghost use Rattle.play_queue.specs.Queued.{items_of, AreQueues};

    ghost Value = { List (List Job) };

    ghost view = { λ q. map items_of q.lanes.items };

    ghost invariant = { λ q. AreQueues q.lanes.items };
}

/// Marks the k-th job of a queue as stopped, and says whether it was not.
fn mark_stopped(queue: &mut HeapCircularBuffer<Job>, k: usize) -> bool
    requires { k < length queue.old.items }
    ensures jobs { (d : Job) → queue.new ≡ buffer (slice_set queue.old.items k (stopped_job (slice_index_or queue.old.items k d))) queue.old.capacity }
    ensures newly { (d : Job) → result ≡ not (slice_index_or queue.old.items k d).stopped }
{
    let Some(job) = queue.get_mut(k) else {
        return false;
    };
    let was_stopped = job.stopped;
    job.stopped = true;
    !was_stopped
}

/// Marks every job of a queue as stopped, and says how many were not.
fn stop_all(queue: &mut HeapCircularBuffer<Job>) -> u32
    requires { queue.old.capacity ≡ 8 }
    ensures jobs { queue.new ≡ buffer (map stopped_job queue.old.items) queue.old.capacity }
    ensures newly { result ≡ count_by (λ job. not job.stopped) queue.old.items }
{
    let mut newly = 0;
    for k in 0..queue.len() {
        if mark_stopped(queue, k) {
            newly += 1;
        }
    }
    newly
}

/// More of the first job of a queue was heard, and nothing of it is out.
fn hear_more(queue: &mut HeapCircularBuffer<Job>, more: u32)
    requires some { 0 < length queue.old.items }
    requires fits { (d : Job) → (slice_index_or queue.old.items 0 d).heard + more < 2 ^ 32 }
    ensures { (d : Job) → queue.new ≡ buffer (slice_set queue.old.items 0 (heard_more more (slice_index_or queue.old.items 0 d))) queue.old.capacity }
{
    let Some(job) = queue.get_mut(0) else {
        return;
    };
    job.heard += more;
    job.window = 0;
}

/// So much of the first job of a queue is out.
fn put_out(queue: &mut HeapCircularBuffer<Job>, n: u32)
    requires { 0 < length queue.old.items }
    ensures { (d : Job) → queue.new ≡ buffer (slice_set queue.old.items 0 (with_window n (slice_index_or queue.old.items 0 d))) queue.old.capacity }
{
    let Some(job) = queue.get_mut(0) else {
        return;
    };
    job.window = n;
}

impl Queues {
    /// An empty queue for each lane. No other call takes memory.
    pub fn new(alloc: Global, lanes: u16) -> Result<Queues, NoMemory>
        ensures { IfOk result (λ queues. queues ≡ replicate lanes []) }
    {
        let mut all = Vec::with_capacity(alloc, usize::from(lanes))?;
        for _ in 0..lanes {
            all.push(HeapCircularBuffer::with_capacity(alloc, MOST_JOBS as usize)?)?;
        }
        Ok(Queues { lanes: all })
    }

    /// Puts a job last. It is handed back exactly where the lane has 8.
    pub fn push(&mut self, lane: Lane, job: Job) -> Result<(), Job>
        requires lane { lane < length self.old }
        requires within { job.heard + job.window ≤ samples_in job.passage }
        ensures variant { IsOk result ↔ (length (lane_of self.old lane) < 8) }
        ensures ok { OnOk result (self.new ≡ slice_set self.old lane (lane_of self.old lane ++ job ∷ [])) }
        ensures err { IfErr result (λ back. (back ≡ job) × (self.new ≡ self.old)) }
    {
        // What is known of the passage's length is kept with the job.
        let _length = job.passage.length();
        let queue = &mut self.lanes[usize::from(lane.0)];
        queue.try_push_back(job)
    }

    /// The first job; `None` exactly where there is none.
    pub fn head(&self, lane: Lane) -> Option<&Job>
        requires { lane < length self.now }
        ensures value { option_copied result ≡ slice_get (lane_of self.now lane) 0 }
        ensures within { IfSome result (λ job. IsJob job.now) }
    {
        self.job(lane, 0)
    }

    /// How many jobs the lane has, at most 8.
    pub fn count(&self, lane: Lane) -> u32
        requires { lane < length self.now }
        ensures value { result ≡ length (lane_of self.now lane) }
        ensures most { result ≤ 8 }
    {
        self.lanes[usize::from(lane.0)].len() as u32
    }

    /// The k-th job, from 0; `None` exactly where there are not so many.
    pub fn job(&self, lane: Lane, k: u32) -> Option<&Job>
        requires { lane < length self.now }
        ensures value { option_copied result ≡ slice_get (lane_of self.now lane) k }
        ensures within { IfSome result (λ job. IsJob job.now) }
    {
        self.lanes[usize::from(lane.0)].get(k as usize)
    }

    /// More of the first job was heard, and its window is back.
    pub fn advance(&mut self, lane: Lane, more: u32)
        requires lane { lane < length self.old }
        requires head { 0 < length (lane_of self.old lane) }
        requires window { (d : Job) → more ≤ (first_job self.old lane d).window }
        ensures { (d : Job) → self.new ≡ slice_set self.old lane (slice_set (lane_of self.old lane) 0 (heard_more more (first_job self.old lane d))) }
    {
        let queue = &mut self.lanes[usize::from(lane.0)];
        hear_more(queue, more);
    }

    /// So many samples of the first job are out with its player.
    pub fn set_window(&mut self, lane: Lane, n: u32)
        requires lane { lane < length self.old }
        requires head { 0 < length (lane_of self.old lane) }
        requires within { (d : Job) → (first_job self.old lane d).heard + n ≤ samples_in (first_job self.old lane d).passage }
        ensures { (d : Job) → self.new ≡ slice_set self.old lane (slice_set (lane_of self.old lane) 0 (with_window n (first_job self.old lane d))) }
    {
        let queue = &mut self.lanes[usize::from(lane.0)];
        put_out(queue, n);
    }

    /// Marks every job as stopped, and says how many were not.
    pub fn stop(&mut self, lane: Lane) -> u32
        requires { lane < length self.old }
        ensures newly { result ≡ count_by (λ job. not job.stopped) (lane_of self.old lane) }
        ensures after { self.new ≡ slice_set self.old lane (map stopped_job (lane_of self.old lane)) }
    {
        let queue = &mut self.lanes[usize::from(lane.0)];
        stop_all(queue)
    }

    /// Takes the first job out; `None` exactly where there is none.
    pub fn pop(&mut self, lane: Lane) -> Option<Job>
        requires { lane < length self.old }
        ensures value { result ≡ slice_get (lane_of self.old lane) 0 }
        ensures after { self.new ≡ slice_set self.old lane (drop 1 (lane_of self.old lane)) }
    {
        let queue = &mut self.lanes[usize::from(lane.0)];
        queue.pop_front()
    }
}
