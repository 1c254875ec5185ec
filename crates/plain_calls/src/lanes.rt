//! Calls on lanes: jobs, their windows, and stops.

use crate::answers::Undone;
use crate::plain::Plain;
use crate::samples::{Sample, bytes_of, count_of, interval, window_len};
use voice_model::{Reply, Why};
use voice_units::{JobId, Lane, NoMemory, RopeId};

/// How many jobs a lane has at most.
const MOST_JOBS: usize = 8;

/// A job of play.
#[derive(Drop)]
pub struct Job {
    pub number: JobId,
    pub passage: Vec<Sample>,
    /// How many of its samples were heard.
    pub heard: u32,
    /// How many are out with its player.
    pub window: u32,
    pub stopped: bool,
}

impl Job {
    // The samples that were not heard yet.
    fn unheard(&self) -> &[Sample] {
        match self.passage.get(self.heard as usize..) {
            Some(unheard) => unheard,
            None => &[],
        }
    }

    // So much of the window that is out was heard, and it is back.
    fn bring_back(&mut self, heard: u32) {
        self.heard = self.heard.saturating_add(heard.min(self.window));
        self.window = 0;
    }

    // Its end, or its next window, which goes out.
    fn turn(&mut self, block: u32) -> Reply {
        if self.stopped {
            return Reply::Stopped(self.number, self.heard);
        }
        if self.heard == count_of(&self.passage) {
            return Reply::Ended(self.number, self.heard);
        }
        self.window = window_len(self.unheard(), block);
        Reply::Window(self.heard, self.window)
    }
}

impl Plain {
    pub(crate) fn play(
        &mut self,
        lane: Lane,
        rope: RopeId,
        start: u32,
        len: u32,
    ) -> Result<Reply, Undone> {
        let Some(jobs) = self.lanes.get(lane.0 as usize) else {
            return Err(Undone::Refused(Why::UnknownLane(self.shape.lanes)));
        };
        let samples = self.samples(rope)?;
        if self.taking(lane).is_ok() {
            return Err(Undone::Refused(Why::LaneRecording));
        }
        if jobs.len() >= MOST_JOBS {
            return Err(Undone::Refused(Why::QueueFull));
        }
        let part = interval(samples, start, len)?;
        let mut passage = Vec::new(self.alloc);
        passage.extend_from_slice(part)?;
        let number = JobId(self.made.saturating_add(1));
        let job = Job {
            number,
            passage,
            heard: 0,
            window: 0,
            stopped: false,
        };
        if let Some(jobs) = self.lanes.get_mut(lane.0 as usize) {
            jobs.push_back(job)?;
        }
        self.made = number.0;
        Ok(Reply::Job(number))
    }

    /// A window that comes back counts as heard so far, whatever the answer.
    pub(crate) fn feed(&mut self, lane: Lane, back: Option<u32>) -> Result<Reply, Undone> {
        let Some(jobs) = self.lanes.get_mut(lane.0 as usize) else {
            return Err(Undone::Refused(Why::UnknownLane(self.shape.lanes)));
        };
        let Some(job) = jobs.front_mut() else {
            return Err(Undone::Refused(Why::NoJob));
        };
        match back {
            Some(heard) => job.bring_back(heard),
            None => {
                if job.window > 0 {
                    return Err(Undone::Refused(Why::WindowOut));
                }
            }
        }
        let reply = job.turn(self.shape.block);
        match reply {
            Reply::Window(_, _) => {}
            _ => {
                jobs.pop_front();
            }
        }
        Ok(reply)
    }

    pub(crate) fn stop(&mut self, lane: Lane) -> Result<Reply, Undone> {
        let Some(jobs) = self.lanes.get_mut(lane.0 as usize) else {
            return Err(Undone::Refused(Why::UnknownLane(self.shape.lanes)));
        };
        let mut stopped: u64 = 0;
        for job in jobs.iter_mut() {
            if !job.stopped {
                stopped = stopped.saturating_add(1);
            }
            job.stopped = true;
        }
        Ok(Reply::Number(stopped))
    }

    /// The samples of the window that is out on a lane, none where none is.
    pub fn window(&self, lane: Lane) -> Result<Vec<u8>, NoMemory> {
        let Some(jobs) = self.lanes.get(lane.0 as usize) else {
            return Ok(Vec::new(self.alloc));
        };
        let Some(job) = jobs.front() else {
            return Ok(Vec::new(self.alloc));
        };
        match interval(job.unheard(), 0, job.window) {
            Ok(samples) => bytes_of(self.alloc, samples),
            Err(_) => Ok(Vec::new(self.alloc)),
        }
    }
}
