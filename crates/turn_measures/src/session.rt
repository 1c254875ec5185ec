//! A timed run of callers on threads, and what they did.

use std::io;
use std::rt::Clock;
use std::sync::atomic::{AtomicU64, Ordering};
use std::time::{Duration, Instant};

// So many milliseconds a run lasts, and then until each caller has ended what it does.
const LASTS: u128 = 1000;

/// What the callers of a run share. It guards nothing: the store is the server's.
#[derive(Drop)]
pub(crate) struct Session {
    start: Instant,
    /// How many samples were heard, how many pieces recorded, and how many sweeps made.
    pub samples: AtomicU64,
    pub recordings: AtomicU64,
    pub sweeps: AtomicU64,
    /// How many callers stopped for want of memory, or at an answer that they had not to get.
    pub failures: AtomicU64,
}

/// What came of a run.
#[derive(Drop)]
pub(crate) struct Tally {
    pub samples: u64,
    pub recordings: u64,
    pub sweeps: u64,
    pub took: Duration,
}

/// Counts so many more.
pub(crate) fn count(counter: &AtomicU64, more: u64) {
    counter.fetch_add(more, Ordering::SeqCst);
}

/// What was counted.
pub(crate) fn counted(counter: &AtomicU64) -> u64 {
    counter.load(Ordering::SeqCst)
}

impl Session {
    /// The run begins now.
    pub(crate) fn begin<R: Clock>(rt: &R) -> io::Result<Session> {
        Ok(Session {
            start: Instant::now(rt)?,
            samples: AtomicU64::new(0),
            recordings: AtomicU64::new(0),
            sweeps: AtomicU64::new(0),
            failures: AtomicU64::new(0),
        })
    }

    /// Whether its time is over, or cannot be told.
    pub(crate) fn is_over<R: Clock>(&self, rt: &R) -> bool {
        match self.start.elapsed(rt) {
            Ok(took) => took.as_millis() >= LASTS,
            Err(_) => true,
        }
    }

    /// What came of it so far; none where a caller failed.
    pub(crate) fn tally<R: Clock>(&self, rt: &R) -> io::Result<Option<Tally>> {
        let took = self.start.elapsed(rt)?;
        if counted(&self.failures) > 0 {
            return Ok(None);
        }
        Ok(Some(Tally {
            samples: counted(&self.samples),
            recordings: counted(&self.recordings),
            sweeps: counted(&self.sweeps),
            took,
        }))
    }
}
