//! How a lane's first job goes on.

use frame_pool::Lease;
use play_queue::Job;

// How a lane's first job goes on: it was stopped, it was heard to its end, or a window of it comes next.
#[derive(Clone, Copy, Debug, PartialEq, Eq)]
pub(crate) enum Turn {
    Stopped,
    Ended,
    Plays,
}

/// What became of a Feed.
#[derive(Drop)]
pub enum Fed {
    /// The first job, which was stopped, left the lane.
    Stopped(Job),
    /// The first job, which was heard to its end, left the lane.
    Ended(Job),
    /// A window of the first job that begins here is out.
    Window(u32, Lease),
    /// A read failed; the window that was out is back.
    Fault,
}
