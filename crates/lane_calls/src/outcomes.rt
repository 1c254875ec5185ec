//! What calls of lanes come to.

use frame_pool::Lease;
use voice_model::Why;
use voice_units::JobId;

/// What a Play comes to.
#[derive(Drop)]
pub enum Played {
    /// It is refused.
    Refused(Why),
    /// A job of this number comes last on the lane.
    Job(JobId),
}

/// What a Feed comes to.
#[derive(Drop)]
pub enum Fed {
    /// It is refused.
    Refused(Why),
    /// The first job, which was stopped, left the lane; so many of its samples were heard.
    Stopped(JobId, u32),
    /// The first job left the lane, whose samples were all heard.
    Ended(JobId, u32),
    /// A window of the first job that begins here is out.
    Window(u32, Lease),
    /// A read failed; the window that was out is back.
    Fault,
}
