//! What a call comes to.

use ready_changes::ReadyChange;
use voice_model::{Reply, Why};

/// By how much the base grows as a change is done.
#[derive(Clone, Copy, Debug, PartialEq, Eq)]
pub enum Growth {
    By(u64),
    NotLonger,
}

/// What a call on the tables comes to, but for the journal's refusal.
#[derive(Drop)]
pub enum Asked {
    /// It is refused.
    Refused(Why),
    /// It changes nothing, and is answered so.
    Answered(Reply),
    /// It makes this change, and is answered so where it is done.
    Changes(ReadyChange, Reply, Growth),
}
