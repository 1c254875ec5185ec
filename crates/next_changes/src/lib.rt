//! Changes of every kind that are ready and on their way to the journal: they are done, or given back, without memory.
#![tactic(auto)]

mod copying;
mod doing;
mod laws;

pub use copying::parts_after;
pub use doing::{give_back, perform};
pub use laws::{next_gives, ready_is_next};
use next_ropes::NextRope;
use ready_changes::ReadyChange;

/// A change that is ready: a rope that comes next, or a change of rows, of the moment, or a sweep.
#[derive(Drop)]
pub enum NextChange {
    Rope(NextRope),
    Other(ReadyChange),
}
