//! What a sweep removes: ropes that are due, and the blocks that nothing uses then.
#![tactic(auto)]

mod releasing;
mod sweeping;

pub use releasing::{Freed, drop_unused, release};
pub use sweeping::first;
