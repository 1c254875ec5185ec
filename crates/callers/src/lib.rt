//! Callers: each runs its lines of a script in order, each on a thread of its own.
#![tactic(auto)]

mod caller;
mod lines;
mod places;
mod seats;
mod threads;

pub use seats::Outcome;
pub use served_files::Heard;
pub use threads::run_threads;
