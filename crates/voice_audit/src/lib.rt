//! The audit of a disk: a text that tells what stands on it.
#![tactic(auto)]

mod auditing;
mod lines;
mod opening;
mod sharing;
mod telling;

pub use auditing::audit;
