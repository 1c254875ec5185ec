//! Queues of jobs of play, at most 8 for each lane.
#![tactic(auto)]

mod jobs;
mod lanes;

pub use jobs::Job;
pub use lanes::Queues;

#[cfg(test)]
mod tests;
