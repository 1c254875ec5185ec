//! Frames of samples that one keeper fills. A lease has a copy of its samples, so it reads them on another thread, whatever the keeper fills meanwhile.
#![tactic(auto)]

mod frames;
mod keeper;
mod lease;
mod plays;
mod pool;
mod steps;
#[cfg(test)]
mod tests;
mod views;

pub use keeper::Keeper;
pub use lease::Lease;
pub use pool::Pool;
pub use views::{KeeperView, LaneState, LeaseView, Part, Parts, Sizes, Stage, Told, View};
