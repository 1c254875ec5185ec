//! What the lanes play: the frames that hold blocks and are leased, and the jobs of each lane.
#![tactic(auto)]

mod blocks;
mod frames;
mod lanes;
pub mod laws;
mod passages;
#[cfg(test)]
mod tests;
mod turns;
mod windows;

pub use blocks::Block;
pub use lanes::Lanes;
pub use passages::{let_go, let_go_jobs};
pub use turns::Fed;
