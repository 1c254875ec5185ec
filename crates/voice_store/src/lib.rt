//! The store: one call at a time over a disk, the history of all calls, and what a crash may leave of it.
#![tactic(auto)]

mod adding;
mod altering;
mod applying;
mod committing;
mod editing;
mod ending;
mod entering;
mod feeding;
mod going;
mod hearing;
mod inside;
mod jobs;
mod landing;
mod opening;
mod recording;
mod refusing;
mod replies;
mod store;
mod ways;

pub use inside::{Doubted, Inside};
pub use lane_calls::Fed;
pub use store::Store;
pub use tallies::Tally;
pub use voice_journal::OpenError;
