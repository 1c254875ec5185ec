//! Live ropes by number, how many use each block, and the order in which they are due.
#![tactic(auto)]

mod copies;
mod counts;
mod dues;
mod files;
mod ropes;
mod table;

pub use dues::Due;
pub use rope_algebra::Pieces;
pub use ropes::Rope;
pub use table::RopeTable;
