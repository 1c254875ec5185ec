//! The interests in order of making, found by class and key and counted by rope.
#![tactic(auto)]

mod expiries;
mod gather;
mod going;
mod listing;
mod rows;
mod stamped;
mod stamps;
mod tally;

pub use going::key_set;
pub use rows::{AddError, InterestTable};
pub use voice_model::Row;
