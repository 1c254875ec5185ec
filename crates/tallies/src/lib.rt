//! How much the tables of a running manager hold: live ropes, their samples, and used blocks.
#![tactic(auto)]

mod tallying;

pub use tallying::{Tally, tallied};
