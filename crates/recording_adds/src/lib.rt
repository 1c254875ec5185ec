//! An Add of a recording in parts, on the tables, on the disk and on the recordings that lanes have open: it takes addresses as its need grows, writes the blocks that became whole, and after a device fault gives its addresses back.
#![tactic(auto)]

mod adding;
mod writing;

pub use adding::add;
