//! What becomes of the tables of a running manager while a lane records in parts: its open recording takes addresses as it grows, gives some back, and becomes a rope as it ends.
#![tactic(auto)]

mod addresses;
mod ending;
mod growing;
mod payloads;
mod room;

pub use addresses::addresses_of;
pub use ending::{parts_after, pledge, ready_ended};
pub use growing::{grow, shrink};
