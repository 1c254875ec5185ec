//! How a layer above the frame pool and the turnstile cites their clauses.
#![tactic(auto)]

mod hall;
mod hearing;
mod lane_store;
mod tally;
#[cfg(test)]
mod tests;
mod turns;

pub use hall::Hall;
pub use hearing::heard_while_filling;
pub use lane_store::LaneStore;
pub use tally::Tally;
pub use turns::{run_all, take_turn, take_turns};
