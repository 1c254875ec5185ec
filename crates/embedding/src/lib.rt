//! A store in another program: two callers on threads share one, over a disk in memory. docs/EMBEDDING.md goes through it.
#![tactic(auto)]

mod hearing;
mod opening;
mod sharing;
mod telephone;
#[cfg(test)]
mod tests;
mod whole;

pub use hearing::hear;
pub use opening::{new_disk, open};
pub use sharing::record_both;
pub use telephone::play_back;
pub use whole::{call_up, echo, exchange};
