//! What the calls of recordings in parts, Begin, Add and End, come to on the recordings that lanes have open: contracts speak of the state that they show, and of no disk and no journal.
#![tactic(auto)]

pub mod laws;
mod recordings;
mod refusals;

pub use recordings::{Added, Recordings};

#[cfg(test)]
mod tests;
