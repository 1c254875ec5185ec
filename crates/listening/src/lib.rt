//! The samples of a rope off a disk, stretch after stretch.
#![tactic(auto)]

mod answers;
mod ears;
mod stretches;
#[cfg(test)]
mod tests;
mod unheard;

pub use answers::{peaks_of, talk_of};
pub use unheard::Unheard;
