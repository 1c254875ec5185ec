//! Measurements of the store, each as a ratio to the same work made bare, in one run, or by the number of rows or of changes.
#![tactic(auto)]

mod adding;
mod asking;
mod choosing;
mod editing;
mod feeds;
pub mod figures;
mod growing;
pub mod images;
mod opening;
mod plays;
mod recording;
pub mod stores;

pub use choosing::measure;
