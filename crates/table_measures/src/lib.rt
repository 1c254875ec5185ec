//! Measurements of the parts below the store, each as a ratio to the same work made bare, in one run.
#![tactic(auto)]

mod appends;
mod changes;
mod choosing;
mod compacting;
mod copying;
mod interests;
mod loudness;
mod parsing;
mod replaying;
mod ropes;
mod sums;

pub use choosing::measure;
