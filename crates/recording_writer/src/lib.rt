//! The samples of a recording into its blocks on a disk.
#![tactic(auto)]

mod writing;

pub use writing::{write_samples, write_whole};
