//! Generated scripts, and the sample files that they mention.
#![tactic(auto)]

mod draws;
mod lines;
mod made;
mod samples;

pub use made::make;
