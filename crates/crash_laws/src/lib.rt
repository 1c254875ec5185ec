//! When a disk stands for a state of the voice manager, and how calls of the disk and of the journal carry that: laws alone, with no code that runs.
#![tactic(auto)]

pub mod laws;
