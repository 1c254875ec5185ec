//! When a mirror's disk stands for the changes that the mirror took, and how calls of the disk and of the journal carry that: laws alone, with no code that runs.
#![tactic(auto)]

pub mod laws;
