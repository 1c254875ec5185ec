//! What calls of lanes leave of a job that a caller has served, in the words of the definitions: laws alone, with no code that runs.
#![tactic(auto)]

pub mod laws;
