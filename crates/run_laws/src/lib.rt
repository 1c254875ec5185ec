//! What a finished run prints is determined by its script, its sample files and the image that it began on, where no fault rose: laws alone, with no code that runs.
#![tactic(auto)]

pub mod laws;
