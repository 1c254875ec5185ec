//! What a journal's readings mean in the words of the definitions: laws alone, with no code that runs.
#![tactic(auto)]

pub mod laws;
