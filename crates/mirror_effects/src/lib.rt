//! What packets bring: the effect of a body where a mirror takes it, and what the packets of a legal list of changes are to a mirror that has a front of that list. Laws alone, with no code that runs.
#![tactic(auto)]

pub mod laws;
