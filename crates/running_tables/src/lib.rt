//! What the tables of a running manager show of its state while passages are held, a change is in doubt and recordings are open, and how many addresses are free then: laws alone, with no code that runs.
#![tactic(auto)]

pub mod laws;
