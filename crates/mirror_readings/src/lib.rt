//! Laws, and no code that runs: what an image of a mirror's disk means, by what the journal reads of it and what the numbered changes of its records rebuild.
#![tactic(auto)]

pub mod laws;
