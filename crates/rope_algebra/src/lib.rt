//! Ropes as pieces of voice files. An edit makes pieces and copies no sample.
#![tactic(auto)]

mod algebra;
mod cuts;
mod runs;
mod starts;

pub use algebra::Pieces;
