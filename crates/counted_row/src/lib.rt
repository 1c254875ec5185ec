//! A list in chunks of bounded size, so that a value goes in and out in the middle without moving all later ones.
#![tactic(auto)]

mod chunk;
mod row;
mod search;
mod steps;

pub use row::CountedRow;
