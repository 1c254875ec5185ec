//! The ropes that Concatenate, Substring and Replace make, and the length of a rope, over the tables of a manager. An edit joins and cuts pieces and reads no sample.
#![tactic(auto)]

mod cutting;
mod joining;
pub mod laws;
mod lookups;
mod made;

pub use cutting::{replace, sub};
pub use joining::concat;
pub use lookups::length;
pub use made::Made;
