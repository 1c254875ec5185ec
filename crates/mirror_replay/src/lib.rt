//! What the numbered changes of a mirror's journal rebuild. Each record is a number (8 bytes, the highest first) and behind it a change as the journal spells it.
//!
//! The first record has the number 1; where it begins a base of form 2 it has any number up to 2^48. Each later record has the number of the one before it plus 1. In a base the files, the ropes and the interests may have the number of its first record instead, as long as all records so far have it: so a base is written with one number, the position.
#![tactic(auto)]

mod courses;
mod putting;
mod replaying;
mod stripping;

pub use courses::Course;
pub use putting::put_numbered;
pub use replaying::{Followed, replay};

#[cfg(test)]
mod tests;
