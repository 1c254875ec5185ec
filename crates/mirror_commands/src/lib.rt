//! What the commands `mirror` and `promote` do to the disk of a mirror: it is opened, takes packets or becomes a voice disk, and is handed back.
#![tactic(auto)]

mod feeding;
mod promoting;
mod texts;

pub use feeding::feed;
pub use promoting::{Refusal, promote};
