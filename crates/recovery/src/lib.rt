//! What the changes of a journal rebuild: the live ropes, the interests and the addresses of blocks.
#![tactic(auto)]

mod bases;
mod building;
mod census;
mod effects;
mod freeing;
mod kinds;
mod parts;
mod placing;
mod replaying;
mod settling;
mod sweeps;

pub use parts::Parts;
pub use replaying::{ReplayError, replay};
pub use settling::{Going, gather};
