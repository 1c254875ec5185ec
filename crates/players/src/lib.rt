//! Players: each copies the samples of its lane's window while the keeper of the frames, recorders and other players go on.
#![tactic(auto)]

mod player;
mod took;

pub use player::Player;
pub use took::Took;

#[cfg(test)]
mod tests;
