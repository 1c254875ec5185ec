//! A sender follows a manager's history, entry by entry, and spells its changes as packets for a mirror. It keeps the tables of the durable part, what was added to open recordings, as intervals of tapes, and the change in doubt. A change is made ready with all its memory, then there is room for its packet, and only then it is done. Jobs of play are not followed, nor addresses of blocks.
#![tactic(auto)]

mod coming;
pub mod laws;
mod making;
mod noting;
mod performing;
mod putting;
mod recordings;
mod sender;

pub use sender::Sender;

#[cfg(test)]
mod tests;
