//! What Play, Stop and Feed come to on the tables and on the lanes: contracts speak of the state that both stand for, and of no journal.
#![tactic(auto)]

mod feeding;
pub mod laws;
mod outcomes;
mod starting;
mod stopping;

pub use feeding::{feed, serve};
pub use outcomes::{Fed, Played};
pub use starting::play;
pub use stopping::stop;
