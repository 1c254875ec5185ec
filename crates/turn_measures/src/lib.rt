//! Measurements over threads: calls through a server, by the number of callers, and players who hear while some of them record and sweep.
#![tactic(auto)]

mod acts;
mod alone;
mod choosing;
mod crowd;
mod rates;
mod rooms;
mod scripts;
mod serving;
mod session;

pub use choosing::measure;
