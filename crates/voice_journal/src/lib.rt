//! The journal: two areas of a disk, of which one is current, and records that count once their gate is open.
#![tactic(auto)]

mod appending;
mod device;
mod errors;
mod formatting;
mod gates;
mod heads;
pub mod laws;
mod lists;
mod opening;
mod parsing;
mod seats;
mod spelling;
mod superblocks;
mod switching;

pub use errors::{Fault, OpenError};
pub use lists::{Payloads, RecordList};
pub use opening::Opened;
pub use seats::{Doubt, Journal, Seat};
