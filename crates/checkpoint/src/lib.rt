//! The base of a durable part: the changes that rebuild it, as payloads for an area of the journal.
#![tactic(auto)]

mod blocks;
mod compacting;
mod files;
mod putting;
mod ropes;
mod sizes;

pub use compacting::{compact, compact_parts};
pub use sizes::{BaseNumbers, base_size, parts_size};
