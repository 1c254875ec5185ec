//! A mirror over a disk: a second disk that follows a first one by numbered changes. Its disk is one of version 2 whose records have numbers.
//!
//! Packets may be lost, repeated and reordered. A mirror takes the one of the next number, if its change may follow, into its own blocks and its own journal; so its shape may be another than the first disk's. What it answered Done stays, whatever a crash leaves.
#![tactic(auto)]

mod answers;
mod committing;
mod discarding;
mod front;
mod inside;
mod landing;
mod mirror;
mod opening;
mod promoting;
mod ready;
mod serving;
mod taking;

pub use answers::Taken;
pub use mirror::Mirror;
pub use promoting::PromoteError;
pub use voice_journal::OpenError;
