//! Packets, by which a mirror follows a disk: a file of them brings changes and the samples of voice files.
//!
//! A packet is a number (8 bytes, from 1 to 2^48), a length (4 bytes) and a body of just so many bytes, numbers with their highest byte first. A body is a change of a kind 2 to 7 as the journal spells it; or the byte 20 (hexadecimal), the number of a voice file (8 bytes, from 1 to 2^48) and its samples, at most 2^30. Packets stand one after another, with nothing behind them.
#![tactic(auto)]

mod errors;
pub mod laws;
mod packets;
mod putting;
mod reading;

pub use errors::PacketError;
pub use packets::{Body, Packet};
pub use putting::put;
pub use reading::parse;

#[cfg(test)]
mod tests;
