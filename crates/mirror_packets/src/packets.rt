//! A packet and its body.

use voice_model::Change;
use voice_units::RopeId;

/// What a packet brings.
#[derive(Drop)]
pub enum Body<'a> {
    /// A voice file and its samples, at most 2^30. They are lent by the bytes in which they stand, so that reading packets copies no sample.
    Voice(RopeId, &'a [u8]),
    /// A change of a kind 2 to 7.
    Other(Change),
}

/// A body with its number, from 1 to 2^48.
#[derive(Drop)]
pub struct Packet<'a> {
    pub number: u64,
    pub body: Body<'a>,
}
