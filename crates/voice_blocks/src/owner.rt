//! Who holds an address.

use voice_units::{Lane, RopeId};

/// Who has blocks: a voice file, by the number of the rope that its recording made, or a lane's recording that isn't done.
#[derive(Clone, Copy, Debug, PartialEq, Eq, Hash)]
pub enum Owner {
    File(RopeId),
    Taking(Lane),
}

/// A block of an owner, counted from 0.
#[derive(Clone, Copy, Debug, PartialEq, Eq, Hash)]
pub struct Holder {
    pub owner: Owner,
    pub index: u32,
}
