//! Ropes that come next: all memory is taken and all blocks are held before their change goes to the disk, so that they can come, or be given back, without memory.
#![tactic(auto)]

mod coming;
mod edits;
mod payloads;
mod recordings;
mod room;

pub use coming::{copy_with_room, give_back, parts_after, perform};
pub use edits::ready_edit;
pub use recordings::ready_recording;
use rope_algebra::Pieces;
use voice_units::RopeId;

/// A rope that is ready to come: its number, its pieces, the addresses of its blocks if it is a recording, and its change as the journal spells it.
#[derive(Drop)]
pub struct NextRope {
    pub id: RopeId,
    pub pieces: Pieces,
    pub recorded: bool,
    pub addresses: Vec<u32>,
    pub payload: Vec<u8>,
}
