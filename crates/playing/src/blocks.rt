//! Blocks in frames, and the parts that a lane reads.

use frame_pool::Part;
use std::marker::Model;
use voice_units::RopeId;

/// A block of a voice file.
#[derive(Clone, Copy, Debug, PartialEq, Eq)]
pub struct Block {
    pub file: RopeId,
    pub index: u32,
}

// The parts of frames that a lane's lease reads. Contracts see the list.
#[derive(Drop)]
pub(crate) struct LeasedParts {
    pub(crate) parts: Vec<Part>,
}

impl Model for LeasedParts {
    ghost use Rattle.std.specs.Prelude.{List};
    ghost use Rattle.frame_pool.specs.declared.views.Part.{Part};

    ghost Value = { List Part };

    ghost view = { λ l. l.parts.items };
}
