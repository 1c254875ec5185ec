//! Intervals of samples.

ghost use Rattle.std.specs.Prelude.{◌≡◌, ◌≤◌, ◌+◌, ◌-◌, ◌*◌, ◌/◌, ◌^◌, ◌==◌, cond};
ghost use Rattle.voice_units.specs.Spots.{spots_in};
ghost use Rattle.voice_units.specs.Blocks.{BlockPair, pairs_at, has_pair, in_run};

use super::numbers::RopeId;
use std::ops::Range;

/// `len` samples of a voice file from the place `from` on. A voice file has the number of the rope that its recording made.
#[derive(Clone, Copy, Debug, PartialEq, Eq)]
pub struct Piece {
    pub file: RopeId,
    pub from: u32,
    pub len: u32,
}

impl Piece {
    /// The place behind its last sample.
    pub fn end(self) -> u64
        ensures { result ≡ self.from + self.len }
    {
        self.from as u64 + self.len as u64
    }

    /// The indexes of the blocks of its file that it lies in, for blocks of so many samples. A piece without samples lies in none.
    pub fn blocks(self, block: u32) -> Range<u32>
        requires some { 1 ≤ block }
        requires fits { self.from + self.len ≤ (2 ^ 32 - 1) * block }
        ensures start { result.start ≡ self.from / block }
        ensures end { result.end ≡ cond (self.len == 0) (self.from / block) ((self.from + self.len - 1) / block + 1) }
        ensures ordered { result.start ≤ result.end }
        ensures blocks { (pair : BlockPair) → has_pair (pairs_at block (spots_in self)) pair ≡ in_run self.file result.start result.end pair }
    {
        let start = self.from / block;
        if self.len == 0 {
            return start..start;
        }
        let last = (self.end() - 1) / block as u64;
        start..last as u32 + 1
    }
}

/// `len` samples of a tape from the place `from` on. Tapes are the sample files of a run, numbered from 0.
#[derive(Clone, Copy, Debug, PartialEq, Eq)]
pub struct Take {
    pub tape: u32,
    pub from: u32,
    pub len: u32,
}
