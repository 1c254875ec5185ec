//! Samples, each with where it was recorded.

use std::alloc::Global;
use voice_model::Why;
use voice_units::{NoMemory, RopeId};

/// How many stretches a window has at most.
const STRETCHES: u32 = 4;

/// A sample, the voice file that it belongs to, and its place there.
#[derive(Clone, Copy, Debug, PartialEq, Eq)]
pub struct Sample {
    pub file: RopeId,
    pub place: u32,
    pub byte: u8,
}

/// A block of a voice file.
#[derive(Clone, Copy, Debug, PartialEq, Eq)]
pub struct Block {
    pub file: RopeId,
    pub index: u32,
}

impl Sample {
    // Whether it has the place behind that of the sample before it, in the same file.
    fn follows(&self, before: Option<Sample>) -> bool {
        match before {
            Some(before) => {
                before.file == self.file && before.place.checked_add(1) == Some(self.place)
            }
            None => false,
        }
    }

    // The block in which it lies, where blocks have this size.
    fn block(&self, size: u32) -> Block {
        Block {
            file: self.file,
            index: self.place.checked_div(size).unwrap_or(0),
        }
    }

    // Whether a stretch begins with it: it does not follow the sample before it, or lies in another block.
    fn begins_stretch(&self, before: Option<Sample>, size: u32) -> bool {
        match before {
            Some(before) => {
                !self.follows(Some(before)) || before.block(size) != self.block(size)
            }
            None => true,
        }
    }
}

/// The samples of a recording, whose voice file has the number of its rope.
pub fn recorded(alloc: Global, file: RopeId, bytes: &[u8]) -> Result<Vec<Sample>, NoMemory> {
    let mut samples = Vec::with_capacity(alloc, bytes.len())?;
    let mut place: u32 = 0;
    for byte in bytes {
        samples.push(Sample {
            file,
            place,
            byte: *byte,
        })?;
        place = place.saturating_add(1);
    }
    Ok(samples)
}

/// The bytes of samples.
pub fn bytes_of(alloc: Global, samples: &[Sample]) -> Result<Vec<u8>, NoMemory> {
    let mut bytes = Vec::with_capacity(alloc, samples.len())?;
    for sample in samples {
        bytes.push(sample.byte)?;
    }
    Ok(bytes)
}

/// How many samples there are.
pub fn count_of(samples: &[Sample]) -> u32 {
    u32::try_from(samples.len()).unwrap_or(u32::MAX)
}

/// The interval of samples, where it lies in them.
pub fn interval(samples: &[Sample], start: u32, len: u32) -> Result<&[Sample], Why> {
    let start = start as usize;
    match samples.get(start..start + len as usize) {
        Some(interval) => Ok(interval),
        None => Err(Why::BadInterval(count_of(samples))),
    }
}

/// How many pieces samples have: maximal runs of one file with consecutive places.
pub fn piece_count(samples: &[Sample]) -> u32 {
    let mut pieces: u32 = 0;
    let mut before = None;
    for sample in samples {
        if !sample.follows(before) {
            pieces = pieces.saturating_add(1);
        }
        before = Some(*sample);
    }
    pieces
}

/// How many samples the next window takes of what is not heard yet: those of its first four stretches.
pub fn window_len(unheard: &[Sample], size: u32) -> u32 {
    let mut stretches: u32 = 0;
    let mut len: u32 = 0;
    let mut before = None;
    for sample in unheard {
        if sample.begins_stretch(before, size) {
            stretches = stretches.saturating_add(1);
        }
        if stretches > STRETCHES {
            return len;
        }
        len = len.saturating_add(1);
        before = Some(*sample);
    }
    len
}

/// Adds the blocks of samples to a list, each that is not there yet.
pub fn add_blocks(blocks: &mut Vec<Block>, samples: &[Sample], size: u32) -> Result<(), NoMemory> {
    let mut before = None;
    for sample in samples {
        if sample.begins_stretch(before, size) {
            let block = sample.block(size);
            if !blocks.contains(&block) {
                blocks.push(block)?;
            }
        }
        before = Some(*sample);
    }
    Ok(())
}
