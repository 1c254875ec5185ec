// The frames, each of a block of bytes.
ghost use Rattle.std.specs.Prelude.{◌≡◌, ℕ, ◌+◌, ◌<◌, ◌≤◌, [], IfOk, All, length, replicate, slice_index_or, slice_set};
ghost use Rattle.std.specs.List.{flat_map};
ghost use Rattle.frame_pool.specs.Pool.{stretch_in, IsWithin};

use crate::views::Part;
use std::alloc::{AllocError, Global};
use std::marker::Model;
use std::mem;

// A frame's bytes. Contracts see the list.
#[derive(Drop)]
pub(crate) struct Frame {
    bytes: Vec<u8>,
}

impl Model for Frame {
    ghost use Rattle.std.specs.Prelude.{ℕ, List};

    ghost Value = { List ℕ };

    ghost view = { λ f. f.bytes.items };
}

// Frames whose bytes are all 0.
pub(crate) fn blank_frames(
    alloc: Global,
    count: usize,
    block: usize,
) -> Result<Vec<Frame>, AllocError>
    ensures { IfOk result (λ frames. frames.items ≡ replicate count (replicate block 0)) }
{
    let mut frames = Vec::with_capacity(alloc, count)?;
    for _ in 0..count {
        frames.push(Frame {
            bytes: vec![in alloc; 0; block]?,
        })?;
    }
    Ok(frames)
}

// Swaps a frame's bytes with those of a room.
pub(crate) fn swap_frame(frames: &mut Vec<Frame>, frame: usize, room: &mut Vec<u8>)
    requires { frame < length frames.old.items }
    ensures frames { frames.new.items ≡ slice_set frames.old.items frame room.old.items }
    ensures room { room.new.items ≡ slice_index_or frames.old.items frame [] }
{
    mem::swap(&mut frames[frame].bytes, room);
}

// Copies the samples of parts, one part after another, into room for exactly so many.
pub(crate) fn copy_parts(
    alloc: Global,
    frames: &[Frame],
    parts: &[Part],
    len: usize,
) -> Result<Vec<u8>, AllocError>
    requires { All (IsWithin frames.now) parts.now }
    ensures { IfOk result (λ samples. samples.items ≡ flat_map (stretch_in frames.now) parts.now) }
{
    let mut samples = Vec::with_capacity(alloc, len)?;
    for part in parts {
        let from = part.from as usize;
        let frame = &frames[part.frame as usize];
        samples.extend_from_slice(&frame.bytes[from..from + part.len as usize])?;
    }
    Ok(samples)
}
