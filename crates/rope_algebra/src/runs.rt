//! Stretches of a run of samples, and windows.

ghost use Rattle.std.specs.Prelude.{◌≡◌, ℕ, ◌+◌, ◌-◌, ◌%◌, ◌<◌, ◌≤◌, ◌^◌, min, length, take};
ghost use Rattle.voice_units.specs.Spots.{spots_from, spots_of, stretches, samples_in, window};
ghost use Rattle.rope_algebra.specs.Kept.{IsRope};

use super::cuts::part_of;
use voice_units::{Piece, WINDOW_STRETCHES};

/// Some stretches: how many there are, and how many samples they have.
#[derive(Clone, Copy)]
pub struct Stretches {
    pub count: u32,
    pub samples: u32,
}

/// The first stretches, at most `most`, of a run of `len` samples of a file from the place `from` on.
pub fn first_stretches(from: u32, len: u32, block: u32, most: u32) -> Stretches
    requires block { 0 < block }
    requires end { from + len ≤ 2 ^ 30 }
    ensures few { result.count ≤ most }
    ensures count { (file : ℕ) → result.count ≡ length (take most (stretches block (spots_from file from len))) }
    ensures samples { (file : ℕ) → result.samples ≡ samples_in (take most (stretches block (spots_from file from len))) }
{
    let mut count = 0;
    let mut samples = 0;
    while count < most && samples < len {
        let room = block - (from + samples) % block;
        samples += room.min(len - samples);
        count += 1;
    }
    Stretches { count, samples }
}

/// The first stretch of a piece behind its first `skip` samples.
pub fn stretch_of(piece: &Piece, skip: u32, block: u32) -> Piece
    requires end { piece.now.from + piece.now.len ≤ 2 ^ 30 }
    requires skip { skip < piece.now.len }
    requires block { 0 < block }
    ensures file { result.file ≡ piece.now.file }
    ensures from { result.from ≡ piece.now.from + skip }
    ensures len { result.len ≡ min (block - (piece.now.from + skip) % block) (piece.now.len - skip) }
{
    let from = piece.from + skip;
    Piece {
        file: piece.file,
        from,
        len: (block - from % block).min(piece.len - skip),
    }
}

/// How many samples the first four stretches have behind the first `heard` samples of pieces. It goes over the pieces up to where these stretches end.
pub fn window_of(pieces: &[Piece], heard: u32, block: u32) -> u32
    requires rope { IsRope pieces.now }
    requires heard { heard ≤ samples_in pieces.now }
    requires block { 0 < block }
    ensures { result ≡ window block (spots_of pieces.now) heard }
{
    let mut skip = heard;
    let mut most = WINDOW_STRETCHES;
    let mut samples = 0;
    for piece in pieces {
        if most == 0 {
            return samples;
        }
        let part = part_of(piece, skip, piece.len);
        let first = first_stretches(part.from, part.len, block, most);
        samples += first.samples;
        most -= first.count;
        skip = skip.saturating_sub(piece.len);
    }
    samples
}
