//! Where pieces start, and the piece at a place.

ghost use Rattle.std.specs.Prelude.{◌≡◌, ◌+◌, ◌<◌, ◌≤◌, ◌^◌, drop, length, IfOk, slice_index};
ghost use Rattle.voice_units.specs.Spots.{spots_of, samples_in};
ghost use Rattle.rope_algebra.specs.Kept.{starts_from, first_len, IsRope};

use voice_units::{NoMemory, Piece};

/// The pieces from the one at a place on, and how many samples of this one stand before the place.
#[derive(Clone, Copy)]
pub struct Rest<'a> {
    pub pieces: &'a [Piece],
    pub skip: u32,
}

/// How many samples stand before each piece. Where there are fewer than two pieces it is empty, and takes no memory.
pub fn starts_of(pieces: &Vec<Piece>) -> Result<Vec<u32>, NoMemory>
    requires { samples_in pieces.now.items < 2 ^ 32 }
    ensures { IfOk result (λ starts. 2 ≤ length pieces.now.items → starts.items ≡ starts_from 0 pieces.now.items) }
{
    if pieces.len() < 2 {
        return Ok(Vec::new(*pieces.allocator()));
    }
    let mut starts = Vec::with_capacity(*pieces.allocator(), pieces.len())?;
    let mut start = 0;
    for piece in pieces {
        starts.push(start)?;
        start += piece.len;
    }
    Ok(starts)
}

/// The last piece that starts at a place or before it. It is a search.
fn piece_at(pieces: &[Piece], starts: &[u32], at: u32) -> usize
    requires some { 0 < length pieces.now }
    requires starts { starts.now ≡ starts_from 0 pieces.now }
    ensures within { result < length pieces.now }
    ensures begun { slice_index starts.now result ≤ at }
    ensures next { result + 1 < length pieces.now → at < slice_index starts.now (result + 1) }
{
    let begun = starts.partition_point(|start| *start <= at);
    begun.saturating_sub(1)
}

/// The pieces from the last one on that starts at a place or before it.
pub fn rest_at<'a>(pieces: &'a [Piece], starts: &[u32], at: u32) -> Rest<'a>
    requires rope { IsRope pieces.now }
    requires starts { 2 ≤ length pieces.now → starts.now ≡ starts_from 0 pieces.now }
    requires at { at ≤ samples_in pieces.now }
    ensures rope { IsRope result.pieces.now }
    ensures spots { drop result.skip (spots_of result.pieces.now) ≡ drop at (spots_of pieces.now) }
    ensures skip { result.skip ≤ samples_in result.pieces.now }
    ensures near { at < samples_in pieces.now → result.skip < first_len result.pieces.now }
{
    if pieces.len() < 2 {
        return Rest { pieces, skip: at };
    }
    let k = piece_at(pieces, starts, at);
    Rest {
        pieces: &pieces[k..],
        skip: at - starts[k],
    }
}
