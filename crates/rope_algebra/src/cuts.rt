//! Lists of pieces that stay in normal form while pieces are put behind them.

ghost use Rattle.std.specs.Prelude.{◌≡◌, ◌+◌, ◌-◌, ◌<◌, ◌≤◌, ◌^◌, ◌↔◌, min, OnOk, IsTrue};
ghost use Rattle.voice_units.specs.Spots.{IsContinued, spots_in, spots_of, slice};
ghost use Rattle.rope_algebra.specs.Kept.{IsKept, LieInFiles, AddsSpots};

use voice_units::{NoMemory, Piece};

/// Whether a piece is continued by the next one.
fn is_continued(piece: &Piece, next: &Piece) -> bool
    ensures { IsTrue result ↔ IsContinued piece.now next.now }
{
    piece.file == next.file && piece.from as u64 + piece.len as u64 == next.from as u64
}

/// The part of a piece behind its first `skip` samples, of at most `most` samples.
pub fn part_of(piece: &Piece, skip: u32, most: u32) -> Piece
    requires { piece.now.from + piece.now.len ≤ 2 ^ 30 }
    ensures spots { spots_in result ≡ slice (spots_in piece.now) skip most }
    ensures file { result.file ≡ piece.now.file }
    ensures from { result.from ≡ piece.now.from + min skip piece.now.len }
    ensures len { result.len ≡ min (piece.now.len - skip) most }
    ensures end { result.from + result.len ≤ piece.now.from + piece.now.len }
{
    let skipped = skip.min(piece.len);
    Piece {
        file: piece.file,
        from: piece.from + skipped,
        len: (piece.len - skipped).min(most),
    }
}

/// Puts a piece behind others, which stay in normal form.
pub fn join(pieces: &mut Vec<Piece>, next: Piece) -> Result<(), NoMemory>
    requires kept { IsKept pieces.old.items }
    requires end { next.from + next.len ≤ 2 ^ 30 }
    ensures { OnOk result (AddsSpots pieces.old.items pieces.new.items (spots_in next)) }
{
    if next.len == 0 {
        return Ok(());
    }
    let Some(last) = pieces.pop() else {
        pieces.push(next)?;
        return Ok(());
    };
    if is_continued(&last, &next) {
        let len = last.len + next.len;
        pieces.push(Piece { len, ..last })?;
        return Ok(());
    }
    pieces.push(last)?;
    pieces.push(next)?;
    Ok(())
}

/// Puts the `len` samples of other pieces from `start` on behind pieces, which stay in normal form.
pub fn join_slice(
    pieces: &mut Vec<Piece>,
    others: &[Piece],
    start: u32,
    len: u32,
) -> Result<(), NoMemory>
    requires kept { IsKept pieces.old.items }
    requires ends { LieInFiles others.now }
    ensures { OnOk result (AddsSpots pieces.old.items pieces.new.items (slice (spots_of others.now) start len)) }
{
    let mut skip = start;
    let mut left = len;
    for other in others {
        if left == 0 {
            return Ok(());
        }
        let part = part_of(other, skip, left);
        skip = skip.saturating_sub(other.len);
        left -= part.len;
        join(pieces, part)?;
    }
    Ok(())
}
