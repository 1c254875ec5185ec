ghost use Rattle.std.specs.Prelude.{◌≡◌, ◌≤◌, ◌^◌};

use rope_algebra::Pieces;
use voice_units::{NoMemory, Piece, RopeId};

fn piece(file: u64, from: u32, len: u32) -> Piece
    requires { file ≤ 2 ^ 48 }
    ensures from { result.from ≡ from }
    ensures len { result.len ≡ len }
{
    Piece {
        file: RopeId(file),
        from,
        len,
    }
}

// An interval that is not valid is answered as want of memory, which fails the test.
fn sub(pieces: &Pieces, start: u32, len: u32) -> Result<Pieces, NoMemory> {
    if start as u64 + len as u64 <= pieces.length() as u64 && len <= 1 << 30 {
        pieces.slice(start, len)
    } else {
        Err(NoMemory)
    }
}

fn replaced(pieces: &Pieces, start: u32, len: u32, with: &Pieces) -> Result<Pieces, NoMemory> {
    let length = pieces.length() as u64;
    if start as u64 + len as u64 > length {
        return Err(NoMemory);
    }
    if length - len as u64 + with.length() as u64 > 1 << 30 {
        return Err(NoMemory);
    }
    pieces.replace(start, len, with)
}

fn joined(pieces: &Pieces, other: &Pieces) -> Result<Pieces, NoMemory> {
    if pieces.length() as u64 + other.length() as u64 > 1 << 30 {
        return Err(NoMemory);
    }
    pieces.concat(other)
}

fn window(pieces: &Pieces, at: u32) -> u32 {
    if at <= pieces.length() {
        pieces.window(at, 8)
    } else {
        u32::MAX
    }
}

fn stretch(pieces: &Pieces, at: u32) -> Option<Piece> {
    if at <= pieces.length() {
        pieces.stretch(at, 8)
    } else {
        None
    }
}

fn are_at(pieces: &Pieces, wanted: &[(u64, u32, u32)]) -> bool {
    if pieces.count() as usize != wanted.len() {
        return false;
    }
    for (k, &(file, from, len)) in wanted.iter().enumerate() {
        let Some(piece) = pieces.piece(k as u32) else {
            return false;
        };
        if piece.file.0 != file || piece.from != from || piece.len != len {
            return false;
        }
    }
    true
}

#[test]
fn windows(rt: HostRuntime) -> Result<(), NoMemory> {
    let list = [piece(1, 5, 6), piece(1, 13, 2), piece(2, 0, 20)];
    let passage = Pieces::of(rt.alloc(), &list)?;
    assert!(rt; are_at(&passage, &[(1, 5, 6), (1, 13, 2), (2, 0, 20)]));
    assert_eq!(rt; passage.length(), 28);
    for (at, wanted) in [(0, 16), (16, 12), (1, 15), (28, 0)] {
        assert_eq!(rt; window(&passage, at), wanted, "at {at}");
    }
    Ok(())
}

#[test]
fn stretches(rt: HostRuntime) -> Result<(), NoMemory> {
    let list = [piece(1, 5, 6), piece(1, 13, 2), piece(2, 0, 20)];
    let passage = Pieces::of(rt.alloc(), &list)?;
    for (at, file, from, len) in [(0, 1, 5, 3), (4, 1, 9, 2), (7, 1, 14, 1), (24, 2, 16, 4)] {
        assert_eq!(rt;
            stretch(&passage, at),
            Some(piece(file, from, len)),
            "at {at}"
        );
    }
    assert_eq!(rt; stretch(&passage, 28), None);
    Ok(())
}

#[test]
fn edits(rt: HostRuntime) -> Result<(), NoMemory> {
    let alloc = rt.alloc();
    let rope = Pieces::one(alloc, piece(1, 0, 20))?;
    assert_eq!(rt; Pieces::empty(alloc).count(), 0);
    let none = sub(&rope, 0, 0)?;
    assert_eq!(rt; none.count(), 0);
    let shorter = replaced(&rope, 5, 10, &none)?;
    assert!(rt; are_at(&shorter, &[(1, 0, 5), (1, 15, 5)]));
    assert_eq!(rt; shorter.length(), 10);
    let longer = replaced(&rope, 20, 0, &rope)?;
    assert!(rt; are_at(&longer, &[(1, 0, 20), (1, 0, 20)]));
    assert_eq!(rt; longer.copy()?.length(), 40);
    let halves = joined(&sub(&rope, 0, 12)?, &sub(&rope, 12, 8)?)?;
    assert!(rt; are_at(&halves, &[(1, 0, 20)]));
    Ok(())
}
