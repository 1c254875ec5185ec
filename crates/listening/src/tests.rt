//! Ropes heard off a disk in memory.

ghost use Rattle.std.specs.Prelude.{◌≡◌, ◌≤◌, ◌<◌, ◌+◌, ◌↔◌, ◌^◌, length, IfOk, IsTrue};
ghost use Rattle.voice_units.specs.Layout.{bytes_needed};
ghost use Rattle.voice_units.specs.Spots.{spots_of, samples_in};
ghost use Rattle.rope_algebra.specs.Kept.{LieInFiles};
ghost use Rattle.listening.specs.Heard.{HavePlaces};

use crate::{Unheard, peaks_of, talk_of};
use rope_algebra::Pieces;
use std::alloc::Global;
use voice_blocks::{BlockMap, Owner, write_block};
use voice_disk::MemDisk;
use voice_outside::Disk;
use voice_units::{Graces, NoMemory, Piece, RopeId, Shape};

// Blocks of 8, 16 of them.
fn shape_of(size: u64) -> Result<Shape, NoMemory>
    ensures { IfOk result (λ shape. (shape.block ≡ 8) × (shape.blocks ≡ 16)) }
{
    let graces = Graces {
        common: 60,
        held: 60,
        until: 60,
        listed: 60,
    };
    match Shape::new(1, 8, 16, 512, graces, 4, size) {
        Ok(shape) => Ok(shape),
        Err(_) => Err(NoMemory),
    }
}

// Whether a disk has room for a shape.
fn fits<D: Disk>(disk: &D, shape: &Shape) -> bool
    ensures { IsTrue result ↔ (bytes_needed shape.now.block shape.now.blocks shape.now.area ≤ (D.told disk.now).size) }
{
    let blocks = u64::from(shape.block) * u64::from(shape.blocks);
    64 + 2 * u64::from(shape.area) + blocks <= disk.size()
}

// Writes the k-th block of file 1 at an address.
fn lay(
    shape: &Shape,
    disk: &mut MemDisk,
    blocks: &mut BlockMap,
    k: u32,
    address: u32,
    bytes: &[u8; 8],
) -> Result<(), NoMemory>
    requires block { shape.now.block ≡ 8 }
    ensures count { length blocks.new.holders ≡ length blocks.old.holders }
{
    if address >= shape.blocks || !fits(disk, shape) {
        return Err(NoMemory);
    }
    blocks.reserve(1)?;
    let placed = blocks.place(RopeId(1), k, address);
    if !placed || write_block(shape, disk, address, bytes).is_err() {
        return Err(NoMemory);
    }
    Ok(())
}

// Where two blocks of file 1 lie, whose samples have the loudness 0 to 15.
fn laid(alloc: Global, shape: &Shape, disk: &mut MemDisk) -> Result<BlockMap, NoMemory>
    requires block { shape.now.block ≡ 8 }
    ensures count { IfOk result (λ blocks. length blocks.holders ≡ 16) }
{
    let mut blocks = BlockMap::new(alloc, 16)?;
    let first = [0xff, 0xfe, 0xfd, 0xfc, 0xfb, 0xfa, 0xf9, 0xf8];
    let second = [0xf7, 0xf6, 0xf5, 0xf4, 0xf3, 0xf2, 0xf1, 0xf0];
    lay(shape, disk, &mut blocks, 0, 3, &first)?;
    lay(shape, disk, &mut blocks, 1, 0, &second)?;
    Ok(blocks)
}

// Whether the blocks of a rope have addresses.
fn are_placed(blocks: &BlockMap, pieces: &Pieces, block: u32) -> bool
    requires { 0 < block }
    ensures { IsTrue result → HavePlaces block blocks.now.holders (spots_of pieces.now) }
{
    for at in 0..pieces.length() {
        let Some(sample) = pieces.stretch(at, block) else {
            return false;
        };
        let owner = Owner::File(sample.file);
        let Some(address) = blocks.address(owner, sample.from / block) else {
            return false;
        };
        let _held = address;
    }
    true
}

fn piece(from: u32, len: u32) -> Piece
    ensures from { result.from ≡ from }
    ensures len { result.len ≡ len }
{
    Piece {
        file: RopeId(1),
        from,
        len,
    }
}

#[derive(Clone, Copy, Debug, PartialEq, Eq)]
struct Heard {
    peak: Option<u8>,
    has_talk: bool,
    calls: u64,
}

// What is heard of a rope, and how many calls it took, on a disk whose listed calls fail; the first two lay the blocks.
fn hear(alloc: Global, fails: &[u64], list: &[Piece]) -> Result<Result<Heard, Unheard>, NoMemory>
    requires ends { LieInFiles list.now }
    requires total { samples_in list.now ≤ 2 ^ 10 }
{
    let mut disk = MemDisk::new(alloc, 4096, fails.to_vec(alloc)?)?;
    let shape = shape_of(disk.size())?;
    let blocks = laid(alloc, &shape, &mut disk)?;
    let pieces = Pieces::of(alloc, list)?;
    if !fits(&disk, &shape) || !are_placed(&blocks, &pieces, 8) || pieces.length() > 1024 {
        return Err(NoMemory);
    }
    let before = disk.calls();
    let peaks = match peaks_of(alloc, &mut disk, &shape, &blocks, &pieces) {
        Ok(peaks) => peaks,
        Err(why) => return Ok(Err(why)),
    };
    let calls = disk.calls() - before;
    let talk = match talk_of(alloc, &mut disk, &shape, &blocks, &pieces) {
        Ok(talk) => talk,
        Err(why) => return Ok(Err(why)),
    };
    let heard = Heard {
        peak: peaks.items().first().copied(),
        has_talk: !talk.items().is_empty(),
        calls,
    };
    Ok(Ok(heard))
}

// Two pieces in one block, over the end of a block, and backwards over blocks.
#[test]
fn ropes(rt: HostRuntime) -> Result<(), NoMemory> {
    let table = [
        ([piece(1, 2), piece(5, 2)], 6, 2),
        ([piece(6, 4), piece(1, 1)], 9, 3),
        ([piece(8, 3), piece(0, 3)], 10, 2),
    ];
    for (list, peak, calls) in &table {
        let heard = hear(rt.alloc(), &[], list)?;
        let wanted = Heard {
            peak: Some(*peak),
            has_talk: true,
            calls: *calls,
        };
        assert_eq!(rt; heard, Ok(wanted));
    }
    Ok(())
}

#[test]
fn an_empty_rope_is_not_read(rt: HostRuntime) -> Result<(), NoMemory> {
    let wanted = Heard {
        peak: None,
        has_talk: false,
        calls: 0,
    };
    assert_eq!(rt; hear(rt.alloc(), &[3], &[])?, Ok(wanted));
    Ok(())
}

// The second block of three, and then the first one of the second answer.
#[test]
fn a_read_that_fails_is_a_fault(rt: HostRuntime) -> Result<(), NoMemory> {
    for k in [4, 6] {
        let heard = hear(rt.alloc(), &[k], &[piece(6, 4), piece(1, 1)])?;
        assert_eq!(rt; heard, Err(Unheard::DiskFault));
    }
    Ok(())
}
