//! A walk over the stretches of a rope, one block's room at a time.

ghost use Rattle.std.specs.Prelude.{◌≡◌, ◌%◌, ℕ, List, ◌+◌, ◌<◌, ◌≤◌, ◌^◌, ◌++◌, drop, length, take, IsErrOf, IsTrue, OnOk};
ghost use Rattle.voice_units.specs.Layout.{bytes_needed};
ghost use Rattle.voice_units.specs.Blocks.{BlockPair};
ghost use Rattle.voice_units.specs.Spots.{spots_in, spots_of, samples_in, stretches};
ghost use Rattle.voice_outside.specs.Counters.{HasRisen};
ghost use Rattle.voice_outside.specs.Disk.{MakesAtMost};
ghost use Rattle.listening.specs.Looks.{Looked, OnlyLooked};
ghost use Rattle.listening.specs.Heard.{IsPlace, HasPlace, HavePlaces, ArePlaces, pair_of, bytes_on};

use crate::ears::Ear;
use crate::unheard::Unheard;
use rope_algebra::Pieces;
use std::alloc::Global;
use voice_blocks::{BlockMap, Owner, read_block};
use voice_outside::Disk;
use voice_units::{Failed, NoMemory, Piece, Shape};

// Reads the block of a stretch. It makes one device call.
fn read_around<D: Disk>(
    disk: &mut D,
    shape: &Shape,
    blocks: &BlockMap,
    stretch: &Piece,
    room: &mut [u8],
) -> Result<(), Failed>
    requires block { 0 < shape.now.block }
    requires inside { stretch.now.from % shape.now.block + stretch.now.len ≤ shape.now.block }
    requires room { length room.old ≡ shape.now.block }
    requires fits { bytes_needed shape.now.block shape.now.blocks shape.now.area ≤ (D.told disk.old).size }
    requires count { length blocks.now.holders ≡ shape.now.blocks }
    requires placed { HasPlace blocks.now.holders (pair_of shape.now.block stretch.now) }
    ensures made { MakesAtMost 1 (D.told disk.old) (D.told disk.new) result }
    ensures room { length room.new ≡ length room.old }
    ensures looks { IsTrue (D.told disk.old).honest → OnlyLooked (D.told disk.old) (D.told disk.new) }
    ensures bytes { IsTrue (D.told disk.old).honest → OnOk result ((address : BlockPair → ℕ) → IsPlace blocks.now.holders (pair_of shape.now.block stretch.now) (address (pair_of shape.now.block stretch.now)) → take stretch.now.len (drop (stretch.now.from % shape.now.block) room.new) ≡ bytes_on (D.told disk.old).bytes shape.now address (spots_in stretch.now)) }
{
    let owner = Owner::File(stretch.file);
    let Some(address) = blocks.address(owner, stretch.from / shape.block) else {
        unreachable!()
    };
    read_block(shape, disk, address, room)
}

// Lets an ear hear a part of a block.
fn hear_part<E: Ear>(ear: &mut E, room: &[u8], from: u32, len: u32) -> Result<(), NoMemory>
    requires within { from + len ≤ length room.now }
    requires limit { len < E.limit ear.old }
    ensures known { OnOk result ((before : List ℕ) → E.knows before ear.old → E.knows (before ++ take len (drop from room.now)) ear.new) }
    ensures limited { OnOk result (E.limit ear.old ≤ E.limit ear.new + len) }
{
    let from = from as usize;
    ear.hear(&room[from..from + len as usize])
}

// Lets an ear hear a rope, by way of room for a block.
fn hear_stretches<E: Ear, D: Disk>(
    ear: &mut E,
    disk: &mut D,
    shape: &Shape,
    blocks: &BlockMap,
    pieces: &Pieces,
    room: &mut [u8],
) -> Result<(), Unheard>
    requires block { 0 < shape.now.block }
    requires room { length room.old ≡ shape.now.block }
    requires fits { bytes_needed shape.now.block shape.now.blocks shape.now.area ≤ (D.told disk.old).size }
    requires count { length blocks.now.holders ≡ shape.now.blocks }
    requires placed { HavePlaces shape.now.block blocks.now.holders (spots_of pieces.now) }
    requires most { samples_in pieces.now ≤ 2 ^ 30 }
    requires limit { samples_in pieces.now < E.limit ear.old }
    ensures looked { Looked (length (stretches shape.now.block (spots_of pieces.now))) (D.told disk.old) (D.told disk.new) }
    ensures empty { samples_in pieces.now ≡ 0 → disk.new ≡ disk.old }
    ensures cause { IsErrOf result Unheard.DiskFault → HasRisen (D.told disk.old).faults (D.told disk.new).faults }
    ensures some { IsErrOf result Unheard.DiskFault → 1 ≤ samples_in pieces.now }
    ensures known { IsTrue (D.told disk.old).honest → OnOk result ((before : List ℕ) (address : BlockPair → ℕ) → E.knows before ear.old → ArePlaces shape.now.block blocks.now.holders (spots_of pieces.now) address → E.knows (before ++ bytes_on (D.told disk.old).bytes shape.now address (spots_of pieces.now)) ear.new) }
{
    let mut at = 0;
    while let Some(stretch) = pieces.stretch(at, shape.block) {
        read_around(disk, shape, blocks, &stretch, room)?;
        hear_part(ear, room, stretch.from % shape.block, stretch.len)?;
        at += stretch.len;
    }
    Ok(())
}

/// Lets an ear hear the samples of a rope, in order, each block that a stretch lies in read into the room of one block.
pub(crate) fn hear_rope<E: Ear, D: Disk>(
    alloc: Global,
    ear: &mut E,
    disk: &mut D,
    shape: &Shape,
    blocks: &BlockMap,
    pieces: &Pieces,
) -> Result<(), Unheard>
    requires block { 0 < shape.now.block }
    requires fits { bytes_needed shape.now.block shape.now.blocks shape.now.area ≤ (D.told disk.old).size }
    requires count { length blocks.now.holders ≡ shape.now.blocks }
    requires placed { HavePlaces shape.now.block blocks.now.holders (spots_of pieces.now) }
    requires most { samples_in pieces.now ≤ 2 ^ 30 }
    requires limit { samples_in pieces.now < E.limit ear.old }
    ensures looked { Looked (length (stretches shape.now.block (spots_of pieces.now))) (D.told disk.old) (D.told disk.new) }
    ensures empty { samples_in pieces.now ≡ 0 → disk.new ≡ disk.old }
    ensures cause { IsErrOf result Unheard.DiskFault → HasRisen (D.told disk.old).faults (D.told disk.new).faults }
    ensures some { IsErrOf result Unheard.DiskFault → 1 ≤ samples_in pieces.now }
    ensures known { IsTrue (D.told disk.old).honest → OnOk result ((before : List ℕ) (address : BlockPair → ℕ) → E.knows before ear.old → ArePlaces shape.now.block blocks.now.holders (spots_of pieces.now) address → E.knows (before ++ bytes_on (D.told disk.old).bytes shape.now address (spots_of pieces.now)) ear.new) }
{
    let mut room = vec![in alloc; 0; shape.block as usize]?;
    hear_stretches(ear, disk, shape, blocks, pieces, &mut room)
}
