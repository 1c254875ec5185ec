//! Blocks on a disk.

ghost use Rattle.std.specs.Prelude.{ℕ, ◌≡◌, ◌+◌, ◌-◌, ◌*◌, ◌%◌, ◌^◌, ◌<◌, ◌≤◌, length, IsTrue};
ghost use Rattle.voice_units.specs.Layout.{bytes_needed};
ghost use Rattle.voice_outside.specs.Disk.{Counts, Rests, ReadsAt, WritesAt};
ghost use Rattle.voice_blocks.specs.Place.{block_place};

use voice_outside::Disk;
use voice_units::{Failed, Shape};

// The byte of a disk at which a block begins.
fn block_place(shape: &Shape, address: u32) -> u64
    ensures { result ≡ block_place shape.now address }
{
    64 + 2 * shape.area as u64 + address as u64 * shape.block as u64
}

/// Reads a block. It makes one device call.
#[tactic(auto, using(crate::proofs::Places::block_within))]
pub fn read_block<D: Disk>(
    shape: &Shape,
    disk: &mut D,
    address: u32,
    into: &mut [u8],
) -> Result<(), Failed>
    requires whole { length into.old ≡ shape.now.block }
    requires within { address < shape.now.blocks }
    requires fits { bytes_needed shape.now.block shape.now.blocks shape.now.area ≤ (D.told disk.old).size }
    ensures counts { Counts (D.told disk.old) (D.told disk.new) result }
    ensures spent { IsTrue (D.told disk.old).honest → 2 ^ 64 - 1 ≤ (D.told disk.old).calls → Rests (D.told disk.old) (D.told disk.new) }
    ensures content { IsTrue (D.told disk.old).honest → ReadsAt (block_place shape.now address) (length into.old) (D.told disk.old) (D.told disk.new) into.new result }
{
    disk.read(block_place(shape, address), into)
}

/// Writes a block. It makes one device call.
#[tactic(auto, using(crate::proofs::Places::block_within))]
pub fn write_block<D: Disk>(
    shape: &Shape,
    disk: &mut D,
    address: u32,
    bytes: &[u8],
) -> Result<(), Failed>
    requires whole { length bytes.now ≡ shape.now.block }
    requires within { address < shape.now.blocks }
    requires fits { bytes_needed shape.now.block shape.now.blocks shape.now.area ≤ (D.told disk.old).size }
    ensures counts { Counts (D.told disk.old) (D.told disk.new) result }
    ensures spent { IsTrue (D.told disk.old).honest → 2 ^ 64 - 1 ≤ (D.told disk.old).calls → Rests (D.told disk.old) (D.told disk.new) }
    ensures content { IsTrue (D.told disk.old).honest → WritesAt (block_place shape.now address) bytes.now (D.told disk.old) (D.told disk.new) result }
{
    disk.write(block_place(shape, address), bytes)
}

/// Writes a run of whole blocks at consecutive addresses. It makes one device call.
#[tactic(auto, using(crate::proofs::Places::run_within))]
pub fn write_blocks<D: Disk>(
    shape: &Shape,
    disk: &mut D,
    address: u32,
    bytes: &[u8],
) -> Result<(), Failed>
    requires whole { length bytes.now % shape.now.block ≡ 0 }
    requires within { address * shape.now.block + length bytes.now ≤ shape.now.block * shape.now.blocks }
    requires fits { bytes_needed shape.now.block shape.now.blocks shape.now.area ≤ (D.told disk.old).size }
    ensures counts { Counts (D.told disk.old) (D.told disk.new) result }
    ensures spent { IsTrue (D.told disk.old).honest → 2 ^ 64 - 1 ≤ (D.told disk.old).calls → Rests (D.told disk.old) (D.told disk.new) }
    ensures content { IsTrue (D.told disk.old).honest → WritesAt (block_place shape.now address) bytes.now (D.told disk.old) (D.told disk.new) result }
{
    disk.write(block_place(shape, address), bytes)
}
