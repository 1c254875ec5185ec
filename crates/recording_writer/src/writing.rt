//! Runs of blocks, and a padded last block.

ghost use Rattle.std.specs.Prelude.{◌≡◌, ℕ, suc, ◌+◌, ◌-◌, ◌*◌, ◌/◌, ◌%◌, ◌<◌, ◌≤◌, length, slice_index, drop, IsTrue, OnOk};
ghost use Rattle.voice_units.specs.Blocks.{blocks_for};
ghost use Rattle.voice_units.specs.Layout.{bytes_needed};
ghost use Rattle.voice_outside.specs.Disk.{MakesAtMost, Counts, WritesAt};
ghost use Rattle.voice_blocks.specs.Place.{block_place};
ghost use Rattle.recording_writer.specs.Runs.{IsRun, runs, writes_for};
ghost use Rattle.recording_writer.specs.Wrote.{AreBelow, AreDistinct, Holds, WroteAt, byte_place};

use voice_blocks::{write_block, write_blocks};
use voice_outside::Disk;
use voice_units::{Failed, Shape};

/// Writes samples into the blocks at these addresses, in order; the last block is filled up with zero bytes. Blocks at consecutive addresses go out in one write, and a padded last block in one of its own, by way of `room`. It makes no sync and takes no memory. It ends at the first write that fails.
pub fn write_samples<D: Disk>(
    shape: &Shape,
    disk: &mut D,
    addresses: &[u32],
    samples: &[u8],
    room: &mut [u8],
) -> Result<(), Failed>
    requires enough { length addresses.now ≡ blocks_for shape.now.block (length samples.now) }
    requires within { AreBelow shape.now.blocks addresses.now }
    requires differ { AreDistinct addresses.now }
    requires room { length room.old ≡ shape.now.block }
    requires fits { bytes_needed shape.now.block shape.now.blocks shape.now.area ≤ (D.told disk.old).size }
    ensures made { MakesAtMost (writes_for shape.now.block addresses.now (length samples.now)) (D.told disk.old) (D.told disk.new) result }
    ensures few { writes_for shape.now.block addresses.now (length samples.now) ≤ length addresses.now }
    ensures calls { OnOk result ((D.told disk.new).calls ≡ (D.told disk.old).calls + writes_for shape.now.block addresses.now (length samples.now)) }
    ensures content { IsTrue (D.told disk.old).honest → WroteAt shape.now addresses.now (D.told disk.old) (D.told disk.new) }
    ensures written { IsTrue (D.told disk.old).honest → OnOk result ((k : ℕ) → k < length samples.now → slice_index (D.told disk.new).bytes (byte_place shape.now addresses.now k) ≡ slice_index samples.now k) }
    ensures padded { IsTrue (D.told disk.old).honest → OnOk result ((k : ℕ) → length samples.now ≤ k → k < length addresses.now * shape.now.block → slice_index (D.told disk.new).bytes (byte_place shape.now addresses.now k) ≡ 0) }
{
    let block = shape.block as usize;
    let whole = samples.len() / block;
    let front = whole * block;
    write_whole(shape, disk, &addresses[..whole], &samples[..front])?;
    if front == samples.len() {
        return Ok(());
    }
    write_padded(shape, disk, addresses[whole], &samples[front..], room)
}

/// Writes whole blocks at these addresses, in order, a run of consecutive addresses in one write. It makes no sync and takes no memory. It ends at the first write that fails.
pub fn write_whole<D: Disk>(
    shape: &Shape,
    disk: &mut D,
    addresses: &[u32],
    bytes: &[u8],
) -> Result<(), Failed>
    requires enough { length bytes.now ≡ length addresses.now * shape.now.block }
    requires within { AreBelow shape.now.blocks addresses.now }
    requires differ { AreDistinct addresses.now }
    requires fits { bytes_needed shape.now.block shape.now.blocks shape.now.area ≤ (D.told disk.old).size }
    ensures made { MakesAtMost (runs addresses.now) (D.told disk.old) (D.told disk.new) result }
    ensures few { runs addresses.now ≤ length addresses.now }
    ensures calls { OnOk result ((D.told disk.new).calls ≡ (D.told disk.old).calls + runs addresses.now) }
    ensures content { IsTrue (D.told disk.old).honest → WroteAt shape.now addresses.now (D.told disk.old) (D.told disk.new) }
    ensures written { IsTrue (D.told disk.old).honest → OnOk result (Holds shape.now addresses.now bytes.now (length bytes.now) (D.told disk.new).bytes) }
{
    let block = shape.block as usize;
    let mut at = 0;
    while at < addresses.len() {
        let end = at + run_length(addresses, at);
        write_blocks(shape, disk, addresses[at], &bytes[at * block..end * block])?;
        at = end;
    }
    Ok(())
}

// How many consecutive addresses there are from here on.
fn run_length(addresses: &[u32], from: usize) -> usize
    requires { from < length addresses.now }
    ensures some { 0 < result }
    ensures within { from + result ≤ length addresses.now }
    ensures run { IsRun addresses.now from result }
    ensures longest { runs (drop from addresses.now) ≡ suc (runs (drop (from + result) addresses.now)) }
{
    let most = addresses.len() - from;
    for n in 1..most {
        if addresses[from + n] as u64 != addresses[from + n - 1] as u64 + 1 {
            return n;
        }
    }
    most
}

// Writes a block that begins with these bytes and ends in zeros.
fn write_padded<D: Disk>(
    shape: &Shape,
    disk: &mut D,
    address: u32,
    bytes: &[u8],
    room: &mut [u8],
) -> Result<(), Failed>
    requires room { length room.old ≡ shape.now.block }
    requires part { length bytes.now ≤ shape.now.block }
    requires within { address < shape.now.blocks }
    requires fits { bytes_needed shape.now.block shape.now.blocks shape.now.area ≤ (D.told disk.old).size }
    ensures counts { Counts (D.told disk.old) (D.told disk.new) result }
    ensures content { IsTrue (D.told disk.old).honest → WritesAt (block_place shape.now address) room.new (D.told disk.old) (D.told disk.new) result }
    ensures filled { (k : ℕ) → slice_index room.new k ≡ slice_index bytes.now k }
{
    fill(bytes, room);
    write_block(shape, disk, address, room)
}

// These bytes, then zeros.
fn fill(bytes: &[u8], room: &mut [u8])
    requires { length bytes.now ≤ length room.old }
    ensures { (k : ℕ) → slice_index room.new k ≡ slice_index bytes.now k }
{
    room.fill(0);
    room[..bytes.len()].copy_from_slice(bytes);
}
