//! The blocks of an open recording that became whole, on the disk.

ghost use Rattle.std.specs.Prelude.{◌≡◌, ℕ, ◌+◌, ◌*◌, ◌<◌, ◌≤◌, ◌^◌, List, [], length, slice_index, vec_capacity, IsTrue, OnOk, OnErr};
ghost use Rattle.voice_units.specs.Layout.{bytes_needed};
ghost use Rattle.voice_outside.specs.Disk.{MakesAtMost};
ghost use Rattle.voice_blocks.specs.declared.owner.Owner.TheVariants as owners;
ghost use Rattle.recording_writer.specs.Wrote.{WroteAt, byte_place};
ghost use Rattle.open_recordings.specs.Blocks.{AreAddresses};

use open_recordings::addresses_of;
use recording_writer::write_whole;
use voice_blocks::BlockMap;
use voice_outside::Disk;
use voice_units::{Failed, Lane, Shape};

/// Writes whole blocks at the addresses of so many blocks of a lane's open recording, from an index on. Without a block it makes no device call.
pub(crate) fn write_taken<D: Disk>(
    shape: &Shape,
    disk: &mut D,
    blocks: &BlockMap,
    lane: Lane,
    from: u32,
    count: u32,
    samples: &[u8],
    list: Vec<u32>,
) -> Result<(), Failed>
    requires addresses { (addresses : List ℕ) × AreAddresses blocks.now.holders (owners.Taking lane) from count addresses }
    requires many { length blocks.now.holders ≡ shape.now.blocks }
    requires whole { length samples.now ≡ count * shape.now.block }
    requires limit { from + count < 2 ^ 32 }
    requires empty { list.items ≡ [] }
    requires capacity { count ≤ vec_capacity list }
    requires fits { bytes_needed shape.now.block shape.now.blocks shape.now.area ≤ (D.told disk.old).size }
    ensures made { MakesAtMost count (D.told disk.old) (D.told disk.new) result }
    ensures reached { OnErr result (0 < count) }
    ensures content { IsTrue (D.told disk.old).honest → (addresses : List ℕ) → AreAddresses blocks.now.holders (owners.Taking lane) from count addresses → WroteAt shape.now addresses (D.told disk.old) (D.told disk.new) }
    ensures written { IsTrue (D.told disk.old).honest → (addresses : List ℕ) → AreAddresses blocks.now.holders (owners.Taking lane) from count addresses → OnOk result ((k : ℕ) → k < length samples.now → slice_index (D.told disk.new).bytes (byte_place shape.now addresses k) ≡ slice_index samples.now k) }
{
    if count == 0 {
        return Ok(());
    }
    let addresses = addresses_of(blocks, lane, from, count, list);
    write_whole(shape, disk, &addresses, samples)
}
