//! The addresses of the blocks of open recordings.

ghost use Rattle.std.specs.Prelude.{◌≡◌, ℕ, ◌+◌, ◌<◌, ◌≤◌, ◌^◌, List, []};
ghost use Rattle.std.specs.Vec.{vec_capacity};
ghost use Rattle.voice_blocks.specs.declared.owner.Owner.TheVariants as owners;
ghost use Rattle.voice_blocks.specs.Holders.{EachBecomes};
ghost use Rattle.open_recordings.specs.Blocks.{AreAddresses, HasBlocks, without_from};

use voice_blocks::{BlockMap, Owner};
use voice_units::Lane;

/// The most blocks of a disk.
const MOST_BLOCKS: u32 = 1 << 20;

/// How many blocks the open recording of a lane has, found by halving.
pub(crate) fn blocks_taken(blocks: &BlockMap, lane: Lane) -> u32
    ensures { (count : ℕ) → HasBlocks blocks.now.holders lane count → result ≡ count }
{
    let mut low = 0;
    let mut high = MOST_BLOCKS;
    while low < high {
        let middle = low + (high - low) / 2;
        if blocks.address(Owner::Taking(lane), middle).is_some() {
            low = middle + 1;
        } else {
            high = middle;
        }
    }
    low
}

/// The addresses of so many blocks of a lane's open recording, from an index on, in rising index. It takes no memory: the empty list has room for them.
pub fn addresses_of(
    blocks: &BlockMap,
    lane: Lane,
    from: u32,
    count: u32,
    mut list: Vec<u32>,
) -> Vec<u32>
    requires empty { list.items ≡ [] }
    requires room { count ≤ vec_capacity list }
    requires fits { from + count < 2 ^ 32 }
    ensures { (addresses : List ℕ) → AreAddresses blocks.now.holders (owners.Taking lane) from count addresses → result.items ≡ addresses }
{
    for k in 0..count {
        let Some(address) = blocks.address(Owner::Taking(lane), from + k) else {
            return list;
        };
        let Ok(()) = list.push(address) else {
            return list;
        };
    }
    list
}

/// Drops so many blocks of a lane's open recording, from an index on.
pub(crate) fn drop_blocks(blocks: &mut BlockMap, lane: Lane, from: u32, n: u32)
    requires { from + n < 2 ^ 32 }
    ensures { EachBecomes (without_from (owners.Taking lane) from (from + n)) blocks.old.holders blocks.new.holders }
{
    for index in from..from + n {
        blocks.drop_block(Owner::Taking(lane), index);
    }
}
