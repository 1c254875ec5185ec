//! Blocks of recordings at their addresses.

ghost use Rattle.std.specs.Prelude.{◌≡◌, ℕ, ◌<◌, ◌≤◌, ◌^◌, ◌&&◌, true, false, length};
ghost use Rattle.std.specs.List.{list_all};
ghost use Rattle.voice_model.specs.Replay.{all_differ, placed_from};
ghost use Rattle.voice_blocks.specs.Holders.{holder_at, without_owner};
ghost use Rattle.recovery.specs.Shown.{placed_at};
ghost use Rattle.recovery.specs.Placing.{or_else, is_open};

use voice_blocks::{BlockMap, Owner};
use voice_units::RopeId;

/// Enters the blocks of a file that has none, from index 0 on, under these addresses. False exactly where one of them is not free or stands twice, and then each address is held as before. It takes a step for each address.
pub(crate) fn place_all(blocks: &mut BlockMap, file: RopeId, addresses: &[u32]) -> bool
    requires room { length addresses.now ≤ blocks.old.spare }
    requires count { length addresses.now < 2 ^ 32 }
    requires none { (a : ℕ) → without_owner (Owner.File file) (holder_at blocks.old.holders a) ≡ holder_at blocks.old.holders a }
    ensures exact { result ≡ (all_differ addresses.now && list_all (is_open blocks.old.holders) addresses.now) }
    ensures done { result ≡ true → (a : ℕ) → holder_at blocks.new.holders a ≡ or_else (holder_at blocks.old.holders a) (placed_at (placed_from file 0 addresses.now) a) }
    ensures same { result ≡ false → (a : ℕ) → holder_at blocks.new.holders a ≡ holder_at blocks.old.holders a }
    ensures size { length blocks.new.holders ≡ length blocks.old.holders }
{
    for (index, address) in addresses.iter().enumerate() {
        if !blocks.place(file, index as u32, *address) {
            blocks.drop_owner(Owner::File(file));
            return false;
        }
    }
    true
}
