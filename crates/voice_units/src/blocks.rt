//! How many blocks samples take.

ghost use Rattle.std.specs.Prelude.{◌≡◌, ◌-◌, ◌*◌, ◌^◌, ◌≤◌};
ghost use Rattle.voice_units.specs.Blocks.{blocks_for};

/// How many blocks of this length so many samples take.
pub fn blocks_needed(block: u32, samples: u64) -> u32
    requires some { 1 ≤ block }
    requires fits { samples ≤ (2 ^ 32 - 1) * block }
    ensures { result ≡ blocks_for block samples }
{
    let block = block as u64;
    ((samples + (block - 1)) / block) as u32
}
