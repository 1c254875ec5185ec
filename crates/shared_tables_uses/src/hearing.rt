// One thread hears a frame, and another fills the next frame meanwhile.
ghost use Rattle.std.specs.Prelude.{◌≡◌, ◌≤◌, ◌<◌, ℕ, true, length, IfOk};
ghost use Rattle.frame_pool.specs.declared.views.Stage.TheVariants.{Free};
ghost use Rattle.frame_pool.specs.Pool.{lanes_of, block_of, stage_of, IsSpare};

use frame_pool::{Keeper, Lease, Part};
use std::alloc::Global;
use std::thread;
use std::thread::Threads;
use voice_units::{Lane, NoMemory};

/// Fills frame 0, and hears it on a thread of its own while this one fills frame 1.
pub fn heard_while_filling<R: Threads + Sync>(
    rt: &R,
    alloc: Global,
    mut keeper: Keeper,
    mut block: Vec<u8>,
    other: Vec<u8>,
) -> Result<(Keeper, Lease, [u8; 8]), NoMemory>
    requires sizes { (1 ≤ lanes_of keeper) × (block_of keeper ≡ 8) }
    requires free { (l : ℕ) → l < lanes_of keeper → stage_of keeper l ≡ Free }
    requires blocks { (length block.items ≡ 8) × (length other.items ≡ 8) }
    ensures heard { IfOk result (λ r. r.2 ≡ block.items) }
{
    keeper.fill(0, &mut block);
    let parts = [Part {
        frame: 0,
        from: 0,
        len: 8,
    }];
    let lease = keeper.grant(alloc, Lane(0), &parts)?;
    let (heard, keeper) = thread::join(
        rt,
        move || -> (Lease, [u8; 8])
            requires { (lease.live ≡ true) × (lease.len ≡ 8) × (length lease.samples ≡ 8) }
            ensures { (result.0 ≡ lease) × (result.1 ≡ lease.samples) }
        {
            let mut lease = lease;
            let mut out = [0u8; 8];
            lease.copy(0, &mut out);
            (lease, out)
        },
        move || -> Keeper
            requires { (1 ≤ lanes_of keeper) × (block_of keeper ≡ 8) × (length other.items ≡ 8) × IsSpare keeper 1 }
        {
            let mut keeper = keeper;
            let mut room = other;
            keeper.hint(Lane(0), true);
            keeper.fill(1, &mut room);
            keeper
        },
    );
    let (lease, out) = heard;
    Ok((keeper, lease, out))
}
