//! A window out of frames.

ghost use Rattle.std.specs.Prelude.{◌≡◌, true, IfOk};

use bench_report::report::ratio;
use frame_pool::{Keeper, Lease, Part, Pool};
use std::alloc::{AllocError, Global};
use std::io;
use std::rt::Clock;
use std::time::{Duration, Instant};
use voice_units::{Lane, NoMemory};

const TIMES: u32 = 20_000;

// A lease of 16 KiB in two frames.
fn window(alloc: Global, block: &[u8; 8192]) -> Result<(Keeper, Lease), NoMemory>
    ensures { IfOk result (λ r. r.1.live ≡ true) }
{
    let (_pool, mut keeper) = Pool::new(alloc, 1, 8192)?;
    let mut room = Vec::from_slice(alloc, block)?;
    keeper.fill(0, &mut room);
    room.copy_from_slice(block);
    keeper.fill(1, &mut room);
    let parts = [
        Part {
            frame: 0,
            from: 0,
            len: 8192,
        },
        Part {
            frame: 1,
            from: 0,
            len: 8192,
        },
    ];
    let lease = keeper.grant(alloc, Lane(0), &parts)?;
    Ok((keeper, lease))
}

// Copies the whole window so often, and looks at a byte of each copy, so that each is made.
fn copy_lease(lease: &mut Lease, out: &mut [u8; 16384]) -> u8
    requires { lease.old.live ≡ true }
    ensures { lease.new ≡ lease.old }
{
    let mut seen = 0;
    'copies: for i in 0..TIMES {
        lease.copy(0, out);
        seen ^= out[i as usize % 16384];
    }
    seen
}

// The same by plain copies, from places that differ, so that none can be left out.
fn copy_plainly(bytes: &[u8; 16400], out: &mut [u8; 16384]) -> u8 {
    let mut seen = 0;
    for i in 0..TIMES {
        let from = i as usize % 16;
        out.copy_from_slice(&bytes[from..from + 16384]);
        seen ^= out[i as usize % 16384];
    }
    seen
}

// What the copies of a lease looked at, and how long they took.
fn time_lease<R: Clock>(
    rt: &R,
    lease: &mut Lease,
    out: &mut [u8; 16384],
) -> io::Result<(u8, Duration)>
    requires { lease.old.live ≡ true }
{
    let start = Instant::now(rt)?;
    let seen = copy_lease(lease, out);
    let took = start.elapsed(rt)?;
    Ok((seen, took))
}

// The same of a new window.
fn time_window<R: Clock>(
    rt: &R,
    alloc: Global,
    out: &mut [u8; 16384],
) -> io::Result<(u8, Duration)> {
    let block = [165u8; 8192];
    let Ok((_keeper, mut lease)) = window(alloc, &block) else {
        return Err(io::Error::from(AllocError));
    };
    time_lease(rt, &mut lease, out)
}

// The same of plain copies.
fn time_plainly<R: Clock>(rt: &R, out: &mut [u8; 16384]) -> io::Result<(u8, Duration)> {
    let bytes = [165u8; 16400];
    let start = Instant::now(rt)?;
    let seen = copy_plainly(&bytes, out);
    let took = start.elapsed(rt)?;
    Ok((seen, took))
}

/// Prints what a copy out of frames costs beside a plain one.
pub fn measure<R: Print + Clock + AllocGlobal>(rt: &R) -> io::Result<()> {
    let mut out = [0u8; 16384];
    let (seen, took) = time_window(rt, rt.alloc(), &mut out)?;
    let (seen_plainly, bare) = time_plainly(rt, &mut out)?;
    let same = seen == seen_plainly;
    println!(rt; "a window of 16 KiB, {TIMES} copies, same bytes: {same}")?;
    ratio(rt, "copying it out of frames", took, bare)
}
