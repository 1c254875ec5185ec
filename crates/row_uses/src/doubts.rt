//! Rows and sweeps in doubt, and their landings.

use crate::runs::{
    Standing, advanced, assert_prints, assert_standing, done, printed, run_script, small_disk,
};
use std::alloc::Global;
use std::process::Abort;
use std::sync::{Arc, Wait};
use std::test::Fail;
use std::thread::Threads;
use voice_disk::MemDisk;
use voice_model::{Call, Reply, Tapes, Why};
use voice_store::Store;
use voice_units::Moment;

// Formatting makes the calls 1 to 3, opening 4 to 8, the recording 9 to 14, and the retain 15 to 18.
const RETAIN: &[u8] =
    b"1 a = record f20\n1 retain held k a 00\n1 lookup held k\n1 advance 5\n1 lookup held k\n";

const FOUND: &[u8] = b"1 1 lookup: found 1 00\n";

const NONE: &[u8] = b"1 1 lookup: no no-interest\n";

// The calls that fail, what is printed behind the recording, and what a later run finds.
const RETAINS: &[Doubt] = &[
    (
        &[18],
        b"2 1 retain: no in-doubt\n3 1 lookup: no no-interest\n4 0 landed: done\n5 1 advance: done\n6 1 lookup: found 1 00\n",
        FOUND,
    ),
    (
        &[17],
        b"2 1 retain: no in-doubt\n3 1 lookup: no no-interest\n4 0 landed: done\n5 1 advance: done\n6 1 lookup: found 1 00\n",
        FOUND,
    ),
    (
        &[18, 19],
        b"2 1 retain: no in-doubt\n3 1 lookup: no no-interest\n4 1 advance: no disk-fault\n5 1 lookup: no no-interest\n",
        FOUND,
    ),
    (
        &[17, 18],
        b"2 1 retain: no in-doubt\n3 1 lookup: no no-interest\n4 1 advance: no disk-fault\n5 1 lookup: no no-interest\n",
        NONE,
    ),
    (
        &[16],
        b"2 1 retain: no disk-fault\n3 1 lookup: no no-interest\n4 1 advance: done\n5 1 lookup: no no-interest\n",
        NONE,
    ),
];

// The calls of the device that fail, what is printed behind the first lines, and what a later run finds.
type Doubt = (&'static [u64], &'static [u8], &'static [u8]);

// Runs a script that is done, asserts what it prints behind its first lines, and gives the disk then.
fn behind<R: Threads + Wait + Sync + Abort>(
    rt: &R,
    alloc: Global,
    (script, first): (&[u8], &[u8]),
    disk: MemDisk,
    wanted: &[u8],
) -> Result<MemDisk, Fail> {
    let (disk, text) = done(rt, alloc, script, disk)?;
    assert_eq!(rt; text.as_slice().strip_prefix(first), Some(wanted));
    Ok(disk)
}

// Asserts what a script prints over a disk whose listed calls fail, behind some first lines, and what a later run finds.
fn assert_doubt<R: Threads + Wait + Sync + Abort>(
    rt: &R,
    alloc: Global,
    (script, first, look): (&[u8], &[u8], &[u8]),
    (fails, wanted, later): Doubt,
) -> Result<(), Fail> {
    let disk = small_disk(alloc, 2, fails)?;
    let disk = behind(rt, alloc, (script, first), disk, wanted)?;
    assert_prints(rt, alloc, look, disk, later)
}

#[test]
fn a_row_in_doubt_lands_before_an_advance(rt: HostRuntime) -> Result<(), Fail> {
    let first = b"1 1 record: rope 1 length 20\n".as_slice();
    for row in RETAINS {
        assert_doubt(&rt, rt.alloc(), (RETAIN, first, b"1 lookup held k\n"), *row)?;
    }
    Ok(())
}

// The recording takes each block. It makes the calls 9 to 13, the advance 14 to 17, and the sweep 18 to 21.
const SWEEP: &[u8] =
    b"1 record z128\n1 advance 60\n1 sweep 9\n1 length 1\n1 record z1\n1 record z1\n1 length 1\n";

const GONE: &[u8] = b"1 1 length: no unknown-rope 1\n";

const KEPT: &[u8] = b"1 1 length: number 128\n";

// The calls that fail, what is printed from the sweep on, and what a later run finds of rope 1.
const SWEEPS: &[Doubt] = &[
    (
        &[21],
        b"3 1 sweep: no in-doubt\n4 1 length: number 128\n5 0 landed: done\n6 1 record: rope 2 length 1\n7 1 record: rope 3 length 1\n8 1 length: no unknown-rope 1\n",
        GONE,
    ),
    (
        &[20],
        b"3 1 sweep: no in-doubt\n4 1 length: number 128\n5 0 landed: done\n6 1 record: rope 2 length 1\n7 1 record: rope 3 length 1\n8 1 length: no unknown-rope 1\n",
        GONE,
    ),
    (
        &[20, 21],
        b"3 1 sweep: no in-doubt\n4 1 length: number 128\n5 1 record: no disk-fault\n6 0 landed: done\n7 1 record: rope 2 length 1\n8 1 length: no unknown-rope 1\n",
        GONE,
    ),
    (
        &[20, 21, 22],
        b"3 1 sweep: no in-doubt\n4 1 length: number 128\n5 1 record: no disk-fault\n6 1 record: no disk-fault\n7 1 length: number 128\n",
        KEPT,
    ),
    (
        &[19],
        b"3 1 sweep: no disk-fault\n4 1 length: number 128\n5 1 record: no no-room 1 0\n6 1 record: no no-room 1 0\n7 1 length: number 128\n",
        KEPT,
    ),
];

#[test]
fn a_sweep_in_doubt_lands_before_a_recording(rt: HostRuntime) -> Result<(), Fail> {
    let first = b"1 1 record: rope 1 length 128\n2 1 advance: done\n".as_slice();
    for row in SWEEPS {
        assert_doubt(&rt, rt.alloc(), (SWEEP, first, b"1 length 1\n"), *row)?;
    }
    Ok(())
}

fn no_tapes(alloc: Global) -> Result<Arc<Tapes, Global>, Fail> {
    match Arc::new(alloc, Tapes::new(Vec::new(alloc))) {
        Ok(tapes) => Ok(tapes),
        Err(_) => Err(Fail::new("no memory")),
    }
}

// A disk with a call that fails, whose blocks are all in use by a rope that is due.
fn crowded<R: Threads + Wait + Sync>(rt: &R, alloc: Global, fails: u64) -> Result<MemDisk, Fail> {
    let disk = small_disk(alloc, 2, &[fails])?;
    let script = b"1 record z128\n1 advance 60\n";
    let (ended, _) = run_script(rt, alloc, script, disk)?;
    Ok(ended.disk)
}

// Whether a sweep is in doubt.
fn is_sweep_in_doubt(store: &mut Store<MemDisk>) -> Result<bool, Fail> {
    let reply = store.apply(1, Call::Sweep(9))?;
    Ok(matches!(&reply, Reply::No(Why::InDoubt)))
}

// Whether an advance to the moment that stands is done.
fn is_advance_done(store: &mut Store<MemDisk>) -> Result<bool, Fail> {
    let reply = store.apply(1, Call::Advance(Moment(60)))?;
    Ok(matches!(&reply, Reply::Done))
}

// Asserts that a sweep is in doubt, that an advance lands it, and that just then its blocks are free.
fn assert_landing(rt: &impl Abort, store: &mut Store<MemDisk>) -> Result<(), Fail> {
    let before = store.free();
    let in_doubt = is_sweep_in_doubt(store)?;
    let meanwhile = store.free();
    let done = is_advance_done(store)?;
    let free = (before, meanwhile, store.free());
    assert!(rt; in_doubt && done);
    assert_eq!(rt; free, (0, 0, 16));
    assert_eq!(rt; store.history().len(), 3);
    Ok(())
}

// Asserts it of the store of a crowded disk with a call that fails.
fn assert_landing_behind<R: Threads + Wait + Sync + Abort>(
    rt: &R,
    alloc: Global,
    fails: u64,
) -> Result<(), Fail> {
    let tapes = no_tapes(alloc)?;
    let disk = crowded(rt, alloc, fails)?;
    match Store::open(alloc, disk, tapes) {
        Ok(mut store) => {
            let landed = assert_landing(rt, &mut store);
            let _handed_back = store.close();
            landed
        }
        Err(_) => Err(Fail::new("the disk is refused")),
    }
}

// The second opening makes the calls 18 to 22, and the sweep 23 to 26.
#[test]
fn blocks_are_free_once_the_sweep_has_landed(rt: HostRuntime) -> Result<(), Fail> {
    for fails in [25, 26] {
        assert_landing_behind(&rt, rt.alloc(), fails)?;
    }
    Ok(())
}

// The first 35 advances make the calls up to 148, the second opening 149 to 153, and the switch 154 to 157.
const SWITCH: &[u8] = b"1 advance 36\n1 advance 0\n1 advance 37\n";

// The call that fails, what is printed, and what is left of the second area then. Where the switch is in doubt it lands before an advance that changes nothing.
const SWITCHES: &[(u64, &[u8], u64)] = &[
    (
        154,
        b"1 1 advance: no disk-fault\n2 1 advance: done\n3 1 advance: done\n",
        473,
    ),
    (
        155,
        b"1 1 advance: no disk-fault\n2 1 advance: done\n3 1 advance: done\n",
        473,
    ),
    (
        156,
        b"1 1 advance: no in-doubt\n2 0 landed: done\n3 1 advance: done\n4 1 advance: done\n",
        459,
    ),
    (
        157,
        b"1 1 advance: no in-doubt\n2 0 landed: done\n3 1 advance: done\n4 1 advance: done\n",
        459,
    ),
];

// Asserts what the switch prints, and what stands then.
fn assert_switch<R: Threads + Wait + Sync + Abort>(
    rt: &R,
    alloc: Global,
    (call, wanted, left): (u64, &[u8], u64),
) -> Result<(), Fail> {
    let disk = small_disk(alloc, 2, &[call])?;
    let disk = advanced(rt, alloc, disk, 1, 35)?;
    let mut disk = printed(rt, alloc, SWITCH, disk, wanted)?;
    let wanted = Standing {
        epoch: 2,
        left,
        form: 2,
        moment: 37,
    };
    assert_standing(rt, alloc, &mut disk, wanted)
}

#[test]
fn a_switch_in_doubt_lands(rt: HostRuntime) -> Result<(), Fail> {
    for row in SWITCHES {
        assert_switch(&rt, rt.alloc(), *row)?;
    }
    Ok(())
}
