//! Recordings on a disk.

ghost use Rattle.std.specs.Prelude.{IsTrue};
ghost use Rattle.recording_writer.specs.Wrote.{AreBelow, AreDistinct};

use crate::steps::{bytes_of, change, disk_of, fits, part, small};
use recording_writer::write_samples;
use std::alloc::Global;
use std::test::Fail;
use voice_outside::Disk;
use voice_units::{NoMemory, Shape};

const SAMPLES: &[u8; 24] = b"ABCDEFGHIJKLMNOPQRSTUVWX";

/// Whether these are three addresses of the small shape.
#[tactic(auto, using(crate::proofs::Three::three_distinct, crate::proofs::Three::three_below))]
fn are_three(addresses: &[u32; 3]) -> bool
    ensures below { IsTrue result → AreBelow 16 addresses.now }
    ensures distinct { IsTrue result → AreDistinct addresses.now }
{
    let [first, second, third] = *addresses;
    if first >= 16 || second >= 16 || third >= 16 {
        return false;
    }
    first != second && first != third && second != third
}

/// Writes a recording of 17 to 24 samples into three blocks.
fn write<D: Disk>(shape: &Shape, disk: &mut D, addresses: &[u32; 3], samples: &[u8]) -> bool {
    if !fits(disk, shape) || shape.block != 8 || shape.blocks != 16 {
        return false;
    }
    if samples.len() < 17 || samples.len() > 24 || !are_three(addresses) {
        return false;
    }
    let mut room = [0xee; 8];
    write_samples(shape, disk, addresses, samples, &mut room).is_ok()
}

/// The first block stands at byte 1,088.
fn place_of(address: u32) -> usize {
    1088 + 8 * address as usize
}

/// A disk's bytes with these blocks, and 0xff elsewhere.
fn image_with(
    alloc: Global,
    addresses: &[u32; 3],
    blocks: &[&[u8; 8]],
) -> Result<Vec<u8>, NoMemory> {
    let mut image = vec![in alloc; 0xff; 4096]?;
    for (address, block) in addresses.iter().zip(blocks) {
        let _changed = change(&mut image, place_of(*address), *block);
    }
    Ok(image)
}

/// Whether a recording over a disk whose listed calls fail ends as it should, after so many calls, with these blocks.
fn comes_out(
    alloc: Global,
    fails: &[u64],
    addresses: &[u32; 3],
    count: usize,
    wanted: (bool, u64, &[&[u8; 8]]),
) -> Result<bool, NoMemory> {
    let mut disk = disk_of(alloc, 0xff, fails)?;
    let Some(shape) = small(1, disk.size()) else {
        return Ok(false);
    };
    let done = write(&shape, &mut disk, addresses, part(SAMPLES, 0, count));
    if done != wanted.0 || disk.calls() != wanted.1 {
        return Ok(false);
    }
    let image = image_with(alloc, addresses, wanted.2)?;
    Ok(bytes_of(alloc, &disk)? == image)
}

#[test]
fn runs_go_out_in_one_write(rt: HostRuntime) -> Result<(), Fail> {
    let part = b"QRST\0\0\0\0";
    let lone = b"Q\0\0\0\0\0\0\0";
    let whole = b"QRSTUVWX";
    let rows: [([u32; 3], usize, &[u8; 8], u64); 9] = [
        ([0, 1, 2], 20, part, 2),
        ([5, 6, 9], 20, part, 2),
        ([9, 3, 4], 20, part, 3),
        ([0, 1, 2], 17, lone, 2),
        ([13, 14, 15], 24, whole, 1),
        ([5, 6, 9], 24, whole, 2),
        ([9, 3, 4], 24, whole, 2),
        ([2, 1, 0], 24, whole, 3),
        ([7, 9, 11], 24, whole, 3),
    ];
    for (addresses, count, last, calls) in rows {
        let blocks: [&[u8; 8]; 3] = [b"ABCDEFGH", b"IJKLMNOP", last];
        let wanted = (true, calls, blocks.as_slice());
        assert!(rt;
            comes_out(rt.alloc(), &[], &addresses, count, wanted)?,
            "{calls} calls, {count} samples"
        );
    }
    Ok(())
}

#[test]
fn a_write_that_fails_ends_it(rt: HostRuntime) -> Result<(), Fail> {
    let rows: [(u64, &[&[u8; 8]]); 3] = [
        (1, &[]),
        (2, &[b"ABCDEFGH"]),
        (3, &[b"ABCDEFGH", b"IJKLMNOP"]),
    ];
    for (failing, blocks) in rows {
        let wanted = (false, failing, blocks);
        assert!(rt;
            comes_out(rt.alloc(), &[failing], &[9, 3, 4], 20, wanted)?,
            "call {failing}"
        );
    }
    Ok(())
}
