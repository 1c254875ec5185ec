//! Blocks on a disk.

use crate::steps::{bytes_of, disk_of, fits, part, small};
use std::test::Fail;
use voice_blocks::{read_block, write_block, write_blocks};
use voice_outside::Disk;
use voice_units::Shape;

fn write<D: Disk>(shape: &Shape, disk: &mut D, address: u32, bytes: &[u8]) -> bool {
    if !fits(disk, shape) || address >= shape.blocks || bytes.len() != shape.block as usize {
        return false;
    }
    write_block(shape, disk, address, bytes).is_ok()
}

fn write_run<D: Disk>(shape: &Shape, disk: &mut D, address: u32, bytes: &[u8; 24]) -> bool {
    if !fits(disk, shape) || shape.block != 8 || shape.blocks != 16 || address > 13 {
        return false;
    }
    write_blocks(shape, disk, address, bytes).is_ok()
}

fn reads<D: Disk>(shape: &Shape, disk: &mut D, address: u32, wanted: &[u8; 8]) -> bool {
    if !fits(disk, shape) || address >= shape.blocks || shape.block != 8 {
        return false;
    }
    let mut found = [0xee; 8];
    read_block(shape, disk, address, &mut found).is_ok() && found == *wanted
}

// The first block stands at byte 1,088.
#[test]
fn blocks_are_written_and_read(rt: HostRuntime) -> Result<(), Fail> {
    let mut disk = disk_of(rt.alloc(), 0xff, &[])?;
    let Some(shape) = small(1, disk.size()) else {
        panic!(rt; "no shape");
    };
    assert!(rt; write(&shape, &mut disk, 0, b"ABCDEFGH"));
    assert!(rt; disk.calls() == 1);
    assert!(rt; write_run(&shape, &mut disk, 13, b"IJKLMNOPQRSTUVWXYZabcdef"));
    assert!(rt; disk.calls() == 2);
    assert!(rt; !write(&shape, &mut disk, 16, b"ABCDEFGH"));
    let rows: [(u32, &[u8; 8]); 6] = [
        (0, b"ABCDEFGH"),
        (1, &[0xff; 8]),
        (12, &[0xff; 8]),
        (13, b"IJKLMNOP"),
        (14, b"QRSTUVWX"),
        (15, b"YZabcdef"),
    ];
    for (address, wanted) in rows {
        assert!(rt;
            reads(&shape, &mut disk, address, wanted),
            "block {address}"
        );
    }
    assert!(rt; disk.calls() == 8);
    let bytes = bytes_of(rt.alloc(), &disk)?;
    assert!(rt; part(&bytes, 1087, 1097) == b"\xffABCDEFGH\xff".as_slice());
    assert!(rt; part(&bytes, 1191, 1217) == b"\xffIJKLMNOPQRSTUVWXYZabcdef\xff".as_slice());
    Ok(())
}
