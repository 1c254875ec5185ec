//! A disk that was just formatted.

use crate::steps::{Did, bytes_of, disk_of, format, opens, part, small};
use std::test::Fail;
use voice_disk::MemDisk;
use voice_outside::Disk;

// The superblock of the small shape in each version.
const FIRST: [u8; 64] = [
    0x56, 0x4f, 0x49, 0x43, 0x44, 0x49, 0x53, 0x4b, 0, 0, 0, 1, 0, 0, 0, 8, 0, 0, 0, 16, 0, 0, 2,
    0, 0, 0, 0, 60, 0, 4, 0, 0, 0, 0, 0, 0, 0, 0, 0, 0, 0, 0, 0, 0, 0, 0, 0, 0, 0, 0, 0, 0, 0, 0,
    0, 0, 0, 0, 0, 0, 0, 0, 0, 0,
];

const SECOND: [u8; 64] = [
    0x56, 0x4f, 0x49, 0x43, 0x44, 0x49, 0x53, 0x4b, 0, 0, 0, 2, 0, 0, 0, 8, 0, 0, 0, 16, 0, 0, 2,
    0, 0, 0, 0, 60, 0, 4, 0, 0, 0, 60, 0, 0, 0, 60, 0, 0, 0, 60, 0, 0, 0, 0, 0, 0, 0, 0, 0, 0, 0,
    0, 0, 0, 0, 0, 0, 0, 0, 0, 0, 0,
];

#[test]
fn a_new_disk_is_spelled(rt: HostRuntime) -> Result<(), Fail> {
    for (version, superblock) in [(1, FIRST), (2, SECOND)] {
        let mut disk = disk_of(rt.alloc(), 0xff, &[])?;
        assert!(rt; format(&mut disk, version) == Did::Done);
        assert!(rt; disk.calls() == 3 && disk.starved() == 0);
        let bytes = bytes_of(rt.alloc(), &disk)?;
        assert!(rt;
            part(&bytes, 0, 64) == superblock.as_slice(),
            "version {version}"
        );
        let head = [1, 0, 0, 0, 0, 0, 0, 0, 0, 0, 0, 0, 0, 0, 0, 1, 0];
        assert!(rt; part(&bytes, 64, 81) == head.as_slice());
        assert!(rt; part(&bytes, 576, 592) == [0; 16].as_slice());
        assert!(rt; part(&bytes, 81, 576) == [0xff; 495].as_slice());
        assert!(rt; part(&bytes, 592, 4096) == [0xff; 3504].as_slice());
        assert!(rt; opens(rt.alloc(), &mut disk, &[])?);
    }
    Ok(())
}

#[test]
fn a_failing_call_fails_the_format(rt: HostRuntime) -> Result<(), Fail> {
    for call in 1..=3 {
        let mut disk = disk_of(rt.alloc(), 0, &[call])?;
        assert!(rt; format(&mut disk, 1) == Did::Failed, "call {call}");
        assert!(rt; format(&mut disk, 1) == Did::Done, "again after {call}");
        assert!(rt; opens(rt.alloc(), &mut disk, &[])?);
    }
    Ok(())
}

// 64 bytes, two areas of 512 and 16 blocks of 8.
#[test]
fn the_shape_has_to_fit(rt: HostRuntime) -> Result<(), Fail> {
    for (size, wanted) in [(1215, Did::Unfit), (1216, Did::Done)] {
        let mut disk = MemDisk::new(rt.alloc(), size, Vec::new(rt.alloc()))?;
        assert!(rt; format(&mut disk, 2) == wanted, "size {size}");
    }
    assert!(rt; small(3, 4096).is_none());
    Ok(())
}
