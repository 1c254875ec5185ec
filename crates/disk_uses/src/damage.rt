//! Disks that are damaged, as far as the superblock, the heads and the lengths of records go.

use crate::steps::{Did, bytes_of, change, disk_of, format};
use std::alloc::Global;
use std::test::Fail;
use voice_disk::MemDisk;
use voice_journal::{Journal, OpenError};
use voice_units::NoMemory;

// Why a disk of these bytes doesn't open, if so.
fn refusal_of(alloc: Global, bytes: Vec<u8>) -> Result<Option<OpenError>, NoMemory> {
    let mut disk = MemDisk::of(alloc, bytes, Vec::new(alloc))?;
    Ok(Journal::open(alloc, &mut disk).err())
}

#[test]
fn a_changed_byte_is_found(rt: HostRuntime) -> Result<(), Fail> {
    let mut disk = disk_of(rt.alloc(), 0, &[])?;
    assert!(rt; format(&mut disk, 1) == Did::Done);
    let rows: [(usize, &[u8], Option<u64>); 16] = [
        (0, &[0x56], None),
        (0, &[0], Some(0)),
        (8, &[0, 0, 0, 3], Some(8)),
        (12, &[0, 0, 0, 12], Some(12)),
        (16, &[0, 0, 0xff, 0xff], Some(12)),
        (63, &[1], Some(30)),
        (64, &[0], Some(64)),
        (65, &[1, 2, 3, 4, 5, 6, 7], None),
        (72, &[0, 0, 0, 0, 0, 0, 0, 0], Some(64)),
        (72, &[0, 1, 0, 0, 0, 0, 0, 1], Some(64)),
        (
            576,
            &[1, 0, 0, 0, 0, 0, 0, 0, 0, 0, 0, 0, 0, 0, 0, 1],
            Some(64),
        ),
        (80, &[1, 0, 0, 1, 0xea], None),
        (80, &[1, 0, 0, 1, 0xeb], Some(80)),
        (80, &[7, 0, 0, 1, 0xeb], None),
        (
            80,
            &[1, 0, 0, 0, 1, 0x63, 1, 0xff, 0xff, 0xff, 0xff],
            Some(86),
        ),
        (1088, &[0xff; 8], None),
    ];
    for (at, from, wanted) in rows {
        let mut bytes = bytes_of(rt.alloc(), &disk)?;
        assert!(rt; change(&mut bytes, at, from));
        let found = refusal_of(rt.alloc(), bytes)?;
        assert!(rt;
            found == wanted.map(OpenError::BadDisk),
            "at {at}: {found:?}"
        );
    }
    Ok(())
}

#[test]
fn a_disk_without_a_journal(rt: HostRuntime) -> Result<(), Fail> {
    for size in [0, 63, 64, 4096] {
        let bytes = vec![in rt.alloc(); 0u8; size]?;
        let found = refusal_of(rt.alloc(), bytes)?;
        assert!(rt; found == Some(OpenError::BadDisk(0)), "size {size}");
    }
    Ok(())
}
