//! Mirrors as they are opened and refused.

use crate::disks::{NARROW, disk_of, formatted, position, put};
use std::alloc::Global;
use std::test::Fail;
use voice_disk::MemDisk;
use voice_mirror::OpenError;

// A record: a number, whether it begins a base, and a moment.
type Numbered = (u64, bool, u64);

// Versions, records behind one another, and what opening comes to. The first gate stands at 80; a record takes 22 bytes, one that begins a base 30.
const TABLE: [(u32, &[Numbered], Result<u64, OpenError>); 12] = [
    (2, &[], Ok(0)),
    (1, &[], Err(OpenError::BadDisk(8))),
    (1, &[(1, false, 5)], Err(OpenError::BadDisk(8))),
    (2, &[(1, false, 5)], Ok(1)),
    (2, &[(1, false, 5), (2, false, 6), (3, false, 7)], Ok(3)),
    (2, &[(0, false, 5)], Err(OpenError::BadDisk(80))),
    (
        2,
        &[(1, false, 5), (3, false, 6)],
        Err(OpenError::BadDisk(102)),
    ),
    (
        2,
        &[(1, false, 5), (1, false, 6)],
        Err(OpenError::BadDisk(102)),
    ),
    (
        2,
        &[(1, false, 6), (2, false, 5)],
        Err(OpenError::BadDisk(102)),
    ),
    (2, &[(7, true, 5), (8, false, 6)], Ok(8)),
    (
        2,
        &[(7, true, 5), (7, false, 6)],
        Err(OpenError::BadDisk(110)),
    ),
    (2, &[(1 << 48, true, 5)], Ok(1 << 48)),
];

// A number and behind it a moment, or the head of a base of form 2 with the moment and 1 as the next rope's number.
fn payload(alloc: Global, (number, begins, moment): Numbered) -> Result<Vec<u8>, Fail> {
    let mut bytes = number.to_be_bytes().to_vec(alloc)?;
    bytes.push(if begins { 12 } else { 7 })?;
    bytes.extend_from_slice(&moment.to_be_bytes())?;
    if begins {
        bytes.extend_from_slice(&[0, 0, 0, 0, 0, 0, 0, 1])?;
    }
    Ok(bytes)
}

// A disk of a version with records.
fn recorded(alloc: Global, version: u32, records: &[Numbered]) -> Result<MemDisk, Fail> {
    let mut payloads = Vec::new(alloc);
    for record in records {
        payloads.push(payload(alloc, *record)?)?;
    }
    let mut disk = formatted(alloc, version, NARROW, &[])?;
    put(alloc, &mut disk, &payloads)?;
    Ok(disk)
}

#[test]
fn a_mirror_opens_at_its_last_number(rt: HostRuntime) -> Result<(), Fail> {
    for (version, records, wanted) in TABLE {
        let disk = recorded(rt.alloc(), version, records)?;
        assert_eq!(rt; position(rt.alloc(), disk), wanted);
    }
    Ok(())
}

// Whatever stands behind the version, and however long the disk is.
#[test]
fn version_1_is_refused_before_all_else(rt: HostRuntime) -> Result<(), Fail> {
    let alloc = rt.alloc();
    let zeros = vec![in alloc; 0u8; 64]?;
    let disk = MemDisk::of(alloc, zeros, Vec::new(alloc))?;
    assert_eq!(rt; position(alloc, disk), Err(OpenError::BadDisk(0)));
    let mut bytes = b"VOICDISK\0\0\0\x01".to_vec(alloc)?;
    bytes.extend_from_slice(&[0; 52])?;
    let disk = MemDisk::of(alloc, bytes, Vec::new(alloc))?;
    assert_eq!(rt; position(alloc, disk), Err(OpenError::BadDisk(8)));
    Ok(())
}

// A format takes 3 calls, and opening 6.
#[test]
fn each_failing_call_is_a_fault(rt: HostRuntime) -> Result<(), Fail> {
    for (call, wanted) in [
        (4, Err(OpenError::DiskFault)),
        (5, Err(OpenError::DiskFault)),
        (6, Err(OpenError::DiskFault)),
        (7, Err(OpenError::DiskFault)),
        (8, Err(OpenError::DiskFault)),
        (9, Err(OpenError::DiskFault)),
        (10, Ok(0)),
    ] {
        let disk = disk_of(rt.alloc(), NARROW, &[call])?;
        assert_eq!(rt; position(rt.alloc(), disk), wanted);
    }
    Ok(())
}
