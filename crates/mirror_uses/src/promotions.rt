//! Mirrors that are promoted.

use crate::disks::{NARROW, disk_of, position, put};
use std::alloc::Global;
use std::test::Fail;
use voice_disk::MemDisk;
use voice_journal::{Journal, Opened};
use voice_mirror::{Mirror, OpenError, PromoteError};
use voice_outside::Disk;

// The moment 5.
const FIVE: [u8; 9] = [7, 0, 0, 0, 0, 0, 0, 0, 5];

// No mirror's disk: the gate of the first record of area B has no number behind it.
const PLAIN: Result<u64, OpenError> = Err(OpenError::BadDisk(592));

// A recording of 8 samples, which are one block, with the same number as its block's address.
fn recorded(number: u8) -> [u8; 21] {
    [
        11, 0, 0, 0, 0, 0, 0, 0, number, 0, 0, 0, 8, 0, 0, 0, 1, 0, 0, 0, number,
    ]
}

// A number and the change behind it.
fn payload(alloc: Global, number: u8, change: &[u8]) -> Result<Vec<u8>, Fail> {
    let mut bytes = [0, 0, 0, 0, 0, 0, 0, number].to_vec(alloc)?;
    bytes.extend_from_slice(change)?;
    Ok(bytes)
}

// Recordings of these numbers and the moment 5 behind one another, numbered from 1 on.
fn records(alloc: Global, recordings: u8) -> Result<Vec<Vec<u8>>, Fail> {
    let mut payloads = Vec::new(alloc);
    for number in 1..=recordings {
        payloads.push(payload(alloc, number, &recorded(number))?)?;
    }
    payloads.push(payload(alloc, recordings.wrapping_add(1), &FIVE)?)?;
    Ok(payloads)
}

// What the promotion of a mirror with so many recordings answers, and its disk, on which these calls fail. Before the promotion 18 calls are made, and 4 for each recording.
fn promoted(
    alloc: Global,
    recordings: u8,
    fails: &[u64],
) -> Result<(Result<(), PromoteError>, MemDisk), Fail> {
    let mut disk = disk_of(alloc, NARROW, fails)?;
    put(alloc, &mut disk, &records(alloc, recordings)?)?;
    match Mirror::open(alloc, disk) {
        Ok(mirror) => Ok(mirror.promote()),
        Err(_) => Err(Fail::from("no mirror")),
    }
}

// The promotion makes 4 calls. A plain base has no numbers.
#[test]
fn a_voice_disk_has_what_the_mirror_had(rt: HostRuntime) -> Result<(), Fail> {
    let alloc = rt.alloc();
    let (result, mut disk) = promoted(alloc, 1, &[])?;
    assert_eq!(rt; result, Ok(()));
    assert_eq!(rt; disk.calls(), 26);
    let Ok(
        Opened {
            shape,
            payloads,
            ..
        },
    ) = Journal::open(alloc, &mut disk)
    else {
        return Err(Fail::from("no voice disk"));
    };
    let Ok(parts) = recovery::replay(alloc, &shape, &payloads) else {
        return Err(Fail::from("no state"));
    };
    assert_eq!(rt; payloads.len(), 3);
    assert_eq!(rt; parts.moment.number(), 5);
    assert_eq!(rt; parts.next, 2);
    assert_eq!(rt; parts.form, 2);
    assert_eq!(rt; parts.ropes.count(), 1);
    assert_eq!(rt; position(alloc, disk), PLAIN);
    Ok(())
}

// The calls of the promotion are the write of the base and its sync, and those of the gate.
#[test]
fn each_failing_call_is_told(rt: HostRuntime) -> Result<(), Fail> {
    let alloc = rt.alloc();
    for (call, wanted, after) in [
        (19, Err(PromoteError::DiskFault), Ok(1)),
        (20, Err(PromoteError::DiskFault), Ok(1)),
        (21, Err(PromoteError::InDoubt), Ok(1)),
        (22, Err(PromoteError::InDoubt), PLAIN),
    ] {
        let (result, disk) = promoted(alloc, 0, &[call])?;
        assert_eq!(rt; result, wanted);
        assert_eq!(rt; position(alloc, disk), after);
    }
    let (result, disk) = promoted(alloc, 0, &[23])?;
    assert_eq!(rt; result, Ok(()));
    assert_eq!(rt; position(alloc, disk), Err(OpenError::DiskFault));
    Ok(())
}

// 8 recordings take 272 bytes as numbered changes, and 536 in a base with its head of 22.
#[test]
fn a_base_that_an_area_does_not_hold_is_refused(rt: HostRuntime) -> Result<(), Fail> {
    let alloc = rt.alloc();
    let (result, disk) = promoted(alloc, 8, &[])?;
    assert_eq!(rt; result, Err(PromoteError::JournalFull(558, 495)));
    assert_eq!(rt; disk.calls(), 50);
    assert_eq!(rt; position(alloc, disk), Ok(9));
    Ok(())
}
