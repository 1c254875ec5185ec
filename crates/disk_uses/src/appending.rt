//! Appends, their faults, and what a crash leaves of them.

use crate::steps::{Did, append, bytes_of, disk_of, format, has, land, opens, part};
use std::alloc::Global;
use std::test::Fail;
use voice_disk::{MemDisk, image_of};
use voice_journal::{Journal, OpenError};
use voice_outside::Disk;

// The change that advances to moment 60.
const ADVANCED: [u8; 9] = [7, 0, 0, 0, 0, 0, 0, 0, 60];

// Whether a disk opens with the record, or without.
fn opens_so(alloc: Global, disk: &mut MemDisk, is_there: bool) -> Result<bool, OpenError> {
    if is_there {
        return opens(alloc, disk, &[&ADVANCED]);
    }
    opens(alloc, disk, &[])
}

#[test]
fn a_record_is_spelled(rt: HostRuntime) -> Result<(), Fail> {
    let mut disk = disk_of(rt.alloc(), 0, &[])?;
    assert!(rt; format(&mut disk, 1) == Did::Done);
    let mut opened = Journal::open(rt.alloc(), &mut disk)?;
    assert!(rt; has(&opened, &[]));
    assert!(rt; opened.journal.left() == 495 && opened.journal.epoch() == 1);
    assert!(rt; append(&mut disk, &mut opened.journal, &ADVANCED) == Did::Done);
    assert!(rt; opened.journal.left() == 481);
    let bytes = bytes_of(rt.alloc(), &disk)?;
    let record = [1, 0, 0, 0, 9, 7, 0, 0, 0, 0, 0, 0, 0, 60, 0];
    assert!(rt; part(&bytes, 80, 95) == record.as_slice());
    assert!(rt; append(&mut disk, &mut opened.journal, &[5; 477]) == Did::Unfit);
    assert!(rt; append(&mut disk, &mut opened.journal, &[5; 476]) == Did::Done);
    assert!(rt; opened.journal.left() == 0);
    assert!(rt;
        opens(
            rt.alloc(),
            &mut disk,
            &[ADVANCED.as_slice(), [5; 476].as_slice()]
        )?
    );
    Ok(())
}

// The fifth to the eighth call open, and the append makes the next four.
#[test]
fn a_fault_in_an_append(rt: HostRuntime) -> Result<(), Fail> {
    let rows = [
        (9, Did::Before, Did::Unfit),
        (10, Did::Before, Did::Unfit),
        (11, Did::Doubt, Did::Done),
        (12, Did::Doubt, Did::Done),
        (13, Did::Done, Did::Unfit),
    ];
    for (call, appended, landed) in rows {
        let mut disk = disk_of(rt.alloc(), 0, &[call])?;
        assert!(rt; format(&mut disk, 1) == Did::Done);
        let mut opened = Journal::open(rt.alloc(), &mut disk)?;
        assert!(rt; disk.calls() == 8);
        let did = append(&mut disk, &mut opened.journal, &ADVANCED);
        assert!(rt; did == appended, "call {call}");
        assert!(rt; opened.journal.in_doubt() == (appended == Did::Doubt));
        let did = land(&mut disk, &mut opened.journal);
        assert!(rt; did == landed, "landing after call {call}");
        if call == 13 {
            assert!(rt; disk.sync().is_err());
        }
        let is_there = appended != Did::Before;
        assert!(rt; opens_so(rt.alloc(), &mut disk, is_there)?, "call {call}");
    }
    Ok(())
}

// The gate's write is the eleventh call. A crash at moment 10 may come within it; till the sync behind it the gate's byte alone is unsettled.
#[test]
fn a_crash_at_the_gate(rt: HostRuntime) -> Result<(), Fail> {
    let mut disk = disk_of(rt.alloc(), 0, &[])?;
    assert!(rt; format(&mut disk, 1) == Did::Done);
    let mut opened = Journal::open(rt.alloc(), &mut disk)?;
    assert!(rt; append(&mut disk, &mut opened.journal, &ADVANCED) == Did::Done);
    let rows = [
        (9, 0, false),
        (9, 1, false),
        (9, 7, false),
        (9, 257, false),
        (10, 0, false),
        (10, 1, true),
        (10, 7, false),
        (11, 0, false),
        (11, 1, true),
        (11, 7, false),
        (11, 257, true),
        (12, 0, true),
        (12, 1, true),
        (12, 7, true),
    ];
    for (moment, choice, is_there) in rows {
        assert!(rt; moment <= disk.calls());
        let image = image_of(rt.alloc(), &disk, moment, choice)?;
        let mut left = MemDisk::of(rt.alloc(), image, Vec::new(rt.alloc()))?;
        assert!(rt;
            opens_so(rt.alloc(), &mut left, is_there)?,
            "moment {moment} choice {choice}"
        );
    }
    Ok(())
}
