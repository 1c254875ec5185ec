//! A journal in a real file.

use crate::steps::{Did, append, format, has, opens, payloads_of, switch};
use std::fs::{self, File};
use std::process::Abort;
use std::rt::Files;
use std::test::Fail;
use voice_disk::FileDisk;
use voice_journal::Journal;
use voice_outside::Disk;
use voice_units::Name;

fn disk_in<R: Files<File = File> + Abort>(rt: &R, name: &[u8]) -> FileDisk {
    let Ok(name) = Name::new(name) else {
        panic!(rt; "no name");
    };
    let Ok(disk) = FileDisk::open_or_make(rt, &name, 4096) else {
        panic!(rt; "not opened");
    };
    assert!(rt; disk.size() == 4096);
    disk
}

#[test]
fn a_file_keeps_the_journal(rt: HostRuntime) -> Result<(), Fail> {
    let _removed = fs::remove_file(&rt, "disk_uses_test");
    let mut disk = disk_in(&rt, b"disk_uses_test");
    assert!(rt; format(&mut disk, 2) == Did::Done);
    let mut opened = Journal::open(rt.alloc(), &mut disk)?;
    assert!(rt; has(&opened, &[]));
    assert!(rt; append(&mut disk, &mut opened.journal, &[7, 8, 9]) == Did::Done);
    assert!(rt; append(&mut disk, &mut opened.journal, &[]) == Did::Done);
    drop(disk);
    let mut disk = disk_in(&rt, b"disk_uses_test");
    let mut opened = Journal::open(rt.alloc(), &mut disk)?;
    assert!(rt; has(&opened, &[&[7, 8, 9], &[]]));
    let payloads = payloads_of(rt.alloc(), &[4, 5])?;
    assert!(rt; switch(&mut disk, &mut opened.journal, &payloads) == Did::Done);
    drop(disk);
    let mut disk = disk_in(&rt, b"disk_uses_test");
    assert!(rt; opens(rt.alloc(), &mut disk, &[&[4], &[5]])?);
    drop(disk);
    fs::remove_file(&rt, "disk_uses_test")?;
    Ok(())
}
