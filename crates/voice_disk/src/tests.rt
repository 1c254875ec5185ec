use crate::{FileDisk, FuseDisk, MemDisk, image_of};
use std::process::Abort;
use std::rt::Files;
use std::{fs, io};
use voice_outside::Disk;
use voice_units::{Name, NoMemory};

fn put<D: Disk>(rt: &impl Abort, disk: &mut D, at: u64, bytes: &[u8]) -> bool {
    let size = disk.size();
    assert!(rt; at <= size && bytes.len() as u64 <= size - at);
    disk.write(at, bytes).is_ok()
}

fn reads<D: Disk>(rt: &impl Abort, disk: &mut D, at: u64, wanted: &[u8; 5]) -> bool {
    let size = disk.size();
    assert!(rt; at <= size && 5 <= size - at);
    let mut found = [0xee; 5];
    disk.read(at, &mut found).is_ok() && found == *wanted
}

// A write that is synced, one that isn't, and one that fails. At each moment the write that comes next may have begun.
#[test]
fn images_around_a_write(rt: HostRuntime) -> Result<(), NoMemory> {
    let bytes = Vec::from_slice(rt.alloc(), &[10, 11, 12, 13, 14, 15])?;
    let fails = Vec::from_slice(rt.alloc(), &[4])?;
    let mut disk = MemDisk::of(rt.alloc(), bytes, fails)?;
    assert!(rt; put(&rt, &mut disk, 1, &[21, 22]));
    assert!(rt; disk.sync().is_ok());
    assert!(rt; put(&rt, &mut disk, 2, &[32, 33]));
    assert!(rt; !put(&rt, &mut disk, 4, &[44]));
    assert!(rt; disk.calls() == 4);
    assert!(rt; disk.starved() == 0);
    let rows = [
        (0, 0, [10u8, 11, 12, 13, 14, 15]),
        (0, 1, [10, 21, 22, 13, 14, 15]),
        (0, 7, [10, 7, 7, 13, 14, 15]),
        (1, 0, [10, 11, 12, 13, 14, 15]),
        (1, 1, [10, 21, 22, 13, 14, 15]),
        (1, 7, [10, 7, 7, 13, 14, 15]),
        (2, 0, [10, 21, 22, 13, 14, 15]),
        (2, 1, [10, 21, 32, 33, 14, 15]),
        (2, 7, [10, 21, 7, 7, 14, 15]),
        (3, 0, [10, 21, 22, 13, 14, 15]),
        (3, 1, [10, 21, 32, 33, 14, 15]),
        (3, 7, [10, 21, 7, 7, 7, 15]),
        (4, 0, [10, 21, 22, 13, 14, 15]),
        (4, 1, [10, 21, 32, 33, 14, 15]),
        (4, 7, [10, 21, 7, 7, 7, 15]),
        (4, 519, [10, 21, 7, 7, 7, 15]),
    ];
    for (moment, choice, wanted) in rows {
        assert!(rt; moment <= disk.calls());
        let image = image_of(rt.alloc(), &disk, moment, choice)?;
        assert!(rt;
            image.as_slice() == wanted.as_slice(),
            "moment {moment} choice {choice}"
        );
    }
    assert!(rt; reads(&rt, &mut disk, 0, &[10, 21, 32, 33, 14]));
    Ok(())
}

#[test]
fn a_fuse_passes_so_many_calls(rt: HostRuntime) -> Result<(), NoMemory> {
    let disk = MemDisk::new(rt.alloc(), 8, Vec::new(rt.alloc()))?;
    let mut disk = FuseDisk::new(disk, 2);
    assert!(rt; put(&rt, &mut disk, 1, &[1, 2]));
    assert!(rt; disk.sync().is_ok());
    assert!(rt; !put(&rt, &mut disk, 1, &[3, 4]));
    assert!(rt; disk.sync().is_err());
    assert!(rt; disk.calls() == 4);
    let mut disk = disk.into_inner();
    assert!(rt; disk.calls() == 2);
    assert!(rt; reads(&rt, &mut disk, 0, &[0, 1, 2, 0, 0]));
    Ok(())
}

fn opened<R: Files<File = fs::File> + Abort>(
    rt: &R,
    name: &[u8],
    size: u64,
    wanted: u64,
) -> FileDisk {
    let Ok(name) = Name::new(name) else {
        panic!(rt; "no name");
    };
    let Ok(disk) = FileDisk::open_or_make(rt, &name, size) else {
        panic!(rt; "not opened");
    };
    assert!(rt; disk.size() == wanted);
    disk
}

#[test]
fn a_file_keeps_its_bytes_and_its_length(rt: HostRuntime) -> io::Result<()> {
    let _removed = fs::remove_file(&rt, "voice_disk_test");
    let mut disk = opened(&rt, b"voice_disk_test", 64, 64);
    assert!(rt; put(&rt, &mut disk, 10, &[1, 2, 3]));
    assert!(rt; disk.sync().is_ok());
    assert!(rt; disk.calls() == 2);
    drop(disk);
    let mut disk = opened(&rt, b"voice_disk_test", 128, 64);
    assert!(rt; reads(&rt, &mut disk, 9, &[0, 1, 2, 3, 0]));
    // the file ends before the range
    fs::write(&rt, "voice_disk_test", &[])?;
    assert!(rt; !reads(&rt, &mut disk, 9, &[0, 1, 2, 3, 0]));
    drop(disk);
    let disk = opened(&rt, b"voice_disk_test", 128, 0);
    assert!(rt; disk.calls() == 0);
    fs::remove_file(&rt, "voice_disk_test")
}

fn named<R: Abort>(rt: &R, name: &[u8]) -> Name {
    let Ok(name) = Name::new(name) else {
        panic!(rt; "no name");
    };
    name
}

fn made<R: Files<File = fs::File> + Abort>(rt: &R, name: &Name, size: u64) -> FileDisk {
    let Ok(disk) = FileDisk::make(rt, name, size) else {
        panic!(rt; "not made");
    };
    assert!(rt; disk.size() == size);
    disk
}

fn is_absent<R: Files<File = fs::File>>(rt: &R, name: &Name) -> bool {
    matches!(FileDisk::open(rt, name), Ok(None))
}

// A disk has one owner at a time, under both of its names, and a name that a file has is given to no other.
#[test]
fn a_disk_is_made_under_one_name_and_gets_another(rt: HostRuntime) -> io::Result<()> {
    let _removed = fs::remove_file(&rt, "voice_disk_first");
    let _removed = fs::remove_file(&rt, "voice_disk_then");
    let first = named(&rt, b"voice_disk_first");
    let then = named(&rt, b"voice_disk_then");
    assert!(rt; is_absent(&rt, &first));
    // what a birth that was cut off leaves is cleared
    fs::write(&rt, "voice_disk_first", b"left over")?;
    let mut disk = made(&rt, &first, 5);
    assert!(rt; reads(&rt, &mut disk, 0, &[0; 5]));
    assert!(rt; FileDisk::make(&rt, &first, 5).is_err());
    assert!(rt; FileDisk::open(&rt, &first).is_err());
    assert!(rt; put(&rt, &mut disk, 1, &[1, 2]));
    // the name is taken
    fs::write(&rt, "voice_disk_then", b"other")?;
    assert!(rt; disk.take_name(&rt, &first, &then).is_err());
    assert!(rt; fs::metadata(&rt, "voice_disk_then")?.len() == 5);
    fs::remove_file(&rt, "voice_disk_then")?;
    assert!(rt; disk.take_name(&rt, &first, &then).is_ok());
    assert!(rt; is_absent(&rt, &first));
    assert!(rt; FileDisk::open(&rt, &then).is_err());
    let Ok(mut twin) = disk.try_clone() else {
        panic!(rt; "no clone");
    };
    drop(disk);
    assert!(rt; FileDisk::open(&rt, &then).is_err());
    assert!(rt; reads(&rt, &mut twin, 0, &[0, 1, 2, 0, 0]));
    drop(twin);
    ends(&rt, &first, &then)
}

// A disk with two names, as a program that was killed leaves it, is cleared under neither, and keeps the second.
fn ends<R: Files<File = fs::File> + Abort>(rt: &R, first: &Name, then: &Name) -> io::Result<()> {
    fs::hard_link(rt, "voice_disk_then", "voice_disk_first")?;
    assert!(rt; FileDisk::make(rt, first, 5).is_err());
    let Ok(Some(mut disk)) = FileDisk::open(rt, then) else {
        panic!(rt; "not found");
    };
    assert!(rt; reads(rt, &mut disk, 0, &[0, 1, 2, 0, 0]));
    disk.drop_name(rt, first);
    disk.drop_name(rt, then);
    assert!(rt; is_absent(rt, first));
    disk.discard(rt, then);
    assert!(rt; is_absent(rt, then));
    Ok(())
}
