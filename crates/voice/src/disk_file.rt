//! The disk of the current folder.

use std::fs::File;
use std::rt::Files;
use voice_disk::FileDisk;
use voice_main::Status;
use voice_outside::OutsideError;
use voice_units::Name;

const NAME: &str = "voice.disk";

// What the disk is called until it is formatted. A run that is killed before may leave a file of this name, which the next one that makes a disk takes over.
const UNFINISHED: &str = "voice.disk.unfinished";

// The length of a file that is made.
const SIZE: u64 = 67_108_864;

fn name_of(text: &str) -> Result<Name, Status> {
    match Name::new(text.as_bytes()) {
        Ok(name) => Ok(name),
        Err(_) => Err(Status::NoMemory),
    }
}

fn status_of(e: OutsideError) -> Status {
    match e {
        OutsideError::Failed => Status::DiskFault,
        OutsideError::NoMemory => Status::NoMemory,
    }
}

/// The disk that is there, for this program alone; `None` where no file has its name.
pub fn find<R: Files<File = File>>(rt: &R) -> Result<Option<FileDisk>, Status> {
    let name = name_of(NAME)?;
    let unfinished = name_of(UNFINISHED)?;
    match FileDisk::open(rt, &name) {
        Ok(Some(disk)) => {
            disk.drop_name(rt, &unfinished);
            Ok(Some(disk))
        }
        Ok(None) => Ok(None),
        Err(e) => Err(status_of(e)),
    }
}

/// A disk of zero bytes, under the name that an unfinished one has.
pub fn make<R: Files<File = File>>(rt: &R) -> Result<FileDisk, Status> {
    let unfinished = name_of(UNFINISHED)?;
    match FileDisk::make(rt, &unfinished, SIZE) {
        Ok(disk) => Ok(disk),
        Err(e) => Err(status_of(e)),
    }
}

/// Removes an unfinished disk.
pub fn discard<R: Files<File = File>>(rt: &R, disk: FileDisk) {
    if let Ok(unfinished) = name_of(UNFINISHED) {
        disk.discard(rt, &unfinished);
    }
}

/// Gives a disk that is formatted its name, or discards it.
pub fn finish<R: Files<File = File>>(rt: &R, disk: FileDisk) -> Result<FileDisk, Status> {
    let unfinished = name_of(UNFINISHED)?;
    let name = name_of(NAME)?;
    match disk.take_name(rt, &unfinished, &name) {
        Ok(()) => Ok(disk),
        Err(e) => {
            disk.discard(rt, &unfinished);
            Err(status_of(e))
        }
    }
}
