//! Calls of a disk, made bare.

use std::io::{self, ErrorKind};
use voice_outside::Disk;

/// Writes, where the disk reaches so far.
pub fn write<D: Disk>(disk: &mut D, at: u64, bytes: &[u8]) -> io::Result<()> {
    let size = disk.size();
    if at > size || bytes.len() as u64 > size - at {
        return Err(io::Error::from(ErrorKind::InvalidInput));
    }
    if disk.write(at, bytes).is_err() {
        return Err(io::Error::from(ErrorKind::InvalidData));
    }
    Ok(())
}

/// Makes what was written last.
pub fn sync<D: Disk>(disk: &mut D) -> io::Result<()> {
    if disk.sync().is_err() {
        return Err(io::Error::from(ErrorKind::InvalidData));
    }
    Ok(())
}

/// Reads, where the disk reaches so far.
pub fn read<D: Disk>(disk: &mut D, at: u64, into: &mut [u8]) -> io::Result<()> {
    let size = disk.size();
    if at > size || into.len() as u64 > size - at {
        return Err(io::Error::from(ErrorKind::InvalidInput));
    }
    if disk.read(at, into).is_err() {
        return Err(io::Error::from(ErrorKind::InvalidData));
    }
    Ok(())
}

/// The four calls of an append: what stands behind a gate, and then the gate.
pub fn append<D: Disk>(disk: &mut D, gate: u64, frame: &[u8]) -> io::Result<()> {
    write(disk, gate.saturating_add(1), frame)?;
    sync(disk)?;
    write(disk, gate, &[1])?;
    sync(disk)
}
