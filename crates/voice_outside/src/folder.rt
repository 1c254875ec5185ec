//! The current folder as a shelf. It is trusted: no clause says what a real file holds.

ghost use Rattle.std.specs.Prelude.{ℕ, None, ◌≡◌, ◌≤◌};
ghost use Rattle.voice_outside.specs.Counters.{HasRisen};

use crate::errors::OutsideError;
use crate::shelf::Shelf;
use std::io::{ErrorKind, Read};
use std::rt::Files;
use std::{fs, io, str};
use voice_units::Name;

// A file of more bytes counts as a fault.
const MOST_BYTES: usize = 1 << 31;

/// The files of the current folder. It tells nothing of them, and counts its faults. A file of more than 2^31 bytes counts as one.
#[derive(Drop)]
pub struct FolderShelf<'a, R: Files + AllocGlobal> {
    rt: &'a R,
    faults: u64,
}

impl<'a, R: Files + AllocGlobal> FolderShelf<'a, R> {
    /// The shelf of the runtime's current folder.
    pub fn new(rt: &'a R) -> FolderShelf<'a, R> {
        FolderShelf { rt, faults: 0 }
    }

    fn read(&self, name: &Name) -> io::Result<Option<Vec<u8>>> {
        let Ok(path) = str::from_utf8(name.bytes()) else {
            return Err(io::Error::from(ErrorKind::InvalidFilename));
        };
        let mut file = match fs::open(self.rt, path) {
            Ok(file) => file,
            Err(e) if e.kind() == ErrorKind::NotFound => return Ok(None),
            Err(e) => return Err(e),
        };
        let mut bytes = Vec::new(self.rt.alloc());
        let mut buffer = [0u8; 65536];
        for _ in 0..u64::MAX {
            let n = file.read(&mut buffer)?;
            if n == 0 {
                break;
            }
            if n > MOST_BYTES.saturating_sub(bytes.len()) {
                return Err(io::Error::from(ErrorKind::FileTooLarge));
            }
            bytes.extend_from_slice(&buffer[..n])?;
        }
        Ok(Some(bytes))
    }

    // Counts a fault, but for want of memory.
    fn cause(&mut self, e: io::Error) -> OutsideError
        ensures later { self.old.faults ≤ self.new.faults }
        ensures failed { result ≡ OutsideError.Failed → HasRisen self.old.faults self.new.faults }
    {
        if e.kind() == ErrorKind::OutOfMemory {
            return OutsideError::NoMemory;
        }
        self.faults = self.faults.saturating_add(1);
        OutsideError::Failed
    }
}

impl<R: Files + AllocGlobal> Shelf for FolderShelf<'_, R> {
    ghost files = { λ s. None };

    ghost faults = { λ s. s.faults };

    fn get(&mut self, name: &Name) -> Result<Option<Vec<u8>>, OutsideError> {
        match self.read(name) {
            Ok(found) => Ok(found),
            Err(e) => Err(self.cause(e)),
        }
    }

    fn put(&mut self, name: &Name, bytes: &[u8]) -> Result<(), OutsideError> {
        let written = match str::from_utf8(name.bytes()) {
            Ok(path) => fs::write(self.rt, path, bytes),
            Err(_) => Err(io::Error::from(ErrorKind::InvalidFilename)),
        };
        match written {
            Ok(()) => Ok(()),
            Err(e) => Err(self.cause(e)),
        }
    }
}
