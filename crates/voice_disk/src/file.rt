//! A disk in a file. It is trusted: no clause says what a real file holds, which names it has, or who holds its lock.

ghost use Rattle.std.specs.Prelude.{ℕ, ◌≡◌, ◌≤◌, ◌<◌, ◌^◌, ◌↔◌, IfSome, IfOk, IfErr, IsErr, false};
ghost use Rattle.voice_outside.specs.Counters.{next_count, HasRisen};

use std::fs::{File, OpenOptions};
use std::io::ErrorKind;
use std::os::unix::fs::{FileExt, MetadataExt};
use std::rt::Files;
use std::{fs, str};
use voice_outside::{Disk, OutsideError};
use voice_units::{Failed, Name};

/// A file of the current folder as a disk, whose size is the file's length. It tells nothing of its bytes. A read that meets the file's end, a write that takes nothing and a sync that isn't done count as faults.
///
/// It holds the file's lock, so that of all programs that open the file as a `FileDisk` one has it at a time. The lock goes with the disk and its clones, and with the program, however that ends.
#[derive(Drop)]
pub struct FileDisk {
    file: File,
    size: u64,
    calls: u64,
    faults: u64,
}

// How many names the file has, where this is one of them and the file is a plain one, else 0. A link to the file is no name of it.
fn names_of<R: Files<File = File>>(rt: &R, path: &str, file: &File) -> u64 {
    let Ok(own) = file.metadata() else {
        return 0;
    };
    let Ok(named) = fs::symlink_metadata(rt, path) else {
        return 0;
    };
    if own.is_file() && named.dev() == own.dev() && named.ino() == own.ino() {
        return own.nlink();
    }
    0
}

// The disk in an open file, once the file is locked.
fn locked(file: File) -> Result<FileDisk, OutsideError>
    ensures calls { IfOk result (λ disk. disk.calls ≡ 0) }
    ensures faults { IfOk result (λ disk. disk.faults ≡ 0) }
    ensures err { IfErr result (λ e. e ≡ OutsideError.Failed) }
{
    if file.try_lock().is_err() {
        return Err(OutsideError::Failed);
    }
    let Ok(metadata) = file.metadata() else {
        return Err(OutsideError::Failed);
    };
    let size = metadata.len();
    Ok(FileDisk {
        file,
        size,
        calls: 0,
        faults: 0,
    })
}

// Whether the file now has so many zero bytes, synced.
fn is_cleared(file: &File, size: u64) -> bool {
    file.set_len(0).is_ok() && file.set_len(size).is_ok() && file.sync_all().is_ok()
}

impl FileDisk {
    /// The disk in the file of that name, with its lock; `None` where no file has the name, and then none is made. The file stays as it is, and its length, 0 too, is the disk's size. `Failed` where another program has the lock, where the file can't be locked, where the system refuses, or the name is no text.
    pub fn open<R: Files<File = File>>(
        rt: &R,
        name: &Name,
    ) -> Result<Option<FileDisk>, OutsideError>
        ensures calls { IfOk result (λ found. IfSome found (λ disk. disk.calls ≡ 0)) }
        ensures faults { IfOk result (λ found. IfSome found (λ disk. disk.faults ≡ 0)) }
        ensures err { IfErr result (λ e. e ≡ OutsideError.Failed) }
    {
        let Ok(path) = str::from_utf8(name.bytes()) else {
            return Err(OutsideError::Failed);
        };
        let opened = OpenOptions::new().read(true).write(true).open(rt, path);
        let file = match opened {
            Ok(file) => file,
            Err(e) if e.kind() == ErrorKind::NotFound => return Ok(None),
            Err(_) => return Err(OutsideError::Failed),
        };
        match locked(file) {
            Ok(disk) => Ok(Some(disk)),
            Err(e) => Err(e),
        }
    }

    /// A disk of `size` zero bytes, up to 2^63 - 1, in a file of that name, with its lock and synced. The file is made where there is none; one that is there is cleared, unless it has another name too. `Failed` where another program has the lock, where the file can't be locked, where the name has come to stand for another file, where the system refuses, which leaves no file, or the name is no text.
    pub fn make<R: Files<File = File>>(
        rt: &R,
        name: &Name,
        size: u64,
    ) -> Result<FileDisk, OutsideError>
        ensures calls { IfOk result (λ disk. disk.calls ≡ 0) }
        ensures faults { IfOk result (λ disk. disk.faults ≡ 0) }
        ensures size { IfOk result (λ disk. disk.size ≡ size) }
        ensures err { IfErr result (λ e. e ≡ OutsideError.Failed) }
    {
        let Ok(path) = str::from_utf8(name.bytes()) else {
            return Err(OutsideError::Failed);
        };
        let opened = OpenOptions::new()
            .read(true)
            .write(true)
            .create(true)
            .open(rt, path);
        let Ok(file) = opened else {
            return Err(OutsideError::Failed);
        };
        let mut disk = match locked(file) {
            Ok(disk) => disk,
            Err(e) => return Err(e),
        };
        // Only now is the file this program's: until it had the lock, another could have given it the name of a disk and ended.
        if names_of(rt, path, &disk.file) != 1 {
            return Err(OutsideError::Failed);
        }
        if !is_cleared(&disk.file, size) {
            let _removed = fs::remove_file(rt, path);
            return Err(OutsideError::Failed);
        }
        disk.size = size;
        Ok(disk)
    }

    /// The disk that `open` finds, or else one that `make` makes under that very name. Of a program that is killed in between a file may stay that is shorter than `size`. `Failed` as theirs.
    pub fn open_or_make<R: Files<File = File>>(
        rt: &R,
        name: &Name,
        size: u64,
    ) -> Result<FileDisk, OutsideError>
        ensures calls { IfOk result (λ disk. disk.calls ≡ 0) }
        ensures faults { IfOk result (λ disk. disk.faults ≡ 0) }
        ensures err { IfErr result (λ e. e ≡ OutsideError.Failed) }
    {
        match FileDisk::open(rt, name) {
            Ok(Some(disk)) => Ok(disk),
            Ok(None) => FileDisk::make(rt, name, size),
            Err(e) => Err(e),
        }
    }

    /// Gives the disk's file the name `to` in place of `from`, its only name. The file is synced before it has the new name, and the folder once it has. No file that has the name `to` is replaced. `Failed` where one has it, where `from` isn't the file's only name, where the system refuses, or a name is no text; where only the folder's sync is refused, the file has the new name all the same.
    pub fn take_name<R: Files<File = File>>(
        &self,
        rt: &R,
        from: &Name,
        to: &Name,
    ) -> Result<(), OutsideError>
        ensures err { IfErr result (λ e. e ≡ OutsideError.Failed) }
    {
        let Ok(from) = str::from_utf8(from.bytes()) else {
            return Err(OutsideError::Failed);
        };
        let Ok(to) = str::from_utf8(to.bytes()) else {
            return Err(OutsideError::Failed);
        };
        let Ok(folder) = fs::open(rt, ".") else {
            return Err(OutsideError::Failed);
        };
        if names_of(rt, from, &self.file) != 1 || self.file.sync_all().is_err() {
            return Err(OutsideError::Failed);
        }
        // A second name is refused where a file has it; a rename would replace that file.
        if fs::hard_link(rt, from, to).is_err() {
            return Err(OutsideError::Failed);
        }
        // Where the old name can't go, `drop_name` may remove it later.
        let _removed = fs::remove_file(rt, from);
        if folder.sync_all().is_err() {
            return Err(OutsideError::Failed);
        }
        Ok(())
    }

    /// Removes the disk's file where it has this name, and lets go of its lock.
    pub fn discard<R: Files<File = File>>(self, rt: &R, name: &Name) {
        let Ok(path) = str::from_utf8(name.bytes()) else {
            return;
        };
        if names_of(rt, path, &self.file) > 0 {
            let _removed = fs::remove_file(rt, path);
        }
    }

    /// Removes this name of the disk's file, where it has the name and another one besides; else it does nothing. A program that was killed as it gave a disk its name may have left the old name too.
    pub fn drop_name<R: Files<File = File>>(&self, rt: &R, name: &Name) {
        let Ok(path) = str::from_utf8(name.bytes()) else {
            return;
        };
        if names_of(rt, path, &self.file) > 1 {
            let _removed = fs::remove_file(rt, path);
        }
    }

    /// Another disk over the same open file, of the same size and under the same lock. Its calls and faults are counted anew. `Failed` where the system refuses.
    pub fn try_clone(&self) -> Result<FileDisk, OutsideError>
        ensures calls { IfOk result (λ disk. disk.calls ≡ 0) }
        ensures faults { IfOk result (λ disk. disk.faults ≡ 0) }
        ensures size { IfOk result (λ disk. disk.size ≡ self.now.size) }
        ensures err { IfErr result (λ e. e ≡ OutsideError.Failed) }
    {
        let Ok(file) = self.file.try_clone() else {
            return Err(OutsideError::Failed);
        };
        Ok(FileDisk {
            file,
            size: self.size,
            calls: 0,
            faults: 0,
        })
    }

    // Counts a call, and a fault where it wasn't done.
    fn count(&mut self, is_done: bool) -> Result<(), Failed>
        ensures size { self.new.size ≡ self.old.size }
        ensures calls { self.new.calls ≡ next_count self.old.calls }
        ensures later { self.old.calls ≤ self.new.calls }
        ensures done { IsErr result ↔ (is_done ≡ false) }
        ensures faults { self.old.faults ≤ self.new.faults }
        ensures rose { IsErr result → HasRisen self.old.faults self.new.faults }
    {
        self.calls = self.calls.saturating_add(1);
        if is_done {
            return Ok(());
        }
        self.faults = self.faults.saturating_add(1);
        Err(Failed)
    }
}

impl Disk for FileDisk {
    ghost use Rattle.voice_disk.specs.Counted.{counts_alone, untold};

    ghost told = { λ d. counts_alone false d.size d.calls d.faults };

    ghost since = { λ d t u image earlier left. left };

    ghost present = { λ d honest. untold honest };

    ghost sized = { λ d t image honest left. absurd (untold honest) };

    fn size(&self) -> u64 {
        self.size
    }

    fn calls(&self) -> u64 {
        self.calls
    }

    fn read(&mut self, at: u64, into: &mut [u8]) -> Result<(), Failed> {
        let is_done = self.calls < u64::MAX && self.file.read_exact_at(into, at).is_ok();
        self.count(is_done)
    }

    fn write(&mut self, at: u64, bytes: &[u8]) -> Result<(), Failed> {
        let is_done = self.calls < u64::MAX && self.file.write_all_at(bytes, at).is_ok();
        self.count(is_done)
    }

    fn sync(&mut self) -> Result<(), Failed> {
        let is_done = self.calls < u64::MAX && self.file.sync_all().is_ok();
        self.count(is_done)
    }
}
