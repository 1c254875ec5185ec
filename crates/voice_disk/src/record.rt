//! The calls that a disk in memory keeps.

ghost use Rattle.std.specs.Prelude.{◌≡◌, ◌+◌, ◌≤◌, [], ◌∷◌, ◌++◌, length, OnOk, OnErr, replicate, vec_len};
ghost use Rattle.std.specs.Vec.{vec_capacity};
ghost use Rattle.voice_disk.specs.Bytes.{over};

use std::alloc::{AllocError, Global};

/// A call that was made, and whether it was done.
#[derive(Drop)]
pub enum Made {
    Read(bool),
    Write(u64, Vec<u8>, bool),
    Sync(bool),
}

/// A call and its number, from 1.
#[derive(Drop)]
pub struct Entry {
    pub number: u64,
    pub made: Made,
}

// Puts bytes over those that are there, as far as these go.
pub fn put_over(bytes: &mut [u8], at: u64, from: &[u8])
    ensures { bytes.new ≡ over bytes.old at from.now }
{
    let start = bytes.len().min(at as usize);
    let room = bytes.len() - start;
    let n = room.min(from.len());
    bytes[start..start + n].copy_from_slice(&from[..n]);
}

// Puts n times the same byte over those that are there, as far as these go.
pub fn fill_over(bytes: &mut [u8], at: u64, n: usize, byte: u8)
    ensures { bytes.new ≡ over bytes.old at (replicate n byte) }
{
    let start = bytes.len().min(at as usize);
    let room = bytes.len() - start;
    let n = room.min(n);
    bytes[start..start + n].fill(byte);
}

// Keeps a write.
pub fn keep_write(
    alloc: Global,
    log: &mut Vec<Entry>,
    number: u64,
    at: u64,
    bytes: &[u8],
    done: bool,
) -> Result<(), AllocError>
    ensures ok { OnOk result ((v : _) × (v.items ≡ bytes.now)
        × (log.new.items ≡ log.old.items ++ record { number = number; made = Made.Write at v done } ∷ [])) }
    ensures err { OnErr result (log.new.items ≡ log.old.items) }
{
    let copy = bytes.to_vec(alloc)?;
    log.push(Entry {
        number,
        made: Made::Write(at, copy, done),
    })?;
    Ok(())
}

// Keeps another call.
pub fn keep(log: &mut Vec<Entry>, number: u64, made: Made) -> Result<(), AllocError>
    ensures ok { OnOk result (log.new.items ≡ log.old.items ++ record { number = number; made = made } ∷ []) }
    ensures err { OnErr result (log.new.items ≡ log.old.items) }
    ensures full { OnErr result (vec_capacity log.old ≤ vec_len log.old) }
{
    log.push(Entry { number, made })?;
    Ok(())
}
