//! A disk in memory.

ghost use Rattle.std.specs.Prelude.{◌≡◌, ◌≤◌, ◌<◌, ◌-◌, ◌+◌, ◌^◌, reverse, length, replicate, is_err, IfOk, IsTrue, OnErr};
ghost use Rattle.voice_outside.specs.Counters.{faults_after};
ghost use Rattle.voice_disk.specs.Replay.{bytes_after, newest};

use crate::record::{Entry, Made, keep, keep_write, put_over};
use std::alloc::Global;
use voice_outside::Disk;
use voice_units::{Failed, NoMemory};

/// A disk in memory, which keeps a record of its calls, so that an image of each moment can be made. It is honest and tells its bytes. A call fails exactly where its number, from 1, is listed, or the record found no memory, or 2^64 - 1 calls were made; a write that fails changes no byte.
#[derive(Drop)]
pub struct MemDisk {
    alloc: Global,
    pub(crate) first: Vec<u8>,
    bytes: Vec<u8>,
    pub(crate) log: Vec<Entry>,
    fails: Vec<u64>,
    calls: u64,
    faults: u64,
    starved: u64,
    ghost replayed: { bytes.items ≡ bytes_after first.items (reverse log.items) },
    ghost numbered: { newest (reverse log.items) ≤ calls },
    ghost few_starved: { starved ≤ calls },
}

impl MemDisk {
    ghost use Rattle.voice_disk.specs.Memory.{mem_told, IsFresh, listed_calls, starved_calls};

    /// A disk of `size` zero bytes, none of which a crash changes.
    pub fn new(alloc: Global, size: u64, fails: Vec<u64>) -> Result<MemDisk, NoMemory>
        ensures fresh { IfOk result (λ disk. IsFresh (mem_told disk) (replicate size 0)) }
        ensures listed { IfOk result (λ disk. listed_calls disk ≡ fails.items) }
        ensures starved { IfOk result (λ disk. starved_calls disk ≡ 0) }
    {
        let bytes = vec![in alloc; 0u8; size as usize]?;
        MemDisk::of(alloc, bytes, fails)
    }

    /// A disk of these bytes, none of which a crash changes.
    pub fn of(alloc: Global, bytes: Vec<u8>, fails: Vec<u64>) -> Result<MemDisk, NoMemory>
        ensures fresh { IfOk result (λ disk. IsFresh (mem_told disk) bytes.items) }
        ensures listed { IfOk result (λ disk. listed_calls disk ≡ fails.items) }
        ensures starved { IfOk result (λ disk. starved_calls disk ≡ 0) }
    {
        let first = bytes.clone()?;
        Ok(MemDisk {
            alloc,
            first,
            bytes,
            log: Vec::new(alloc),
            fails,
            calls: 0,
            faults: 0,
            starved: 0,
        })
    }

    /// How many calls that were to be done found no memory for the record.
    pub fn starved(&self) -> u64
        ensures { result ≡ starved_calls self.now }
    {
        self.starved
    }
}

impl Disk for MemDisk {
    ghost use Rattle.voice_outside.specs.Disk.{Counts, Rests, ReadsAt, WritesAt, Syncs};
    ghost use Rattle.voice_disk.specs.Memory.{mem_told, starved_calls, FailsAsListed, StarvesOnce, HasSpare};
    ghost use Rattle.voice_disk.specs.Laws.{since_earlier, since_bytes, sized_bytes};

    ghost told = { mem_told };

    ghost since = { λ disk t u image le left. since_earlier disk.first.items (reverse disk.log.items) t u image le left };

    ghost present = { λ disk honest. since_bytes disk.first.items disk.bytes.items (reverse disk.log.items) disk.calls disk.replayed };

    ghost sized = { λ disk t image honest left. sized_bytes disk.first.items disk.bytes.items (reverse disk.log.items) t image disk.replayed left };

    fn size(&self) -> u64 {
        self.bytes.len() as u64
    }

    fn calls(&self) -> u64 {
        self.calls
    }

    fn read(&mut self, at: u64, into: &mut [u8]) -> Result<(), Failed>
        requires { at + length into.old ≤ (mem_told self.old).size }
        ensures counts { Counts (mem_told self.old) (mem_told self.new) result }
        ensures spent { IsTrue (mem_told self.old).honest → 2 ^ 64 - 1 ≤ (mem_told self.old).calls → Rests (mem_told self.old) (mem_told self.new) }
        ensures content { IsTrue (mem_told self.old).honest → ReadsAt at (length into.old) (mem_told self.old) (mem_told self.new) into.new result }
        ensures exactly { FailsAsListed self.old self.new result }
        ensures faults { (mem_told self.new).faults ≡ faults_after (is_err result) (mem_told self.old).faults }
        ensures starved { StarvesOnce self.old self.new result }
        ensures spare { HasSpare self.old → starved_calls self.new ≡ starved_calls self.old }
    {
        if self.calls == u64::MAX {
            self.faults = self.faults.saturating_add(1);
            return Err(Failed);
        }
        let number = self.calls + 1;
        let done = !self.fails.contains(&number);
        if keep(&mut self.log, number, Made::Read(done)).is_err() {
            self.calls = number;
            self.faults = self.faults.saturating_add(1);
            if !done {
                return Err(Failed);
            }
            self.starved += 1;
            return Err(Failed);
        }
        self.calls = number;
        if !done {
            self.faults = self.faults.saturating_add(1);
            return Err(Failed);
        }
        let from = at as usize;
        into.copy_from_slice(&self.bytes[from..from + into.len()]);
        Ok(())
    }

    fn write(&mut self, at: u64, bytes: &[u8]) -> Result<(), Failed>
        requires { at + length bytes.now ≤ (mem_told self.old).size }
        ensures counts { Counts (mem_told self.old) (mem_told self.new) result }
        ensures spent { IsTrue (mem_told self.old).honest → 2 ^ 64 - 1 ≤ (mem_told self.old).calls → Rests (mem_told self.old) (mem_told self.new) }
        ensures content { IsTrue (mem_told self.old).honest → WritesAt at bytes.now (mem_told self.old) (mem_told self.new) result }
        ensures exactly { FailsAsListed self.old self.new result }
        ensures faults { (mem_told self.new).faults ≡ faults_after (is_err result) (mem_told self.old).faults }
        ensures starved { StarvesOnce self.old self.new result }
        ensures failing { OnErr result ((mem_told self.new).bytes ≡ (mem_told self.old).bytes) }
    {
        if self.calls == u64::MAX {
            self.faults = self.faults.saturating_add(1);
            return Err(Failed);
        }
        let number = self.calls + 1;
        let done = !self.fails.contains(&number);
        if keep_write(self.alloc, &mut self.log, number, at, bytes, done).is_err() {
            self.calls = number;
            self.faults = self.faults.saturating_add(1);
            if !done {
                return Err(Failed);
            }
            self.starved += 1;
            return Err(Failed);
        }
        self.calls = number;
        if !done {
            self.faults = self.faults.saturating_add(1);
            return Err(Failed);
        }
        put_over(&mut self.bytes, at, bytes);
        Ok(())
    }

    fn sync(&mut self) -> Result<(), Failed>
        ensures counts { Counts (mem_told self.old) (mem_told self.new) result }
        ensures spent { IsTrue (mem_told self.old).honest → 2 ^ 64 - 1 ≤ (mem_told self.old).calls → Rests (mem_told self.old) (mem_told self.new) }
        ensures content { IsTrue (mem_told self.old).honest → Syncs (mem_told self.old) (mem_told self.new) result }
        ensures exactly { FailsAsListed self.old self.new result }
        ensures faults { (mem_told self.new).faults ≡ faults_after (is_err result) (mem_told self.old).faults }
        ensures starved { StarvesOnce self.old self.new result }
        ensures spare { HasSpare self.old → starved_calls self.new ≡ starved_calls self.old }
    {
        if self.calls == u64::MAX {
            self.faults = self.faults.saturating_add(1);
            return Err(Failed);
        }
        let number = self.calls + 1;
        let done = !self.fails.contains(&number);
        if keep(&mut self.log, number, Made::Sync(done)).is_err() {
            self.calls = number;
            self.faults = self.faults.saturating_add(1);
            if !done {
                return Err(Failed);
            }
            self.starved += 1;
            return Err(Failed);
        }
        self.calls = number;
        if !done {
            self.faults = self.faults.saturating_add(1);
            return Err(Failed);
        }
        Ok(())
    }
}
