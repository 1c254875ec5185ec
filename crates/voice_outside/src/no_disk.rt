//! A disk of no size, for a program that has none yet.

ghost use Rattle.std.specs.Prelude.{ℕ, [], ◌≡◌, ◌≤◌, ◌+◌, ◌-◌, ◌^◌, ◌↔◌, true, IsErr, IsTrue, is_err, length};
ghost use Rattle.voice_outside.specs.Counters.{next_count, faults_after, HasRisen};
ghost use Rattle.voice_outside.specs.EmptyDisk.{empty_disk};

use crate::disk::Disk;
use std::marker::Model;
use voice_units::Failed;

/// A disk of size 0. It is honest, and fails only once 2^64 - 1 calls were made.
#[derive(Drop)]
pub struct NoDisk {
    calls: u64,
    faults: u64,
}

impl NoDisk {
    /// A disk that has made no call.
    pub fn new() -> NoDisk
        ensures calls { result.calls ≡ 0 }
        ensures faults { result.faults ≡ 0 }
    {
        NoDisk {
            calls: 0,
            faults: 0,
        }
    }

    fn count(&mut self) -> Result<(), Failed>
        ensures calls { self.new.calls ≡ next_count self.old.calls }
        ensures later { self.old.calls ≤ self.new.calls }
        ensures spent { IsErr result ↔ (2 ^ 64 - 1 ≤ self.old.calls) }
        ensures exactly { self.new.faults ≡ faults_after (is_err result) self.old.faults }
        ensures faults { self.old.faults ≤ self.new.faults }
        ensures rose { IsErr result → HasRisen self.old.faults self.new.faults }
    {
        if self.calls == u64::MAX {
            self.faults = self.faults.saturating_add(1);
            return Err(Failed);
        }
        self.calls += 1;
        Ok(())
    }
}

impl Disk for NoDisk {
    ghost use Rattle.voice_outside.specs.Disk.{Counts, Rests, ReadsAt, WritesAt, Syncs};

    ghost told = { λ d. empty_disk d.calls d.faults };

    ghost since = { λ d t u image h m. m };

    ghost present = { λ d h i. [] };

    ghost sized = { λ d t image h m i. length (m i) };

    fn size(&self) -> u64 {
        0
    }

    fn calls(&self) -> u64 {
        self.calls
    }

    fn read(&mut self, at: u64, into: &mut [u8]) -> Result<(), Failed>
        requires { at + length into.old ≤ (empty_disk self.old.calls self.old.faults).size }
        ensures counts { Counts (empty_disk self.old.calls self.old.faults) (empty_disk self.new.calls self.new.faults) result }
        ensures spent { IsTrue (empty_disk self.old.calls self.old.faults).honest → 2 ^ 64 - 1 ≤ (empty_disk self.old.calls self.old.faults).calls → Rests (empty_disk self.old.calls self.old.faults) (empty_disk self.new.calls self.new.faults) }
        ensures content { IsTrue (empty_disk self.old.calls self.old.faults).honest → ReadsAt at (length into.old) (empty_disk self.old.calls self.old.faults) (empty_disk self.new.calls self.new.faults) into.new result }
        ensures exactly { IsErr result ↔ (2 ^ 64 - 1 ≤ self.old.calls) }
        ensures faults { self.new.faults ≡ faults_after (is_err result) self.old.faults }
    {
        self.count()
    }

    fn write(&mut self, at: u64, bytes: &[u8]) -> Result<(), Failed>
        requires { at + length bytes.now ≤ (empty_disk self.old.calls self.old.faults).size }
        ensures counts { Counts (empty_disk self.old.calls self.old.faults) (empty_disk self.new.calls self.new.faults) result }
        ensures spent { IsTrue (empty_disk self.old.calls self.old.faults).honest → 2 ^ 64 - 1 ≤ (empty_disk self.old.calls self.old.faults).calls → Rests (empty_disk self.old.calls self.old.faults) (empty_disk self.new.calls self.new.faults) }
        ensures content { IsTrue (empty_disk self.old.calls self.old.faults).honest → WritesAt at bytes.now (empty_disk self.old.calls self.old.faults) (empty_disk self.new.calls self.new.faults) result }
        ensures exactly { IsErr result ↔ (2 ^ 64 - 1 ≤ self.old.calls) }
        ensures faults { self.new.faults ≡ faults_after (is_err result) self.old.faults }
    {
        self.count()
    }

    fn sync(&mut self) -> Result<(), Failed>
        ensures counts { Counts (empty_disk self.old.calls self.old.faults) (empty_disk self.new.calls self.new.faults) result }
        ensures spent { IsTrue (empty_disk self.old.calls self.old.faults).honest → 2 ^ 64 - 1 ≤ (empty_disk self.old.calls self.old.faults).calls → Rests (empty_disk self.old.calls self.old.faults) (empty_disk self.new.calls self.new.faults) }
        ensures content { IsTrue (empty_disk self.old.calls self.old.faults).honest → Syncs (empty_disk self.old.calls self.old.faults) (empty_disk self.new.calls self.new.faults) result }
        ensures exactly { IsErr result ↔ (2 ^ 64 - 1 ≤ self.old.calls) }
        ensures faults { self.new.faults ≡ faults_after (is_err result) self.old.faults }
    {
        self.count()
    }
}
