//! A disk that stops.

ghost use Rattle.std.specs.Prelude.{◌≡◌, ◌≤◌, ◌<◌, ◌-◌, ◌+◌, ◌^◌, IsErr, IsTrue, is_err, length};
ghost use Rattle.voice_outside.specs.Counters.{next_count, faults_after, HasRisen};

use crate::memory::MemDisk;
use voice_outside::Disk;
use voice_units::Failed;

/// A disk that passes so many calls to one in memory, and fails every later one, which changes no byte. It is honest and tells its bytes.
#[derive(Drop)]
pub struct FuseDisk {
    inner: MemDisk,
    left: u64,
    calls: u64,
    faults: u64,
    ghost behind: { inner.calls ≤ calls },
    ghost in_step: { 0 < left → inner.calls ≡ calls },
}

impl FuseDisk {
    ghost use Rattle.voice_disk.specs.Memory.{mem_told};
    ghost use Rattle.voice_disk.specs.Fuse.{fuse_told, calls_left, behind_fuse, IsFused};

    /// The disk that passes the next `k` calls.
    pub fn new(inner: MemDisk, k: u64) -> FuseDisk
        ensures fused { IsFused (mem_told inner) (fuse_told result) }
        ensures left { calls_left result ≡ k }
        ensures behind { behind_fuse result ≡ inner }
    {
        let calls = inner.calls();
        FuseDisk {
            inner,
            left: k,
            calls,
            faults: 0,
        }
    }

    /// The disk behind it.
    pub fn into_inner(self) -> MemDisk
        ensures { result ≡ behind_fuse self }
    {
        self.inner
    }

    // Counts a call that isn't passed.
    fn refuse(&mut self)
        requires { self.old.left ≡ 0 }
        ensures inner { self.new.inner ≡ self.old.inner }
        ensures left { self.new.left ≡ self.old.left }
        ensures calls { self.new.calls ≡ next_count self.old.calls }
        ensures later { self.old.calls ≤ self.new.calls }
        ensures faults { self.old.faults ≤ self.new.faults }
        ensures exactly { self.new.faults ≡ next_count self.old.faults }
        ensures rose { HasRisen self.old.faults self.new.faults }
    {
        self.calls = self.calls.saturating_add(1);
        self.faults = self.faults.saturating_add(1);
    }
}

impl Disk for FuseDisk {
    ghost use Rattle.voice_outside.specs.Disk.{Counts, Rests, ReadsAt, WritesAt, Syncs};
    ghost use Rattle.voice_disk.specs.Memory.{FailsAsListed, StarvesOnce};
    ghost use Rattle.voice_disk.specs.Fuse.{fuse_told, fuse_since, fuse_present, fuse_sized, calls_left, behind_fuse};

    ghost told = { fuse_told };

    ghost since = { fuse_since };

    ghost present = { λ disk honest. fuse_present disk };

    ghost sized = { λ disk t image honest left. fuse_sized disk t image left };

    fn size(&self) -> u64 {
        self.inner.size()
    }

    fn calls(&self) -> u64 {
        self.calls
    }

    fn read(&mut self, at: u64, into: &mut [u8]) -> Result<(), Failed>
        requires { at + length into.old ≤ (fuse_told self.old).size }
        ensures counts { Counts (fuse_told self.old) (fuse_told self.new) result }
        ensures spent { IsTrue (fuse_told self.old).honest → 2 ^ 64 - 1 ≤ (fuse_told self.old).calls → Rests (fuse_told self.old) (fuse_told self.new) }
        ensures content { IsTrue (fuse_told self.old).honest → ReadsAt at (length into.old) (fuse_told self.old) (fuse_told self.new) into.new result }
        ensures blown { calls_left self.old ≡ 0 → IsErr result }
        ensures passed { 0 < calls_left self.old → FailsAsListed (behind_fuse self.old) (behind_fuse self.new) result }
        ensures starved { 0 < calls_left self.old → StarvesOnce (behind_fuse self.old) (behind_fuse self.new) result }
        ensures left { calls_left self.new ≡ calls_left self.old - 1 }
        ensures faults { (fuse_told self.new).faults ≡ faults_after (is_err result) (fuse_told self.old).faults }
        ensures behind { calls_left self.old ≡ 0 → behind_fuse self.new ≡ behind_fuse self.old }
    {
        if self.left == 0 {
            self.refuse();
            return Err(Failed);
        }
        self.left -= 1;
        let result = self.inner.read(at, into);
        self.calls = self.inner.calls();
        if result.is_err() {
            self.faults = self.faults.saturating_add(1);
        }
        result
    }

    fn write(&mut self, at: u64, bytes: &[u8]) -> Result<(), Failed>
        requires { at + length bytes.now ≤ (fuse_told self.old).size }
        ensures counts { Counts (fuse_told self.old) (fuse_told self.new) result }
        ensures spent { IsTrue (fuse_told self.old).honest → 2 ^ 64 - 1 ≤ (fuse_told self.old).calls → Rests (fuse_told self.old) (fuse_told self.new) }
        ensures content { IsTrue (fuse_told self.old).honest → WritesAt at bytes.now (fuse_told self.old) (fuse_told self.new) result }
        ensures blown { calls_left self.old ≡ 0 → IsErr result }
        ensures passed { 0 < calls_left self.old → FailsAsListed (behind_fuse self.old) (behind_fuse self.new) result }
        ensures starved { 0 < calls_left self.old → StarvesOnce (behind_fuse self.old) (behind_fuse self.new) result }
        ensures left { calls_left self.new ≡ calls_left self.old - 1 }
        ensures faults { (fuse_told self.new).faults ≡ faults_after (is_err result) (fuse_told self.old).faults }
        ensures behind { calls_left self.old ≡ 0 → behind_fuse self.new ≡ behind_fuse self.old }
    {
        if self.left == 0 {
            self.refuse();
            return Err(Failed);
        }
        self.left -= 1;
        let result = self.inner.write(at, bytes);
        self.calls = self.inner.calls();
        if result.is_err() {
            self.faults = self.faults.saturating_add(1);
        }
        result
    }

    fn sync(&mut self) -> Result<(), Failed>
        ensures counts { Counts (fuse_told self.old) (fuse_told self.new) result }
        ensures spent { IsTrue (fuse_told self.old).honest → 2 ^ 64 - 1 ≤ (fuse_told self.old).calls → Rests (fuse_told self.old) (fuse_told self.new) }
        ensures content { IsTrue (fuse_told self.old).honest → Syncs (fuse_told self.old) (fuse_told self.new) result }
        ensures blown { calls_left self.old ≡ 0 → IsErr result }
        ensures passed { 0 < calls_left self.old → FailsAsListed (behind_fuse self.old) (behind_fuse self.new) result }
        ensures starved { 0 < calls_left self.old → StarvesOnce (behind_fuse self.old) (behind_fuse self.new) result }
        ensures left { calls_left self.new ≡ calls_left self.old - 1 }
        ensures faults { (fuse_told self.new).faults ≡ faults_after (is_err result) (fuse_told self.old).faults }
        ensures behind { calls_left self.old ≡ 0 → behind_fuse self.new ≡ behind_fuse self.old }
    {
        if self.left == 0 {
            self.refuse();
            return Err(Failed);
        }
        self.left -= 1;
        let result = self.inner.sync();
        self.calls = self.inner.calls();
        if result.is_err() {
            self.faults = self.faults.saturating_add(1);
        }
        result
    }
}
