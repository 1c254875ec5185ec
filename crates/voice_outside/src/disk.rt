//! A disk of a fixed size.

ghost use Rattle.std.specs.Prelude.{◌≡◌, ◌+◌, ◌-◌, ◌^◌, ◌≤◌, ℕ, List, length, IsTrue};
ghost use Rattle.voice_outside.specs.Disk.{Told, Counts, Rests, ReadsAt, WritesAt, Syncs};

use voice_units::Failed;

/// A disk. It counts its calls (reads, writes and syncs, each once) and its faults; after 2^64 - 1 calls it fails for ever and changes nothing more.
///
/// An honest disk follows the disk model: between two syncs that succeeded each written range, and each range of a write that failed, may hold any bytes after a crash; bytes outside stay; after a sync that succeeds a crash leaves what a read gives. A disk that isn't honest tells nothing of its bytes.
pub trait Disk: Send {
    /// What the disk tells.
    ghost told: { Self → Told };

    /// Its size in bytes, which never changes.
    fn size(&self) -> u64
        ensures { result ≡ (told self.now).size };

    /// How many calls it has made.
    fn calls(&self) -> u64
        ensures { result ≡ (told self.now).calls };

    /// Reads from the offset `at` on until `into` is full.
    fn read(&mut self, at: u64, into: &mut [u8]) -> Result<(), Failed>
        requires { at + length into.old ≤ (told self.old).size }
        ensures counts { Counts (told self.old) (told self.new) result }
        ensures spent { IsTrue (told self.old).honest → 2 ^ 64 - 1 ≤ (told self.old).calls → Rests (told self.old) (told self.new) }
        ensures content { IsTrue (told self.old).honest → ReadsAt at (length into.old) (told self.old) (told self.new) into.new result };

    /// Writes these bytes from the offset `at` on.
    fn write(&mut self, at: u64, bytes: &[u8]) -> Result<(), Failed>
        requires { at + length bytes.now ≤ (told self.old).size }
        ensures counts { Counts (told self.old) (told self.new) result }
        ensures spent { IsTrue (told self.old).honest → 2 ^ 64 - 1 ≤ (told self.old).calls → Rests (told self.old) (told self.new) }
        ensures content { IsTrue (told self.old).honest → WritesAt at bytes.now (told self.old) (told self.new) result };

    /// Waits until what was written is settled.
    fn sync(&mut self) -> Result<(), Failed>
        ensures counts { Counts (told self.old) (told self.new) result }
        ensures spent { IsTrue (told self.old).honest → 2 ^ 64 - 1 ≤ (told self.old).calls → Rests (told self.old) (told self.new) }
        ensures content { IsTrue (told self.old).honest → Syncs (told self.old) (told self.new) result };

    /// A crash since a later moment is one since an earlier.
    ghost since: { (disk : Self) (t u : ℕ) (image : List ℕ) → t ≤ u → (told disk).may_leave u image → (told disk).may_leave t image };

    /// What a read returns is an image of the present moment.
    ghost present: { (disk : Self) → IsTrue (told disk).honest → (told disk).may_leave (told disk).calls (told disk).bytes };

    /// Each image has the disk's size.
    ghost sized: { (disk : Self) (t : ℕ) (image : List ℕ) → IsTrue (told disk).honest → (told disk).may_leave t image → length image ≡ (told disk).size };
}
