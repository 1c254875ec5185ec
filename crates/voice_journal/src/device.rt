//! Calls of the disk, in the forms that the journal needs.

ghost use Rattle.std.specs.Prelude.{◌≡◌, ◌+◌, ◌≤◌, length, IsTrue, IsErr, OnOk};
ghost use Rattle.voice_outside.specs.Disk.{MakesAtMost, WroteSynced, IsSettled, Now, segment};
ghost use Rattle.voice_outside.specs.Counters.{HasRisen};
ghost use Rattle.voice_journal.specs.Looks.{Looks};

use voice_outside::Disk;
use voice_units::Failed;

// Writes and syncs.
pub fn write_synced<D: Disk>(disk: &mut D, at: u64, bytes: &[u8]) -> Result<(), Failed>
    requires { at + length bytes.now ≤ (D.told disk.old).size }
    ensures made { MakesAtMost 2 (D.told disk.old) (D.told disk.new) result }
    ensures wrote { IsTrue (D.told disk.old).honest → WroteSynced at bytes.now (D.told disk.old) (D.told disk.new) }
    ensures done { IsTrue (D.told disk.old).honest → OnOk result (IsSettled at bytes.now (D.told disk.new)) }
{
    disk.write(at, bytes)?;
    disk.sync()
}

// Reads.
pub fn read_part<D: Disk>(disk: &mut D, at: u64, into: &mut [u8]) -> Result<(), Failed>
    requires { at + length into.old ≤ (D.told disk.old).size }
    ensures looks { Looks 1 (D.told disk.old) (D.told disk.new) }
    ensures cause { IsErr result → HasRisen (D.told disk.old).faults (D.told disk.new).faults }
    ensures filled { IsTrue (D.told disk.old).honest → OnOk result (into.new ≡ segment (D.told disk.old).bytes at (length into.old)) }
{
    disk.read(at, into)
}

// Syncs.
pub fn settle<D: Disk>(disk: &mut D) -> Result<(), Failed>
    ensures looks { Looks 1 (D.told disk.old) (D.told disk.new) }
    ensures cause { IsErr result → HasRisen (D.told disk.old).faults (D.told disk.new).faults }
    ensures moment { OnOk result ((D.told disk.new).calls ≡ (D.told disk.old).calls + 1) }
    ensures settled { IsTrue (D.told disk.old).honest → OnOk result (Now (D.told disk.new) (λ image. image ≡ (D.told disk.old).bytes)) }
{
    disk.sync()
}
