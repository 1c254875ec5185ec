//! Formats a disk.

ghost use Rattle.std.specs.Prelude.{◌≡◌, ◌≤◌, IsTrue, OnOk};
ghost use Rattle.voice_outside.specs.Disk.{MakesAtMost, Now};
ghost use Rattle.voice_journal.specs.Readings.{extent};
ghost use Rattle.voice_journal.specs.Spelled.{first_bytes, AreSpellable};
ghost use Rattle.voice_journal.specs.Formatted.{IsFormatted, SameButHeads};

use crate::device::write_synced;
use crate::seats::{Journal, start_of};
use crate::spelling::put_at;
use crate::superblocks::put_superblock;
use disk_areas::eight_bytes;
use voice_outside::Disk;
use voice_units::{Failed, Shape};

// A new disk as far as the first record's gate.
fn first_bytes(shape: &Shape) -> [u8; 81]
    ensures value { result ≡ first_bytes shape.now }
    ensures spellable { AreSpellable shape.now.graces }
{
    let mut bytes = [0; 81];
    put_superblock(&mut bytes, shape);
    put_at(&mut bytes, 64, &[1, 0, 0, 0, 0, 0, 0, 0]);
    put_at(&mut bytes, 72, &eight_bytes(1));
    put_at(&mut bytes, 80, &[0]);
    bytes
}

impl Journal {
    /// Formats a disk: closes the second area's head, writes the superblock and the first area's head with epoch 1 and a closed gate behind it, and syncs. It makes at most three device calls and takes no memory. After `Failed`, and at a crash within the call, nothing is known of the journal, and the disk has to be formatted again. What the data blocks held stays.
    pub fn format<D: Disk>(disk: &mut D, shape: &Shape) -> Result<(), Failed>
        requires { extent shape.now ≤ (D.told disk.old).size }
        ensures made { MakesAtMost 3 (D.told disk.old) (D.told disk.new) result }
        // From then on each crash leaves the empty disk of this shape.
        ensures ok { IsTrue (D.told disk.old).honest → OnOk result (Now (D.told disk.new) (IsFormatted shape.now (D.told disk.old).bytes)) }
        ensures bytes { IsTrue (D.told disk.old).honest → SameButHeads shape.now (D.told disk.old).bytes (D.told disk.new).bytes }
    {
        // An open head of an older journal never stands beside the new superblock.
        disk.write(start_of(shape, true), &[0; 16])?;
        write_synced(disk, 0, &first_bytes(shape))
    }
}
