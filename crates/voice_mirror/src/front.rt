//! The first bytes of a disk, which say whether it is one of version 1.

ghost use Rattle.std.specs.Prelude.{◌≡◌, ◌≤◌, ℕ, List, length, IsTrue, false, IsErrOf, IfErr, OnOk};
ghost use Rattle.voice_outside.specs.Disk.{segment};
ghost use Rattle.voice_outside.specs.Counters.{HasRisen};
ghost use Rattle.voice_journal.specs.Looks.{Looks};
ghost use Rattle.mirror_readings.specs.Readings.{MirrorReading, is_first_version, mirror_reading};

use disk_areas::read_4;
use voice_journal::OpenError;
use voice_outside::Disk;

const MAGIC: [u8; 8] = [86, 79, 73, 67, 68, 73, 83, 75];

// Whether the first bytes of a disk are the magic and version 1.
fn is_first(front: &[u8; 12]) -> bool
    ensures { (image : List ℕ) → 64 ≤ length image → segment image 0 12 ≡ front.now → result ≡ is_first_version image }
{
    if &front[..8] != MAGIC.as_slice() {
        return false;
    }
    read_4(front, 8) == 1
}

/// Refuses a disk of version 1, of which no more is read. It makes at most 1 device call, and changes nothing.
pub(crate) fn refuse_first<D: Disk>(disk: &mut D) -> Result<(), OpenError>
    ensures looks { Looks 1 (D.told disk.old) (D.told disk.new) }
    ensures cause { IsErrOf result OpenError.DiskFault → HasRisen (D.told disk.old).faults (D.told disk.new).faults }
    ensures ok { IsTrue (D.told disk.old).honest → OnOk result (is_first_version (D.told disk.old).bytes ≡ false) }
    ensures bad { IsTrue (D.told disk.old).honest → IfErr result (λ e. (place : ℕ) → e ≡ OpenError.BadDisk place → mirror_reading (D.told disk.old).bytes ≡ MirrorReading.Bad place) }
{
    if disk.size() < 64 {
        return Ok(());
    }
    let mut front = [0u8; 12];
    if disk.read(0, &mut front).is_err() {
        return Err(OpenError::DiskFault);
    }
    if is_first(&front) {
        return Err(OpenError::BadDisk(8));
    }
    Ok(())
}
