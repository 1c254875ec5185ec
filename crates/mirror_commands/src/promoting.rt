//! The disk of a mirror becomes a voice disk.

ghost use Rattle.std.specs.Prelude.{◌≡◌};
ghost use Rattle.voice_mirror.specs.Promoting.{Goes};
ghost use Rattle.mirror_commands.specs.Promoting.{Promotes, refused_of, unopened_of};

use std::alloc::Global;
use voice_mirror::{Mirror, OpenError, PromoteError};
use voice_outside::Disk;

/// Why a disk was not made a voice disk.
#[derive(Clone, Copy, Debug, PartialEq, Eq)]
pub enum Refusal {
    /// Its bytes are no mirror's; the damage is at that byte.
    BadDisk(u64),
    /// Its journal has no further epoch.
    EpochSpent,
    /// What the mirror has takes the first number of bytes as records, and an area has room for the second.
    JournalFull(u128, u64),
    /// The device failed, and its count of faults rose: the disk is the mirror's.
    DiskFault,
    /// The device failed where the switch may have counted, and its count of faults rose: the disk is the mirror's, or a voice disk that has the same.
    InDoubt,
    NoMemory,
}

// Why a mirror was not opened.
fn unopened(e: OpenError) -> Refusal
    ensures { result ≡ unopened_of e }
{
    match e {
        OpenError::BadDisk(place) => Refusal::BadDisk(place),
        OpenError::DiskFault => Refusal::DiskFault,
        OpenError::NoMemory => Refusal::NoMemory,
    }
}

// Why a mirror was not promoted.
fn refused(e: PromoteError) -> Refusal
    ensures { result ≡ refused_of e }
{
    match e {
        PromoteError::EpochSpent => Refusal::EpochSpent,
        PromoteError::JournalFull(need, left) => Refusal::JournalFull(need, left),
        PromoteError::DiskFault => Refusal::DiskFault,
        PromoteError::InDoubt => Refusal::InDoubt,
        PromoteError::NoMemory => Refusal::NoMemory,
    }
}

/// Opens the mirror of a disk and makes it a voice disk, which has what the mirror had. What the disk's bytes decide is answered, but for faults and want of memory; where that is a refusal, the disk was only looked at. It makes at most 14 device calls.
pub fn promote<D: Disk>(alloc: Global, disk: D) -> (Result<(), Refusal>, D)
    ensures goes { Goes 14 (D.told disk) (D.told result.1) }
    ensures promotes { Promotes (D.told disk) (D.told result.1) result.0 }
{
    let mirror = match Mirror::open(alloc, disk) {
        Ok(mirror) => mirror,
        Err((e, disk)) => return (Err(unopened(e)), disk),
    };
    match mirror.promote() {
        (Ok(()), disk) => (Ok(()), disk),
        (Err(e), disk) => (Err(refused(e)), disk),
    }
}
