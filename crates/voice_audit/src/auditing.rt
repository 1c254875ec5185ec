//! The audit of a disk.

ghost use Rattle.std.specs.Prelude.{◌≡◌, ◌+◌, ◌++◌, ℕ, List, Some, IsTrue, IfOk, IfErr, OnOk, OnErr};
ghost use Rattle.voice_outside.specs.Counters.{HasRisen};
ghost use Rattle.voice_journal.specs.Looks.{Looks, Since};
ghost use Rattle.voice_model.specs.Image.{Reading, reading};
ghost use Rattle.voice_audit.specs.Audit.{audit_of};

use crate::opening::read;
use crate::telling::told;
use std::alloc::Global;
use voice_journal::OpenError;
use voice_outside::Disk;

/// The text of a disk's audit.
fn text_of<D: Disk>(alloc: Global, disk: &mut D) -> Result<Vec<u8>, OpenError>
    ensures ok { IsTrue (D.told disk.old).honest → IfOk result (λ text. audit_of (D.told disk.old).bytes ≡ Some text.items) }
    ensures bad { IfErr result (λ e. (place : ℕ) → e ≡ OpenError.BadDisk place → IsTrue (D.told disk.old).honest → reading (D.told disk.old).bytes ≡ Reading.Bad place) }
    ensures fault { IfErr result (λ e. e ≡ OpenError.DiskFault → HasRisen (D.told disk.old).faults (D.told disk.new).faults) }
    ensures looks { Looks 5 (D.told disk.old) (D.told disk.new) }
    ensures since { IsTrue (D.told disk.old).honest → OnOk result (Since ((D.told disk.old).calls + 1) (D.told disk.new) (λ image. image ≡ (D.told disk.old).bytes)) }
{
    let standing = read(alloc, disk)?;
    let Ok(text) = told(
        alloc,
        &standing.shape,
        standing.epoch,
        standing.left,
        &standing.parts,
    ) else {
        return Err(OpenError::NoMemory);
    };
    Ok(text)
}

/// Appends what stands on a disk: its shape and form, its journal, the moment, the live ropes, the interests, and how many blocks are in use, shared and free. It makes one sync and at most 4 reads, and changes nothing. `BadDisk` comes exactly where the disk's bytes have damage, with the place of the first. After an `Err` `out` is as before. It takes a step for each block of each piece.
pub fn audit<D: Disk>(alloc: Global, disk: &mut D, out: &mut Vec<u8>) -> Result<(), OpenError>
    ensures ok { IsTrue (D.told disk.old).honest → OnOk result ((text : List ℕ) × (audit_of (D.told disk.old).bytes ≡ Some text) × (out.new.items ≡ out.old.items ++ text)) }
    ensures err { OnErr result (out.new.items ≡ out.old.items) }
    ensures bad { IfErr result (λ e. (place : ℕ) → e ≡ OpenError.BadDisk place → IsTrue (D.told disk.old).honest → reading (D.told disk.old).bytes ≡ Reading.Bad place) }
    ensures fault { IfErr result (λ e. e ≡ OpenError.DiskFault → HasRisen (D.told disk.old).faults (D.told disk.new).faults) }
    // It only looks at the disk.
    ensures looks { Looks 5 (D.told disk.old) (D.told disk.new) }
    // From the first sync on, each crash leaves the bytes that were read.
    ensures since { IsTrue (D.told disk.old).honest → OnOk result (Since ((D.told disk.old).calls + 1) (D.told disk.new) (λ image. image ≡ (D.told disk.old).bytes)) }
{
    let text = text_of(alloc, disk)?;
    out.extend_from_slice(&text)?;
    Ok(())
}
