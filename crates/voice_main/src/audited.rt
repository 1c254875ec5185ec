//! The audit of the disk, printed.

ghost use Rattle.std.specs.Prelude.{ℕ, [], ◌≡◌, Option};
ghost use Rattle.voice_outside.specs.Files.{Files};
ghost use Rattle.voice_main.specs.Outside.{outside};
ghost use Rattle.voice_store.specs.Facts.{GoesOn};
ghost use Rattle.voice_main.specs.AuditPromise.{AuditPromise};
ghost use Rattle.voice_main.specs.Statuses.{IsEarly, IsSilent};

use crate::output::print_text;
use crate::status::Status;
use crate::top_call::{Ended, open_status};
use std::alloc::Global;
use voice_audit::audit;
use voice_outside::{Disk, Sink};

// The status of an audit that was read, and of its text.
fn printed<O: Sink, D: Disk>(alloc: Global, out: &mut O, disk: &mut D) -> Status
    ensures promise { (files : Option Files) (shelf_faults : ℕ) → AuditPromise (outside files shelf_faults (O.contents out.old) (O.faults out.old) (O.empty_takes out.old) (D.told disk.old)) (outside files shelf_faults (O.contents out.new) (O.faults out.new) (O.empty_takes out.new) (D.told disk.new)) result [] }
    ensures silent { IsSilent result → O.contents out.new ≡ O.contents out.old }
    ensures late { IsEarly result → ⊥ }
    ensures disk { GoesOn (D.told disk.old) (D.told disk.new) }
{
    let mut text = Vec::new(alloc);
    match audit(alloc, disk, &mut text) {
        Ok(()) => print_text(&text, out),
        Err(e) => open_status(e),
    }
}

/// Prints what stands on the disk. Nothing is printed before the disk is read.
pub fn audited<O: Sink, D: Disk>(alloc: Global, out: &mut O, mut disk: D) -> Ended<D>
    ensures promise { (files : Option Files) (shelf_faults : ℕ) → AuditPromise (outside files shelf_faults (O.contents out.old) (O.faults out.old) (O.empty_takes out.old) (D.told disk)) (outside files shelf_faults (O.contents out.new) (O.faults out.new) (O.empty_takes out.new) (D.told result.disk)) result.status result.history.items }
    // A status that is decided before the text stands prints nothing.
    ensures silent { IsSilent result.status → (result.history.items ≡ []) × (O.contents out.new ≡ O.contents out.old) }
    // No status is one that is decided before the disk is touched.
    ensures late { IsEarly result.status → ⊥ }
    // The disk keeps its size, and its counts never fall.
    ensures disk { GoesOn (D.told disk) (D.told result.disk) }
{
    let status = printed(alloc, out, &mut disk);
    Ended {
        status,
        disk,
        history: Vec::new(alloc),
    }
}
