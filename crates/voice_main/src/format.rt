//! Formatting a disk.

ghost use Rattle.std.specs.Prelude.{◌≡◌, ◌≤◌, ◌+◌, IsTrue, IfOk, IfErr};
ghost use Rattle.voice_outside.specs.Counters.{HasRisen};
ghost use Rattle.voice_outside.specs.Disk.{Now};
ghost use Rattle.voice_main.specs.FormatPromise.{HasRoom, HasNumbers, Formats, FormatStatus};
ghost use Rattle.voice_store.specs.Facts.{GoesOn};

use crate::options::FormatNumbers;
use crate::status::Status;
use voice_outside::Disk;
use voice_store::Store;
use voice_units::{BadShape, Graces, Shape};

// The shape of these numbers, of the newest version, with these four graces.
fn shape_of(numbers: FormatNumbers, size: u64) -> Result<Shape, BadShape>
    ensures ok { IfOk result (λ shape. HasNumbers numbers shape × HasRoom numbers size) }
    ensures err { IfErr result (λ e. HasRoom numbers size → ⊥) }
{
    let graces = Graces {
        common: numbers.grace,
        held: numbers.held,
        until: numbers.until,
        listed: numbers.listed,
    };
    Shape::new(
        2,
        numbers.block,
        numbers.blocks,
        numbers.area,
        graces,
        numbers.lanes,
        size,
    )
}

/// Formats the disk for a shape of these numbers: `Done`, `BadShape`, which leaves the disk, or `DiskFault`. It makes at most 3 device calls.
pub fn format<D: Disk>(disk: D, numbers: FormatNumbers) -> (Status, D)
    ensures status { FormatStatus numbers (D.told disk) (D.told result.1) result.0 }
    ensures images { result.0 ≡ Status.Done → IsTrue (D.told disk).honest → Now (D.told result.1) (Formats numbers (D.told disk).bytes) }
    ensures early { result.0 ≡ Status.BadShape → result.1 ≡ disk }
    ensures goes { GoesOn (D.told disk) (D.told result.1) }
    ensures calls { (D.told result.1).calls ≤ (D.told disk).calls + 3 }
{
    let mut disk = disk;
    let Ok(shape) = shape_of(numbers, disk.size()) else {
        return (Status::BadShape, disk);
    };
    if Store::format(&mut disk, &shape).is_err() {
        return (Status::DiskFault, disk);
    }
    (Status::Done, disk)
}
