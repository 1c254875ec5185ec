//! Switches to the other area.

ghost use Rattle.std.specs.Prelude.{◌≡◌, ◌+◌, ◌≤◌, ◌<◌, ◌^◌, ℕ, List, length, true, false, IsTrue, IsErrOf, OnOk, OnErr, None};

use crate::device::write_synced;
use crate::errors::Fault;
use crate::lists::Payloads;
use crate::seats::{Doubt, Journal, start_of};
use crate::spelling::put_area;
use voice_outside::Disk;
use voice_units::Failed;

impl Journal {
    ghost use Rattle.std.specs.Prelude.{Some};
    ghost use Rattle.voice_outside.specs.Disk.{Now, Leaves, MakesAtMost};
    ghost use Rattle.disk_areas.specs.Areas.{Journal as Reading};
    ghost use Rattle.voice_journal.specs.Readings.{extent, switched, framed_size, SameElsewhere, Without, Within};
    ghost use Rattle.voice_journal.specs.Places.{landed};
    ghost use Rattle.voice_journal.specs.Stands.{Stands, StandsInDoubt, IsKept, IsWhole};

    // Closes the other area's head, and syncs.
    fn close_other<D: Disk>(&mut self, disk: &mut D) -> Result<(), Failed>
        requires shape_fits { extent self.old.shape ≤ (D.told disk.old).size }
        ensures made { MakesAtMost 2 (D.told disk.old) (D.told disk.new) result }
        ensures ok_state { OnOk result (self.new ≡ record self.old { is_closed = true }) }
        ensures failed_state { OnErr result (self.new ≡ self.old) }
        ensures kept { IsTrue (D.told disk.old).honest → (r : Reading) → Stands self.old (D.told disk.old) r → IsKept self.new (D.told disk.old) (D.told disk.new) r }
        ensures bytes { IsTrue (D.told disk.old).honest → SameElsewhere self.old.shape (D.told disk.old).bytes (D.told disk.new).bytes }
    {
        if self.is_closed {
            return Ok(());
        }
        write_synced(disk, start_of(&self.shape, !self.seat.second), &[0])?;
        self.is_closed = true;
        Ok(())
    }

    // Writes what goes into the other area behind its head's gate, which is closed, and syncs.
    fn write_other<D: Disk>(&mut self, disk: &mut D, payloads: &Payloads) -> Result<(), Failed>
        requires shape_fits { extent self.old.shape ≤ (D.told disk.old).size }
        requires payloads_fit { framed_size payloads.now + 17 ≤ self.old.shape.area }
        requires epoch_left { self.old.seat.epoch < 2 ^ 48 }
        requires closed { self.old.is_closed ≡ true }
        ensures made { MakesAtMost 2 (D.told disk.old) (D.told disk.new) result }
        ensures same { self.new ≡ self.old }
        ensures kept { IsTrue (D.told disk.old).honest → (r : Reading) → Stands self.old (D.told disk.old) r → IsKept self.old (D.told disk.old) (D.told disk.new) r }
        ensures whole { IsTrue (D.told disk.old).honest → (r : Reading) → Stands self.old (D.told disk.old) r
            → OnOk result (IsWhole self.old (Doubt.Area (16 + framed_size payloads.now)) (D.told disk.new) r (switched r payloads.now)) }
        ensures bytes { IsTrue (D.told disk.old).honest → SameElsewhere self.old.shape (D.told disk.old).bytes (D.told disk.new).bytes }
    {
        let end = put_area(&mut self.room, self.seat.epoch + 1, payloads);
        let start = start_of(&self.shape, !self.seat.second);
        write_synced(disk, start + 1, &self.room[..end])
    }

    /// Makes the other area current, with these payloads in place of all records. They have to fit an area, and the epoch has to be below 2^48. It takes no memory.
    pub fn switch<D: Disk>(&mut self, disk: &mut D, payloads: &Payloads) -> Result<(), Fault>
        requires shape_fits { extent self.old.shape ≤ (D.told disk.old).size }
        requires payloads_fit { framed_size payloads.now + 17 ≤ self.old.shape.area }
        requires epoch_left { self.old.seat.epoch < 2 ^ 48 }
        requires sure { self.old.doubt ≡ None }

        ensures made { MakesAtMost 6 (D.told disk.old) (D.told disk.new) result }
        ensures ok_state { OnOk result (self.new ≡ record self.old { seat = landed self.old.seat (Doubt.Area (16 + framed_size payloads.now)); is_closed = false }) }
        ensures before_state { IsErrOf result Fault.Before → self.new ≡ record self.old { is_closed = self.new.is_closed } }
        ensures doubt_state { IsErrOf result Fault.Doubt → self.new ≡ record self.old { doubt = Some (Doubt.Area (16 + framed_size payloads.now)); is_closed = true } }

        // From then on each crash leaves the new area, with all that had been written elsewhere.
        ensures ok { IsTrue (D.told disk.old).honest → (r : Reading) → Stands self.old (D.told disk.old) r
            → OnOk result (Stands self.new (D.told disk.new) (switched r payloads.now) × Now (D.told disk.new) (SameElsewhere r.shape (D.told disk.old).bytes)) }
        ensures before { IsTrue (D.told disk.old).honest → (r : Reading) → Stands self.old (D.told disk.old) r
            → IsErrOf result Fault.Before → Stands self.new (D.told disk.new) r × Leaves (D.told disk.old) (D.told disk.new) (Without r (D.told disk.old)) }
        ensures doubt { IsTrue (D.told disk.old).honest → (r : Reading) → Stands self.old (D.told disk.old) r
            → IsErrOf result Fault.Doubt → StandsInDoubt self.new (D.told disk.new) r (switched r payloads.now) × Now (D.told disk.new) (SameElsewhere r.shape (D.told disk.old).bytes) }

        // A crash at any moment of the call leaves the records from before it, or the new ones.
        ensures crash { IsTrue (D.told disk.old).honest → (r : Reading) → Stands self.old (D.told disk.old) r
            → Leaves (D.told disk.old) (D.told disk.new) (Within r (switched r payloads.now) (D.told disk.old)) }
        ensures bytes { IsTrue (D.told disk.old).honest → SameElsewhere self.old.shape (D.told disk.old).bytes (D.told disk.new).bytes }
    {
        if self.close_other(disk).is_err() {
            return Err(Fault::Before);
        }
        if self.write_other(disk, payloads).is_err() {
            return Err(Fault::Before);
        }
        let gate = 16 + payloads.size();
        if self.commit(disk, Doubt::Area(gate as u32)).is_err() {
            return Err(Fault::Doubt);
        }
        Ok(())
    }
}
