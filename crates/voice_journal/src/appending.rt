//! Appends a record.

ghost use Rattle.std.specs.Prelude.{◌≡◌, ◌+◌, ◌≤◌, ◌<◌, ℕ, List, length, IsTrue, IsErrOf, OnOk, OnErr, None};

use crate::device::write_synced;
use crate::errors::Fault;
use crate::seats::{Doubt, Journal, start_of};
use crate::spelling::put_frame;
use voice_outside::Disk;
use voice_units::Failed;

impl Journal {
    ghost use Rattle.std.specs.Prelude.{Some};
    ghost use Rattle.voice_outside.specs.Disk.{Now, Leaves, MakesAtMost};
    ghost use Rattle.disk_areas.specs.Areas.{Journal as Reading};
    ghost use Rattle.voice_journal.specs.Readings.{extent, with_payload, SameElsewhere, Without, Within};
    ghost use Rattle.voice_journal.specs.Places.{landed};
    ghost use Rattle.voice_journal.specs.Stands.{Stands, StandsInDoubt, IsKept, IsWhole};

    // Writes a record's length and payload and a closed gate behind the gate where it goes, and syncs.
    fn write_frame<D: Disk>(&mut self, disk: &mut D, payload: &[u8]) -> Result<(), Failed>
        requires shape_fits { extent self.old.shape ≤ (D.told disk.old).size }
        requires payload_fits { self.old.seat.gate + 5 + length payload.now < self.old.shape.area }
        ensures made { MakesAtMost 2 (D.told disk.old) (D.told disk.new) result }
        ensures same { self.new ≡ self.old }
        ensures kept { IsTrue (D.told disk.old).honest → (r : Reading) → Stands self.old (D.told disk.old) r → IsKept self.old (D.told disk.old) (D.told disk.new) r }
        ensures whole { IsTrue (D.told disk.old).honest → (r : Reading) → Stands self.old (D.told disk.old) r
            → OnOk result (IsWhole self.old (Doubt.Record (length payload.now)) (D.told disk.new) r (with_payload r payload.now)) }
        ensures bytes { IsTrue (D.told disk.old).honest → SameElsewhere self.old.shape (D.told disk.old).bytes (D.told disk.new).bytes }
    {
        put_frame(&mut self.room, payload);
        let gate = start_of(&self.shape, self.seat.second) + u64::from(self.seat.gate);
        write_synced(disk, gate + 1, &self.room[..payload.len() + 5])
    }

    /// Appends a record with this payload, which has to fit the rest of the area. It takes no memory.
    pub fn append<D: Disk>(&mut self, disk: &mut D, payload: &[u8]) -> Result<(), Fault>
        requires shape_fits { extent self.old.shape ≤ (D.told disk.old).size }
        requires payload_fits { self.old.seat.gate + 5 + length payload.now < self.old.shape.area }
        requires sure { self.old.doubt ≡ None }

        ensures made { MakesAtMost 4 (D.told disk.old) (D.told disk.new) result }
        ensures ok_state { OnOk result (self.new ≡ record self.old { seat = landed self.old.seat (Doubt.Record (length payload.now)) }) }
        ensures before_state { IsErrOf result Fault.Before → self.new ≡ self.old }
        ensures doubt_state { IsErrOf result Fault.Doubt → self.new ≡ record self.old { doubt = Some (Doubt.Record (length payload.now)) } }

        // From then on each crash leaves the record, with all that had been written elsewhere.
        ensures ok { IsTrue (D.told disk.old).honest → (r : Reading) → Stands self.old (D.told disk.old) r
            → OnOk result (Stands self.new (D.told disk.new) (with_payload r payload.now) × Now (D.told disk.new) (SameElsewhere r.shape (D.told disk.old).bytes)) }
        ensures before { IsTrue (D.told disk.old).honest → (r : Reading) → Stands self.old (D.told disk.old) r
            → IsErrOf result Fault.Before → Stands self.new (D.told disk.new) r × Leaves (D.told disk.old) (D.told disk.new) (Without r (D.told disk.old)) }
        ensures doubt { IsTrue (D.told disk.old).honest → (r : Reading) → Stands self.old (D.told disk.old) r
            → IsErrOf result Fault.Doubt → StandsInDoubt self.new (D.told disk.new) r (with_payload r payload.now) × Now (D.told disk.new) (SameElsewhere r.shape (D.told disk.old).bytes) }

        // A crash at any moment of the call leaves the records from before it, or one more.
        ensures crash { IsTrue (D.told disk.old).honest → (r : Reading) → Stands self.old (D.told disk.old) r
            → Leaves (D.told disk.old) (D.told disk.new) (Within r (with_payload r payload.now) (D.told disk.old)) }
        ensures bytes { IsTrue (D.told disk.old).honest → SameElsewhere self.old.shape (D.told disk.old).bytes (D.told disk.new).bytes }
    {
        if self.write_frame(disk, payload).is_err() {
            return Err(Fault::Before);
        }
        if self
            .commit(disk, Doubt::Record(payload.len() as u32))
            .is_err()
        {
            return Err(Fault::Doubt);
        }
        Ok(())
    }
}
