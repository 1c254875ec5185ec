//! The write of a gate that commits.

ghost use Rattle.std.specs.Prelude.{◌≡◌, ◌+◌, ◌*◌, ◌≤◌, ◌<◌, ℕ, List, length, IsTrue, OnOk, OnErr, None, IsSome};
ghost use Rattle.std.specs.Option.{ForSome};
ghost use Rattle.voice_journal.specs.Readings.{data_start};
ghost use Rattle.voice_journal.specs.Places.{FitsIn, commit_place};

use crate::device::write_synced;
use crate::seats::{Doubt, Journal, Seat, start_of};
use voice_outside::Disk;
use voice_units::{Failed, Shape};

// The byte of the disk whose gate commits what is in doubt.
fn place_of(shape: &Shape, seat: &Seat, doubt: Doubt) -> u64
    requires { FitsIn shape.now seat.now doubt }
    ensures value { result ≡ commit_place shape.now seat.now doubt }
    ensures from { 64 ≤ result }
    ensures within { result + 1 ≤ data_start shape.now }
{
    match doubt {
        Doubt::Record(_) => start_of(shape, seat.second) + u64::from(seat.gate),
        Doubt::Area(_) => start_of(shape, !seat.second),
    }
}

impl Journal {
    ghost use Rattle.std.specs.Prelude.{Some};
    ghost use Rattle.voice_outside.specs.Disk.{Now, Leaves, MakesAtMost};
    ghost use Rattle.disk_areas.specs.Areas.{Journal as Reading};
    ghost use Rattle.voice_journal.specs.Readings.{extent, SameElsewhere, NearOld, WithinLand};
    ghost use Rattle.voice_journal.specs.Places.{landed, closed_after, FitsIn};
    ghost use Rattle.voice_journal.specs.Stands.{Stands, StandsInDoubt, IsReady};

    // Writes 1 at the gate that commits, and syncs. It is in doubt whether a call that fails wrote it.
    pub fn commit<D: Disk>(&mut self, disk: &mut D, doubt: Doubt) -> Result<(), Failed>
        requires shape_fits { extent self.old.shape ≤ (D.told disk.old).size }
        requires fits { FitsIn self.old.shape self.old.seat doubt }

        ensures made { MakesAtMost 2 (D.told disk.old) (D.told disk.new) result }
        ensures ok_state { OnOk result (self.new ≡ record self.old { seat = landed self.old.seat doubt; doubt = None; is_closed = closed_after self.old.is_closed doubt }) }
        ensures failed_state { OnErr result (self.new ≡ record self.old { doubt = Some doubt }) }

        ensures ok { IsTrue (D.told disk.old).honest → (r s : Reading) → IsReady self.old doubt (D.told disk.old) r s → OnOk result (Stands self.new (D.told disk.new) s) }
        ensures failed { IsTrue (D.told disk.old).honest → (r s : Reading) → IsReady self.old doubt (D.told disk.old) r s → OnErr result (StandsInDoubt self.new (D.told disk.new) r s) }
        ensures crash { IsTrue (D.told disk.old).honest → (r s : Reading) → IsReady self.old doubt (D.told disk.old) r s → Leaves (D.told disk.old) (D.told disk.new) (WithinLand r s (D.told disk.old)) }
        ensures near { IsTrue (D.told disk.old).honest → Now (D.told disk.new) (NearOld self.old.shape (D.told disk.old)) }
        ensures bytes { IsTrue (D.told disk.old).honest → SameElsewhere self.old.shape (D.told disk.old).bytes (D.told disk.new).bytes }
    {
        let place = place_of(&self.shape, &self.seat, doubt);
        if write_synced(disk, place, &[1]).is_err() {
            self.doubt = Some(doubt);
            return Err(Failed);
        }
        self.doubt = None;
        match doubt {
            Doubt::Record(len) => self.seat.gate += 5 + len,
            Doubt::Area(gate) => {
                self.seat = Seat {
                    second: !self.seat.second,
                    epoch: self.seat.epoch + 1,
                    gate,
                };
                self.is_closed = false;
            }
        }
        Ok(())
    }

    /// Lands what is in doubt: writes its gate and syncs once more. After `Failed` it is in doubt as before. It takes no memory.
    pub fn land<D: Disk>(&mut self, disk: &mut D) -> Result<(), Failed>
        requires shape_fits { extent self.old.shape ≤ (D.told disk.old).size }
        requires unsure { IsSome self.old.doubt }

        ensures made { MakesAtMost 2 (D.told disk.old) (D.told disk.new) result }
        ensures ok_state { OnOk result (ForSome self.old.doubt (λ doubt. self.new ≡ record self.old { seat = landed self.old.seat doubt; doubt = None; is_closed = closed_after self.old.is_closed doubt })) }
        ensures failed_state { OnErr result (self.new ≡ self.old) }

        // From then on each crash leaves the change.
        ensures ok { IsTrue (D.told disk.old).honest → (r s : Reading) → StandsInDoubt self.old (D.told disk.old) r s → OnOk result (Stands self.new (D.told disk.new) s) }
        ensures failed { IsTrue (D.told disk.old).honest → (r s : Reading) → StandsInDoubt self.old (D.told disk.old) r s → OnErr result (StandsInDoubt self.new (D.told disk.new) r s) }

        // A crash at any moment of the call leaves the journal from before the change, or the one after it.
        ensures crash { IsTrue (D.told disk.old).honest → (r s : Reading) → StandsInDoubt self.old (D.told disk.old) r s → Leaves (D.told disk.old) (D.told disk.new) (WithinLand r s (D.told disk.old)) }
        ensures bytes { IsTrue (D.told disk.old).honest → SameElsewhere self.old.shape (D.told disk.old).bytes (D.told disk.new).bytes }
    {
        match self.doubt {
            Some(doubt) => self.commit(disk, doubt),
            None => Ok(()),
        }
    }
}
