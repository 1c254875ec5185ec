//! A change goes to the disk.

ghost use Rattle.std.specs.Prelude.{◌≡◌, ◌+◌, ◌^◌, ◌<◌, ◌≤◌, ℕ, List, None, IsTrue, IsSome, IsErrOf, OnOk};
ghost use Rattle.voice_outside.specs.Disk.{MakesAtMost};
ghost use Rattle.voice_outside.specs.Counters.{HasRisen};
ghost use Rattle.voice_journal.specs.Readings.{extent};
ghost use Rattle.voice_model.specs.Samples.{Tagged};
ghost use Rattle.voice_model.specs.State.{Durable, Effect};
ghost use Rattle.voice_model.specs.Changes.{changed};
ghost use Rattle.voice_model.specs.Replay.{Rebuilt, acted, recovered};
ghost use Rattle.voice_model.specs.declared.Change.{Change};
ghost use Rattle.crash_laws.specs.Calls.{Does, Undoes, Doubts, StaysWithin};
ghost use Rattle.mirror_laws.specs.Standing.{Took, kept_after, effects_of};
ghost use Rattle.mirror_tables.specs.declared.beside.Beside.TheVariants.{Behind};
ghost use Rattle.voice_mirror.specs.Shown.{Keeps, IsStanding, state_of};
ghost use Rattle.voice_mirror.specs.Taking.{Becomes};
ghost use Rattle.voice_mirror.specs.Ready.{IsHow, MayCommit, IsPut, IsOfDevice, Commits, put_on};
ghost use Rattle.voice_mirror.specs.Promoting.{Goes};

use crate::answers::Taken;
use crate::discarding::{discard_change, discard_tables};
use crate::inside::{Inside, Pending};
use crate::landing::take_in;
use crate::ready::{How, Ready};
use mirror_laws::laws::foundations;
use recovery::Parts;
use voice_journal::{Fault, Journal};
use voice_model::Change;
use voice_outside::Disk;

// Appends the record, or switches to the base.
fn put<D: Disk>(disk: &mut D, journal: &mut Journal, how: &How) -> Result<(), Fault>
    requires shape_fits { extent journal.old.shape ≤ (D.told disk.old).size }
    requires sure { journal.old.doubt ≡ None }
    requires fits { (number : ℕ) × (x : Rebuilt) × (change : Change) × IsHow journal.old number x change how.now }
    ensures made { MakesAtMost 6 (D.told disk.old) (D.told disk.new) result }
    ensures shape { journal.new.shape ≡ journal.old.shape }
    ensures ok_state { OnOk result (journal.new.doubt ≡ None) }
    ensures before_state { IsErrOf result Fault.Before → journal.new.doubt ≡ None }
    ensures doubt_state { IsErrOf result Fault.Doubt → IsSome journal.new.doubt }
    ensures ok { IsTrue (D.told disk.old).honest → OnOk result (Does (put_on how.now) journal.old journal.new (D.told disk.old) (D.told disk.new)) }
    ensures before { IsTrue (D.told disk.old).honest → IsErrOf result Fault.Before → Undoes journal.old journal.new (D.told disk.old) (D.told disk.new) }
    ensures doubt { IsTrue (D.told disk.old).honest → IsErrOf result Fault.Doubt → Doubts (put_on how.now) journal.old journal.new (D.told disk.old) (D.told disk.new) }
    ensures crash { IsTrue (D.told disk.old).honest → StaysWithin (put_on how.now) journal.old (D.told disk.old) (D.told disk.new) }
{
    match how {
        How::Append(payload) => journal.append(disk, payload),
        How::Switch(base) => journal.switch(disk, base),
    }
}

// Leaves a change in doubt.
fn wait(inside: &mut Inside, tables: Parts, change: Change)
    requires { inside.old.pending ≡ None }
    ensures { inside.new ≡ record inside.old { pending = Some (record { tables = tables; change = change }) } }
{
    let _none = inside.pending.replace(Pending { tables, change });
}

// Takes in tables whose change was put, keeps them ahead, or lets them go, by how that went.
fn taken_by(inside: &mut Inside, tables: Parts, change: Change, put: Result<(), Fault>) -> Taken
    requires sure { inside.old.pending ≡ None }
    requires low { inside.old.position < 2 ^ 48 }
    ensures ok { OnOk put ((result ≡ Taken.Done) × (inside.new ≡ record inside.old { parts = tables; beside = Behind inside.old.parts change; position = inside.old.position + 1 })) }
    ensures before { IsErrOf put Fault.Before → (result ≡ Taken.DiskFault) × (inside.new ≡ inside.old) }
    ensures doubt { IsErrOf put Fault.Doubt → (result ≡ Taken.InDoubt) × (inside.new ≡ record inside.old { pending = Some (record { tables = tables; change = change }) }) }
{
    match put {
        Ok(()) => {
            take_in(inside, tables, change);
            Taken::Done
        }
        Err(Fault::Before) => {
            discard_change(change);
            discard_tables(tables);
            Taken::DiskFault
        }
        Err(Fault::Doubt) => {
            wait(inside, tables, change);
            Taken::InDoubt
        }
    }
}

/// Puts a change that is ready. It makes at most 6 device calls.
pub(crate) fn commit<D: Disk>(disk: &mut D, inside: &mut Inside, number: u64, ready: Ready) -> Taken
    requires standing { IsStanding (D.told disk.old).size inside.old }
    requires may { MayCommit (state_of inside.old) number ready }
    ensures goes { Goes 6 (D.told disk.old) (D.told disk.new) }
    ensures standing { IsStanding (D.told disk.new).size inside.new }
    ensures put { IsPut result }
    ensures becomes { Becomes (state_of inside.old) result (state_of inside.new) }
    ensures fault { IsOfDevice result → HasRisen (D.told disk.old).faults (D.told disk.new).faults }
    ensures alloc { inside.new.alloc ≡ inside.old.alloc }
    ensures shape { inside.new.journal.shape ≡ inside.old.journal.shape }
    ensures commits { IsTrue (D.told disk.old).honest → (first : Durable Tagged) (from t0 : ℕ) (taken : List Took) (effect : Effect Tagged) → (k : Keeps first from t0 taken None (D.told disk.old) (state_of inside.old))
        → recovered (D.told disk.old).bytes (acted k.now ready.change) ≡ changed 2 (kept_after first (effects_of taken)) effect
        → Commits first from t0 taken (D.told disk.new) (state_of inside.new) effect result }
{
    foundations();
    let Ready {
        tables,
        change,
        how,
    } = ready;
    let put = put(disk, &mut inside.journal, &how);
    taken_by(inside, tables, change, put)
}
