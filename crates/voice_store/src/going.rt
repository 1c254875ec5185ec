//! A change on its way to the journal.

ghost use Rattle.std.specs.Prelude.{◌≡◌, ℕ, List, [], IfOk};
ghost use Rattle.voice_units.specs.declared.Piece.{Piece};
ghost use Rattle.voice_units.specs.declared.shapes.Shape.{Shape as ShapeValue};
ghost use Rattle.voice_model.specs.Replay.{Rebuilt, acted};
ghost use Rattle.voice_model.specs.declared.Change.{Change};
ghost use Rattle.running_tables.specs.Running.{Runs};
ghost use Rattle.next_ropes.specs.Addresses.{KeepsAddresses};
ghost use Rattle.next_changes.specs.Next.{IsNext};
ghost use Rattle.voice_store.specs.Going.{IsCounted, IsGoing, IsGoingIn, closed_in, counted_as, payload_in};

use next_changes::{NextChange, give_back, parts_after};
use next_ropes::NextRope;
use open_recordings::pledge;
use recording_calls::Recordings;
use recovery::Parts;
use std::alloc::Global;
use voice_units::{Lane, NoMemory, Shape};

/// A change on its way to the journal: one that is ready in the tables, or the rope of a lane's open recording, whose blocks are the recording's until it counts.
#[derive(Drop)]
pub(crate) enum Going {
    Change(NextChange),
    Ending(Lane, NextRope),
}

impl Going {
    /// Its payload.
    pub(crate) fn payload(&self) -> &[u8]
        ensures { result.now ≡ payload_in self.now }
    {
        match self {
            Going::Change(next) => next.payload(),
            Going::Ending(_, rope) => &rope.payload,
        }
    }
}

/// The tables once it counts and is done; these stay as they are.
pub(crate) fn tables_after(
    alloc: Global,
    parts: &Parts,
    shape: &Shape,
    going: &Going,
) -> Result<Parts, NoMemory>
    requires { IsGoingIn shape.now parts.now going.now }
    ensures { (held : List (List Piece)) (takings more : List ℕ) (b : Rebuilt) (c : Change) → IsGoing held takings more parts.now b going.now c → b.shape ≡ shape.now → IfOk result (λ after. Runs held [] more after (acted b c)) }
{
    match going {
        Going::Change(next) => parts_after(alloc, parts, shape, next),
        Going::Ending(lane, rope) => open_recordings::parts_after(parts, shape, *lane, rope),
    }
}

/// It counts: the blocks of a recording that ends become those of the new file, and the recording is closed. What has to be done of it then is a change that is ready in the tables. It takes no memory.
pub(crate) fn count(parts: &mut Parts, recordings: &mut Recordings, going: Going) -> NextChange
    requires { (shape : ShapeValue) × IsGoingIn shape parts.old going }
    ensures ready { (held : List (List Piece)) (takings more : List ℕ) (b : Rebuilt) (c : Change) → IsGoing held takings more parts.old b going c → IsNext held more parts.new b result c }
    ensures change { result ≡ counted_as going }
    ensures addresses { IsCounted going parts.old.blocks.holders parts.new.blocks.holders }
    ensures tables { parts.new ≡ record parts.old { blocks = parts.new.blocks } }
    ensures recordings { recordings.new ≡ closed_in going recordings.old }
{
    match going {
        Going::Change(next) => next,
        Going::Ending(lane, rope) => {
            pledge(parts, lane, &rope);
            recordings.close(lane);
            NextChange::Rope(rope)
        }
    }
}

/// It does not count, and is given back: a recording that was to end stays open. It takes no memory.
pub(crate) fn give_up(parts: &mut Parts, going: Going)
    requires { (shape : ShapeValue) × IsGoingIn shape parts.old going }
    ensures tables { (held : List (List Piece)) (takings more : List ℕ) (b : Rebuilt) (c : Change) → IsGoing held takings more parts.old b going c → Runs held [] takings parts.new b }
    ensures kept { KeepsAddresses parts.old.blocks.holders parts.new.blocks.holders }
{
    match going {
        Going::Change(next) => give_back(parts, next),
        Going::Ending(..) => {}
    }
}
