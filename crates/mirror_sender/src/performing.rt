//! Changes that are ready get room, and are done.

ghost use Rattle.std.specs.Prelude.{◌≡◌, ℕ, ◌+◌, ◌≤◌, ◌^◌, List, OnOk, length, vec_capacity};
ghost use Rattle.voice_model.specs.Samples.{Tagged};
ghost use Rattle.voice_model.specs.State.{Durable, Effect};
ghost use Rattle.voice_model.specs.Changes.{changed};
ghost use Rattle.mirror_sender.specs.Told.{IsTold};
ghost use Rattle.mirror_sender.specs.Coming.{IsNextOf, HasRoom, body_size, FitsRope, CanBeDone};

use crate::coming::Next;
use recovery::Parts;
use voice_units::{MOST_ROPES, NoMemory, RopeId, Shape, blocks_needed};

/// The greatest number of a packet.
const LAST_PACKET: u64 = 1 << 48;

// Makes room for one more rope and so many blocks that nothing uses yet. Too many ropes count as want of memory.
fn fit_rope(parts: &mut Parts, blocks: u32) -> Result<(), NoMemory>
    ensures fits { OnOk result (FitsRope parts.new blocks) }
    ensures told { (own : Durable Tagged) → IsTold own parts.old → IsTold own parts.new }
    ensures block { parts.new.ropes.block ≡ parts.old.ropes.block }
    ensures interests { parts.new.interests ≡ parts.old.interests }
    ensures form { parts.new.form ≡ parts.old.form }
{
    if parts.ropes.count() > MOST_ROPES {
        return Err(NoMemory);
    }
    parts.ropes.reserve(blocks)?;
    Ok(())
}

// Makes room in the tables for a change.
fn fit(parts: &mut Parts, next: &Next) -> Result<(), NoMemory>
    ensures room { OnOk result (HasRoom parts.new next.now) }
    ensures told { (own : Durable Tagged) → IsTold own parts.old → IsTold own parts.new }
    ensures interests { parts.new.interests ≡ parts.old.interests }
    ensures form { parts.new.form ≡ parts.old.form }
{
    match next {
        Next::Edit(_) => fit_rope(parts, 0),
        Next::Voice(pieces, _) => {
            let blocks = blocks_needed(parts.ropes.block(), u64::from(pieces.length()));
            fit_rope(parts, blocks)
        }
        Next::Other(_) => Ok(()),
    }
}

/// Makes room for a change in the tables, and for its packet of this number behind the bytes that there are. A number above 2^48 counts as want of memory.
pub(crate) fn make_room(
    parts: &mut Parts,
    next: &Next,
    number: u64,
    out: &mut Vec<u8>,
) -> Result<(), NoMemory>
    requires { (own : Durable Tagged) × (tapes : List (List ℕ)) × (spare : ℕ) × (effect : Effect Tagged) × IsNextOf own tapes spare next.now effect }
    ensures number { OnOk result (number ≤ 2 ^ 48) }
    ensures room { OnOk result (HasRoom parts.new next.now) }
    ensures spare { OnOk result (length out.new.items + (12 + body_size next.now) ≤ vec_capacity out.new) }
    ensures items { out.new.items ≡ out.old.items }
    ensures told { (own : Durable Tagged) → IsTold own parts.old → IsTold own parts.new }
    ensures interests { parts.new.interests ≡ parts.old.interests }
    ensures form { parts.new.form ≡ parts.old.form }
{
    if number > LAST_PACKET {
        return Err(NoMemory);
    }
    let size = next.body_size();
    fit(parts, next)?;
    out.reserve(12 + size as usize)?;
    Ok(())
}

/// The change is done. It takes no memory.
pub(crate) fn perform(parts: &mut Parts, shape: &Shape, next: Next)
    requires can { (own : Durable Tagged) × (tapes : List (List ℕ)) × (effect : Effect Tagged) × CanBeDone own tapes shape.now parts.old next effect }
    requires room { HasRoom parts.old next }
    ensures told { (own : Durable Tagged) (tapes : List (List ℕ)) (effect : Effect Tagged) → CanBeDone own tapes shape.now parts.old next effect → IsTold (changed parts.old.form own effect) parts.new }
    ensures form { parts.new.form ≡ parts.old.form }
{
    match next {
        Next::Edit(pieces) => parts.add_rope(RopeId(parts.next), pieces, shape.graces.common),
        Next::Voice(pieces, _) => parts.add_rope(RopeId(parts.next), pieces, shape.graces.common),
        Next::Other(ready) => ready_changes::perform(parts, shape, &ready),
    }
}
