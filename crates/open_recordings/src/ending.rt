//! An open recording ends: its rope is made ready while its blocks are still the recording's, so that a change that is refused has nothing to undo.

ghost use Rattle.std.specs.Prelude.{◌≡◌, ℕ, ◌+◌, ◌≤◌, ◌<◌, ◌^◌, List, [], true, length, IfOk};
ghost use Rattle.voice_units.specs.declared.Piece.{Piece as PieceValue};
ghost use Rattle.voice_units.specs.Spots.{spots_from, pieces_of, samples_in};
ghost use Rattle.voice_units.specs.Blocks.{blocks_for};
ghost use Rattle.voice_blocks.specs.declared.owner.Owner.TheVariants as owners;
ghost use Rattle.voice_blocks.specs.Holders.{EachBecomes, renamed};
ghost use Rattle.voice_model.specs.declared.Change.{Change};
ghost use Rattle.voice_model.specs.Spelling.{spelling, keeps_grammar};
ghost use Rattle.voice_model.specs.Replay.{Rebuilt, all_differ, acted};
ghost use Rattle.running_tables.specs.Running.{Runs, taken};
ghost use Rattle.running_tables.specs.Laws.{HasEnded};
ghost use Rattle.next_ropes.specs.Ready.{IsReady, most_held, next_change, recorded_change};
ghost use Rattle.open_recordings.specs.Blocks.{AreAddresses};
ghost use Rattle.open_recordings.specs.Ending.{HasTaken, IsEnding};

use crate::addresses::addresses_of;
use crate::payloads::recording_payload;
use crate::room::make_room;
use next_ropes::{NextRope, copy_with_room};
use recovery::Parts;
use rope_algebra::Pieces;
use std::alloc::Global;
use voice_units::{Lane, NoMemory, Piece, RopeId, Shape, blocks_needed};

/// The rope of these pieces, whose blocks are those of a lane's open recording.
fn ended_recording(
    alloc: Global,
    parts: &Parts,
    lane: Lane,
    pieces: Pieces,
    count: u32,
) -> Result<NextRope, NoMemory>
    requires number { parts.now.next ≤ 2 ^ 48 }
    requires blocks { (addresses : List ℕ) × AreAddresses parts.now.blocks.holders (owners.Taking lane) 0 count addresses × (keeps_grammar (recorded_change parts.now.form parts.now.next (samples_in pieces) addresses) ≡ true) }
    ensures id { IfOk result (λ next. next.id ≡ parts.now.next) }
    ensures pieces { IfOk result (λ next. next.pieces ≡ pieces) }
    ensures recorded { IfOk result (λ next. next.recorded ≡ true) }
    ensures addresses { (addresses : List ℕ) → AreAddresses parts.now.blocks.holders (owners.Taking lane) 0 count addresses → IfOk result (λ next. next.addresses.items ≡ addresses) }
    ensures payload { IfOk result (λ next. next.payload.items ≡ spelling (recorded_change parts.now.form parts.now.next (samples_in pieces) next.addresses.items)) }
{
    let id = RopeId(parts.next);
    let list = Vec::with_capacity(alloc, count as usize)?;
    let addresses = addresses_of(&parts.blocks, lane, 0, count, list);
    let payload = recording_payload(alloc, parts.form, id, pieces.length(), &addresses)?;
    Ok(NextRope {
        id,
        pieces,
        recorded: true,
        addresses,
        payload,
    })
}

/// Makes the rope of a lane's open recording ready, as the recording is to end after so many samples. Its blocks stay those of the recording, and the tables show what they did, also after NoMemory. It takes a step for each block.
pub fn ready_ended(
    alloc: Global,
    parts: &mut Parts,
    shape: &Shape,
    lane: Lane,
    len: u32,
) -> Result<NextRope, NoMemory>
    requires parts { HasTaken shape.now lane len parts.old }
    requires most { len ≤ 2 ^ 30 }
    requires number { parts.old.next ≤ 2 ^ 48 }
    ensures ready { (held : List (List PieceValue)) (takings : List ℕ) (b : Rebuilt) → Runs held [] takings parts.old b → length held ≤ most_held → b.shape ≡ shape.now → taken takings lane ≡ blocks_for shape.now.block len → IfOk result (λ next. IsEnding held takings lane parts.new b next (next_change b.form next)) }
    ensures addresses { IfOk result (λ next. (length next.addresses.items ≡ blocks_for shape.now.block len) × (all_differ next.addresses.items ≡ true)) }
    ensures own { IfOk result (λ next. AreAddresses parts.old.blocks.holders (owners.Taking lane) 0 (blocks_for shape.now.block len) next.addresses.items) }
    ensures id { IfOk result (λ next. next.id ≡ parts.old.next) }
    ensures pieces { IfOk result (λ next. next.pieces ≡ pieces_of (spots_from next.id 0 len)) }
    ensures recorded { IfOk result (λ next. next.recorded ≡ true) }
    ensures same { (held : List (List PieceValue)) (takings : List ℕ) (b : Rebuilt) → Runs held [] takings parts.old b → Runs held [] takings parts.new b }
    ensures holders { parts.new.blocks.holders ≡ parts.old.blocks.holders }
{
    let id = RopeId(parts.next);
    let pieces = Pieces::one(
        alloc,
        Piece {
            file: id,
            from: 0,
            len,
        },
    )?;
    let count = blocks_needed(shape.block, len as u64);
    make_room(parts, count)?;
    let next = ended_recording(alloc, parts, lane, pieces, count)?;
    Ok(next)
}

/// The blocks of a lane's open recording become those of the new file. It takes no memory.
pub fn pledge(parts: &mut Parts, lane: Lane, next: &NextRope)
    requires { (held : List (List PieceValue)) × (takings : List ℕ) × (b : Rebuilt) × (c : Change) × IsEnding held takings lane parts.old b next.now c }
    ensures ready { (held : List (List PieceValue)) (takings more : List ℕ) (b : Rebuilt) (c : Change) → IsEnding held takings lane parts.old b next.now c → HasEnded lane takings more → IsReady held more parts.new b next.now c }
    ensures holders { EachBecomes (renamed lane next.now.id) parts.old.blocks.holders parts.new.blocks.holders }
    ensures rest { parts.new ≡ record parts.old { blocks = parts.new.blocks } }
{
    parts.blocks.rename(lane, next.id);
}

/// How many blocks the rope brings.
fn blocks_of(next: &NextRope) -> u32
    requires { length next.now.addresses.items < 2 ^ 32 }
    ensures { result ≡ length next.now.addresses.items }
{
    next.addresses.len() as u32
}

/// The tables after the recording has ended and its rope has come; these stay as they are. It goes over all tables.
pub fn parts_after(
    parts: &Parts,
    shape: &Shape,
    lane: Lane,
    next: &NextRope,
) -> Result<Parts, NoMemory>
    requires { (held : List (List PieceValue)) × (takings : List ℕ) × (b : Rebuilt) × (c : Change) × IsEnding held takings lane parts.now b next.now c }
    ensures { (held : List (List PieceValue)) (takings more : List ℕ) (b : Rebuilt) (c : Change) → IsEnding held takings lane parts.now b next.now c → HasEnded lane takings more → b.shape ≡ shape.now → IfOk result (λ after. Runs held [] more after (acted b c)) }
{
    let pieces = next.pieces.copy()?;
    let mut after = copy_with_room(parts, blocks_of(next))?;
    pledge(&mut after, lane, next);
    after.add_rope(next.id, pieces, shape.graces.common);
    Ok(after)
}
