//! Recordings, whose blocks are held before they come.

ghost use Rattle.std.specs.Prelude.{◌≡◌, ℕ, ◌+◌, ◌<◌, ◌≤◌, ◌^◌, List, [], true, length, IfOk, OnOk, OnErr};
ghost use Rattle.voice_units.specs.declared.Piece.{Piece as PieceValue};
ghost use Rattle.std.specs.List.{list_all};
ghost use Rattle.voice_units.specs.Spots.{spots_from, pieces_of, samples_in};
ghost use Rattle.voice_units.specs.Blocks.{blocks_for};
ghost use Rattle.voice_blocks.specs.Holders.{open_in};
ghost use Rattle.voice_model.specs.Spelling.{spelling, keeps_grammar};
ghost use Rattle.voice_model.specs.Replay.{Rebuilt, all_differ, is_free_address};
ghost use Rattle.running_tables.specs.Running.{Runs, AreRunning};
ghost use Rattle.next_ropes.specs.Ready.{IsReady, most_held, next_change, recorded_change};
ghost use Rattle.next_ropes.specs.Lowest.{AreAddresses, lowest_open};
ghost use Rattle.next_ropes.specs.Addresses.{KeepsAddresses, HandsOut};

use crate::NextRope;
use crate::payloads::recording_payload;
use crate::room::make_room;
use recovery::Parts;
use rope_algebra::Pieces;
use std::alloc::Global;
use voice_blocks::{BlockMap, Owner};
use voice_units::{NoMemory, Piece, RopeId, Shape, blocks_needed};

/// The addresses of the first blocks of a file, in rising index.
fn addresses_of(
    alloc: Global,
    blocks: &BlockMap,
    file: RopeId,
    count: u32,
) -> Result<Vec<u32>, NoMemory>
    ensures { (addresses : List ℕ) → AreAddresses blocks.now.holders file count addresses → IfOk result (λ found. found.items ≡ addresses) }
{
    let mut addresses = Vec::with_capacity(alloc, count as usize)?;
    for index in 0..count {
        let Some(address) = blocks.address(Owner::File(file), index) else {
            return Ok(addresses);
        };
        addresses.push(address)?;
    }
    Ok(addresses)
}

/// The recording of these pieces, whose blocks are held.
fn held_recording(
    alloc: Global,
    parts: &Parts,
    id: RopeId,
    pieces: Pieces,
    count: u32,
) -> Result<NextRope, NoMemory>
    requires { (addresses : List ℕ) × AreAddresses parts.now.blocks.holders id count addresses × (keeps_grammar (recorded_change parts.now.form id (samples_in pieces) addresses) ≡ true) }
    ensures id { IfOk result (λ next. next.id ≡ id) }
    ensures pieces { IfOk result (λ next. next.pieces ≡ pieces) }
    ensures recorded { IfOk result (λ next. next.recorded ≡ true) }
    ensures addresses { (addresses : List ℕ) → AreAddresses parts.now.blocks.holders id count addresses → IfOk result (λ next. next.addresses.items ≡ addresses) }
    ensures payload { IfOk result (λ next. next.payload.items ≡ spelling (recorded_change parts.now.form id (samples_in pieces) next.addresses.items)) }
{
    let addresses = addresses_of(alloc, &parts.blocks, id, count)?;
    let payload = recording_payload(alloc, parts.form, id, pieces.length(), &addresses)?;
    Ok(NextRope {
        id,
        pieces,
        recorded: true,
        addresses,
        payload,
    })
}

/// Makes the next rope ready: a recording of so many samples, whose blocks hold the lowest free addresses. After NoMemory the tables show what they did. It takes a step for each block.
pub fn ready_recording(
    alloc: Global,
    parts: &mut Parts,
    shape: &Shape,
    len: u32,
) -> Result<NextRope, NoMemory>
    requires parts { AreRunning shape.now parts.old }
    requires most { len ≤ 2 ^ 30 }
    requires number { parts.old.next ≤ 2 ^ 48 }
    requires free { blocks_for shape.now.block len ≤ open_in parts.old.blocks.holders }
    ensures ready { (held : List (List PieceValue)) (takings : List ℕ) (b : Rebuilt) → Runs held [] takings parts.old b → length held ≤ most_held → b.shape ≡ shape.now → IfOk result (λ next. IsReady held takings parts.new b next (next_change b.form next) × (length next.addresses.items ≡ blocks_for shape.now.block len) × (all_differ next.addresses.items ≡ true) × (list_all (is_free_address b) next.addresses.items ≡ true) × (next.pieces ≡ pieces_of (spots_from next.id 0 len))) }
    ensures recorded { IfOk result (λ next. next.recorded ≡ true) }
    ensures lowest { IfOk result (λ next. next.addresses.items ≡ lowest_open (blocks_for shape.now.block len) parts.old.blocks.holders) }
    ensures err { (held : List (List PieceValue)) (takings : List ℕ) (b : Rebuilt) → Runs held [] takings parts.old b → OnErr result (Runs held [] takings parts.new b) }
    ensures id { IfOk result (λ next. next.id ≡ parts.old.next) }
    ensures own { OnOk result (HandsOut parts.old.next parts.old.blocks.holders parts.new.blocks.holders) }
    ensures none { OnErr result (KeepsAddresses parts.old.blocks.holders parts.new.blocks.holders) }
{
    let id = RopeId(parts.next);
    let pieces = Pieces::one(
        alloc,
        Piece {
            file: id,
            from: 0,
            len,
        },
    )?;
    let count = blocks_needed(shape.block, len as u64);
    make_room(parts, count)?;
    // so many are free
    let _taken = parts.blocks.take(Owner::File(id), count);
    let Ok(next) = held_recording(alloc, parts, id, pieces, count) else {
        parts.blocks.drop_owner(Owner::File(id));
        return Err(NoMemory);
    };
    Ok(next)
}
