//! Bytes are added to an open recording.

ghost use Rattle.std.specs.Prelude.{◌≡◌, ℕ, ◌+◌, ◌*◌, ◌/◌, ◌<◌, ◌≤◌, ◌^◌, ◌++◌, List, length, slice_index, IsTrue, OnErr};
ghost use Rattle.voice_units.specs.Layout.{bytes_needed};
ghost use Rattle.voice_units.specs.declared.Piece.{Piece};
ghost use Rattle.voice_units.specs.declared.pieces.Take.{Take};
ghost use Rattle.voice_outside.specs.Counters.{HasRisen};
ghost use Rattle.voice_blocks.specs.Holders.{open_in};
ghost use Rattle.voice_model.specs.State.{State};
ghost use Rattle.voice_model.specs.Replay.{Rebuilt};
ghost use Rattle.voice_model.specs.Tapes.{taken as taken_of};
ghost use Rattle.voice_model.specs.Changes.{taking_of};
ghost use Rattle.voice_model.specs.Step.{on_lanes};
ghost use Rattle.voice_model.specs.declared.calls.Call.TheVariants as calls;
ghost use Rattle.running_tables.specs.Running.{Runs};
ghost use Rattle.running_tables.specs.Laws.{HasGrown};
ghost use Rattle.next_ropes.specs.Addresses.{KeepsAddresses};
ghost use Rattle.open_recordings.specs.Blocks.{HandsOut};
ghost use Rattle.recording_calls.specs.Shown.{ShowsRecordings, MayAdd, recording_at, total_in};
ghost use Rattle.recording_adds.specs.Adds.{HoldsBlocks, WroteOwn, HasWhole, MakesCalls, OnAdded, OnFault, OnNone, blocks_more, whole_more};

use crate::writing::write_taken;
use open_recordings::{grow, shrink};
use recording_calls::{Added, Recordings};
use recovery::Parts;
use std::alloc::Global;
use voice_outside::Disk;
use voice_units::{Lane, NoMemory, Shape, blocks_needed};

/// Takes addresses for the blocks that a recording of so many bytes takes with n bytes more, and writes the blocks that become whole. After a device fault its addresses are given back.
fn take_and_write<D: Disk>(
    alloc: Global,
    shape: &Shape,
    disk: &mut D,
    parts: &mut Parts,
    lane: Lane,
    total: u32,
    n: u32,
    samples: &[u8],
) -> Result<bool, NoMemory>
    requires holds { HoldsBlocks shape.now lane total parts.old }
    requires most { total + n ≤ 2 ^ 30 }
    requires whole { length samples.now ≡ whole_more shape.now.block total n * shape.now.block }
    requires free { blocks_more shape.now.block total n ≤ open_in parts.old.blocks.holders }
    requires fits { bytes_needed shape.now.block shape.now.blocks shape.now.area ≤ (D.told disk.old).size }
    ensures grown { (held pledged : List (List Piece)) (takings more : List ℕ) (b : Rebuilt) → Runs held pledged takings parts.old b → HasGrown lane (blocks_more shape.now.block total n) takings more → OnAdded result (Runs held pledged more parts.new b) }
    ensures back { (held pledged : List (List Piece)) (takings : List ℕ) (b : Rebuilt) → Runs held pledged takings parts.old b → OnNone result (Runs held pledged takings parts.new b) }
    ensures wrote { IsTrue (D.told disk.old).honest → WroteOwn shape.now parts.old.blocks.holders lane (total / shape.now.block) (D.told disk.old) (D.told disk.new) }
    ensures whole { IsTrue (D.told disk.old).honest → (before after : List ℕ) → length before ≡ total → length after ≡ total + n → ((k : ℕ) → k < total → slice_index after k ≡ slice_index before k) → ((k : ℕ) → k < length samples.now → slice_index samples.now k ≡ slice_index after (total / shape.now.block * shape.now.block + k)) → HasWhole shape.now (D.told disk.old).bytes parts.old.blocks.holders lane before → OnAdded result (HasWhole shape.now (D.told disk.new).bytes parts.new.blocks.holders lane after) }
    ensures stands { IsTrue (D.told disk.old).honest → (before : List ℕ) → length before ≡ total → HasWhole shape.now (D.told disk.old).bytes parts.old.blocks.holders lane before → OnNone result (HasWhole shape.now (D.told disk.new).bytes parts.new.blocks.holders lane before) }
    ensures hands { OnAdded result (HandsOut lane parts.old.blocks.holders parts.new.blocks.holders) }
    ensures stays { KeepsAddresses parts.new.blocks.holders parts.old.blocks.holders }
    ensures none { OnNone result (KeepsAddresses parts.old.blocks.holders parts.new.blocks.holders) }
    ensures rest { parts.new ≡ record parts.old { blocks = parts.new.blocks } }
    ensures made { MakesCalls (whole_more shape.now.block total n) (D.told disk.old) (D.told disk.new) }
    ensures cause { OnFault result (HasRisen (D.told disk.old).faults (D.told disk.new).faults) }
    ensures reached { OnFault result (0 < whole_more shape.now.block total n) }
    ensures still { OnErr result (disk.new ≡ disk.old) }
{
    let from = blocks_needed(shape.block, total as u64);
    let more = blocks_needed(shape.block, (total + n) as u64) - from;
    let first = total / shape.block;
    let count = (total + n) / shape.block - first;
    let list = Vec::with_capacity(alloc, count as usize)?;
    let _taken = grow(alloc, parts, lane, more)?;
    let written = write_taken(
        shape,
        disk,
        &parts.blocks,
        lane,
        first,
        count,
        samples,
        list,
    );
    let Ok(()) = written else {
        shrink(parts, lane, from, more);
        return Ok(false);
    };
    Ok(true)
}

/// Adds bytes to the open recording of a lane: it takes the lowest free addresses for the blocks that they need, and writes the blocks that became whole, with no sync. True says that they were added; false, that a device call failed: then the recording is as it was, and the addresses are free again. After NoMemory the disk and the recordings are as they were, and the tables show what they did.
pub fn add<D: Disk>(
    alloc: Global,
    shape: &Shape,
    disk: &mut D,
    parts: &mut Parts,
    recordings: &mut Recordings,
    lane: Lane,
    bytes: &[u8],
) -> Result<bool, NoMemory>
    requires may { MayAdd recordings.old lane (length bytes.now) }
    requires shown { (s : State) × ShowsRecordings recordings.old s × (s.shape.block ≡ shape.now.block) }
    requires holds { HoldsBlocks shape.now lane (total_in (recording_at recordings.old lane)) parts.old }
    requires free { blocks_more shape.now.block (total_in (recording_at recordings.old lane)) (length bytes.now) ≤ open_in parts.old.blocks.holders }
    requires fits { bytes_needed shape.now.block shape.now.blocks shape.now.area ≤ (D.told disk.old).size }
    ensures grown { (held pledged : List (List Piece)) (takings more : List ℕ) (b : Rebuilt) → Runs held pledged takings parts.old b → HasGrown lane (blocks_more shape.now.block (total_in (recording_at recordings.old lane)) (length bytes.now)) takings more → OnAdded result (Runs held pledged more parts.new b) }
    ensures back { (held pledged : List (List Piece)) (takings : List ℕ) (b : Rebuilt) → Runs held pledged takings parts.old b → OnNone result (Runs held pledged takings parts.new b) }
    ensures shows { (s : State) (tapes : List (List ℕ)) (take : Take) → ShowsRecordings recordings.old s → bytes.now ≡ taken_of tapes take → OnAdded result (ShowsRecordings recordings.new (on_lanes s tapes (calls.Add lane take))) }
    ensures same { OnNone result (recordings.new ≡ recordings.old) }
    ensures wrote { IsTrue (D.told disk.old).honest → WroteOwn shape.now parts.old.blocks.holders lane (total_in (recording_at recordings.old lane) / shape.now.block) (D.told disk.old) (D.told disk.new) }
    ensures whole { IsTrue (D.told disk.old).honest → (s : State) → ShowsRecordings recordings.old s → s.shape.block ≡ shape.now.block → HasWhole shape.now (D.told disk.old).bytes parts.old.blocks.holders lane (taking_of s lane) → OnAdded result (HasWhole shape.now (D.told disk.new).bytes parts.new.blocks.holders lane (taking_of s lane ++ bytes.now)) }
    ensures stands { IsTrue (D.told disk.old).honest → (s : State) → ShowsRecordings recordings.old s → s.shape.block ≡ shape.now.block → HasWhole shape.now (D.told disk.old).bytes parts.old.blocks.holders lane (taking_of s lane) → OnNone result (HasWhole shape.now (D.told disk.new).bytes parts.new.blocks.holders lane (taking_of s lane)) }
    ensures hands { OnAdded result (HandsOut lane parts.old.blocks.holders parts.new.blocks.holders) }
    ensures stays { KeepsAddresses parts.new.blocks.holders parts.old.blocks.holders }
    ensures none { OnNone result (KeepsAddresses parts.old.blocks.holders parts.new.blocks.holders) }
    ensures rest { parts.new ≡ record parts.old { blocks = parts.new.blocks } }
    ensures made { MakesCalls (whole_more shape.now.block (total_in (recording_at recordings.old lane)) (length bytes.now)) (D.told disk.old) (D.told disk.new) }
    ensures cause { OnFault result (HasRisen (D.told disk.old).faults (D.told disk.new).faults) }
    ensures reached { OnFault result (0 < whole_more shape.now.block (total_in (recording_at recordings.old lane)) (length bytes.now)) }
    ensures still { OnErr result (disk.new ≡ disk.old) }
{
    let Added { taking, blocks } = recordings.added(lane, bytes)?;
    let total = recordings.total(lane);
    let n = bytes.len() as u32;
    let done = take_and_write(alloc, shape, disk, parts, lane, total, n, &blocks)?;
    if !done {
        return Ok(false);
    }
    recordings.put(lane, taking);
    Ok(true)
}
