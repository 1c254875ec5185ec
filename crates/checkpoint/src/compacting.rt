//! The base, part by part.

ghost use Rattle.std.specs.Prelude.{◌≡◌, ◌++◌, ◌∷◌, [], map, true, OnOk, IfOk};
ghost use Rattle.voice_model.specs.Spelling.{spelling, keeps_grammar};
ghost use Rattle.voice_model.specs.Replay.{Rebuilt};
ghost use Rattle.voice_model.specs.Base.{base_of};
ghost use Rattle.voice_model.specs.Base as changes;
ghost use Rattle.voice_journal.specs.Readings.{framed_size};
ghost use Rattle.checkpoint.specs.Again.{ReplaysAs};
ghost use Rattle.checkpoint.specs.Compact.{head_change, CanCompact, IsCompactable, MayTake, ShowsUsed};
ghost use Rattle.checkpoint.specs.Size.{size_by_numbers, numbers_of};

use crate::blocks::{list_names, used_blocks};
use crate::files::{placed_blocks, put_files};
use crate::putting::put_change;
use crate::ropes::{put_ropes, put_rows};
use interest_table::InterestTable;
use recovery::Parts;
use rope_table::RopeTable;
use std::alloc::Global;
use voice_blocks::BlockMap;
use voice_journal::Payloads;
use voice_model::Change;
use voice_units::{Moment, NoMemory};

/// Puts the moment and the number of the next rope.
fn put_head(
    alloc: Global,
    form: u8,
    moment: Moment,
    next: u64,
    payloads: &mut Payloads,
) -> Result<(), NoMemory>
    requires { keeps_grammar (head_change form moment next) ≡ true }
    ensures { OnOk result (payloads.new ≡ payloads.old ++ spelling (head_change form moment next) ∷ []) }
{
    let change = if form == 2 {
        Change::Base2(moment, next)
    } else {
        Change::Base(moment, next)
    };
    put_change(alloc, &change, payloads)
}

/// The spelling of a durable part, change by change: the head, the blocks of each voice file, the ropes, the rows. The map may hold other blocks besides. It goes over all ropes, all rows and each block of each piece, and takes memory for the payloads and for the blocks in use.
pub fn compact(
    alloc: Global,
    form: u8,
    table: &RopeTable,
    interests: &InterestTable,
    blocks: &BlockMap,
    moment: Moment,
    next: u64,
) -> Result<Payloads, NoMemory>
    requires { IsCompactable form table.now interests.now.rows blocks.now.holders moment next }
    ensures base { (r : Rebuilt) → CanCompact form table.now interests.now.rows blocks.now.holders moment next r → IfOk result (λ payloads. payloads ≡ map spelling (base_of form r)) }
    ensures size { (r : Rebuilt) → CanCompact form table.now interests.now.rows blocks.now.holders moment next r → IfOk result (λ payloads. framed_size payloads ≡ changes.framed_size (base_of form r)) }
    ensures numbers { IfOk result (λ payloads. framed_size payloads ≡ size_by_numbers form (numbers_of table.now interests.now.rows)) }
    ensures replays { (r : Rebuilt) → CanCompact form table.now interests.now.rows blocks.now.holders moment next r → IfOk result (λ payloads. ReplaysAs form r payloads) }
{
    let noted = used_blocks(alloc, table)?;
    let names = list_names(alloc, &noted)?;
    let placed = placed_blocks(alloc, &names, blocks)?;
    let mut payloads = Payloads::new(alloc);
    put_head(alloc, form, moment, next, &mut payloads)?;
    put_files(alloc, form, &placed, &mut payloads)?;
    put_ropes(alloc, form, table, &mut payloads)?;
    put_rows(alloc, interests, &mut payloads)?;
    Ok(payloads)
}

/// The spelling of the parts of a manager, passages that are held left out, in form 2, or in form 1 where the parts are in form 1. It takes what `compact` takes.
pub fn compact_parts(alloc: Global, form: u8, parts: &Parts) -> Result<Payloads, NoMemory>
    requires shown { (r : Rebuilt) × ShowsUsed parts.now r }
    requires form { MayTake form parts.now.form }
    ensures base { (r : Rebuilt) → ShowsUsed parts.now r → IfOk result (λ payloads. payloads ≡ map spelling (base_of form r)) }
    ensures size { (r : Rebuilt) → ShowsUsed parts.now r → IfOk result (λ payloads. framed_size payloads ≡ changes.framed_size (base_of form r)) }
    ensures numbers { IfOk result (λ payloads. framed_size payloads ≡ size_by_numbers form (numbers_of parts.now.ropes parts.now.interests.rows)) }
    ensures replays { (r : Rebuilt) → ShowsUsed parts.now r → IfOk result (λ payloads. ReplaysAs form r payloads) }
{
    compact(
        alloc,
        form,
        &parts.ropes,
        &parts.interests,
        &parts.blocks,
        parts.moment,
        parts.next,
    )
}
