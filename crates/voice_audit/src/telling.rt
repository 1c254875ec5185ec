//! What tables show, as text.

ghost use Rattle.std.specs.Prelude.{◌≡◌, ◌≤◌, ◌++◌, ◌-◌, flat_map, IfOk, OnOk, IfSome};
ghost use Rattle.voice_model.specs.Valid.{Every};
ghost use Rattle.rope_table.specs.Table.{rope_of};
ghost use Rattle.recovery.specs.Shown.{IsParts};
ghost use Rattle.voice_audit.specs.Audit.{row_text};
ghost use Rattle.voice_audit.specs.Telling.{shown_line, parts_text};

use crate::lines::{put_blocks, put_journal, put_moment, put_rope, put_row, put_shape};
use crate::sharing::shared_count;
use interest_table::InterestTable;
use recovery::Parts;
use rope_table::RopeTable;
use std::alloc::Global;
use voice_units::{NoMemory, RopeId, Shape};

/// Appends the line of a live rope.
fn put_live(
    table: &RopeTable,
    interests: &InterestTable,
    id: RopeId,
    out: &mut Vec<u8>,
) -> Result<(), NoMemory>
    ensures { IfSome (rope_of table.now.ropes id) (λ rope. OnOk result (out.new.items ≡ out.old.items ++ shown_line interests.now.rows rope)) }
{
    let Some(pieces) = table.get(id) else {
        return Ok(());
    };
    let rows = interests.count(id);
    put_rope(id, pieces.length(), pieces.count(), rows, out)
}

/// Appends the lines of the live ropes, in rising number.
fn put_ropes(
    table: &RopeTable,
    interests: &InterestTable,
    out: &mut Vec<u8>,
) -> Result<(), NoMemory>
    requires { Every (λ rope. 1 ≤ rope.id) table.now.ropes }
    ensures { OnOk result (out.new.items ≡ out.old.items ++ flat_map (shown_line interests.now.rows) table.now.ropes) }
{
    let _block = table.block();
    let mut last = 0;
    while let Some(id) = table.after(last) {
        put_live(table, interests, id, out)?;
        last = id.number();
    }
    Ok(())
}

/// Appends the lines of the interests, in order of making.
fn put_rows(interests: &InterestTable, out: &mut Vec<u8>) -> Result<(), NoMemory>
    ensures { OnOk result (out.new.items ≡ out.old.items ++ flat_map row_text interests.now.rows) }
{
    for k in 0..=u32::MAX {
        let Some(row) = interests.row(k) else {
            return Ok(());
        };
        put_row(row, out)?;
    }
    // a table has at most 2^32 - 1 rows
    Err(NoMemory)
}

/// The lines of an audit: of a disk of this shape, whose current area has this epoch and this much room, and whose changes rebuild these parts.
pub(crate) fn told(
    alloc: Global,
    shape: &Shape,
    epoch: u64,
    left: u64,
    parts: &Parts,
) -> Result<Vec<u8>, NoMemory>
    requires { IsParts shape.now parts.now }
    ensures { IfOk result (λ text. text.items ≡ parts_text shape.now epoch left parts.now) }
{
    let shared = shared_count(alloc, &parts.ropes)?;
    let free = parts.blocks.free();
    let mut text = Vec::new(alloc);
    put_shape(shape, parts.form, &mut text)?;
    put_journal(epoch, left, &mut text)?;
    put_moment(parts.moment, parts.next, &mut text)?;
    put_ropes(&parts.ropes, &parts.interests, &mut text)?;
    put_rows(&parts.interests, &mut text)?;
    put_blocks(shape.blocks - free, shared, free, &mut text)?;
    Ok(text)
}
