//! The ropes and the rows in a base.

ghost use Rattle.std.specs.Prelude.{◌≡◌, ◌≤◌, ◌++◌, ◌∷◌, [], map, true, OnOk, IfOk, IfSome};
ghost use Rattle.voice_model.specs.Spelling.{spelling, keeps_grammar};
ghost use Rattle.voice_model.specs.Base.{row_change};
ghost use Rattle.voice_model.specs.Valid.{Every};
ghost use Rattle.rope_table.specs.Table.{rope_of};
ghost use Rattle.checkpoint.specs.Blocks.{kept_change, parts_change};

use crate::putting::put_change;
use interest_table::InterestTable;
use rope_algebra::Pieces;
use rope_table::RopeTable;
use std::alloc::Global;
use voice_journal::Payloads;
use voice_model::{Change, PieceList, Row};
use voice_units::{Moment, NoMemory, RopeId};

/// The list of a rope's pieces.
fn list_of(alloc: Global, pieces: &Pieces) -> Result<PieceList, NoMemory>
    ensures { IfOk result (λ list. list ≡ pieces.now) }
{
    let mut list = Vec::with_capacity(alloc, pieces.count() as usize)?;
    for k in 0..pieces.count() {
        let Some(piece) = pieces.piece(k) else {
            return Ok(PieceList::of(list));
        };
        list.push(piece)?;
    }
    Ok(PieceList::of(list))
}

/// Puts the rope of these parts.
fn put_parts(
    alloc: Global,
    form: u8,
    id: RopeId,
    idle: Moment,
    last: u8,
    pieces: &Pieces,
    payloads: &mut Payloads,
) -> Result<(), NoMemory>
    requires { keeps_grammar (parts_change form id idle last pieces.now) ≡ true }
    ensures { OnOk result (payloads.new ≡ payloads.old ++ spelling (parts_change form id idle last pieces.now) ∷ []) }
{
    let list = list_of(alloc, pieces)?;
    let change = if form == 2 {
        Change::Rope2(id, idle, last, list)
    } else {
        Change::Rope(id, idle, list)
    };
    put_change(alloc, &change, payloads)
}

/// Puts a live rope.
fn put_rope(
    alloc: Global,
    form: u8,
    table: &RopeTable,
    id: RopeId,
    payloads: &mut Payloads,
) -> Result<(), NoMemory>
    requires { IfSome (rope_of table.now.ropes id) (λ rope. keeps_grammar (kept_change form rope) ≡ true) }
    ensures { IfSome (rope_of table.now.ropes id) (λ rope. OnOk result (payloads.new ≡ payloads.old ++ spelling (kept_change form rope) ∷ [])) }
{
    let Some(pieces) = table.get(id) else {
        return Ok(());
    };
    let Some(idle) = table.idle(id) else {
        return Ok(());
    };
    let Some(last) = table.last(id) else {
        return Ok(());
    };
    put_parts(alloc, form, id, idle, last, pieces, payloads)
}

/// Puts the live ropes in rising number.
pub(crate) fn put_ropes(
    alloc: Global,
    form: u8,
    table: &RopeTable,
    payloads: &mut Payloads,
) -> Result<(), NoMemory>
    requires some { Every (λ rope. 1 ≤ rope.id) table.now.ropes }
    requires grammar { Every (λ change. keeps_grammar change ≡ true) (map (kept_change form) table.now.ropes) }
    ensures { OnOk result (payloads.new ≡ payloads.old ++ map spelling (map (kept_change form) table.now.ropes)) }
{
    let _block = table.block();
    let mut last = 0;
    while let Some(id) = table.after(last) {
        put_rope(alloc, form, table, id, payloads)?;
        last = id.number();
    }
    Ok(())
}

/// Puts a row.
fn put_row(alloc: Global, row: &Row, payloads: &mut Payloads) -> Result<(), NoMemory>
    requires { keeps_grammar (row_change row.now) ≡ true }
    ensures { OnOk result (payloads.new ≡ payloads.old ++ spelling (row_change row.now) ∷ []) }
{
    let change = Change::Retained(row.class, row.key, row.rope, row.note);
    put_change(alloc, &change, payloads)
}

/// Puts the rows in order of making.
pub(crate) fn put_rows(
    alloc: Global,
    interests: &InterestTable,
    payloads: &mut Payloads,
) -> Result<(), NoMemory>
    requires { Every (λ change. keeps_grammar change ≡ true) (map row_change interests.now.rows) }
    ensures { OnOk result (payloads.new ≡ payloads.old ++ map spelling (map row_change interests.now.rows)) }
{
    for k in 0..=u32::MAX {
        let Some(row) = interests.row(k) else {
            return Ok(());
        };
        put_row(alloc, row, payloads)?;
    }
    // a table has at most 2^32 - 1 rows
    Err(NoMemory)
}
