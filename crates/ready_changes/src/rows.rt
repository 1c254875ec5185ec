//! Changes of interests and of the moment, made ready.

ghost use Rattle.std.specs.Prelude.{◌≡◌, ℕ, true, is_some, None, List, IfOk};
ghost use Rattle.voice_units.specs.declared.Piece.{Piece};
ghost use Rattle.voice_units.specs.Spots.{Spot};
ghost use Rattle.voice_model.specs.State.{Durable, is_live, row_at};
ghost use Rattle.voice_model.specs.Spelling.{keeps_grammar, is_key, is_moment};
ghost use Rattle.voice_model.specs.Valid.{Every, Once};
ghost use Rattle.voice_model.specs.declared.changes.Change.TheVariants as changes;
ghost use Rattle.recovery.specs.Shown.{Shows};
ghost use Rattle.ready_changes.specs.Ready.{IsReady, MayBeReady, later_change, census_change};

use crate::payloads::spelled;
use crate::{Act, Payload, ReadyChange};
use change_codec::{advanced_bytes, forgotten_bytes};
use interest_table::InterestTable;
use recovery::{Parts, gather};
use std::alloc::Global;
use voice_model::{Change, Class, Key, KeyList, Row};
use voice_units::{Moment, NoMemory};

/// Makes a new row ready, of a live rope and of a class and key that do not stand. The tables get room for it, and show what they did after NoMemory too. More than 2^32 - 2 rows count as want of memory.
pub fn ready_retain(alloc: Global, parts: &mut Parts, row: Row) -> Result<ReadyChange, NoMemory>
    requires grammar { keeps_grammar (changes.Retained row.class row.key row.rope row.note) ≡ true }
    ensures ready { (held : List (List Piece)) (d : Durable Spot) → Shows held parts.old d → is_live d.ropes row.rope ≡ true → row_at d.rows row.class row.key ≡ None → IfOk result (λ ready. IsReady parts.new.interests.spare d ready (changes.Retained row.class row.key row.rope row.note)) }
    ensures same { (held : List (List Piece)) (d : Durable Spot) → Shows held parts.old d → Shows held parts.new d }
    ensures ropes { parts.new.ropes ≡ parts.old.ropes }
    ensures blocks { parts.new.blocks ≡ parts.old.blocks }
    ensures form { parts.new.form ≡ parts.old.form }
{
    if parts.interests.is_full() {
        return Err(NoMemory);
    }
    let payload = spelled(
        alloc,
        &Change::Retained(row.class, row.key, row.rope, row.note),
    )?;
    parts.interests.reserve(1)?;
    Ok(ReadyChange {
        act: Act::Retain(row),
        payload,
    })
}

/// Makes it ready that a row goes. It takes no memory.
pub fn ready_forget(class: Class, key: &Key) -> ReadyChange
    requires grammar { keeps_grammar (changes.Forgotten class key.now) ≡ true }
    ensures { (spare : ℕ) (d : Durable Spot) → IsReady spare d result (changes.Forgotten class key.now) }
{
    ReadyChange {
        act: Act::Forget(class, *key),
        payload: Payload::short(forgotten_bytes(class, key)),
    }
}

/// Makes it ready that the moment comes; none exactly where it is not later. It takes no memory.
pub fn ready_advance(now: Moment, moment: Moment) -> Option<ReadyChange>
    requires limit { is_moment moment ≡ true }
    ensures { (spare : ℕ) (d : Durable Spot) → MayBeReady spare d result (later_change now moment) }
{
    if moment.number() <= now.number() {
        return None;
    }
    Some(ReadyChange {
        act: Act::Advance(moment),
        payload: Payload::short(advanced_bytes(moment)),
    })
}

/// Makes it ready that the first 65,535 rows of class Listed go that a census does not name; none exactly where there is no such row. It goes over the rows of class Listed alone.
pub fn ready_census(
    alloc: Global,
    interests: &InterestTable,
    census: &KeyList,
) -> Result<Option<ReadyChange>, NoMemory>
    requires keys { Every (λ row. is_key row.key ≡ true) interests.now.rows }
    requires once { Once interests.now.rows }
    ensures { IfOk result (λ ready. (spare : ℕ) (d : Durable Spot) → d.rows ≡ interests.now.rows → MayBeReady spare d ready (census_change interests.now.rows census.now)) }
{
    let gone = interests.obsolete_listed(census)?;
    if gone.items().is_empty() {
        return Ok(None);
    }
    let going = gather(alloc, interests, Class::Listed, gone.items())?;
    let payload = spelled(alloc, &Change::Census(gone))?;
    Ok(Some(ReadyChange {
        act: Act::Count(going),
        payload,
    }))
}
