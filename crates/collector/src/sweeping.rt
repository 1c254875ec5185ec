//! The ropes that a sweep removes.

ghost use Rattle.std.specs.Prelude.{◌≡◌, ℕ, ◌+◌, ◌-◌, ◌≤◌, ◌<◌, ◌&&◌, ◌==◌, nat_lt, List, length, take, IfOk, OnOk};
ghost use Rattle.voice_units.specs.Spots.{Spot};
ghost use Rattle.voice_model.specs.Samples.{Tagged};
ghost use Rattle.voice_model.specs.State.{Durable};
ghost use Rattle.voice_model.specs.Changes.{swept_ropes};
ghost use Rattle.rope_table.specs.Table.{index_of};
ghost use Rattle.interest_table.specs.Table.{rows_of};
ghost use Rattle.collector.specs.Due.{copies, once, Rises, AreLowest, ids_by, rows_left, is_kept, AreKept, has_only_expired, gone_ids, ShowsDue, due_count};

use interest_table::InterestTable;
use rope_table::RopeTable;
use std::alloc::Global;
use std::collections::HashMap;
use std::sync::ledger::Ledger;
use voice_model::RopeList;
use voice_units::{Moment, NoMemory, RopeId, Steps};

// The ropes that no row keeps and that were idle for their wait, in the order in which they are due. More than 2^32 - 1 of them are taken for lack of memory.
fn ropes_due<L: Ledger>(
    alloc: Global,
    table: &RopeTable,
    now: Moment,
    steps: &mut Steps<L>,
) -> Result<Vec<RopeId>, NoMemory>
    ensures ropes { IfOk result (λ due. due.items ≡ ids_by now (index_of table.now.ropes)) }
    ensures steps { steps.new ≤ steps.old + length (ids_by now (index_of table.now.ropes)) + 1 }
{
    let _laws = table.block();
    let mut due = Vec::new(alloc);
    for k in 0..u32::MAX {
        let Some((at, id)) = table.due(k, steps) else {
            return Ok(due);
        };
        if at > now.number() {
            return Ok(due);
        }
        due.push(id)?;
    }
    Err(NoMemory)
}

// Takes a row of a rope as gone, and says how many of its rows are left.
fn take_row(
    left: &mut HashMap<RopeId, u32>,
    interests: &InterestTable,
    rope: RopeId,
) -> Result<u32, NoMemory>
    ensures left { OnOk result ((id : ℕ) → rows_left left.new interests.now.rows id ≡ rows_left left.old interests.now.rows id - once (rope == id)) }
    ensures result { IfOk result (λ n. n ≡ rows_left left.new interests.now.rows rope) }
{
    let before = left.get(&rope).copied().unwrap_or(interests.count(rope));
    let after = before.saturating_sub(1);
    left.insert(rope, after)?;
    Ok(after)
}

// Puts a rope last that a row keeps and of which no row is left.
fn push_if_lost(
    table: &RopeTable,
    rope: RopeId,
    left: u32,
    gone: &mut Vec<RopeId>,
) -> Result<(), NoMemory>
    ensures { OnOk result ((id : ℕ) → copies id gone.new.items ≡ copies id gone.old.items + once ((rope == id) && (is_kept table.now.ropes rope && (left == 0)))) }
{
    if left > 0 {
        return Ok(());
    }
    if !table.kept(rope).unwrap_or(false) {
        return Ok(());
    }
    gone.push(rope)?;
    Ok(())
}

// Takes a row of a rope as gone, and puts the rope last if that was its last row.
fn take_expired(
    table: &RopeTable,
    interests: &InterestTable,
    rope: RopeId,
    left: &mut HashMap<RopeId, u32>,
    gone: &mut Vec<RopeId>,
) -> Result<(), NoMemory>
    ensures left { OnOk result ((id : ℕ) → rows_left left.new interests.now.rows id ≡ rows_left left.old interests.now.rows id - once (rope == id)) }
    ensures gone { OnOk result ((id : ℕ) → copies id gone.new.items ≡ copies id gone.old.items + once ((rope == id) && (is_kept table.now.ropes id && (rows_left left.new interests.now.rows id == 0)))) }
{
    let rest = take_row(left, interests, rope)?;
    push_if_lost(table, rope, rest, gone)?;
    Ok(())
}

// Puts the ropes last that lose their last row as the expired ones go. It goes over the expired ones alone.
fn push_lost(
    alloc: Global,
    table: &RopeTable,
    interests: &InterestTable,
    now: Moment,
    gone: &mut Vec<RopeId>,
) -> Result<(), NoMemory>
    ensures { OnOk result ((id : ℕ) → copies id gone.new.items ≡ copies id gone.old.items + once (is_kept table.now.ropes id && (nat_lt 0 (rows_of id interests.now.rows) && has_only_expired now interests.now.rows id))) }
{
    let mut left = HashMap::new(alloc);
    let expired = interests.expired_ropes(now)?;
    for rope in &expired {
        take_expired(table, interests, *rope, &mut left, gone)?;
    }
    Ok(())
}

// Puts numbers in order.
fn sort(ropes: &mut [RopeId])
    ensures rises { Rises ropes.new }
    ensures same { (id : ℕ) → copies id ropes.new ≡ copies id ropes.old }
{
    ropes.sort_unstable_by_key(|id| id.number());
}

// These ropes in rising number.
fn in_order(mut ropes: Vec<RopeId>) -> RopeList
    ensures rises { Rises result }
    ensures same { (id : ℕ) → copies id result ≡ copies id ropes.items }
    ensures count { length result ≡ length ropes.items }
{
    sort(&mut ropes);
    RopeList::of(ropes)
}

// So many of these ropes with the lowest numbers, in any order. It sorts none.
fn lowest(alloc: Global, ropes: &mut [RopeId], count: usize) -> Result<Vec<RopeId>, NoMemory>
    requires { count < length ropes.old }
    ensures lowest { IfOk result (λ low. AreLowest low.items ropes.old) }
    ensures count { IfOk result (λ low. length low.items ≡ count) }
{
    let (front, _, _) = ropes.select_nth_unstable_by_key(count, |id| id.number());
    Ok(Vec::from_slice(alloc, front)?)
}

// The first ones of these ropes in rising number: only those are sorted.
fn first_of(alloc: Global, mut ropes: Vec<RopeId>, limit: u16) -> Result<RopeList, NoMemory>
    ensures { IfOk result (λ first. (rising : List ℕ) → Rises rising → ((id : ℕ) → copies id ropes.items ≡ copies id rising) → first ≡ take limit rising) }
{
    let count = usize::from(limit);
    if ropes.len() <= count {
        return Ok(in_order(ropes));
    }
    let low = lowest(alloc, &mut ropes, count)?;
    Ok(in_order(low))
}

// The ropes that go, as the tables tell, in any order.
fn all_gone<L: Ledger>(
    alloc: Global,
    table: &RopeTable,
    interests: &InterestTable,
    now: Moment,
    until: u32,
    steps: &mut Steps<L>,
) -> Result<Vec<RopeId>, NoMemory>
    requires { AreKept interests.now.rows table.now.ropes }
    ensures ropes { IfOk result (λ gone. (id : ℕ) → copies id gone.items ≡ copies id (gone_ids now until interests.now.rows table.now.ropes)) }
    ensures steps { steps.new ≤ steps.old + length (gone_ids now until interests.now.rows table.now.ropes) + 1 }
{
    let _laws = table.block();
    let mut gone = ropes_due(alloc, table, now, steps)?;
    if until > 0 {
        return Ok(gone);
    }
    push_lost(alloc, table, interests, now, &mut gone)?;
    Ok(gone)
}

/// The first ropes that a sweep removes, in rising number and at most `limit`: those that no row keeps and that were idle for their wait, and where `until` is 0 those that lose their last row as the expired ones go. The tables are those before the sweep, with the expired rows still in them; `until` is the grace of class Until. Ropes that aren't due cost nothing, and rows only where they are expired and `until` is 0.
pub fn first<L: Ledger>(
    alloc: Global,
    table: &RopeTable,
    interests: &InterestTable,
    now: Moment,
    until: u32,
    limit: u16,
    steps: &mut Steps<L>,
) -> Result<RopeList, NoMemory>
    requires { AreKept interests.now.rows table.now.ropes }
    ensures swept { IfOk result (λ gone. (form : ℕ) (d : Durable Tagged) → ShowsDue table.now interests.now.rows now until form d → gone ≡ swept_ropes form d limit) }
    ensures swept_spots { IfOk result (λ gone. (form : ℕ) (d : Durable Spot) → ShowsDue table.now interests.now.rows now until form d → gone ≡ swept_ropes form d limit) }
    ensures steps { (form : ℕ) (d : Durable Tagged) → ShowsDue table.now interests.now.rows now until form d → steps.new ≤ steps.old + due_count form d + 1 }
    ensures steps_spots { (form : ℕ) (d : Durable Spot) → ShowsDue table.now interests.now.rows now until form d → steps.new ≤ steps.old + due_count form d + 1 }
{
    let _laws = table.block();
    let gone = all_gone(alloc, table, interests, now, until, steps)?;
    first_of(alloc, gone, limit)
}
