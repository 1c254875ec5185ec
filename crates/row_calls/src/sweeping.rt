//! Sweep: expired rows go, and then ropes that nobody keeps.

ghost use Rattle.std.specs.Prelude.{◌≡◌, ℕ, List, length, filter, IfOk};
ghost use Rattle.voice_units.specs.declared.Piece.{Piece};
ghost use Rattle.voice_units.specs.Spots.{Spot};
ghost use Rattle.voice_model.specs.Samples.{Tagged};
ghost use Rattle.voice_model.specs.State.{State, Durable};
ghost use Rattle.voice_model.specs.Changes.{is_expired};
ghost use Rattle.voice_model.specs.Replay.{Rebuilt};
ghost use Rattle.voice_model.specs.declared.calls.Call.TheVariants as calls;
ghost use Rattle.voice_model.specs.declared.changes.Change.TheVariants as changes;
ghost use Rattle.ready_changes.specs.Ready.{IsReady, MayBeReady, sweep_change};
ghost use Rattle.row_calls.specs.Asked.{IsAsked, Gives, Tells};

use crate::{Asked, Growth};
use interest_table::InterestTable;
use ready_changes::{Act, ReadyChange, base_grows_by_rows, changes_of_calls, ready_sweep};
use recovery::Parts;
use std::alloc::Global;
use std::marker::Brand;
use std::sync::ledger::{Blank, Ledger};
use voice_model::{Reply, RopeList};
use voice_units::{Graces, Moment, NoMemory, Steps};

/// How many rows are expired. More than 2^32 - 1 rows count as want of memory.
fn count_expired(interests: &InterestTable, now: Moment) -> Result<u32, NoMemory>
    ensures { IfOk result (λ n. n ≡ length (filter (is_expired now) interests.now.rows)) }
{
    let ropes = interests.expired_ropes(now)?;
    let Ok(count) = u32::try_from(ropes.len()) else {
        return Err(NoMemory);
    };
    Ok(count)
}

/// The ropes that a sweep removes. Another change counts as want of memory.
fn ropes_of(alloc: Global, ready: &ReadyChange) -> Result<RopeList, NoMemory>
    ensures { IfOk result (λ ropes. (spare : ℕ) (d : Durable Spot) (ids : List ℕ) → IsReady spare d ready.now (changes.Swept ids) → ropes ≡ ids) }
{
    let Act::Sweep(_, ropes) = &ready.act else {
        return Err(NoMemory);
    };
    Ok(RopeList::of(Vec::from_slice(alloc, ropes.items())?))
}

/// Makes a sweep ready, with a ledger for its steps.
fn ready_by<L: Ledger>(
    alloc: Global,
    parts: &Parts,
    graces: &Graces,
    limit: u16,
    blank: Blank,
) -> Result<Option<ReadyChange>, NoMemory>
    requires name { blank.name ≡ L.name }
    requires count { blank.parts ≡ L.parts }
    requires one { blank.parts ≡ 1 }
    requires shown { (held : List (List Piece)) × (b : Rebuilt) × Tells held parts.now b × (b.shape.graces ≡ graces.now) }
    ensures { (held : List (List Piece)) (b : Rebuilt) → Tells held parts.now b → b.shape.graces ≡ graces.now → IfOk result (λ ready. (spare : ℕ) → MayBeReady spare b.kept ready (sweep_change b.form b.kept limit)) }
{
    let mut steps = Steps::<L>::new(blank);
    ready_sweep(alloc, parts, graces, limit, &mut steps)
}

/// Makes a sweep ready.
fn ready(
    alloc: Global,
    parts: &Parts,
    graces: &Graces,
    limit: u16,
) -> Result<Option<ReadyChange>, NoMemory>
    requires { (held : List (List Piece)) × (b : Rebuilt) × Tells held parts.now b × (b.shape.graces ≡ graces.now) }
    ensures { (held : List (List Piece)) (b : Rebuilt) → Tells held parts.now b → b.shape.graces ≡ graces.now → IfOk result (λ ready. (spare : ℕ) → MayBeReady spare b.kept ready (sweep_change b.form b.kept limit)) }
{
    ready_by::<Brand>(alloc, parts, graces, limit, Blank::new(1))
}

/// Asks for the expired rows to go, and then for the first `limit` ropes that are due. It changes nothing exactly where there is no such row and no such rope.
pub fn ask_sweep(
    alloc: Global,
    parts: &Parts,
    graces: &Graces,
    limit: u16,
) -> Result<Asked, NoMemory>
    requires { (held : List (List Piece)) × (b : Rebuilt) × Tells held parts.now b × (b.shape.graces ≡ graces.now) }
    ensures { (held : List (List Piece)) (fill : Spot → Tagged) (b : Rebuilt) (s : State) (tapes : List (List ℕ)) → Gives held fill parts.now b s → s.shape.graces ≡ graces.now → IfOk result (IsAsked parts.now b s tapes (calls.Sweep limit)) }
{
    changes_of_calls();
    base_grows_by_rows();
    let fewer = ready(alloc, parts, graces, limit)?;
    let Some(ready) = fewer else {
        let none = RopeList::of(Vec::new(alloc));
        return Ok(Asked::Answered(Reply::Swept(0, none)));
    };
    let expired = count_expired(&parts.interests, parts.moment)?;
    let ropes = ropes_of(alloc, &ready)?;
    let reply = Reply::Swept(expired, ropes);
    Ok(Asked::Changes(ready, reply, Growth::NotLonger))
}
