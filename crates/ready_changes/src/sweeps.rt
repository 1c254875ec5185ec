//! A sweep, made ready.

ghost use Rattle.std.specs.Prelude.{◌≡◌, ◌==◌, ◌&&◌, length, ℕ, ◌+◌, ◌≤◌, ◌^◌, true, List, IfOk};
ghost use Rattle.voice_units.specs.declared.Piece.{Piece};
ghost use Rattle.voice_units.specs.Spots.{Spot};
ghost use Rattle.voice_model.specs.State.{Durable};
ghost use Rattle.voice_model.specs.Changes.{expired_rows, swept_ropes};
ghost use Rattle.voice_model.specs.Spelling.{keeps_grammar};
ghost use Rattle.voice_model.specs.Valid.{Once};
ghost use Rattle.voice_model.specs.declared.changes.Change.TheVariants as changes;
ghost use Rattle.recovery.specs.Shown.{Shows, IsOrderly};
ghost use Rattle.collector.specs.Due.{due_count};
ghost use Rattle.ready_changes.specs.Ready.{MayBeReady, sweep_of, sweep_change, HasGraces};

use crate::payloads::sweep_payload;
use crate::{Act, ReadyChange};
use collector::first;
use interest_table::InterestTable;
use recovery::{Parts, gather};
use std::alloc::Global;
use std::sync::ledger::Ledger;
use voice_model::{Class, KeyList, RopeList};
use voice_units::{Graces, Moment, NoMemory, Steps};

/// The ropes that the sweep removes.
fn ropes_gone<L: Ledger>(
    alloc: Global,
    parts: &Parts,
    graces: &Graces,
    limit: u16,
    steps: &mut Steps<L>,
) -> Result<RopeList, NoMemory>
    requires { (held : List (List Piece)) × (d : Durable Spot) × Shows held parts.now d }
    ensures ropes { (held : List (List Piece)) (d : Durable Spot) → Shows held parts.now d → HasGraces parts.now.form d → d.shape.graces ≡ graces.now → IfOk result (λ ropes. ropes ≡ swept_ropes parts.now.form d limit) }
    ensures steps { (held : List (List Piece)) (d : Durable Spot) → Shows held parts.now d → HasGraces parts.now.form d → d.shape.graces ≡ graces.now → steps.new ≤ steps.old + due_count parts.now.form d + 1 }
{
    first(
        alloc,
        &parts.ropes,
        &parts.interests,
        parts.moment,
        graces.until,
        limit,
        steps,
    )
}

/// Whether no row goes and no rope.
fn is_nothing(expired: &KeyList, ropes: &RopeList) -> bool
    ensures { result ≡ ((length expired.now == 0) && (length ropes.now == 0)) }
{
    if !expired.items().is_empty() {
        return false;
    }
    ropes.items().is_empty()
}

/// Makes it ready that the expired rows go, and then these ropes.
fn ready_with(
    alloc: Global,
    interests: &InterestTable,
    now: Moment,
    ropes: RopeList,
) -> Result<Option<ReadyChange>, NoMemory>
    requires grammar { keeps_grammar (changes.Swept ropes) ≡ true }
    ensures { IfOk result (λ ready. (spare : ℕ) (d : Durable Spot) → d.rows ≡ interests.now.rows → d.moment ≡ now → Once d.rows → MayBeReady spare d ready (sweep_of (expired_rows d) ropes)) }
{
    let expired = interests.obsolete_until(now)?;
    if is_nothing(&expired, &ropes) {
        return Ok(None);
    }
    let going = gather(alloc, interests, Class::Until, expired.items())?;
    let payload = sweep_payload(alloc, &ropes)?;
    Ok(Some(ReadyChange {
        act: Act::Sweep(going, ropes),
        payload,
    }))
}

/// Makes it ready that the expired rows go, and then the first `limit` ropes that are due; none exactly where there is no such row and no such rope. A step is taken for each rope that is due, and one more.
pub fn ready_sweep<L: Ledger>(
    alloc: Global,
    parts: &Parts,
    graces: &Graces,
    limit: u16,
    steps: &mut Steps<L>,
) -> Result<Option<ReadyChange>, NoMemory>
    requires { (held : List (List Piece)) × (d : Durable Spot) × Shows held parts.now d × IsOrderly parts.now.form d × (d.next ≤ 2 ^ 48 + 1) × HasGraces parts.now.form d × (d.shape.graces ≡ graces.now) }
    ensures ready { (held : List (List Piece)) (d : Durable Spot) → Shows held parts.now d → IsOrderly parts.now.form d → HasGraces parts.now.form d → d.shape.graces ≡ graces.now → IfOk result (λ ready. (spare : ℕ) → MayBeReady spare d ready (sweep_change parts.now.form d limit)) }
    ensures steps { (held : List (List Piece)) (d : Durable Spot) → Shows held parts.now d → HasGraces parts.now.form d → d.shape.graces ≡ graces.now → steps.new ≤ steps.old + due_count parts.now.form d + 1 }
{
    let ropes = ropes_gone(alloc, parts, graces, limit, steps)?;
    ready_with(alloc, &parts.interests, parts.moment, ropes)
}
