//! What a sweep may remove.

ghost use Rattle.std.specs.Prelude.{◌≡◌, ℕ, ◌+◌, ◌==◌, ◌&&◌, true, not, cond, filter, is_some, nat_le, IfOk, OnOk};
ghost use Rattle.std.specs.List.{list_all};
ghost use Rattle.voice_model.specs.State.{has_row};
ghost use Rattle.voice_model.specs.Changes.{is_expired};
ghost use Rattle.rope_table.specs.Table.{rope_of};
ghost use Rattle.interest_table.specs.Table.{rows_of};
ghost use Rattle.voice_model.specs.Spelling.{keeps_grammar};
ghost use Rattle.recovery.specs.Shown.{IsParts, IsApplied};
ghost use Rattle.recovery.specs.Gathered.{rows_noted};

use crate::parts::Parts;
use interest_table::InterestTable;
use rope_table::RopeTable;
use std::alloc::Global;
use std::collections::HashMap;
use voice_model::{Change, Class};
use voice_units::{Moment, NoMemory, RopeId, Shape};

/// Counts one more row of a rope. More than 2^32 - 1 of them are taken for lack of memory.
fn note_row(counts: &mut HashMap<RopeId, u32>, rope: RopeId) -> Result<(), NoMemory>
    ensures { OnOk result ((id : ℕ) → rows_noted counts.new id ≡ rows_noted counts.old id + cond (rope == id) 1 0) }
{
    let before = counts.get(&rope).copied().unwrap_or(0);
    let Some(after) = before.checked_add(1) else {
        return Err(NoMemory);
    };
    counts.insert(rope, after)?;
    Ok(())
}

/// How many expired rows each rope has. It goes over the expired ones alone.
fn expired_counts(
    alloc: Global,
    interests: &InterestTable,
    now: Moment,
) -> Result<HashMap<RopeId, u32>, NoMemory>
    ensures { IfOk result (λ counts. (id : ℕ) → rows_noted counts id ≡ rows_of id (filter (is_expired now) interests.now.rows)) }
{
    let mut counts = HashMap::new(alloc);
    let expired = interests.expired_ropes(now)?;
    for rope in &expired {
        note_row(&mut counts, *rope)?;
    }
    Ok(counts)
}

/// Whether a rope has no more rows than were counted.
fn is_bare(interests: &InterestTable, counts: &HashMap<RopeId, u32>, rope: RopeId) -> bool
    ensures { result ≡ nat_le (rows_of rope interests.now.rows) (rows_noted counts.now rope) }
{
    interests.count(rope) <= counts.get(&rope).copied().unwrap_or(0)
}

/// Whether each of these ropes is live and has no more rows than were counted.
fn are_bare(
    ropes: &RopeTable,
    interests: &InterestTable,
    counts: &HashMap<RopeId, u32>,
    ids: &[RopeId],
) -> bool
    ensures { result ≡ list_all (λ id. is_some (rope_of ropes.now.ropes id) && nat_le (rows_of id interests.now.rows) (rows_noted counts.now id)) ids.now }
{
    for id in ids {
        let Some(_) = ropes.wait(*id) else {
            return false;
        };
        if !is_bare(interests, counts, *id) {
            return false;
        }
    }
    true
}

/// Whether each of these ropes is live and has no row once the expired ones are gone. Nothing changes, and no row is copied.
fn may_sweep(
    alloc: Global,
    ropes: &RopeTable,
    interests: &InterestTable,
    now: Moment,
    ids: &[RopeId],
) -> Result<bool, NoMemory>
    ensures { IfOk result (λ go. go ≡ list_all (λ id. is_some (rope_of ropes.now.ropes id) && not (has_row (filter (λ row. not (is_expired now row)) interests.now.rows) id)) ids.now) }
{
    let counts = expired_counts(alloc, interests, now)?;
    Ok(are_bare(ropes, interests, &counts, ids))
}

impl Parts {
    /// The rows that are expired go, and then these ropes, with the blocks that nothing uses any more.
    pub(crate) fn try_swept(
        &mut self,
        alloc: Global,
        shape: &Shape,
        ids: &[RopeId],
    ) -> Result<bool, NoMemory>
        requires grammar { keeps_grammar (Change.Swept ids.now) ≡ true }
        requires parts { IsParts shape.now self.old }
        ensures { IsApplied shape.now self.old self.new (Change.Swept ids.now) result }
    {
        let legal = may_sweep(alloc, &self.ropes, &self.interests, self.moment, ids)?;
        if !legal {
            return Ok(false);
        }
        let expired = self.interests.obsolete_until(self.moment)?;
        self.drop_rows(alloc, &shape.graces, Class::Until, expired.items())?;
        self.remove_ropes(ids);
        Ok(true)
    }
}
