//! The rows that a census drops.

ghost use Rattle.std.specs.Prelude.{◌≡◌, List, ℕ, true, not, bytes_eq, ◌||◌, IfOk, OnOk};
ghost use Rattle.std.specs.List.{list_any};
ghost use Rattle.voice_model.specs.Spelling.{keeps_grammar};
ghost use Rattle.voice_model.specs.Replay.{each_listed};
ghost use Rattle.recovery.specs.Shown.{IsApplied};

use crate::parts::Parts;
use interest_table::InterestTable;
use std::alloc::Global;
use std::collections::HashSet;
use voice_model::{Change, Class, Key};
use voice_units::{NoMemory, Shape};

/// Notes a key; false exactly where it was noted before.
fn note_key(noted: &mut HashSet<Key>, key: &Key) -> Result<bool, NoMemory>
    ensures fresh { IfOk result (λ fresh. fresh ≡ not (list_any (bytes_eq key.now) noted.old.keys)) }
    ensures keys { OnOk result ((other : List ℕ) → list_any (bytes_eq other) noted.new.keys ≡ (bytes_eq key.now other || list_any (bytes_eq other) noted.old.keys)) }
{
    let fresh = noted.insert(*key)?;
    Ok(fresh)
}

/// Whether each key has a row of class Listed, and none stands twice.
fn are_listed(alloc: Global, interests: &InterestTable, keys: &[Key]) -> Result<bool, NoMemory>
    ensures { IfOk result (λ listed. listed ≡ each_listed interests.now.rows keys.now) }
{
    let mut noted = HashSet::new(alloc);
    for key in keys {
        let Some(_) = interests.find(Class::Listed, key) else {
            return Ok(false);
        };
        if !note_key(&mut noted, key)? {
            return Ok(false);
        }
    }
    Ok(true)
}

impl Parts {
    /// A census.
    pub(crate) fn try_census(
        &mut self,
        alloc: Global,
        shape: &Shape,
        keys: &[Key],
    ) -> Result<bool, NoMemory>
        requires grammar { keeps_grammar (Change.Census keys.now) ≡ true }
        ensures { IsApplied shape.now self.old self.new (Change.Census keys.now) result }
    {
        if !are_listed(alloc, &self.interests, keys)? {
            return Ok(false);
        }
        self.drop_rows(alloc, &shape.graces, Class::Listed, keys)?;
        Ok(true)
    }
}
