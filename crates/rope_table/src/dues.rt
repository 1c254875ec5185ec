//! The order in which ropes are due.

ghost use Rattle.std.specs.Prelude.{◌≡◌, ◌<◌, ◌≤◌, [], List, not, IfOk, OnOk, option_map, slice_get, length};
ghost use Rattle.rope_table.specs.Table.{as_pair, with_due, is_sooner, Every, IsInOrder};
ghost use Rattle.rope_table.specs.declared.dues.Due.{Due};
ghost use Rattle.rope_table.specs.Inside.{is_due_before};

use crate::copies::{Duplicate, copied};
use counted_row::CountedRow;
use std::alloc::Global;
use std::marker::Model;
use voice_units::{NoMemory, RopeId};

/// When a rope is due, and its number.
#[derive(Clone, Copy, Debug, PartialEq, Eq)]
pub struct Due {
    pub at: u64,
    pub id: RopeId,
}

/// Ropes in the order in which they are due. Contracts see the list, and how many fit without memory.
#[derive(Drop)]
pub(crate) struct DueOrder {
    alloc: Global,
    dues: CountedRow<Due>,
}

impl Model for DueOrder {
    ghost use Rattle.std.specs.Prelude.{◌+◌, length};
    ghost use Rattle.rope_table.specs.Table.{is_sooner, IsInOrder};
    ghost use Rattle.rope_table.specs.Inside.{Dues};

    ghost Value = { Dues };

    ghost view = { λ d. record { dues = d.dues.items; room = length d.dues.items + d.dues.spare } };

    ghost invariant = { λ d. IsInOrder is_sooner d.dues.items };
}

/// Whether one is due before this moment and number.
fn is_before(due: &Due, at: u64, id: u64) -> bool
    ensures { result ≡ is_due_before at id due.now }
{
    due.at < at || (due.at == at && due.id.number() < id)
}

impl Duplicate for Due {
    fn duplicate(&self) -> Result<Due, NoMemory> {
        Ok(*self)
    }
}

impl DueOrder {
    /// No rope. It takes no memory.
    pub(crate) fn new(alloc: Global) -> DueOrder
        ensures { result.dues ≡ [] }
    {
        DueOrder {
            alloc,
            dues: CountedRow::new(alloc),
        }
    }

    /// An equal order, with room for n ropes in all.
    pub(crate) fn copy(&self, n: usize) -> Result<DueOrder, NoMemory>
        ensures dues { IfOk result (λ copy. copy.dues ≡ self.now.dues) }
        ensures room { IfOk result (λ copy. n ≤ copy.room) }
    {
        let dues = copied(self.alloc, &self.dues, n)?;
        Ok(DueOrder {
            alloc: self.alloc,
            dues,
        })
    }

    /// Makes room for n ropes in all.
    pub(crate) fn reserve(&mut self, n: usize) -> Result<(), NoMemory>
        ensures dues { self.new.dues ≡ self.old.dues }
        ensures room { OnOk result (n ≤ self.new.room) }
        ensures kept { self.old.room ≤ self.new.room }
    {
        self.dues.reserve(n.saturating_sub(self.dues.len()))?;
        Ok(())
    }

    /// The k-th, from 0.
    pub(crate) fn at(&self, k: u32) -> Option<(u64, RopeId)>
        ensures { result ≡ option_map as_pair (slice_get self.now.dues k) }
    {
        let Some(due) = self.dues.get(k as usize) else {
            return None;
        };
        Some((due.at, due.id))
    }

    /// Puts in a rope that isn't there.
    pub(crate) fn enter(&mut self, due: Due)
        requires room { length self.old.dues < self.old.room }
        requires apart { Every (λ other. is_sooner other due ≡ not (is_sooner due other)) self.old.dues }
        ensures dues { self.new.dues ≡ with_due due self.old.dues }
        ensures room { self.old.room ≤ self.new.room }
    {
        let at = due.at;
        let id = due.id.number();
        let _entered = self
            .dues
            .insert_at_point(|other| is_before(other, at, id), due);
    }

    /// Takes out a rope that is there.
    pub(crate) fn leave(&mut self, due: Due)
        ensures dues { (rest : List Due) → Every (λ other. is_sooner other due ≡ not (is_sooner due other)) rest → self.old.dues ≡ with_due due rest → self.new.dues ≡ rest }
        ensures room { self.old.room ≤ self.new.room }
    {
        let at = due.at;
        let id = due.id.number();
        let _left = self.dues.remove_at_point(|other| is_before(other, at, id));
    }
}
