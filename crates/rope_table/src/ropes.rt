//! The live ropes in rising number.

ghost use Rattle.std.specs.Prelude.{◌≡◌, ◌+◌, ◌<◌, ◌≤◌, None, IfSome, IfNone, IfOk, OnOk, OnSome, length, option_copied, slice_get, insert, remove, map, []};
ghost use Rattle.counted_row.specs.Row.{IsChanged};
ghost use Rattle.rope_table.specs.Table.{rope_of, number_above, with_rope, without_rope, held_back, is_lower, IsInOrder, piece_count};
ghost use Rattle.rope_table.specs.Inside.{place_of, lies_below, is_within, standing_of, standing_if, standing_at, rested};

use crate::copies::{Duplicate, copied};
use counted_row::CountedRow;
use rope_algebra::Pieces;
use std::alloc::Global;
use std::marker::Model;
use voice_units::{Moment, NoMemory, RopeId};

/// How many ropes there are at most: no memory holds so many.
const MOST: usize = 1 << 31;

/// A live rope.
#[derive(Drop)]
pub struct Rope {
    pub id: RopeId,
    pub pieces: Pieces,
    /// The moment since which no row names it.
    pub idle: Moment,
    /// The class of the last row that it lost, 1 to 3, or 0.
    pub last: u8,
    /// How long it stays once it is idle.
    pub wait: u32,
    /// Whether a row names it.
    pub kept: bool,
}

/// What a rope is besides its samples: since when idle, how long it stays then, and whether a row names it.
#[derive(Drop)]
pub(crate) struct Standing {
    pub(crate) idle: Moment,
    pub(crate) wait: u32,
    pub(crate) kept: bool,
}

/// The live ropes in rising number, and how many pieces they have in all. Contracts see the list, and how many fit without memory.
#[derive(Drop)]
pub(crate) struct LiveRopes {
    alloc: Global,
    ropes: CountedRow<Rope>,
    pieces: u64,
}

impl Model for LiveRopes {
    ghost use Rattle.std.specs.Prelude.{min, ◌+◌, ◌^◌, length};
    ghost use Rattle.rope_table.specs.Inside.{Ropes, AreLive};

    ghost Value = { Ropes };

    ghost view = { λ r. record { ropes = r.ropes.items; room = min (length r.ropes.items + r.ropes.spare) (2 ^ 31) } };

    ghost invariant = { λ r. AreLive r.ropes.items r.pieces };
}

/// The first rope whose number is not below this one.
fn at_or_above(ropes: &CountedRow<Rope>, id: u64) -> Option<&Rope>
    requires { IsInOrder is_lower ropes.now.items }
    ensures { option_copied result ≡ slice_get ropes.now.items (place_of (lies_below id) ropes.now.items) }
{
    ropes.at_point(|rope| rope.id.number() < id)
}

/// The first rope whose number is above this one.
fn above(ropes: &CountedRow<Rope>, id: u64) -> Option<&Rope>
    requires { IsInOrder is_lower ropes.now.items }
    ensures { option_copied result ≡ slice_get ropes.now.items (place_of (is_within id) ropes.now.items) }
{
    ropes.at_point(|rope| rope.id.number() <= id)
}

/// Takes out the first rope whose number is not below this one.
fn take(ropes: &mut CountedRow<Rope>, id: u64) -> Option<Rope>
    requires { IsInOrder is_lower ropes.old.items }
    ensures value { result ≡ slice_get ropes.old.items (place_of (lies_below id) ropes.old.items) }
    ensures items { ropes.new.items ≡ remove ropes.old.items (place_of (lies_below id) ropes.old.items) }
    ensures spare { ropes.old.spare ≤ ropes.new.spare }
    ensures gained { OnSome result (ropes.new.spare ≡ ropes.old.spare + 1) }
{
    ropes.remove_at_point(|rope| rope.id.number() < id)
}

/// Puts a rope in front of the first one whose number is not below this one, where there is room.
fn put(ropes: &mut CountedRow<Rope>, id: u64, rope: Rope)
    requires order { IsInOrder is_lower ropes.old.items }
    requires room { 1 ≤ ropes.old.spare }
    ensures items { ropes.new.items ≡ insert ropes.old.items (place_of (lies_below id) ropes.old.items) rope }
    ensures spare { ropes.old.spare ≤ ropes.new.spare + 1 }
{
    let _entered = ropes.insert_at_point(|other| other.id.number() < id, rope);
}

/// Changes the first rope whose number is not below this one where it stands.
fn change<R, F: FnOnce(&mut Rope) -> R>(
    ropes: &mut CountedRow<Rope>,
    id: u64,
    change: F,
) -> Option<R>
    requires order { IsInOrder is_lower ropes.old.items }
    requires callable { F.IsAlwaysCallable change }
    ensures some { IfSome result (λ r. IsChanged F.FnOnce change ropes.old.items ropes.new.items (place_of (lies_below id) ropes.old.items) r) }
    ensures none { IfNone result (slice_get ropes.old.items (place_of (lies_below id) ropes.old.items) ≡ None) }
    ensures same { IfNone result (ropes.new.items ≡ ropes.old.items) }
    ensures spare { ropes.new.spare ≡ ropes.old.spare }
{
    ropes.change_at_point(|rope| rope.id.number() < id, change)
}

impl Rope {
    // What it is now.
    fn standing(&self) -> Standing
        ensures { result ≡ standing_of self.now }
    {
        Standing {
            idle: self.idle,
            wait: self.wait,
            kept: self.kept,
        }
    }

    // Where it has this number, whether a row names it. Gives what it was.
    fn keep(&mut self, id: RopeId, kept: bool) -> Option<Standing>
        ensures was { result ≡ standing_if id self.old }
        ensures rope { self.new ≡ held_back id kept self.old }
    {
        if self.id.number() != id.number() {
            return None;
        }
        let was = self.standing();
        self.kept = kept;
        Some(was)
    }

    // Where it has this number, since when it is idle, the class of the last row that it lost, and how long it waits; a row that names it still does, or none. Gives what it was.
    fn rest(
        &mut self,
        id: RopeId,
        idle: Moment,
        last: u8,
        wait: u32,
        still: bool,
    ) -> Option<Standing>
        ensures was { result ≡ standing_if id self.old }
        ensures rope { self.new ≡ rested id idle last wait still self.old }
    {
        if self.id.number() != id.number() {
            return None;
        }
        let was = self.standing();
        self.idle = idle;
        self.last = last;
        self.wait = wait;
        self.kept = still && self.kept;
        Some(was)
    }
}

impl Duplicate for Rope {
    fn duplicate(&self) -> Result<Rope, NoMemory> {
        let pieces = self.pieces.copy()?;
        Ok(Rope {
            id: self.id,
            pieces,
            idle: self.idle,
            last: self.last,
            wait: self.wait,
            kept: self.kept,
        })
    }
}

impl LiveRopes {
    /// No rope. It takes no memory.
    pub(crate) fn new(alloc: Global) -> LiveRopes
        ensures { result.ropes ≡ [] }
    {
        LiveRopes {
            alloc,
            ropes: CountedRow::new(alloc),
            pieces: 0,
        }
    }

    /// Equal ropes.
    pub(crate) fn copy(&self) -> Result<LiveRopes, NoMemory>
        ensures { IfOk result (λ copy. copy.ropes ≡ self.now.ropes) }
    {
        let ropes = copied(self.alloc, &self.ropes, self.ropes.len())?;
        Ok(LiveRopes {
            alloc: self.alloc,
            ropes,
            pieces: self.pieces,
        })
    }

    /// Makes room for one more rope; 2^31 of them are taken for lack of memory.
    pub(crate) fn reserve(&mut self) -> Result<(), NoMemory>
        ensures ropes { self.new.ropes ≡ self.old.ropes }
        ensures room { OnOk result (length self.new.ropes < self.new.room) }
        ensures kept { self.old.room ≤ self.new.room }
    {
        if self.ropes.len() >= MOST {
            return Err(NoMemory);
        }
        self.ropes.reserve(1)?;
        Ok(())
    }

    /// How many ropes there are.
    pub(crate) fn count(&self) -> usize
        ensures value { result ≡ length self.now.ropes }
        ensures rising { IsInOrder is_lower self.now.ropes }
    {
        self.ropes.len()
    }

    /// How many ropes fit without memory.
    pub(crate) fn room(&self) -> usize
        ensures { result ≡ self.now.room }
    {
        self.ropes
            .len()
            .saturating_add(self.ropes.spare())
            .min(MOST)
    }

    /// How many pieces the ropes have in all.
    pub(crate) fn pieces(&self) -> u64
        ensures { result ≡ piece_count self.now.ropes }
    {
        self.pieces
    }

    /// The rope of a number.
    pub(crate) fn find(&self, id: RopeId) -> Option<&Rope>
        ensures { option_copied result ≡ rope_of self.now.ropes id }
    {
        let Some(rope) = at_or_above(&self.ropes, id.number()) else {
            return None;
        };
        if rope.id.number() != id.number() {
            return None;
        }
        Some(rope)
    }

    /// The lowest number above this one.
    pub(crate) fn after(&self, id: u64) -> Option<RopeId>
        ensures { result ≡ number_above self.now.ropes id }
    {
        let Some(rope) = above(&self.ropes, id) else {
            return None;
        };
        Some(rope.id)
    }

    /// Puts in a rope that isn't there.
    pub(crate) fn enter(&mut self, rope: Rope)
        requires room { length self.old.ropes < self.old.room }
        requires unknown { rope_of self.old.ropes rope.id ≡ None }
        ensures ropes { self.new.ropes ≡ with_rope rope self.old.ropes }
        ensures room { self.old.room ≤ self.new.room }
    {
        self.pieces += u64::from(rope.pieces.count());
        put(&mut self.ropes, rope.id.number(), rope);
    }

    /// Takes out the rope of a number.
    pub(crate) fn leave(&mut self, id: RopeId) -> Option<Rope>
        ensures value { result ≡ rope_of self.old.ropes id }
        ensures ropes { self.new.ropes ≡ without_rope id self.old.ropes }
        ensures room { self.new.room ≡ self.old.room }
    {
        let Some(_live) = self.find(id) else {
            return None;
        };
        let Some(rope) = take(&mut self.ropes, id.number()) else {
            return None;
        };
        self.pieces -= u64::from(rope.pieces.count());
        Some(rope)
    }

    /// Since when the rope of a number is idle, the class of the last row that it lost, and how long it waits; a row that names it still does, or none. Gives what it was.
    pub(crate) fn rest(
        &mut self,
        id: RopeId,
        idle: Moment,
        last: u8,
        wait: u32,
        still: bool,
    ) -> Option<Standing>
        ensures was { result ≡ standing_at self.old.ropes id }
        ensures ropes { self.new.ropes ≡ map (rested id idle last wait still) self.old.ropes }
        ensures room { self.new.room ≡ self.old.room }
    {
        change(&mut self.ropes, id.number(), |rope| {
            rope.rest(id, idle, last, wait, still)
        })?
    }

    /// Whether a row names the rope of a number. Gives what it was.
    pub(crate) fn keep(&mut self, id: RopeId, kept: bool) -> Option<Standing>
        ensures was { result ≡ standing_at self.old.ropes id }
        ensures ropes { self.new.ropes ≡ map (held_back id kept) self.old.ropes }
        ensures room { self.new.room ≡ self.old.room }
    {
        change(&mut self.ropes, id.number(), |rope| rope.keep(id, kept))?
    }
}
