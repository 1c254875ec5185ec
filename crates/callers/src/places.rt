//! Places before the turnstile: two callers at most stand before it at a time.

ghost use Rattle.std.specs.Prelude.{◌≡◌, ◌≤◌, ◌==◌};
ghost use Rattle.callers.specs.Visits.{turns_after};

use std::array;
use std::sync::Wait;
use std::sync::atomic::{AtomicU64, Ordering};

// So many have a place at a time: one has its turn, and the next one stands ready without being woken.
const PLACES: u64 = 2;

// So many turns a caller has before it passes its place on.
const TURNS: u32 = 64;

/// Places, which callers get in the order in which they ask. They guard nothing: what callers do to one another's value is the turnstile's, with or without places. So contracts say nothing of who has one.
#[derive(Drop)]
pub(crate) struct Places {
    in_use: bool,
    /// How many asked for a place, and how many have left theirs.
    asked: AtomicU64,
    left: AtomicU64,
    /// The words at which those that wait sleep: the one that asked as the n-th, from 0 on, at word n modulo 16.
    doors: [AtomicU64; 16],
}

impl Places {
    /// All are free. Where they are not in use, nobody waits for one.
    pub(crate) fn new(in_use: bool) -> Places {
        Places {
            in_use,
            asked: AtomicU64::new(0),
            left: AtomicU64::new(0),
            doors: array::from_fn(|_| AtomicU64::new(0)),
        }
    }

    fn door_of(&self, number: u64) -> &AtomicU64 {
        &self.doors[(number % 16) as usize]
    }

    /// Waits for a place. Who gets one must leave it, or those that ask later wait for good.
    fn enter<R: Wait>(&self, rt: &R) {
        if !self.in_use {
            return;
        }
        let number = self.asked.fetch_add(1, Ordering::SeqCst);
        let door = self.door_of(number);
        for _ in rt.forever() {
            // Read before the look, so that no knock is lost.
            let heard = door.load(Ordering::SeqCst);
            if number < self.left.load(Ordering::SeqCst).saturating_add(PLACES) {
                return;
            }
            door.park(rt, (heard & 0xffff_ffff) as u32);
        }
        unreachable!()
    }

    /// The place goes to the one that has waited longest, which is woken.
    fn leave(&self) {
        if !self.in_use {
            return;
        }
        let left = self.left.fetch_add(1, Ordering::SeqCst);
        let door = self.door_of(left.wrapping_add(PLACES));
        door.fetch_add(1, Ordering::SeqCst);
        // One alone sleeps there, or, where this knock comes late, a later one besides, which sleeps again.
        door.wake_all();
    }
}

/// A caller's way through the places. It has to be ended.
pub(crate) struct Visit<'a> {
    places: &'a Places,
    caller: u16,
    /// How many turns it has begun at its place; 0 where it has no place.
    turns: u32,
    ghost few: { turns ≤ 64 },
}

impl<'a> Visit<'a> {
    /// So far the caller has no place.
    pub(crate) fn new(places: &'a Places, caller: u16) -> Visit<'a>
        ensures { (result.caller ≡ caller) × (result.turns ≡ 0) }
    {
        Visit {
            places,
            caller,
            turns: 0,
        }
    }

    /// Comes to a line of some caller. For one of its own it has a place from here on, the same one for at most 64 of them; behind these it asks for another one.
    pub(crate) fn before<R: Wait>(&mut self, rt: &R, caller: u16)
        ensures caller { self.new.caller ≡ self.old.caller }
        ensures turns { self.new.turns ≡ turns_after (caller == self.old.caller) self.old.turns }
    {
        if caller != self.caller {
            return;
        }
        if self.turns == TURNS {
            self.places.leave();
            self.turns = 0;
        }
        if self.turns == 0 {
            self.places.enter(rt);
        }
        self.turns += 1;
    }

    /// Its place, if it has one, goes to another caller.
    pub(crate) fn end(self) {
        let Visit {
            places,
            caller: _,
            turns,
        } = self;
        if turns > 0 {
            places.leave();
        }
    }
}
