// Turns.
ghost use Rattle.std.specs.Prelude.{◌≡◌, ◌++◌, length, drop};
ghost use Rattle.turnstile.specs.Histories.{entries_of};
ghost use Rattle.turnstile.specs.Turns.{Begins};
ghost use Rattle.turnstile.specs.Passes.{made_with, seen, mine, IsOf, IsOutside, IsEntered, HasStood, IsAllOf, AddsOneTurn};

use crate::parts::{Pass, Turnstile};
use crate::stands::Stands;
use std::sync::Wait;

impl<T: Stands> Pass<T> {
    /// Its caller's number, from 1 on.
    pub fn caller(&self) -> u16
        ensures { result ≡ self.now.caller }
    {
        self.caller
    }

    /// Gives the pass up. Its turnstile can then not be closed.
    pub fn end(self) {
        let Pass { caller: _, seat } = self;
        drop(seat);
    }
}

impl<T: Stands> Turnstile<T> {
    /// Waits for the turn, and hands the value out.
    pub fn enter<R: Wait>(&self, rt: &R, pass: &mut Pass<T>) -> T
        requires of { IsOf self.now pass.old }
        requires outside { IsOutside pass.old }
        ensures of { IsOf self.now pass.new }
        ensures entered { IsEntered pass.new }
        ensures caller { pass.new.caller ≡ pass.old.caller }
        ensures value { (T.origin result ≡ T.origin (made_with self.now)) × T.stands result }
        ensures seen { (seen pass.new ≡ T.history result) × Begins (seen pass.old) (seen pass.new) }
        ensures stood { HasStood T.origin T.history T.stands self.now pass.new }
        ensures mine { mine pass.new ≡ mine pass.old }
        // Nobody else had a turn of this caller.
        ensures all { IsAllOf (T.history (made_with self.now)) (T.history result) pass.new.caller (mine pass.new) }
    {
        let ticket = self.gate.draw(&mut pass.seat);
        self.gate.wait(rt, &mut pass.seat, ticket);
        self.gate.take(&mut pass.seat)
    }

    /// Hands the value back, with the number of entries that its history gained: at most two, a landing of no caller and one of this caller. Who enters must leave, or all others wait for good.
    pub fn leave(&self, pass: &mut Pass<T>, value: T, entries: u32)
        requires of { IsOf self.now pass.old }
        requires entered { IsEntered pass.old }
        requires value { (T.origin value ≡ T.origin (made_with self.now)) × T.stands value }
        requires turn { AddsOneTurn pass.old.caller (seen pass.old) (T.history value) entries }
        ensures of { IsOf self.now pass.new }
        ensures outside { IsOutside pass.new }
        ensures caller { pass.new.caller ≡ pass.old.caller }
        ensures seen { seen pass.new ≡ T.history value }
        ensures stood { HasStood T.origin T.history T.stands self.now pass.new }
        ensures mine { mine pass.new ≡ mine pass.old ++ entries_of pass.old.caller (drop (length (seen pass.old)) (T.history value)) }
    {
        self.gate.put(&mut pass.seat, value);
        self.gate.tell(&mut pass.seat, u64::from(entries));
        self.gate.pass_on(&mut pass.seat);
    }
}
