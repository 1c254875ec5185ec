// A turnstile's table, and the steps of a turn.
ghost use Rattle.std.specs.Prelude.{◌≡◌, ℕ, ◌<◌, ◌≤◌, [], ◌∷◌, Some, None, MatchBool};
ghost use Rattle.turnstile.specs.Turns.{wrapped, with_ticket, with_told, with_none, HasTurn};
ghost use Rattle.turnstile.specs.declared.view.Stage.TheVariants.{Waiting, Entered, Told};
ghost use Rattle.turnstile.specs.Passes.{AddsOneTurn};
ghost use Rattle.turnstile.specs.Seats.{StandsOutside};
ghost use Rattle.turnstile.specs.Gates.{IsSeatOf, start_of};

use crate::plays::{Draw, Knock, Leave, Look, Tell};
use crate::stands::Stands;
use crate::table::{Gate, Place};
use std::sync::Wait;
use std::thread;

// The words.
const DRAWN: usize = 0;

const SERVED: usize = 1;

const TOLD: usize = 2;

// How often a seat looks before it goes to sleep: most turns are over before a sleeper could be woken.
const LOOKS: u32 = 64;

// Behind them come the doors, one for each ticket that may be out: the word at which its holder waits.
fn door_of(ticket: u64) -> usize
    ensures { (3 ≤ result) × (result < 19) }
{
    3 + (ticket % 16) as usize
}

impl<T: Stands> Gate<T> {
    /// The seat gets a ticket.
    pub(crate) fn draw(&self, seat: &mut Place<T>) -> u64
        requires of { IsSeatOf self.now seat.old }
        requires outside { StandsOutside seat.old }
        ensures same { seat.new.table_id ≡ seat.old.table_id }
        ensures drawn { (t : ℕ) × (result ≡ wrapped t) × (seat.new.me ≡ (with_ticket t seat.old.me.0, [])) }
    {
        self.table.shared.fetch_add::<Draw>(seat, DRAWN, 1)
    }

    // Whether it is the seat's turn. If so, it gets the value.
    fn look(&self, seat: &mut Place<T>, ticket: u64) -> bool
        requires of { IsSeatOf self.now seat.old }
        requires waits { (seat.old.me.0.stage ≡ Waiting) × (seat.old.me.1 ≡ []) × (ticket ≡ wrapped seat.old.me.0.ticket) }
        ensures same { seat.new.table_id ≡ seat.old.table_id }
        ensures turn { MatchBool result (HasTurn T.origin T.history T.stands (start_of self.now) seat.old.me.0 seat.new.me) (seat.new.me ≡ seat.old.me) }
    {
        let found = self.table.shared.load::<Look>(seat, SERVED);
        found == ticket
    }

    // Looks some times, and lets other threads run between; whether it came to be the seat's turn.
    fn watch(&self, seat: &mut Place<T>, ticket: u64) -> bool
        requires of { IsSeatOf self.now seat.old }
        requires waits { (seat.old.me.0.stage ≡ Waiting) × (seat.old.me.1 ≡ []) × (ticket ≡ wrapped seat.old.me.0.ticket) }
        ensures same { seat.new.table_id ≡ seat.old.table_id }
        ensures turn { MatchBool result (HasTurn T.origin T.history T.stands (start_of self.now) seat.old.me.0 seat.new.me) (seat.new.me ≡ seat.old.me) }
    {
        for _ in 0..LOOKS {
            if self.look(seat, ticket) {
                return true;
            }
            thread::yield_now();
        }
        false
    }

    /// Waits until it is the seat's turn.
    pub(crate) fn wait<R: Wait>(&self, rt: &R, seat: &mut Place<T>, ticket: u64)
        requires of { IsSeatOf self.now seat.old }
        requires waits { (seat.old.me.0.stage ≡ Waiting) × (seat.old.me.1 ≡ []) × (ticket ≡ wrapped seat.old.me.0.ticket) }
        ensures same { seat.new.table_id ≡ seat.old.table_id }
        ensures turn { HasTurn T.origin T.history T.stands (start_of self.now) seat.old.me.0 seat.new.me }
    {
        if self.watch(seat, ticket) {
            return;
        }
        let door = door_of(ticket);
        for _ in rt.forever() {
            // Read before the look, so that no knock is lost.
            let heard = self.table.shared.peek(door);
            if self.look(seat, ticket) {
                return;
            }
            self.table
                .shared
                .park(rt, door, (heard & 0xffff_ffff) as u32);
        }
        unreachable!()
    }

    /// The value that the seat has in its slot.
    pub(crate) fn take(&self, seat: &mut Place<T>) -> T
        requires of { seat.old.table_id ≡ self.now.table.shared.table_id }
        requires full { (y : T) × (seat.old.me.1 ≡ (0, Some y) ∷ []) }
        ensures same { seat.new.table_id ≡ seat.old.table_id }
        ensures taken { (seat.old.me.1 ≡ (0, Some result) ∷ []) × (seat.new.me ≡ (seat.old.me.0, (0, None) ∷ [])) }
    {
        let slot = self.table.shared.exchange(seat, 0, None);
        let Some(value) = slot else { unreachable!() };
        value
    }

    /// The value goes into the seat's slot.
    pub(crate) fn put(&self, seat: &mut Place<T>, value: T)
        requires of { seat.old.table_id ≡ self.now.table.shared.table_id }
        requires empty { seat.old.me.1 ≡ (0, None) ∷ [] }
        ensures same { seat.new.table_id ≡ seat.old.table_id }
        ensures put { seat.new.me ≡ (seat.old.me.0, (0, Some value) ∷ []) }
    {
        let slot = self.table.shared.exchange(seat, 0, Some(value));
        let None = slot else { unreachable!() };
    }

    /// The slot goes home, and the turn's entries are told.
    pub(crate) fn tell(&self, seat: &mut Place<T>, entries: u64)
        requires of { IsSeatOf self.now seat.old }
        requires full { (y : T) × (seat.old.me.0.stage ≡ Entered) × (seat.old.me.1 ≡ (0, Some y) ∷ []) × T.stands y × (T.origin y ≡ T.origin (start_of self.now)) × AddsOneTurn seat.old.me.0.caller seat.old.me.0.seen (T.history y) entries }
        ensures same { seat.new.table_id ≡ seat.old.table_id }
        ensures told { (y : T) → seat.old.me.1 ≡ (0, Some y) ∷ [] → seat.new.me ≡ (with_told (T.history y) seat.old.me.0, []) }
    {
        self.table.shared.fetch_add::<Tell>(seat, TOLD, entries);
    }

    // Wakes the one that waits at the door, if any does, to look again.
    fn knock(&self, seat: &mut Place<T>, door: usize)
        requires of { IsSeatOf self.now seat.old }
        requires door { (3 ≤ door) × (door < 19) }
        ensures same { seat.new.table_id ≡ seat.old.table_id }
        ensures stays { seat.new.me ≡ seat.old.me }
    {
        self.table.shared.fetch_add::<Knock>(seat, door, 1);
        self.table.shared.wake_one(door);
    }

    /// The turn goes to the next ticket, and its holder alone is woken.
    pub(crate) fn pass_on(&self, seat: &mut Place<T>)
        requires of { IsSeatOf self.now seat.old }
        requires told { (seat.old.me.0.stage ≡ Told) × (seat.old.me.1 ≡ []) }
        ensures same { seat.new.table_id ≡ seat.old.table_id }
        ensures left { seat.new.me ≡ (with_none seat.old.me.0, []) }
    {
        let served = self.table.shared.fetch_add::<Leave>(seat, SERVED, 1);
        self.knock(seat, door_of(served.wrapping_add(1)));
    }
}
