// How a turnstile is made and closed.
ghost use Rattle.std.specs.Prelude.{◌≡◌, ◌+◌, ◌<◌, ◌≤◌, [], ◌∷◌, ◌++◌, suc, length, vec_capacity, IfOk, IfErr};
ghost use Rattle.turnstile.specs.Turns.{Every, StandsIn, with_olds};
ghost use Rattle.turnstile.specs.Passes.{made_with, callers_of, IsOf, IsOutside, IsNew, AreNewFrom, AreOf, EachIsOf, AllStandIn, IsLast};
ghost use Rattle.turnstile.specs.Seats.{StandsOutside, shown_pass, old_pass, gathered};
ghost use Rattle.turnstile.specs.Gates.{start_of, callers_at, shown_turnstile, IsSeatOf, IsLead};

use crate::parts::{Pass, Turnstile};
use crate::plays::{Meet, OneMore};
use crate::stands::Stands;
use crate::table::{Gate, Place};
use crate::view::Start;
use atomic_table::{Refused, Table};
use std::alloc::{AllocFailed, Global};
use std::snapshot::Snapshot;
use voice_units::NoMemory;

fn put_first<T: Stands>(passes: &mut Vec<Pass<T>>, pass: Pass<T>)
    requires { length passes.old.items < vec_capacity passes.old }
    ensures { passes.new.items ≡ pass ∷ passes.old.items }
{
    if let Err(AllocFailed { value }) = passes.insert(0, pass) {
        let Pass { caller: _, seat } = value;
        drop(seat);
        unreachable!()
    }
}

fn put_last<T: Stands>(passes: &mut Vec<Pass<T>>, pass: Pass<T>)
    requires { length passes.old.items < vec_capacity passes.old }
    ensures items { passes.new.items ≡ passes.old.items ++ pass ∷ [] }
    ensures room { vec_capacity passes.old ≤ vec_capacity passes.new }
{
    if let Err(AllocFailed { value }) = passes.push(pass) {
        let Pass { caller: _, seat } = value;
        drop(seat);
        unreachable!()
    }
}

impl<T: Stands> Turnstile<T> {
    /// A turnstile round the value, with as many passes as there are callers.
    pub fn new(
        alloc: Global,
        value: T,
        callers: u16,
    ) -> Result<(Turnstile<T>, Vec<Pass<T>>), (NoMemory, T)>
        requires callers { (0 < callers) × (callers ≤ 16) }
        requires stands { T.stands value }
        ensures ok { IfOk result (λ r. (made_with r.0 ≡ value) × (callers_of r.0 ≡ callers) × (length r.1.items ≡ callers) × AreNewFrom T.history r.0 1 r.1.items) }
        ensures of { IfOk result (λ r. AreOf r.0 r.1.items) }
        ensures err { IfErr result (λ r. r.1 ≡ value) }
    {
        let Ok(mut passes) = Vec::with_capacity(alloc, usize::from(callers)) else {
            return Err((NoMemory, value));
        };
        match Gate::alone(alloc, value, callers) {
            Ok((gate, mut lead)) => {
                gate.deal(&mut lead, callers, &mut passes);
                put_first(&mut passes, first_pass(lead));
                Ok((Turnstile { gate }, passes))
            }
            Err(refused) => {
                passes.destroy_empty();
                Err(refused)
            }
        }
    }

    /// The value. The passes are used up.
    pub fn close(self, mut passes: Vec<Pass<T>>) -> T
        requires of { AreOf self passes.items }
        requires all { length passes.items ≡ callers_of self }
        ensures value { IsLast T.origin T.history T.stands self result }
        ensures passes { AllStandIn T.history self result passes.items }
    {
        let Turnstile { gate } = self;
        let Some(lead) = passes.pop() else {
            unreachable!()
        };
        let Pass {
            caller: _,
            seat: mut lead,
        } = lead;
        gate.gather(&mut lead, passes);
        gate.finish(lead)
    }
}

// The pass of the first seat.
fn first_pass<T: Stands>(lead: Place<T>) -> Pass<T>
    requires outside { StandsOutside lead }
    requires caller { (lead.me.0.caller ≡ 1) × (lead.me.0.olds ≡ []) }
    ensures { result ≡ shown_pass 1 lead }
{
    Pass {
        caller: 1,
        seat: lead,
    }
}

impl<T: Stands> Gate<T> {
    // With one seat.
    fn alone(alloc: Global, value: T, callers: u16) -> Result<(Gate<T>, Place<T>), (NoMemory, T)>
        requires callers { (0 < callers) × (callers ≤ 16) }
        requires stands { T.stands value }
        ensures ok { IfOk result (λ r. (start_of r.0 ≡ value) × (callers_at r.0 ≡ callers) × IsLead T.history r.0 1 r.1) }
        ensures err { IfErr result (λ r. r.1 ≡ value) }
    {
        let start = Start {
            base: Snapshot::of(&value),
            callers,
        };
        let mut slots = Vec::new(alloc);
        if let Err(AllocFailed { value }) = slots.push(Some(value)) {
            slots.destroy_empty();
            let Some(value) = value else { unreachable!() };
            return Err((NoMemory, value));
        }
        match Table::new(alloc, &[0; 19], slots, &start) {
            Ok((table, seat)) => Ok((Gate { table }, seat)),
            Err(Refused { mut slots }) => {
                let Some(slot) = slots.pop() else {
                    unreachable!()
                };
                slots.destroy_empty();
                let Some(value) = slot else { unreachable!() };
                Err((NoMemory, value))
            }
        }
    }

    // The other passes.
    fn deal(&self, lead: &mut Place<T>, callers: u16, passes: &mut Vec<Pass<T>>)
        requires lead { IsLead T.history self.now 1 lead.old }
        requires callers { (callers_at self.now ≡ callers) × (0 < callers) × (callers ≤ 16) }
        requires room { (passes.old.items ≡ []) × (callers ≤ vec_capacity passes.old) }
        ensures lead { IsLead T.history self.now callers lead.new }
        ensures passes { AreNewFrom T.history (shown_turnstile self.now) 2 passes.new.items }
        ensures count { length passes.new.items + 1 ≡ callers }
        ensures room { vec_capacity passes.old ≤ vec_capacity passes.new }
    {
        for made in 1..callers {
            let next = self.split(lead, made);
            put_last(passes, next);
        }
    }

    fn split(&self, lead: &mut Place<T>, made: u16) -> Pass<T>
        requires lead { IsLead T.history self.now made lead.old }
        requires room { (0 < made) × (made < callers_at self.now) × (callers_at self.now ≤ 16) }
        ensures lead { IsLead T.history self.now (made + 1) lead.new }
        ensures new { IsNew T.history (shown_turnstile self.now) (made + 1) result }
    {
        let seat = self.table.shared.split_seat::<OneMore>(lead);
        Pass {
            caller: made + 1,
            seat,
        }
    }

    // The seat takes the passes in.
    fn gather(&self, lead: &mut Place<T>, mut passes: Vec<Pass<T>>)
        requires lead { IsSeatOf self.now lead.old × StandsOutside lead.old }
        requires of { EachIsOf (shown_turnstile self.now) passes.items }
        ensures same { lead.new.table_id ≡ lead.old.table_id }
        ensures all { lead.new.me ≡ (with_olds (gathered lead.old.me.0.olds passes.items) lead.old.me.0, []) }
    {
        while let Some(pass) = passes.pop() {
            self.meet(lead, pass);
        }
        passes.destroy_empty();
    }

    fn meet(&self, lead: &mut Place<T>, other: Pass<T>)
        requires lead { IsSeatOf self.now lead.old × StandsOutside lead.old }
        requires other { IsOf (shown_turnstile self.now) other × IsOutside other }
        ensures same { lead.new.table_id ≡ lead.old.table_id }
        ensures met { lead.new.me ≡ (with_olds (old_pass other ∷ lead.old.me.0.olds) lead.old.me.0, []) }
    {
        let Pass { caller: _, seat } = other;
        self.table.shared.join_seat::<Meet>(lead, seat);
    }

    // The value, where the seat has taken in all others.
    fn finish(self, lead: Place<T>) -> T
        requires of { IsSeatOf self lead × StandsOutside lead }
        requires all { callers_at self ≤ suc (length lead.me.0.olds) }
        ensures value { IsLast T.origin T.history T.stands (shown_turnstile self) result }
        ensures own { StandsIn (T.history (start_of self)) (T.history result) lead.me.0.caller lead.me.0.seen lead.me.0.mine }
        ensures olds { Every (λ o. StandsIn (T.history (start_of self)) (T.history result) o.caller o.seen o.mine) lead.me.0.olds }
    {
        let Gate { table } = self;
        let mut closed = table.close_with(lead);
        let slot = closed.take(0);
        closed.free();
        let Some(value) = slot else { unreachable!() };
        value
    }
}
