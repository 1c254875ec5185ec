//! The rows of class Until by their moments. A row whose note spells no number below 2^64 never expires.

ghost use Rattle.std.specs.Prelude.{◌≡◌, ℕ, ◌<◌, ◌≤◌, ◌+◌, ◌^◌, ◌++◌, [], List, cond, nat_lt, IfOk, IfSome, IfNone};
ghost use Rattle.disk_areas.specs.Numbers.{spelled_number};
ghost use Rattle.interest_table.specs.Inside.{is_due, is_that, place_of, AreOrdered, IsEntered, IsTaken, IsGained, IsLost, Leads, NoneDue, due_front, IsDueStamps};

use counted_row::CountedRow;
use std::alloc::Global;
use voice_model::{Class, Row};
use voice_units::{Moment, NoMemory};

/// The moment of a row, and its stamp.
#[derive(Clone, Copy)]
pub(crate) struct Expiry {
    pub(crate) moment: u64,
    pub(crate) stamp: u64,
}

/// The number that bytes spell, the first byte highest.
fn spelled(bytes: &[u8]) -> Option<u64>
    ensures some { IfSome result (λ number. number ≡ spelled_number bytes.now) }
    ensures none { IfNone result (2 ^ 64 ≤ spelled_number bytes.now) }
{
    let mut number = 0u64;
    for byte in bytes {
        if number >= 1 << 56 {
            return None;
        }
        number = number * 256 + u64::from(*byte);
    }
    Some(number)
}

/// The moment at which a row expires.
fn moment_of(row: &Row) -> Option<u64>
    ensures { (moment : ℕ) → moment < 2 ^ 64 → is_due moment row.now ≡ is_that moment result }
{
    if !matches!(row.class, Class::Until) {
        return None;
    }
    spelled(row.note.bytes())
}

/// Whether one expiry stands before another.
fn stands_before(one: &Expiry, other: &Expiry) -> bool
    ensures { result ≡ nat_lt (place_of one.now) (place_of other.now) }
{
    let earlier = one.stamp < other.stamp;
    if one.moment == other.moment {
        return earlier;
    }
    one.moment < other.moment
}

/// Puts an expiry where it belongs, where there is room.
fn put_expiry(expiries: &mut CountedRow<Expiry>, coming: Expiry)
    requires { 0 < expiries.old.spare }
    ensures items { IsEntered coming expiries.old.items expiries.new.items }
    ensures spare { expiries.old.spare ≤ expiries.new.spare + 1 }
{
    let Ok(()) = expiries.insert_at_point(|other| stands_before(other, &coming), coming) else {
        return;
    };
}

/// Takes out an expiry that is there.
fn take_expiry(expiries: &mut CountedRow<Expiry>, gone: Expiry)
    ensures items { IsTaken gone expiries.old.items expiries.new.items }
    ensures spare { expiries.old.spare ≤ expiries.new.spare }
{
    expiries.remove_at_point(|other| stands_before(other, &gone));
}

/// A row comes under a stamp, where there is room.
pub(crate) fn gain_expiry(expiries: &mut CountedRow<Expiry>, row: &Row, stamp: u64)
    requires { 0 < expiries.old.spare }
    ensures items { IsGained row.now stamp expiries.old.items expiries.new.items }
    ensures spare { expiries.old.spare ≤ expiries.new.spare + 1 }
{
    let Some(moment) = moment_of(row) else {
        return;
    };
    put_expiry(expiries, Expiry { moment, stamp });
}

/// The row of a stamp goes.
pub(crate) fn lose_expiry(expiries: &mut CountedRow<Expiry>, row: &Row, stamp: u64)
    ensures items { IsLost row.now stamp expiries.old.items expiries.new.items }
    ensures spare { expiries.old.spare ≤ expiries.new.spare }
{
    let Some(moment) = moment_of(row) else {
        return;
    };
    take_expiry(expiries, Expiry { moment, stamp });
}

/// The stamp of the row that expires first, if its moment is not above this one.
pub(crate) fn first_due(expiries: &CountedRow<Expiry>, now: Moment) -> Option<u64>
    ensures some { IfSome result (λ stamp. Leads now stamp expiries.now.items) }
    ensures none { IfNone result (NoneDue now expiries.now.items) }
    ensures moment { now < 2 ^ 64 }
{
    let most = now.number();
    let Some(first) = expiries.get(0) else {
        return None;
    };
    if first.moment > most {
        return None;
    }
    Some(first.stamp)
}

/// Puts the stamps of a run last, up to the first expiry that is not due. Whether all are.
fn push_due(stamps: &mut Vec<u64>, run: &[Expiry], most: u64) -> Result<bool, NoMemory>
    ensures { IfOk result (λ all. (left : List Expiry) → stamps.new.items ++ cond all (due_front most left) [] ≡ stamps.old.items ++ due_front most (run.now ++ left)) }
{
    for expiry in run {
        if expiry.moment > most {
            return Ok(false);
        }
        stamps.push(expiry.stamp)?;
    }
    Ok(true)
}

/// The stamps of the expiries in front that are due. It ends at the first that is not: where none is, it looks at one.
fn front_stamps(
    alloc: Global,
    expiries: &CountedRow<Expiry>,
    most: u64,
) -> Result<Vec<u64>, NoMemory>
    ensures { IfOk result (λ stamps. stamps.items ≡ due_front most expiries.now.items) }
{
    let _len = expiries.len();
    let mut stamps = Vec::new(alloc);
    let mut place = 0;
    while let Some(run) = expiries.run(place) {
        let all = push_due(&mut stamps, run, most)?;
        if !all {
            return Ok(stamps);
        }
        place += run.len();
    }
    Ok(stamps)
}

/// The stamps of the rows whose moment is not above this one, rising.
pub(crate) fn due_stamps(
    alloc: Global,
    expiries: &CountedRow<Expiry>,
    now: Moment,
) -> Result<Vec<u64>, NoMemory>
    ensures stamps { IfOk result (λ stamps. IsDueStamps now expiries.now.items stamps.items) }
    ensures moment { now < 2 ^ 64 }
{
    let mut stamps = front_stamps(alloc, expiries, now.number())?;
    stamps.sort_unstable();
    Ok(stamps)
}
