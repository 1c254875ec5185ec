//! Interests, as their number grows.

use bench_report::report::middle;
use interest_table::InterestTable;
use std::alloc::{AllocError, Global};
use std::io;
use std::rt::Clock;
use std::time::{Duration, Instant};
use voice_model::{Class, Key, Note, Row};
use voice_units::{Moment, NoMemory, RopeId};

// How many rows are forgotten, and made, between two looks at the clock.
const SOME: u32 = 10;

// The middle of so many rounds counts.
const ROUNDS: u32 = 21;

// No row expires before this moment.
const LATER: u64 = 1 << 39;

// Which rows are forgotten, in order of making.
#[derive(Clone, Copy)]
enum Place {
    First,
    Middle,
    Last,
}

// A key that spells a number, of eight letters.
fn key_of(number: u32) -> Result<Key, NoMemory> {
    let mut letters = [b'a'; 8];
    let mut rest = number;
    for letter in letters.iter_mut() {
        *letter = b'a' + (rest % 16) as u8;
        rest /= 16;
    }
    let Ok(key) = Key::new(&letters) else {
        return Err(NoMemory);
    };
    Ok(key)
}

fn retain(table: &mut InterestTable, number: u32) -> Result<(), NoMemory> {
    let key = key_of(number)?;
    let Ok(note) = Note::new(&LATER.to_be_bytes()) else {
        return Err(NoMemory);
    };
    let row = Row {
        class: Class::Until,
        key,
        rope: RopeId(u64::from(number)),
        note,
    };
    if table.is_full() || table.add(row).is_err() {
        return Err(NoMemory);
    }
    Ok(())
}

fn retain_all(table: &mut InterestTable, from: u32, to: u32) -> Result<(), NoMemory> {
    for number in from..to {
        retain(table, number)?;
    }
    Ok(())
}

fn forget_all(table: &mut InterestTable, from: u32, to: u32) -> Result<(), NoMemory> {
    for number in from..to {
        let _row = table.remove(Class::Until, &key_of(number)?);
    }
    Ok(())
}

// What was met, unless memory was wanted.
fn met(done: Result<(), NoMemory>) -> io::Result<()> {
    match done {
        Ok(()) => Ok(()),
        Err(NoMemory) => Err(io::Error::from(AllocError)),
    }
}

fn time_retain<R: Clock>(rt: &R, table: &mut InterestTable, from: u32) -> io::Result<Duration> {
    let start = Instant::now(rt)?;
    let made = retain_all(table, from, from.saturating_add(SOME));
    let took = start.elapsed(rt)?;
    met(made)?;
    Ok(took)
}

fn time_forget<R: Clock>(rt: &R, table: &mut InterestTable, from: u32) -> io::Result<Duration> {
    let start = Instant::now(rt)?;
    let gone = forget_all(table, from, from.saturating_add(SOME));
    let took = start.elapsed(rt)?;
    met(gone)?;
    Ok(took)
}

// A look for expired rows, of which there is none.
fn time_sweep<R: Clock>(rt: &R, table: &InterestTable) -> io::Result<Duration> {
    let start = Instant::now(rt)?;
    let expired = table.obsolete_until(Moment(LATER - 1));
    let took = start.elapsed(rt)?;
    match expired {
        Ok(_keys) => Ok(took),
        Err(NoMemory) => Err(io::Error::from(AllocError)),
    }
}

// The number of the first row that is forgotten, of so many.
fn number_at(place: Place, rows: u32) -> u32 {
    match place {
        Place::First => 0,
        Place::Middle => rows / 2,
        Place::Last => rows.saturating_sub(SOME),
    }
}

// The nanoseconds of one of some calls.
fn nanos(took: Duration) -> u128 {
    took.as_nanos() / u128::from(SOME)
}

// How long a row takes to be forgotten, and another one to be made behind all. As many rows stand after it.
fn time_round<R: Clock>(
    rt: &R,
    table: &mut InterestTable,
    rows: u32,
    place: Place,
    round: u32,
) -> io::Result<(u128, u128)> {
    let gone = round.saturating_mul(SOME);
    let forget = time_forget(rt, table, number_at(place, rows).saturating_add(gone))?;
    let retain = time_retain(rt, table, rows.saturating_add(gone))?;
    Ok((nanos(forget), nanos(retain)))
}

fn table_of(alloc: Global, rows: u32) -> io::Result<InterestTable> {
    let mut table = InterestTable::new(alloc);
    met(retain_all(&mut table, 0, rows))?;
    Ok(table)
}

// The same, the middle of all rounds.
fn time_rounds<R: Clock>(
    rt: &R,
    alloc: Global,
    rows: u32,
    place: Place,
) -> io::Result<(u128, u128)> {
    let mut table = table_of(alloc, rows)?;
    let mut forgets = Vec::new(alloc);
    let mut retains = Vec::new(alloc);
    for round in 0..ROUNDS {
        let (forget, retain) = time_round(rt, &mut table, rows, place, round)?;
        forgets.push(forget)?;
        retains.push(retain)?;
    }
    Ok((middle(&mut forgets), middle(&mut retains)))
}

// How long a look for expired rows takes, the middle of all rounds.
fn time_sweeps<R: Clock>(rt: &R, alloc: Global, rows: u32) -> io::Result<u128> {
    let table = table_of(alloc, rows)?;
    let mut sweeps = Vec::new(alloc);
    for _ in 0..ROUNDS {
        sweeps.push(time_sweep(rt, &table)?.as_nanos())?;
    }
    Ok(middle(&mut sweeps))
}

fn measure_rows<R: Print + Clock>(rt: &R, alloc: Global, rows: u32) -> io::Result<()> {
    let (first, retain) = time_rounds(rt, alloc, rows, Place::First)?;
    let (inner, _) = time_rounds(rt, alloc, rows, Place::Middle)?;
    let (last, _) = time_rounds(rt, alloc, rows, Place::Last)?;
    let sweep = time_sweeps(rt, alloc, rows)?;
    println!(rt;
        "{rows} rows: retain {retain} ns, forget the first {first} ns, in the middle {inner} ns, the last {last} ns, look for expired ones {sweep} ns"
    )
}

/// Prints what an interest costs to make and to forget, and what it costs to see that none has expired, by the number of interests: the middle of some rounds of ten calls each.
pub fn measure<R: Print + Clock + AllocGlobal>(rt: &R) -> io::Result<()> {
    measure_rows(rt, rt.alloc(), 100)?;
    measure_rows(rt, rt.alloc(), 1_000)?;
    measure_rows(rt, rt.alloc(), 10_000)?;
    measure_rows(rt, rt.alloc(), 100_000)
}
