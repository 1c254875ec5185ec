//! Ropes and what is due, as the number of ropes grows.

ghost use Rattle.std.specs.Prelude.{◌≡◌, [], false};
ghost use Rattle.rope_table.specs.Table.{Every};

use collector::first;
use interest_table::InterestTable;
use rope_algebra::Pieces;
use rope_table::RopeTable;
use std::alloc::{AllocError, Global};
use std::io;
use std::marker::Brand;
use std::rt::Clock;
use std::sync::ledger::{Blank, Ledger};
use std::time::{Duration, Instant};
use voice_units::{Moment, NoMemory, Piece, RopeId, Steps};

const BLOCK: u32 = 4096;

// How many ropes come, go, are cut or are due in a round.
const SOME: u16 = 10;

const ROUNDS: u32 = 20;

// How long a rope waits.
const WAIT: u32 = 60;

// How long each call took in all rounds.
#[derive(Clone, Copy)]
struct Times {
    add: Duration,
    remove: Duration,
    slice: Duration,
    first: Duration,
}

// Puts in a rope of the first sample of its own file, idle since the moment of its number. A file of which a sample is in use already is taken for lack of memory.
fn put(alloc: Global, table: &mut RopeTable, number: u32) -> Result<(), NoMemory>
    requires { Every (λ rope. rope.kept ≡ false) table.old.ropes }
    ensures { Every (λ rope. rope.kept ≡ false) table.new.ropes }
{
    let id = RopeId(u64::from(number));
    let pieces = Pieces::one(
        alloc,
        Piece {
            file: id,
            from: 0,
            len: 1,
        },
    )?;
    table.reserve(pieces.length())?;
    if table.get(id).is_some() {
        return Err(NoMemory);
    }
    if table.uses(id, 0) > 0 {
        return Err(NoMemory);
    }
    table.add(id, pieces, Moment(u64::from(number)), 0, WAIT);
    Ok(())
}

// Puts in so many ropes, whose numbers stand equally far apart.
fn put_some(
    alloc: Global,
    table: &mut RopeTable,
    from: u32,
    apart: u32,
    count: u32,
) -> Result<(), NoMemory>
    requires { Every (λ rope. rope.kept ≡ false) table.old.ropes }
    ensures { Every (λ rope. rope.kept ≡ false) table.new.ropes }
{
    for k in 0..count {
        put(alloc, table, from.wrapping_add(k.wrapping_mul(apart)))?;
    }
    Ok(())
}

// Takes out some ropes, whose numbers stand equally far apart.
fn remove_some(table: &mut RopeTable, from: u32, apart: u32)
    requires { Every (λ rope. rope.kept ≡ false) table.old.ropes }
    ensures { Every (λ rope. rope.kept ≡ false) table.new.ropes }
{
    for k in 0..SOME {
        let number = from.wrapping_add(u32::from(k).wrapping_mul(apart));
        let _pieces = table.remove(RopeId(u64::from(number)));
    }
}

// How many samples the cuts of some ropes have in all, each of the first sample.
fn slice_some(table: &RopeTable, from: u32, apart: u32) -> Result<u32, NoMemory> {
    let mut samples = 0u32;
    for k in 0..SOME {
        let number = from.wrapping_add(u32::from(k).wrapping_mul(apart));
        let Some(pieces) = table.get(RopeId(u64::from(number))) else {
            return Err(NoMemory);
        };
        if pieces.length() == 0 {
            return Err(NoMemory);
        }
        let cut = pieces.slice(0, 1)?;
        samples = samples.wrapping_add(cut.length());
    }
    Ok(samples)
}

// How many ropes a sweep removes first at this moment, where there is no interest.
fn due_at<L: Ledger>(
    alloc: Global,
    table: &RopeTable,
    interests: &InterestTable,
    now: Moment,
    blank: Blank,
) -> Result<usize, NoMemory>
    requires free { Every (λ rope. rope.kept ≡ false) table.now.ropes }
    requires none { interests.now.rows ≡ [] }
    requires name { blank.name ≡ L.name }
    requires parts { blank.parts ≡ L.parts }
    requires one { blank.parts ≡ 1 }
{
    let mut steps = Steps::<L>::new(blank);
    let gone = first(alloc, table, interests, now, WAIT, SOME, &mut steps)?;
    Ok(gone.items().len())
}

fn due_now(
    alloc: Global,
    table: &RopeTable,
    interests: &InterestTable,
    now: Moment,
) -> Result<usize, NoMemory>
    requires free { Every (λ rope. rope.kept ≡ false) table.now.ropes }
    requires none { interests.now.rows ≡ [] }
{
    due_at::<Brand>(alloc, table, interests, now, Blank::new(1))
}

// Puts in as many ropes as a round does.
fn put_round(alloc: Global, table: &mut RopeTable, from: u32, apart: u32) -> io::Result<()>
    requires { Every (λ rope. rope.kept ≡ false) table.old.ropes }
    ensures { Every (λ rope. rope.kept ≡ false) table.new.ropes }
{
    if put_some(alloc, table, from, apart, u32::from(SOME)).is_err() {
        return Err(io::Error::from(AllocError));
    }
    Ok(())
}

fn time_put<R: Clock>(
    rt: &R,
    alloc: Global,
    table: &mut RopeTable,
    from: u32,
) -> io::Result<Duration>
    requires { Every (λ rope. rope.kept ≡ false) table.old.ropes }
    ensures { Every (λ rope. rope.kept ≡ false) table.new.ropes }
{
    let start = Instant::now(rt)?;
    put_round(alloc, table, from, 1)?;
    start.elapsed(rt)
}

fn time_remove<R: Clock>(rt: &R, table: &mut RopeTable, apart: u32) -> io::Result<Duration>
    requires { Every (λ rope. rope.kept ≡ false) table.old.ropes }
    ensures { Every (λ rope. rope.kept ≡ false) table.new.ropes }
{
    let start = Instant::now(rt)?;
    remove_some(table, 1, apart);
    start.elapsed(rt)
}

fn time_slice<R: Clock>(rt: &R, table: &RopeTable, apart: u32) -> io::Result<Duration> {
    let start = Instant::now(rt)?;
    let cut = slice_some(table, 1, apart);
    let took = start.elapsed(rt)?;
    if cut != Ok(u32::from(SOME)) {
        return Err(io::Error::from(AllocError));
    }
    Ok(took)
}

fn time_due<R: Clock>(
    rt: &R,
    alloc: Global,
    table: &RopeTable,
    interests: &InterestTable,
) -> io::Result<Duration>
    requires free { Every (λ rope. rope.kept ≡ false) table.now.ropes }
    requires none { interests.now.rows ≡ [] }
{
    let now = Moment(u64::from(WAIT) + u64::from(SOME));
    let start = Instant::now(rt)?;
    let due = due_now(alloc, table, interests, now);
    let took = start.elapsed(rt)?;
    if due != Ok(usize::from(SOME)) {
        return Err(io::Error::from(AllocError));
    }
    Ok(took)
}

// How long it takes to put in the ropes of a round, and to take as many out. The table has the same ropes after it.
fn time_coming<R: Clock>(
    rt: &R,
    alloc: Global,
    table: &mut RopeTable,
    count: u32,
) -> io::Result<(Duration, Duration)>
    requires { Every (λ rope. rope.kept ≡ false) table.old.ropes }
    ensures { Every (λ rope. rope.kept ≡ false) table.new.ropes }
{
    let apart = count / u32::from(SOME);
    let behind = count.wrapping_add(1);
    let add = time_put(rt, alloc, table, behind)?;
    let remove = time_remove(rt, table, apart)?;
    remove_some(table, behind, 1);
    put_round(alloc, table, 1, apart)?;
    Ok((add, remove))
}

// How long a round of each call takes at so many ropes. The table has the same ropes after it.
fn round<R: Clock>(
    rt: &R,
    alloc: Global,
    table: &mut RopeTable,
    interests: &InterestTable,
    count: u32,
) -> io::Result<Times>
    requires free { Every (λ rope. rope.kept ≡ false) table.old.ropes }
    requires none { interests.now.rows ≡ [] }
    ensures { Every (λ rope. rope.kept ≡ false) table.new.ropes }
{
    let (add, remove) = time_coming(rt, alloc, table, count)?;
    let slice = time_slice(rt, table, count / u32::from(SOME))?;
    let first = time_due(rt, alloc, table, interests)?;
    Ok(Times {
        add,
        remove,
        slice,
        first,
    })
}

impl Times {
    fn plus(self, other: Times) -> Times {
        Times {
            add: self.add.saturating_add(other.add),
            remove: self.remove.saturating_add(other.remove),
            slice: self.slice.saturating_add(other.slice),
            first: self.first.saturating_add(other.first),
        }
    }
}

// The nanoseconds of a call, of which each round makes so many.
fn nanos(took: Duration, in_a_round: u16) -> u128 {
    took.as_nanos() / (u128::from(ROUNDS) * u128::from(in_a_round)).max(1)
}

// How long all rounds of each call take. One round before them is for warming up.
fn rounds<R: Clock>(
    rt: &R,
    alloc: Global,
    table: &mut RopeTable,
    interests: &InterestTable,
    count: u32,
) -> io::Result<Times>
    requires free { Every (λ rope. rope.kept ≡ false) table.old.ropes }
    requires none { interests.now.rows ≡ [] }
{
    let _warm = round(rt, alloc, table, interests, count)?;
    let mut times = Times {
        add: Duration::ZERO,
        remove: Duration::ZERO,
        slice: Duration::ZERO,
        first: Duration::ZERO,
    };
    for _ in 0..ROUNDS {
        let more = round(rt, alloc, table, interests, count)?;
        times = times.plus(more);
    }
    Ok(times)
}

// A row comes to keep each of some ropes, whose numbers stand equally far apart, and goes.
fn keep_some(table: &mut RopeTable, from: u32, apart: u32) {
    for k in 0..SOME {
        let number = from.wrapping_add(u32::from(k).wrapping_mul(apart));
        table.keep(RopeId(u64::from(number)), true);
        table.keep(RopeId(u64::from(number)), false);
    }
}

// How long all rounds of that take.
fn time_keeps<R: Clock>(rt: &R, table: &mut RopeTable, apart: u32) -> io::Result<Duration> {
    let start = Instant::now(rt)?;
    for round in 0..ROUNDS {
        keep_some(table, round.wrapping_add(1), apart);
    }
    start.elapsed(rt)
}

// How long all rounds of each call take once so many ropes came to a table, and those of a row that comes and goes.
fn fill_and_time<R: Clock>(
    rt: &R,
    alloc: Global,
    table: &mut RopeTable,
    interests: &InterestTable,
    count: u32,
) -> io::Result<(Times, Duration)>
    requires free { Every (λ rope. rope.kept ≡ false) table.old.ropes }
    requires none { interests.now.rows ≡ [] }
{
    if put_some(alloc, table, 1, 1, count).is_err() {
        return Err(io::Error::from(AllocError));
    }
    let times = rounds(rt, alloc, table, interests, count)?;
    let keep = time_keeps(rt, table, count / u32::from(SOME))?;
    Ok((times, keep))
}

// The same at a new table.
fn new_rounds<R: Clock>(rt: &R, alloc: Global, count: u32) -> io::Result<(Times, Duration)> {
    let mut table = RopeTable::new(alloc, BLOCK);
    let interests = InterestTable::new(alloc);
    fill_and_time(rt, alloc, &mut table, &interests, count)
}

fn measure_ropes<R: Print + Clock>(rt: &R, alloc: Global, count: u32) -> io::Result<()> {
    let (times, keep) = new_rounds(rt, alloc, count)?;
    let add = nanos(times.add, SOME);
    let remove = nanos(times.remove, SOME);
    let slice = nanos(times.slice, SOME);
    let first = nanos(times.first, 1);
    let keep = nanos(keep, SOME);
    println!(rt;
        "{count} ropes: add {add} ns, remove {remove} ns, a row that comes and goes {keep} ns, slice {slice} ns, the first {SOME} due {first} ns"
    )
}

// How long each piece of the rope of the windows is, and how often that rope is doubled.
const OF_PIECE: u32 = 100;

const DOUBLINGS: u32 = 11;

fn one_piece(alloc: Global, file: RopeId) -> Result<Pieces, NoMemory> {
    let piece = Piece {
        file,
        from: 0,
        len: OF_PIECE,
    };
    Pieces::one(alloc, piece)
}

// One rope behind another; one that would be too long is taken for lack of memory.
fn joined(first: &Pieces, second: &Pieces) -> Result<Pieces, NoMemory> {
    if first.length() > 1 << 29 {
        return Err(NoMemory);
    }
    if second.length() > 1 << 29 {
        return Err(NoMemory);
    }
    first.concat(second)
}

// A rope of 4,096 pieces, of two files by turns.
fn many_pieces(alloc: Global) -> Result<Pieces, NoMemory> {
    let first = one_piece(alloc, RopeId(1))?;
    let second = one_piece(alloc, RopeId(2))?;
    let mut pieces = joined(&first, &second)?;
    for _ in 0..DOUBLINGS {
        pieces = joined(&pieces, &pieces)?;
    }
    Ok(pieces)
}

// How many samples some windows have in all, the first of them at this place.
fn windows_at(pieces: &Pieces, at: u32) -> u32 {
    let mut samples = 0u32;
    for k in 0..u32::from(SOME) {
        let place = at.saturating_add(k).min(pieces.length());
        samples = samples.wrapping_add(pieces.window(place, BLOCK));
    }
    samples
}

fn time_windows<R: Clock>(rt: &R, pieces: &Pieces, at: u32) -> io::Result<Duration> {
    let start = Instant::now(rt)?;
    let mut samples = 0u32;
    for round in 0..ROUNDS {
        samples = samples.wrapping_add(windows_at(pieces, at.saturating_add(round)));
    }
    let took = start.elapsed(rt)?;
    if samples == 0 {
        return Err(io::Error::from(AllocError));
    }
    Ok(took)
}

// Prints what a window costs at the start and at the end of a rope of many pieces.
fn measure_windows<R: Print + Clock>(rt: &R, alloc: Global) -> io::Result<()> {
    let Ok(pieces) = many_pieces(alloc) else {
        return Err(io::Error::from(AllocError));
    };
    let last = pieces.length().saturating_sub(OF_PIECE);
    let count = pieces.count();
    let start = nanos(time_windows(rt, &pieces, 0)?, SOME);
    let end = nanos(time_windows(rt, &pieces, last)?, SOME);
    println!(rt;
        "a window of a rope of {count} pieces: at the start {start} ns, at the end {end} ns"
    )
}

/// Prints what a rope costs to put in, to take out and to cut, what a row costs that comes to keep it and goes, and what it costs to find the first ones that a sweep removes, by the number of ropes; and what a window costs.
pub fn measure<R: Print + Clock + AllocGlobal>(rt: &R) -> io::Result<()> {
    measure_ropes(rt, rt.alloc(), 100)?;
    measure_ropes(rt, rt.alloc(), 1_000)?;
    measure_ropes(rt, rt.alloc(), 10_000)?;
    measure_ropes(rt, rt.alloc(), 100_000)?;
    measure_windows(rt, rt.alloc())
}
