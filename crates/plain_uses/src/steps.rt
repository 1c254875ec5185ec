//! Steps that both take, and whether they come to the same.

use crate::pair::{Answers, LANES, Pair};
use std::alloc::Global;
use std::process::Abort;
use std::test::Fail;
use voice_model::{Call, Class, Key, KeyList, Note};
use voice_units::{Lane, Moment, RopeId, Take};

/// What is done next. Ropes, lanes, tapes and keys stand by their numbers.
#[derive(Clone, Copy, Debug)]
pub enum Step {
    /// Tape, from, len.
    Record(u32, u32, u32),
    /// How many ropes, two by turns: the first, the other one.
    Concat(u32, u64, u64),
    /// Rope, start, len.
    Sub(u64, u32, u32),
    /// Rope, start, len, the rope that comes in.
    Replace(u64, u32, u32, u64),
    Length(u64),
    Describe(u64),
    Levels(u64),
    /// Lane, rope, start, len.
    Play(u16, u64, u32, u32),
    /// A window is asked for.
    Feed(u16),
    /// The window comes back, of which so much was heard, and the next one is asked for.
    Serve(u16, u32),
    /// The window is taken back without a Feed.
    TakeBack(u16),
    Stop(u16),
    /// Class, key, rope, and the moment that the note spells; without one the note has one byte.
    Retain(Class, u8, u64, Option<u64>),
    Forget(Class, u8),
    Lookup(Class, u8),
    /// The keys below 8 whose bits are set are listed.
    Census(u8),
    Advance(u64),
    Sweep(u16),
    /// Lane.
    Begin(u16),
    /// Lane, tape, from, len.
    Add(u16, u32, u32, u32),
    End(u16),
}

fn rope(number: u64) -> Result<RopeId, Fail> {
    Ok(RopeId::new(number).ok_or("no such rope")?)
}

fn key(number: u8) -> Result<Key, Fail> {
    Ok(Key::new(&[b'k', number])?)
}

fn note(moment: Option<u64>) -> Result<Note, Fail> {
    match moment {
        Some(moment) => Ok(Note::new(&moment.to_be_bytes())?),
        None => Ok(Note::new(b"n")?),
    }
}

fn record(
    pair: &mut Pair,
    alloc: Global,
    (tape, from, len): (u32, u32, u32),
) -> Result<Answers, Fail> {
    pair.record(alloc, Take { tape, from, len })
}

fn add(
    pair: &mut Pair,
    alloc: Global,
    lane: u16,
    (tape, from, len): (u32, u32, u32),
) -> Result<Answers, Fail> {
    pair.add(alloc, Lane(lane), Take { tape, from, len })
}

fn concat(pair: &mut Pair, alloc: Global, count: u32, by_turns: [u64; 2]) -> Result<Answers, Fail> {
    let [first, other] = by_turns;
    let mut ropes = Vec::new(alloc);
    for k in 0..count {
        let number = if k % 2 == 0 { first } else { other };
        ropes.push(rope(number)?)?;
    }
    pair.concat(alloc, ropes)
}

fn retain(
    pair: &mut Pair,
    alloc: Global,
    (class, number): (Class, u8),
    of: u64,
    moment: Option<u64>,
) -> Result<Answers, Fail> {
    let call = Call::Retain(class, key(number)?, rope(of)?, note(moment)?);
    pair.ask(alloc, call)
}

fn forget(pair: &mut Pair, alloc: Global, class: Class, number: u8) -> Result<Answers, Fail> {
    let key = key(number)?;
    pair.ask(alloc, Call::Forget(class, key))
}

fn look_up(pair: &mut Pair, alloc: Global, class: Class, number: u8) -> Result<Answers, Fail> {
    let key = key(number)?;
    pair.ask(alloc, Call::Lookup(class, key))
}

fn census(pair: &mut Pair, alloc: Global, listed: u8) -> Result<Answers, Fail> {
    let mut keys = Vec::new(alloc);
    for number in 0..8u8 {
        if (listed >> number) % 2 == 1 {
            keys.push(key(number)?)?;
        }
    }
    pair.ask(alloc, Call::Census(KeyList::of(keys)))
}

fn advance(pair: &mut Pair, alloc: Global, moment: u64) -> Result<Answers, Fail> {
    let moment = Moment::new(moment).ok_or("no such moment")?;
    pair.ask(alloc, Call::Advance(moment))
}

// Neither is asked anything.
fn take_back(pair: &mut Pair, alloc: Global, lane: u16) -> Answers {
    pair.take_back(Lane(lane));
    Answers {
        found: String::new(alloc),
        wanted: String::new(alloc),
    }
}

// Takes a step.
fn take(pair: &mut Pair, alloc: Global, step: Step) -> Result<Answers, Fail> {
    match step {
        Step::Record(tape, from, len) => record(pair, alloc, (tape, from, len)),
        Step::Concat(count, first, other) => concat(pair, alloc, count, [first, other]),
        Step::Sub(of, start, len) => pair.ask(alloc, Call::Sub(rope(of)?, start, len)),
        Step::Replace(of, start, len, with) => {
            pair.ask(alloc, Call::Replace(rope(of)?, start, len, rope(with)?))
        }
        Step::Length(of) => pair.ask(alloc, Call::Length(rope(of)?)),
        Step::Describe(of) => pair.ask(alloc, Call::Describe(rope(of)?)),
        Step::Levels(of) => pair.ask(alloc, Call::Levels(rope(of)?)),
        Step::Play(lane, of, start, len) => {
            pair.ask(alloc, Call::Play(Lane(lane), rope(of)?, start, len))
        }
        Step::Feed(lane) => pair.feed(alloc, Lane(lane)),
        Step::Serve(lane, heard) => pair.serve(alloc, Lane(lane), heard),
        Step::TakeBack(lane) => Ok(take_back(pair, alloc, lane)),
        Step::Stop(lane) => pair.ask(alloc, Call::Stop(Lane(lane))),
        Step::Retain(class, key, of, moment) => retain(pair, alloc, (class, key), of, moment),
        Step::Forget(class, key) => forget(pair, alloc, class, key),
        Step::Lookup(class, key) => look_up(pair, alloc, class, key),
        Step::Census(listed) => census(pair, alloc, listed),
        Step::Advance(moment) => advance(pair, alloc, moment),
        Step::Sweep(limit) => pair.ask(alloc, Call::Sweep(limit)),
        Step::Begin(lane) => pair.ask(alloc, Call::Begin(Lane(lane))),
        Step::Add(lane, tape, from, len) => add(pair, alloc, lane, (tape, from, len)),
        Step::End(lane) => pair.ask(alloc, Call::End(Lane(lane))),
    }
}

// Asserts that a lane's window is as long as the evaluator says, and has the samples that it says.
fn assert_window(
    rt: &impl Abort,
    alloc: Global,
    pair: &mut Pair,
    lane: u16,
    place: &str,
) -> Result<(), Fail> {
    let wanted = pair.wanted(Lane(lane))?;
    assert_eq!(rt;
        pair.out(Lane(lane)) as usize,
        wanted.len(),
        "{place}, lane {lane}"
    );
    if let Some(heard) = pair.heard(alloc, Lane(lane))? {
        assert!(rt;
            heard == wanted,
            "{place}, lane {lane}: {heard:?}, {wanted:?}"
        );
    }
    Ok(())
}

/// Takes a step, and asserts that both answer the same, that the same samples are out then, and as many blocks free. What they answer.
pub fn assert_step(
    rt: &impl Abort,
    alloc: Global,
    pair: &mut Pair,
    (name, number): (&str, usize),
    step: Step,
) -> Result<String, Fail> {
    let Answers { found, wanted } = take(pair, alloc, step)?;
    let place = format!(in alloc; "{name}, call {number}: {step:?}")?;
    assert!(rt; found == wanted, "{place}: {found:?}, {wanted:?}");
    let (left, wanted) = pair.free()?;
    assert_eq!(rt; left, wanted, "{place}");
    for lane in 0..LANES {
        assert_window(rt, alloc, pair, lane, &place)?;
    }
    Ok(found)
}
