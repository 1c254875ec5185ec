//! Steps of plays, and what each has to be answered.

use crate::desk::{Desk, hear};
use std::alloc::Global;
use std::process::Abort;
use std::test::Fail;
use voice_model::{Call, Class, Entry, Key, Note};
use voice_units::{Lane, Moment, RopeId};

/// What is done next. Ropes, lanes and tapes stand by their numbers.
#[derive(Clone, Copy)]
pub enum Step {
    /// The first samples of a tape: the tape, how many.
    Record(u32, u32),
    Concat(&'static [u64]),
    /// Rope, start, len.
    Sub(u64, u32, u32),
    /// Rope, start, len, the rope that comes in.
    Replace(u64, u32, u32, u64),
    /// Lane, rope, start, len.
    Play(u16, u64, u32, u32),
    /// A window is asked for.
    Feed(u16),
    /// The window comes back, of which so much was heard, and the next one is asked for.
    Serve(u16, u32),
    /// The window is taken back without a Feed.
    TakeBack(u16),
    Stop(u16),
    /// A rope is retained as held: the key, the rope.
    Hold(&'static [u8], u64),
    /// An interest of class held is looked up.
    Lookup(&'static [u8]),
    Advance(u64),
    Sweep(u16),
    /// The window that is out has these samples.
    Copy(u16, &'static [u8]),
    /// The first job of the lane is served to its end, and these samples are heard.
    Hear(u16, &'static [u8]),
    /// The same, where all samples are equal: the sample, how many.
    HearEqual(u16, u8, usize),
    /// The last call made so many device calls.
    DeviceCalls(u64),
    /// So many blocks are free.
    Free(u32),
    /// Of the first 16 blocks of a voice file frames hold just these.
    Resident(u64, &'static [u32]),
}

/// A step, and the replies of the calls that it makes, a line each.
pub type Told = (Step, &'static str);

fn rope(number: u64) -> Result<RopeId, Fail> {
    Ok(RopeId::new(number).ok_or("no such rope")?)
}

fn ropes(alloc: Global, numbers: &[u64]) -> Result<Vec<RopeId>, Fail> {
    let mut ropes = Vec::new(alloc);
    for number in numbers {
        ropes.push(rope(*number)?)?;
    }
    Ok(ropes)
}

fn hold(desk: &mut Desk, key: &[u8], number: u64) -> Result<(), Fail> {
    let key = Key::new(key)?;
    let none = Note::new(&[])?;
    desk.ask(Call::Retain(Class::Held, key, rope(number)?, none))
}

fn look_up(desk: &mut Desk, key: &[u8]) -> Result<(), Fail> {
    let key = Key::new(key)?;
    desk.ask(Call::Lookup(Class::Held, key))
}

fn advance(desk: &mut Desk, moment: u64) -> Result<(), Fail> {
    let moment = Moment::new(moment).ok_or("no such moment")?;
    desk.ask(Call::Advance(moment))
}

// How many device calls the last of these made.
fn calls_of_last(history: &[Entry]) -> u64 {
    match history {
        [.., before, last] => last.ack.saturating_sub(before.ack),
        _ => 0,
    }
}

// Asserts what a lane's first job sounds like.
fn assert_heard(
    rt: &impl Abort,
    alloc: Global,
    desk: &mut Desk,
    lane: u16,
    wanted: &[u8],
) -> Result<(), Fail> {
    let heard = hear(alloc, desk, Lane(lane))?;
    assert!(rt; heard.as_slice() == wanted);
    Ok(())
}

// Asserts that all of a lane's first job sounds like this.
fn assert_equal_heard(
    rt: &impl Abort,
    alloc: Global,
    desk: &mut Desk,
    (lane, sample, count): (u16, u8, usize),
) -> Result<(), Fail> {
    let heard = hear(alloc, desk, Lane(lane))?;
    assert_eq!(rt; heard.len(), count);
    assert!(rt; heard.iter().all(|found| *found == sample));
    Ok(())
}

// Asserts what a lane's window has.
fn assert_copied(
    rt: &impl Abort,
    alloc: Global,
    desk: &mut Desk,
    lane: u16,
    wanted: &[u8],
) -> Result<(), Fail> {
    let found = desk.copied(alloc, Lane(lane))?;
    assert!(rt; found.as_slice() == wanted);
    Ok(())
}

// Asserts which of the first blocks of a voice file frames hold.
fn assert_resident(
    rt: &impl Abort,
    alloc: Global,
    desk: &Desk,
    file: u64,
    wanted: &[u32],
) -> Result<(), Fail> {
    let file = rope(file)?;
    let mut held = Vec::new(alloc);
    for index in 0..16 {
        if desk.resident(file, index) {
            held.push(index)?;
        }
    }
    assert!(rt; held.as_slice() == wanted);
    Ok(())
}

// Takes a step.
fn take(rt: &impl Abort, alloc: Global, desk: &mut Desk, step: Step) -> Result<(), Fail> {
    match step {
        Step::Record(tape, len) => desk.record(tape, len),
        Step::Concat(numbers) => desk.concat(ropes(alloc, numbers)?),
        Step::Sub(number, start, len) => desk.ask(Call::Sub(rope(number)?, start, len)),
        Step::Replace(number, start, len, with) => {
            desk.ask(Call::Replace(rope(number)?, start, len, rope(with)?))
        }
        Step::Play(lane, number, start, len) => {
            desk.ask(Call::Play(Lane(lane), rope(number)?, start, len))
        }
        Step::Feed(lane) => desk.feed(Lane(lane)),
        Step::Serve(lane, heard) => desk.serve(Lane(lane), heard),
        Step::TakeBack(lane) => desk.take_back(Lane(lane)),
        Step::Stop(lane) => desk.ask(Call::Stop(Lane(lane))),
        Step::Hold(key, number) => hold(desk, key, number),
        Step::Lookup(key) => look_up(desk, key),
        Step::Advance(moment) => advance(desk, moment),
        Step::Sweep(limit) => desk.ask(Call::Sweep(limit)),
        Step::Copy(lane, wanted) => assert_copied(rt, alloc, desk, lane, wanted),
        Step::Hear(lane, wanted) => assert_heard(rt, alloc, desk, lane, wanted),
        Step::HearEqual(lane, sample, count) => {
            assert_equal_heard(rt, alloc, desk, (lane, sample, count))
        }
        Step::DeviceCalls(count) => {
            assert_eq!(rt; calls_of_last(desk.history()), count);
            Ok(())
        }
        Step::Free(count) => {
            assert_eq!(rt; desk.free(), count);
            Ok(())
        }
        Step::Resident(file, wanted) => assert_resident(rt, alloc, desk, file, wanted),
    }
}

/// The replies from a place of a history on, a line each.
pub fn told_from(alloc: Global, history: &[Entry], from: usize) -> Result<String, Fail> {
    let mut text = String::new(alloc);
    for entry in history.iter().skip(from) {
        let reply = &entry.reply;
        let line = format!(in alloc; "{reply}\n")?;
        text.push_str(&line)?;
    }
    Ok(text)
}

/// Takes steps one after another, and asserts what each is answered.
pub fn assert_told(
    rt: &impl Abort,
    alloc: Global,
    desk: &mut Desk,
    name: &str,
    steps: &[Told],
) -> Result<(), Fail> {
    for (number, &(step, wanted)) in steps.iter().enumerate() {
        let before = desk.history().len();
        take(rt, alloc, desk, step)?;
        let told = told_from(alloc, desk.history(), before)?;
        assert_eq!(rt; told.as_str(), wanted, "{name}, step {number}");
    }
    Ok(())
}
