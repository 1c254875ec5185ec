//! Replies of the plain evaluator, and the samples of its windows.

use crate::Plain;
use crate::cases::{Ask, CASES, Case, DAY};
use std::alloc::Global;
use std::process::Abort;
use std::test::Fail;
use voice_model::{Call, Class, Key, KeyList, Note, RopeList, Tapes};
use voice_units::{Graces, Lane, Moment, RopeId, Shape, Take};

fn rope(number: u16) -> RopeId {
    RopeId(u64::from(number))
}

// The first samples of the tape.
fn first(len: u32) -> Take {
    Take {
        tape: 0,
        from: 0,
        len,
    }
}

fn concat(alloc: Global, numbers: &[u16]) -> Result<Call, Fail> {
    let mut ropes = Vec::new(alloc);
    for number in numbers {
        ropes.push(rope(*number))?;
    }
    Ok(Call::Concat(RopeList::of(ropes)))
}

fn retain(class: Class, key: &[u8], number: u16, note: &[u8]) -> Result<Call, Fail> {
    let key = Key::new(key)?;
    let note = Note::new(note)?;
    Ok(Call::Retain(class, key, rope(number), note))
}

fn census(alloc: Global, key: &[u8]) -> Result<Call, Fail> {
    let key = Key::new(key)?;
    Ok(Call::Census(KeyList::of(vec![in alloc; key]?)))
}

// The call that is asked for.
fn asked(alloc: Global, ask: Ask) -> Result<Call, Fail> {
    match ask {
        Ask::Record(len) => Ok(Call::Record(first(len))),
        Ask::Concat(numbers) => concat(alloc, numbers),
        Ask::Sub(of, start, len) => Ok(Call::Sub(rope(of), start, len)),
        Ask::Replace(of, start, len, with) => Ok(Call::Replace(rope(of), start, len, rope(with))),
        Ask::Length(of) => Ok(Call::Length(rope(of))),
        Ask::Describe(of) => Ok(Call::Describe(rope(of))),
        Ask::Levels(of) => Ok(Call::Levels(rope(of))),
        Ask::Play(lane, of, start, len) => Ok(Call::Play(Lane(lane), rope(of), start, len)),
        Ask::Feed(lane, back) => Ok(Call::Feed(Lane(lane), back)),
        Ask::Stop(lane) => Ok(Call::Stop(Lane(lane))),
        Ask::Retain(class, key, of, note) => retain(class, key, of, note),
        Ask::Forget(class, key) => Ok(Call::Forget(class, Key::new(key)?)),
        Ask::Lookup(class, key) => Ok(Call::Lookup(class, Key::new(key)?)),
        Ask::Census(key) => census(alloc, key),
        Ask::Advance(moment) => Ok(Call::Advance(Moment(u64::from(moment)))),
        Ask::Sweep(limit) => Ok(Call::Sweep(limit)),
        Ask::Begin(lane) => Ok(Call::Begin(Lane(lane))),
        Ask::Add(lane, len) => Ok(Call::Add(Lane(lane), first(len))),
        Ask::End(lane) => Ok(Call::End(Lane(lane))),
        Ask::Landed => Ok(Call::Landed),
    }
}

// The text of a reply.
fn replied(alloc: Global, plain: &mut Plain, tapes: &Tapes, ask: Ask) -> Result<String, Fail> {
    let call = asked(alloc, ask)?;
    match plain.eval(tapes, &call)? {
        Some(reply) => Ok(format!(in alloc; "{reply}")?),
        None => Ok(String::from_str(alloc, "-")?),
    }
}

// A tape of runs of equal samples.
fn tape_of(alloc: Global, runs: &[(u8, usize)]) -> Result<Tapes, Fail> {
    let mut bytes = Vec::new(alloc);
    for (byte, count) in runs {
        for _ in 0..*count {
            bytes.push(*byte)?;
        }
    }
    Ok(Tapes::new(vec![in alloc; bytes]?))
}

// The state of a new disk.
fn new_plain(alloc: Global, blocks: u32, graces: Graces) -> Result<Plain, Fail> {
    let shape = Shape::new(2, 8, blocks, 4096, graces, 3, 1 << 20)?;
    Ok(Plain::new(alloc, &shape)?)
}

// Asserts that the calls of a case are answered as its rows say.
fn assert_case<R: Abort>(rt: &R, alloc: Global, case: Case) -> Result<(), Fail> {
    let mut plain = new_plain(alloc, case.blocks, case.graces)?;
    let tapes = tape_of(alloc, case.tape)?;
    for (ask, wanted) in case.rows {
        let text = replied(alloc, &mut plain, &tapes, *ask)?;
        assert_eq!(rt; text.as_str(), *wanted);
    }
    assert_eq!(rt; plain.free()?, case.free);
    Ok(())
}

#[test]
fn calls_are_answered(rt: HostRuntime) -> Result<(), Fail> {
    for case in CASES {
        assert_case(&rt, rt.alloc(), *case)?;
    }
    Ok(())
}

// The samples from place 31 of a passage on, which begins at place 4: the last 5 of 40.
#[test]
fn windows_have_their_samples(rt: HostRuntime) -> Result<(), Fail> {
    let alloc = rt.alloc();
    let mut plain = new_plain(alloc, 24, DAY)?;
    let tapes = tape_of(alloc, &[(0x41, 35), (0x42, 5)])?;
    let asks = [
        Ask::Record(40),
        Ask::Play(1, 1, 4, 36),
        Ask::Feed(1, None),
        Ask::Feed(1, Some(28)),
        Ask::Feed(1, Some(3)),
    ];
    for ask in asks {
        replied(alloc, &mut plain, &tapes, ask)?;
    }
    assert_eq!(rt; plain.window(Lane(1))?.as_slice(), b"BBBBB".as_slice());
    assert!(rt; plain.window(Lane(0))?.is_empty());
    Ok(())
}
