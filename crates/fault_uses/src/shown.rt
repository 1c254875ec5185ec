//! What a disk shows once a store has opened it, and what the plain evaluator says that it is to show.

use crate::runs::no_tapes;
use frame_pool::Lease;
use lane_calls::Fed;
use plain_calls::Plain;
use std::alloc::Global;
use std::test::Fail;
use voice_disk::MemDisk;
use voice_model::{Call, Class, Key, Reply, Tapes};
use voice_store::Store;
use voice_units::{Lane, RopeId};

// Who asks.
const CALLER: u16 = 1;

// More ropes than a script of these tests makes.
const ROPES: u16 = 28;

// The interests that scripts of these tests make.
const ROWS: [(Class, &[u8]); 6] = [
    (Class::Held, b"k"),
    (Class::Held, b"m"),
    (Class::Until, b"k"),
    (Class::Until, b"m"),
    (Class::Listed, b"k"),
    (Class::Listed, b"m"),
];

// The two halves of a rope, each with the lane that it is heard on: start, len. Each has at most four stretches.
fn halves(rope: u16, len: u32) -> [(Lane, u32, u32); 2] {
    let first = len / 2;
    let lane = 2 * (rope % 8);
    [(Lane(lane), 0, first), (Lane(lane + 1), first, len - first)]
}

fn rope(number: u16) -> Result<RopeId, Fail> {
    Ok(RopeId::new(u64::from(number)).ok_or("no such rope")?)
}

// Puts a reply into the text.
fn put(alloc: Global, text: &mut Vec<u8>, reply: &Reply) -> Result<(), Fail> {
    let line = format!(in alloc; "{reply}\n")?;
    text.extend_from_slice(line.as_bytes())?;
    Ok(())
}

// Puts the samples of a window there.
fn put_samples(text: &mut Vec<u8>, samples: &[u8]) -> Result<(), Fail> {
    text.extend_from_slice(samples)?;
    text.push(b'\n')?;
    Ok(())
}

// Puts there how many blocks nothing uses.
fn put_free(alloc: Global, text: &mut Vec<u8>, free: u32) -> Result<(), Fail> {
    let line = format!(in alloc; "free {free}\n")?;
    text.extend_from_slice(line.as_bytes())?;
    Ok(())
}

// The samples of a window.
fn copied(alloc: Global, lease: &mut Lease) -> Result<Vec<u8>, Fail> {
    if !lease.live() {
        return Err(Fail::new("the window is over"));
    }
    let mut samples = vec![in alloc; 0u8; lease.len() as usize]?;
    let _all = lease.copy(0, &mut samples);
    Ok(samples)
}

// Plays a part of a rope on a lane of a store, and puts the first window there.
fn play(
    alloc: Global,
    text: &mut Vec<u8>,
    store: &mut Store<MemDisk>,
    rope: RopeId,
    (lane, start, len): (Lane, u32, u32),
) -> Result<(), Fail> {
    let reply = store.apply(CALLER, Call::Play(lane, rope, start, len))?;
    put(alloc, text, &reply)?;
    if let Fed::Window(_at, mut lease) = store.feed(CALLER, lane)? {
        let samples = copied(alloc, &mut lease)?;
        put_samples(text, &samples)?;
    }
    Ok(())
}

// Puts there what a store tells of a rope: its length, and all its samples.
fn tell_rope(
    alloc: Global,
    text: &mut Vec<u8>,
    store: &mut Store<MemDisk>,
    number: u16,
) -> Result<(), Fail> {
    let rope = rope(number)?;
    let reply = store.apply(CALLER, Call::Length(rope))?;
    put(alloc, text, &reply)?;
    if let Reply::Number(len) = reply {
        for part in halves(number, u32::try_from(len)?) {
            play(alloc, text, store, rope, part)?;
        }
    }
    Ok(())
}

// Puts there what a store tells of the interests.
fn tell_rows(alloc: Global, text: &mut Vec<u8>, store: &mut Store<MemDisk>) -> Result<(), Fail> {
    for (class, key) in ROWS {
        let key = Key::new(key)?;
        let found = store.apply(CALLER, Call::Lookup(class, key))?;
        put(alloc, text, &found)?;
    }
    Ok(())
}

// Puts there what a store tells: its ropes, the interests, the free blocks, and what a sweep removes, which tells of the moment.
fn tell(alloc: Global, text: &mut Vec<u8>, store: &mut Store<MemDisk>) -> Result<(), Fail> {
    for number in 1..=ROPES {
        tell_rope(alloc, text, store, number)?;
    }
    tell_rows(alloc, text, store)?;
    put_free(alloc, text, store.free())?;
    let swept = store.apply(CALLER, Call::Sweep(9))?;
    put(alloc, text, &swept)?;
    put_free(alloc, text, store.free())
}

/// What a disk shows.
pub fn shown_by(alloc: Global, disk: MemDisk) -> Result<Vec<u8>, Fail> {
    let tapes = no_tapes(alloc)?;
    let mut text = Vec::new(alloc);
    match Store::open(alloc, disk, tapes) {
        Ok(mut store) => {
            let told = tell(alloc, &mut text, &mut store);
            let _handed_back = store.close();
            told?;
            Ok(text)
        }
        Err(_) => Err(Fail::new("the disk is refused")),
    }
}

/// The evaluator's reply to a call.
pub fn reply_of(plain: &mut Plain, tapes: &Tapes, call: &Call) -> Result<Reply, Fail> {
    match plain.eval(tapes, call)? {
        Some(reply) => Ok(reply),
        None => Err(Fail::new("the evaluator can't do it")),
    }
}

// Asks the evaluator, and puts its reply there.
fn ask(
    alloc: Global,
    text: &mut Vec<u8>,
    plain: &mut Plain,
    tapes: &Tapes,
    call: &Call,
) -> Result<Reply, Fail> {
    let reply = reply_of(plain, tapes, call)?;
    put(alloc, text, &reply)?;
    Ok(reply)
}

// Plays a part of a rope on a lane of the evaluator, and puts the first window there.
fn play_plainly(
    alloc: Global,
    text: &mut Vec<u8>,
    plain: &mut Plain,
    tapes: &Tapes,
    rope: RopeId,
    (lane, start, len): (Lane, u32, u32),
) -> Result<(), Fail> {
    ask(
        alloc,
        text,
        plain,
        tapes,
        &Call::Play(lane, rope, start, len),
    )?;
    let fed = reply_of(plain, tapes, &Call::Feed(lane, None))?;
    if let Reply::Window(_at, _len) = fed {
        put_samples(text, &plain.window(lane)?)?;
    }
    Ok(())
}

// Puts there what the evaluator tells of a rope.
fn tell_rope_plainly(
    alloc: Global,
    text: &mut Vec<u8>,
    plain: &mut Plain,
    tapes: &Tapes,
    number: u16,
) -> Result<(), Fail> {
    let rope = rope(number)?;
    let reply = ask(alloc, text, plain, tapes, &Call::Length(rope))?;
    if let Reply::Number(len) = reply {
        for part in halves(number, u32::try_from(len)?) {
            play_plainly(alloc, text, plain, tapes, rope, part)?;
        }
    }
    Ok(())
}

/// What the evaluator says that a disk shows.
pub fn shown_plainly(alloc: Global, plain: &mut Plain, tapes: &Tapes) -> Result<Vec<u8>, Fail> {
    let mut text = Vec::new(alloc);
    for number in 1..=ROPES {
        tell_rope_plainly(alloc, &mut text, plain, tapes, number)?;
    }
    for (class, key) in ROWS {
        let key = Key::new(key)?;
        ask(alloc, &mut text, plain, tapes, &Call::Lookup(class, key))?;
    }
    put_free(alloc, &mut text, plain.free()?)?;
    ask(alloc, &mut text, plain, tapes, &Call::Sweep(9))?;
    put_free(alloc, &mut text, plain.free()?)?;
    Ok(text)
}
