//! What a history says that its disk shows, by the plain evaluator.

use crate::runs::{FULL_MOMENT, Start, shape, tapes};
use crate::shown::{reply_of, shown_plainly};
use plain_calls::Plain;
use std::alloc::Global;
use std::test::Fail;
use voice_model::{Call, Entry, Reply, Tapes, Why};
use voice_units::{Lane, Moment};

/// How many entries tell of a fault.
pub fn faults_in(history: &[Entry]) -> usize {
    history
        .iter()
        .filter(|entry| matches!(&entry.reply, Reply::No(Why::DiskFault | Why::InDoubt)))
        .count()
}

// The evaluator does what was in doubt, as it lands: an End has closed its recording before.
fn land(plain: &mut Plain, tapes: &Tapes, call: &Call) -> Result<(), Fail> {
    let _landed = match call {
        Call::End(_) => reply_of(plain, tapes, &Call::Landed)?,
        other => reply_of(plain, tapes, other)?,
    };
    Ok(())
}

// A Feed as the evaluator is asked it: where one before it failed, its window is out there, and nothing of it was heard.
fn feed_of(plain: &Plain, lane: Lane, back: Option<u32>) -> Result<Call, Fail> {
    if back.is_none() && !plain.window(lane)?.is_empty() {
        return Ok(Call::Feed(lane, Some(0)));
    }
    Ok(Call::Feed(lane, back))
}

// The evaluator's reply to the call of an entry.
fn wanted_of(plain: &mut Plain, tapes: &Tapes, call: &Call) -> Result<Reply, Fail> {
    match call {
        Call::Feed(lane, back) => {
            let asked = feed_of(plain, *lane, *back)?;
            reply_of(plain, tapes, &asked)
        }
        other => reply_of(plain, tapes, other),
    }
}

// The evaluator does a call, and has to answer as its entry says.
fn done_alike(alloc: Global, plain: &mut Plain, tapes: &Tapes, entry: &Entry) -> Result<(), Fail> {
    let wanted = wanted_of(plain, tapes, &entry.call)?;
    let found = &entry.reply;
    let wanted = format!(in alloc; "{wanted}")?;
    let found = format!(in alloc; "{found}")?;
    if wanted != found {
        return Err(Fail::new("a reply that the evaluator doesn't give"));
    }
    Ok(())
}

// Does the calls of a history, but those that a fault undid or that a full journal refused; and gives the one that is in doubt at its end. A Feed that failed has brought its window back.
fn follow<'a>(
    alloc: Global,
    plain: &mut Plain,
    tapes: &Tapes,
    history: &'a [Entry],
) -> Result<Option<&'a Call>, Fail> {
    let mut doubt: Option<&'a Call> = None;
    for entry in history {
        match (&entry.call, &entry.reply) {
            (Call::Landed, _) => {
                let Some(call) = doubt else {
                    return Err(Fail::new("nothing was in doubt"));
                };
                land(plain, tapes, call)?;
                doubt = None;
            }
            (call @ Call::Feed(..), Reply::No(Why::DiskFault)) => {
                let _window = wanted_of(plain, tapes, call)?;
            }
            (_, Reply::No(Why::DiskFault | Why::JournalFull(_, _))) => {}
            // What is in doubt has blocks too, which the evaluator doesn't count.
            (Call::Add(..), Reply::No(Why::NoRoom(_, _))) if doubt.is_some() => {}
            (call, Reply::No(Why::InDoubt)) => {
                if let Call::End(lane) = call {
                    plain.doubt_end(*lane);
                }
                doubt = Some(call);
            }
            _ => done_alike(alloc, plain, tapes, entry)?,
        }
    }
    Ok(doubt)
}

// The evaluator's state of a disk before a script.
fn begun(alloc: Global, tapes: &Tapes, start: Start) -> Result<Plain, Fail> {
    let mut plain = Plain::new(alloc, &shape(start)?)?;
    if start == Start::Full {
        let moment = Moment::new(FULL_MOMENT).ok_or("no such moment")?;
        let _done = reply_of(&mut plain, tapes, &Call::Advance(moment))?;
    }
    Ok(plain)
}

/// What a disk shows behind a history, and behind what is in doubt at its end too if that is to be done.
pub fn shown_after(
    alloc: Global,
    start: Start,
    history: &[Entry],
    landing: bool,
) -> Result<Vec<u8>, Fail> {
    let tapes = tapes(alloc, start)?;
    let mut plain = begun(alloc, &tapes, start)?;
    let doubt = follow(alloc, &mut plain, &tapes, history)?;
    if let Some(call) = doubt {
        if landing {
            land(&mut plain, &tapes, call)?;
        }
    }
    plain.reopen();
    shown_plainly(alloc, &mut plain, &tapes)
}
