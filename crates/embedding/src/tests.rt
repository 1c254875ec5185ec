use crate::{call_up, echo, exchange};
use std::alloc::Global;
use std::process::Abort;
use std::sync::Arc;
use std::test::Fail;
use voice_model::{Call, Entry, Reply, Tapes};

const TAPES: &[&[u8]] = &[b"ABCDEFGHIJKLMNOPQRST", b"abcdefghijklmnopqrst"];

fn two_tapes(alloc: Global) -> Result<Arc<Tapes, Global>, Fail> {
    let mut tapes = Vec::new(alloc);
    for tape in TAPES {
        tapes.push(tape.to_vec(alloc)?)?;
    }
    match Arc::new(alloc, Tapes::new(tapes)) {
        Ok(tapes) => Ok(tapes),
        Err(_) => Err(Fail::new("no memory")),
    }
}

// A tape of samples that count from 0.
fn one_tape(alloc: Global, len: u8) -> Result<Arc<Tapes, Global>, Fail> {
    let mut samples = Vec::new(alloc);
    for k in 0..len {
        samples.push(k)?;
    }
    let mut tapes = Vec::new(alloc);
    tapes.push(samples)?;
    match Arc::new(alloc, Tapes::new(tapes)) {
        Ok(tapes) => Ok(tapes),
        Err(_) => Err(Fail::new("no memory")),
    }
}

// Asserts that a caller recorded a tape, and cut it.
fn assert_spoke(rt: &impl Abort, history: &[Entry], caller: u16) {
    let mut own = history.iter().filter(|entry| entry.caller == caller);
    assert!(rt;
        matches!(
            own.next(),
            Some(Entry {
                call: Call::Record(_),
                reply: Reply::Rope(_, 20),
                ..
            })
        )
    );
    assert!(rt;
        matches!(
            own.next(),
            Some(Entry {
                call: Call::Sub(_, 0, 10),
                reply: Reply::Rope(_, 10),
                ..
            })
        )
    );
    assert!(rt; own.next().is_none());
}

#[test]
fn two_callers_share_a_store(rt: HostRuntime) -> Result<(), Fail> {
    let tapes = two_tapes(rt.alloc())?;
    let Some(history) = exchange(&rt, rt.alloc(), &tapes) else {
        return Err(Fail::new("no memory"));
    };
    assert_eq!(rt; history.len(), 4);
    assert_spoke(&rt, &history, 1);
    assert_spoke(&rt, &history, 2);
    Ok(())
}

// A hundred samples lie in 13 blocks, and are heard in four windows.
#[test]
fn a_passage_is_heard(rt: HostRuntime) -> Result<(), Fail> {
    let tapes = one_tape(rt.alloc(), 100)?;
    for len in [0, 1, 8, 32, 33, 100] {
        let Some(heard) = echo(rt.alloc(), &tapes, len) else {
            return Err(Fail::new("not heard"));
        };
        assert_eq!(rt; heard.len(), len as usize);
        assert!(rt;
            heard
                .iter()
                .enumerate()
                .all(|(k, &sample)| usize::from(sample) == k)
        );
    }
    Ok(())
}

// 64 samples come in two windows, each of which is copied ten samples at a time.
#[test]
fn a_telephone_hears_its_job(rt: HostRuntime) -> Result<(), Fail> {
    let tapes = one_tape(rt.alloc(), 64)?;
    let Some(heard) = call_up(&rt, rt.alloc(), &tapes) else {
        return Err(Fail::new("not heard"));
    };
    assert_eq!(rt; heard.len(), 64);
    assert!(rt;
        heard
            .iter()
            .enumerate()
            .all(|(k, &sample)| usize::from(sample) == k)
    );
    Ok(())
}
