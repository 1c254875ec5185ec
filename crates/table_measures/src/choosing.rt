//! Which measurements a word asks for.

use crate::{appends, compacting, copying, interests, loudness, parsing, replaying, ropes, sums};
use bench_report::report::is_asked;
use std::fs::File;
use std::io;
use std::rt::{Clock, Files};

fn measure_samples<R: Print + Clock + AllocGlobal>(rt: &R, word: &str) -> io::Result<()> {
    if is_asked(word, "copy") {
        copying::measure(rt)?;
    }
    if is_asked(word, "parse") {
        parsing::measure(rt)?;
    }
    if is_asked(word, "loud") {
        loudness::measure(rt)?;
    }
    if is_asked(word, "sums") {
        sums::measure(rt)?;
    }
    Ok(())
}

fn measure_tables<R: Print + Clock + AllocGlobal>(rt: &R, word: &str) -> io::Result<()> {
    if is_asked(word, "rows") {
        interests::measure(rt)?;
    }
    if is_asked(word, "ropes") {
        ropes::measure(rt)?;
    }
    Ok(())
}

fn measure_journal<R: Print + Clock + AllocGlobal + Files<File = File>>(
    rt: &R,
    word: &str,
) -> io::Result<()> {
    if is_asked(word, "appends") {
        appends::measure(rt)?;
    }
    if is_asked(word, "replay") {
        replaying::measure(rt)?;
    }
    if is_asked(word, "mail") {
        replaying::measure_growth(rt)?;
    }
    if is_asked(word, "compact") {
        compacting::measure(rt)?;
    }
    Ok(())
}

/// Makes the measurements below the store that a word asks for: `copy`, `parse`, `loud`, `sums`, `rows`, `ropes`, `appends`, `replay`, `mail`, `compact`, or `all`; none by another word.
pub fn measure<R: Print + Clock + AllocGlobal + Files<File = File>>(
    rt: &R,
    word: &str,
) -> io::Result<()> {
    measure_samples(rt, word)?;
    measure_tables(rt, word)?;
    measure_journal(rt, word)
}
