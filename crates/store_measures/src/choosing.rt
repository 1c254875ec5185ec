//! Which measurements a word asks for.

use crate::{adding, asking, editing, growing, opening, plays, recording};
use bench_report::report::is_asked;
use std::fs::File;
use std::io;
use std::rt::{Clock, Files};

fn measure_disks<R: Print + Clock + AllocGlobal + Files<File = File>>(
    rt: &R,
    word: &str,
) -> io::Result<()> {
    if is_asked(word, "record") {
        recording::measure(rt)?;
    }
    if is_asked(word, "parts") {
        adding::measure(rt)?;
    }
    if is_asked(word, "plays") {
        plays::measure(rt)?;
    }
    if is_asked(word, "edits") {
        editing::measure(rt)?;
    }
    Ok(())
}

fn measure_numbers<R: Print + Clock + AllocGlobal>(rt: &R, word: &str) -> io::Result<()> {
    if is_asked(word, "open") {
        opening::measure(rt)?;
    }
    if is_asked(word, "growth") {
        growing::measure(rt)?;
    }
    if is_asked(word, "calls") {
        asking::measure(rt)?;
    }
    Ok(())
}

/// Makes the measurements of the store that a word asks for: `record`, `parts`, `plays`, `edits`, `open`, `growth`, `calls`, or `all`; none by another word.
pub fn measure<R: Print + Clock + AllocGlobal + Files<File = File>>(
    rt: &R,
    word: &str,
) -> io::Result<()> {
    measure_disks(rt, word)?;
    measure_numbers(rt, word)
}
