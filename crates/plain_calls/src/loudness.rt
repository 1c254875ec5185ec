//! Where there is talk, and how loud it is.

use std::alloc::Global;
use voice_model::Span;
use voice_units::NoMemory;

/// How many samples a window of loudness has, the last one perhaps fewer.
const WINDOW: usize = 160;

/// How many quiet windows a silence has at least.
const SILENCE: u32 = 25;

/// The loudness of a sample of a quiet window on average, at most.
const QUIET: u64 = 6;

// Neighbouring windows that are all quiet, or all not.
#[derive(Clone, Copy, Debug, PartialEq, Eq)]
struct Run {
    quiet: bool,
    windows: u32,
    samples: u32,
}

// 0 for the two zeros of mu-law, 127 for the greatest magnitudes.
fn loudness(byte: u8) -> u8 {
    127 - byte % 128
}

fn is_quiet(window: &[u8]) -> bool {
    let mut sum: u64 = 0;
    for byte in window {
        sum = sum.saturating_add(u64::from(loudness(*byte)));
    }
    sum <= QUIET.saturating_mul(window.len() as u64)
}

fn peak(window: &[u8]) -> u8 {
    let mut peak = 0;
    for byte in window {
        peak = loudness(*byte).max(peak);
    }
    peak
}

/// The greatest loudness of each window.
pub fn peaks(alloc: Global, bytes: &[u8]) -> Result<Vec<u8>, NoMemory> {
    let mut peaks = Vec::new(alloc);
    for window in bytes.chunks(WINDOW) {
        peaks.push(peak(window))?;
    }
    Ok(peaks)
}

// A window behind runs: the last one becomes longer, or a new one begins.
fn add_window(runs: &mut Vec<Run>, window: &[u8]) -> Result<(), NoMemory> {
    let quiet = is_quiet(window);
    let samples = u32::try_from(window.len()).unwrap_or(u32::MAX);
    if let Some(run) = runs.last_mut() {
        if run.quiet == quiet {
            run.windows = run.windows.saturating_add(1);
            run.samples = run.samples.saturating_add(samples);
            return Ok(());
        }
    }
    runs.push(Run {
        quiet,
        windows: 1,
        samples,
    })?;
    Ok(())
}

// An interval behind others: the last one becomes longer where it ends there, or a new one begins.
fn add_span(spans: &mut Vec<Span>, start: u32, len: u32) -> Result<(), NoMemory> {
    if let Some(span) = spans.last_mut() {
        if span.start.saturating_add(span.len) == start {
            span.len = span.len.saturating_add(len);
            return Ok(());
        }
    }
    spans.push(Span { start, len })?;
    Ok(())
}

/// The maximal intervals outside silences.
pub fn talk(alloc: Global, bytes: &[u8]) -> Result<Vec<Span>, NoMemory> {
    let mut runs = Vec::new(alloc);
    for window in bytes.chunks(WINDOW) {
        add_window(&mut runs, window)?;
    }
    let mut spans = Vec::new(alloc);
    let mut start: u32 = 0;
    for run in &runs {
        if !run.quiet || run.windows < SILENCE {
            add_span(&mut spans, start, run.samples)?;
        }
        start = start.saturating_add(run.samples);
    }
    Ok(spans)
}
