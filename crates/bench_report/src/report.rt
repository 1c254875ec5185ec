//! How measurements are asked for, and how figures are printed.

use std::io;
use std::time::Duration;

/// Whether a measurement is asked for, by its own name or with all of them.
pub fn is_asked(word: &str, name: &str) -> bool {
    word == "all" || word == name
}

/// How many times as long one duration is as another, in hundredths.
pub fn hundredths_of(took: Duration, bare: Duration) -> u128 {
    took.as_nanos() / (bare.as_nanos() / 100).max(1)
}

/// Prints how many times as long one duration is as another, to a hundredth.
pub fn ratio(rt: &impl Print, name: &str, took: Duration, bare: Duration) -> io::Result<()> {
    let hundredths = hundredths_of(took, bare);
    let whole = hundredths / 100;
    let part = hundredths % 100;
    let took = took.as_micros();
    let bare = bare.as_micros();
    println!(rt; "{name}: {whole}.{part:02} times ({took} us against {bare} us)")
}

/// The middle one of some figures, the later of two; 0 of none. It puts them in order.
pub fn middle(figures: &mut [u128]) -> u128 {
    figures.sort_unstable();
    match figures.get(figures.len() / 2) {
        Some(figure) => *figure,
        None => 0,
    }
}
