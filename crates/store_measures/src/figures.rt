//! How figures of several runs are printed.

use bench_report::report::middle;
use std::io;

/// Prints the middle one of some ratios, which are in hundredths. It puts them in order.
pub fn print_middle<R: Print>(rt: &R, name: &str, figures: &mut [u128]) -> io::Result<()> {
    let runs = figures.len();
    let hundredths = middle(figures);
    let whole = hundredths / 100;
    let part = hundredths % 100;
    println!(rt; "{name}: {whole}.{part:02} times, the middle of {runs} runs")
}
