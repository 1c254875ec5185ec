//! Loudness by lanes, and where there is talk in a recording.
#![tactic(auto)]

mod levels;
mod loudness;
mod runs;
mod scan;

pub use levels::Leveller;
pub use loudness::{loud_sum, peak};
pub use scan::Scanner;

#[cfg(test)]
mod tests;
