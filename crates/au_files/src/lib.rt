//! AU sample files, of one profile: mu-law of 8 bits (ITU-T G.711), 8,000 samples a second, one channel.
//!
//! The form is that of Sun's `.au`, which is NeXT's `.snd`: a header of at least six words of 4 bytes, each with its highest byte first (magic `.snd`, the place of the samples, their number of bytes, encoding, rate, channels), and then the samples.
#![tactic(auto)]

mod causes;
pub mod laws;
mod reading;
mod writing;

pub use causes::AuError;
pub use reading::{Voice, read};
pub use writing::write;

#[cfg(test)]
mod tests;
