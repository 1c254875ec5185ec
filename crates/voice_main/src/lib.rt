//! The top call of the voice manager: `run` does what the words of the command line say, over a shelf of files, a sink of text and a disk.
#![tactic(auto)]

mod assigned;
mod audited;
mod calling;
mod census;
mod convert;
mod format;
mod load;
mod make;
mod mirror_calls;
mod notes;
mod numbers;
mod options;
mod output;
mod packets;
mod played;
mod script_lines;
mod status;
mod threads;
mod top_call;
mod words;

pub use status::Status;
pub use top_call::{Ended, run};
pub use words::is_conversion;

#[cfg(test)]
mod tests;
