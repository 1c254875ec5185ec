//! A streamed recording: whole blocks go out as soon as they are complete, and the rest is kept.
#![tactic(auto)]

pub mod laws;
mod taking;

pub use taking::Taking;

#[cfg(test)]
mod tests;
