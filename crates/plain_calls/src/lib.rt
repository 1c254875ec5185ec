//! A plain evaluator of calls, which tests compare the store with. Each rope and each passage of a job is a list of its samples, and nothing is shared or counted beforehand, so that each answer can be read off the definitions.
//!
//! It answers as the store does over an honest disk that never fails and whose journal areas are ample: there is no refusal by a full journal, no fault and no doubt.
#![tactic(auto)]

mod answers;
mod interests;
mod lanes;
mod loudness;
mod parts;
mod plain;
mod ropes;
mod samples;

pub use plain::Plain;

#[cfg(test)]
mod cases;
#[cfg(test)]
mod tests;
