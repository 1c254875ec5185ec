//! Tests of edits, and of ropes and changes made ready, done and given back.
#![tactic(auto)]

#[cfg(test)]
mod changes;
#[cfg(test)]
mod edited;
#[cfg(test)]
mod ropes;
