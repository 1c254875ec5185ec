//! Tests of what changes rebuild, and of its bases.
#![tactic(auto)]

#[cfg(test)]
mod bases;
#[cfg(test)]
mod changes;
#[cfg(test)]
mod many;
#[cfg(test)]
mod replays;
#[cfg(test)]
mod steps;
