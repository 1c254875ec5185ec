//! Tests of the lists in chunks and of the interests.
#![tactic(auto)]

#[cfg(test)]
mod asserts;
#[cfg(test)]
mod interests;
#[cfg(test)]
mod rows;
