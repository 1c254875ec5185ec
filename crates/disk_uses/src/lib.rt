//! Tests of the journal, of blocks and of recordings over disks in memory, disks that stop, and a file; and the steps that such tests take.
#![tactic(auto)]

#[cfg(test)]
mod appending;
#[cfg(test)]
mod blocks;
#[cfg(test)]
mod damage;
#[cfg(test)]
mod files;
#[cfg(test)]
mod formatting;
#[cfg(test)]
mod recordings;
pub mod steps;
#[cfg(test)]
mod switching;
