//! Tests of runs whose changes are written as packets for a mirror, and of mirrors that take them.
#![tactic(auto)]

#[cfg(test)]
mod memory;
#[cfg(test)]
mod mirrors;
#[cfg(test)]
mod packets;
#[cfg(test)]
mod promotions;
#[cfg(test)]
mod refusals;
#[cfg(test)]
mod runs;
