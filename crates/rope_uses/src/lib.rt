//! Tests of pieces of voice files, of the table of ropes, and of sweeps over it.
#![tactic(auto)]

#[cfg(test)]
mod collections;
#[cfg(test)]
mod intervals;
#[cfg(test)]
mod tables;
