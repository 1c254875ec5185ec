//! Tests of whole runs over disks in memory: what scripts print, damaged disks, faults, stops, and crashes at each moment.
#![tactic(auto)]

#[cfg(test)]
mod audits;
#[cfg(test)]
mod crashes;
#[cfg(test)]
mod crowds;
#[cfg(test)]
mod damage;
#[cfg(test)]
mod doubts;
#[cfg(test)]
mod faults;
#[cfg(test)]
mod held;
#[cfg(test)]
mod runs;
#[cfg(test)]
mod scripts;
#[cfg(test)]
mod shared;
#[cfg(test)]
mod stores;
#[cfg(test)]
mod switches;
#[cfg(test)]
mod tables;
