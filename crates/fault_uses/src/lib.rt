//! Tests of what faults, stops, crashes and want of memory leave of whole runs, over disks in memory; of how many device calls each line takes; and of numbers that two bytes don't tell.
#![tactic(auto)]

#[cfg(test)]
mod counts;
#[cfg(test)]
mod crashes;
#[cfg(test)]
mod drawn;
#[cfg(test)]
mod faults;
#[cfg(test)]
mod histories;
#[cfg(test)]
mod lanes;
#[cfg(test)]
mod large;
#[cfg(test)]
mod long;
#[cfg(test)]
mod memory;
#[cfg(test)]
mod outsides;
#[cfg(test)]
mod runs;
#[cfg(test)]
mod scripts;
#[cfg(test)]
mod shown;
