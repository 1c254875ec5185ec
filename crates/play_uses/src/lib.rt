//! Tests of plays over disks in memory: windows, stops, swept ropes, lanes that share blocks, and a day of mail.
#![tactic(auto)]

#[cfg(test)]
mod cases;
#[cfg(test)]
mod days;
#[cfg(test)]
mod desk;
#[cfg(test)]
mod steps;
