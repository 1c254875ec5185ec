//! Tests of rows, of the moment and of sweeps, over disks in memory: crashes, doubts, switches, full journals, and a day of mail.
#![tactic(auto)]

#[cfg(test)]
mod crashes;
#[cfg(test)]
mod days;
#[cfg(test)]
mod doubts;
#[cfg(test)]
mod first_form;
#[cfg(test)]
mod journals;
#[cfg(test)]
mod runs;
#[cfg(test)]
mod shapes;
