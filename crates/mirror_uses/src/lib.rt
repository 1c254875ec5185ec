//! Tests of mirrors over disks in memory: disks that open and that are refused, lists that lose, repeat and reorder packets, crashes at every device call, mirrors of other shapes, and mirrors that are promoted.
#![tactic(auto)]

#[cfg(test)]
mod crashes;
#[cfg(test)]
mod disks;
#[cfg(test)]
mod networks;
#[cfg(test)]
mod openings;
#[cfg(test)]
mod packets;
#[cfg(test)]
mod promotions;
