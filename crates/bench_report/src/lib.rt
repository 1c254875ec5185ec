//! What all measurements share: how figures are printed, disks and their shapes, and the bare calls and plain loops beside which the parts are measured.
#![tactic(auto)]

pub mod bare;
pub mod disks;
pub mod plain;
pub mod report;
