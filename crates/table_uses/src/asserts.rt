//! Assertions that several tests make, each as a call of its own.

use std::process::Abort;

/// Asserts that just this number was found.
pub fn assert_number(rt: &impl Abort, found: u64, wanted: u64) {
    assert_eq!(rt; found, wanted);
}

/// Asserts that just these four numbers were found.
pub fn assert_four(rt: &impl Abort, found: [u64; 4], wanted: [u64; 4]) {
    assert_eq!(rt; found, wanted);
}
