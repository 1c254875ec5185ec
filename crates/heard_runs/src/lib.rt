//! Tests of runs whose lines play while other callers edit, sweep and record between two windows.
#![tactic(auto)]

#[cfg(test)]
mod between;
