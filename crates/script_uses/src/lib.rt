//! Tests of the script language and of generated scripts.
#![tactic(auto)]

#[cfg(test)]
mod generated;
#[cfg(test)]
mod scripts;
