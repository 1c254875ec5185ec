//! Generated scripts, read in the language of scripts.
#![tactic(auto)]

mod laws;
mod making;

pub use laws::made_is_read;
pub use making::made;

#[cfg(test)]
mod tests;
