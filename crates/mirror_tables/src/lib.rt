//! The tables of a mirror: others beside them, on which the next change is tried with all the memory that it needs before a byte is written; the addresses for a new voice file; and their base under one number.
#![tactic(auto)]

mod addresses;
mod bases;
mod beside;

pub use addresses::free_addresses;
pub use bases::{numbered_base, numbered_need, plain_need};
pub use beside::{Beside, brought_up, try_change};

#[cfg(test)]
mod tests;
