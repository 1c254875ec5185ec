//! Which address of a disk holds which block, and blocks on a disk.
#![tactic(auto)]

mod bitmap;
mod disk_blocks;
mod map;
mod owner;
#[cfg(test)]
mod tests;

pub use disk_blocks::{read_block, write_block, write_blocks};
pub use map::BlockMap;
pub use owner::Owner;
