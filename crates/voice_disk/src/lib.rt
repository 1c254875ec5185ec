//! Disks: one in memory that keeps its calls, one that stops after so many calls, and one in a file.
#![tactic(auto)]

mod file;
mod fuse;
mod image;
mod memory;
mod record;

pub use file::FileDisk;
pub use fuse::FuseDisk;
pub use image::image_of;
pub use memory::MemDisk;

#[cfg(test)]
mod tests;
