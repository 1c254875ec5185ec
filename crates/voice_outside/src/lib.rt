//! What lies outside the voice manager: a shelf of files, a sink of text, a disk and a gate, as traits with their counts of faults, with fakes in memory and the adapters to the real ones.
#![tactic(auto)]

mod disk;
mod errors;
mod folder;
mod gate;
mod listed;
mod mem_shelf;
mod mem_sink;
mod no_disk;
mod shelf;
mod sink;
mod std_sink;

pub use disk::Disk;
pub use errors::OutsideError;
pub use folder::FolderShelf;
pub use gate::{Gate, OpenGate};
pub use mem_shelf::MemShelf;
pub use mem_sink::MemSink;
pub use no_disk::NoDisk;
pub use shelf::Shelf;
pub use sink::Sink;
pub use std_sink::StdSink;
