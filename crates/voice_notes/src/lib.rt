//! Notes that name recordings: the anchors of a note, the files of an index, and the law by which what a note names is kept.
#![tactic(auto)]

mod errors;
mod front;
mod gathered;
mod indexes;
pub mod laws;
mod line;
mod name_list;
mod notes;

pub use errors::{IndexError, NoteError};
pub use indexes::index;
pub use name_list::NameList;
pub use notes::anchors;

#[cfg(test)]
mod tests;
