//! Calls, replies and changes, and what they mean: the definitions of the voice manager stand in `specs/`.
#![tactic(auto)]

mod calls;
mod changes;
mod display;
pub mod laws;
mod lists;
mod tapes;
mod texts;

pub use calls::{Call, Class, Entry, Reply, Row, Why};
pub use changes::Change;
pub use lists::{
    AddressList, KeyList, Pair, PairList, PeakList, PieceList, RopeList, Span, TalkList,
};
pub use tapes::Tapes;
pub use texts::{Key, Note};

#[cfg(test)]
mod tests;
