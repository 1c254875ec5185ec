//! Changes as the journal keeps them.

use super::calls::Class;
use super::lists::{AddressList, KeyList, PairList, PieceList, RopeList};
use super::texts::{Key, Note};
use voice_units::{Moment, RopeId};

/// A change of the durable part, or a part of a base that spells it whole. Kinds 1 to 14 in this order.
#[derive(Drop)]
pub enum Change {
    /// A rope of so many samples was recorded, in these blocks. Form 1.
    Recorded(RopeId, u32, AddressList),
    /// A rope of these pieces was made.
    Edited(RopeId, PieceList),
    Retained(Class, Key, RopeId, Note),
    Forgotten(Class, Key),
    /// The interests of class Listed with these keys went.
    Census(KeyList),
    /// The expired interests went, and then these ropes.
    Swept(RopeList),
    Advanced(Moment),
    /// A base begins: the moment, and the number of the next rope. Form 1.
    Base(Moment, u64),
    /// The blocks of a voice file. Form 1.
    File(RopeId, PairList),
    /// A rope, the moment since which it is idle, and its pieces. Form 1.
    Rope(RopeId, Moment, PieceList),
    /// As `Recorded`, with wide addresses. Form 2.
    Wide(RopeId, u32, AddressList),
    /// As `Base`. Form 2.
    Base2(Moment, u64),
    /// As `File`, with wide addresses. Form 2.
    File2(RopeId, PairList),
    /// As `Rope`, with the class of the last interest that it lost, 1 to 3, or 0. Form 2.
    Rope2(RopeId, Moment, u8, PieceList),
}
