//! What became of a packet.

/// What became of a packet.
#[derive(Clone, Copy, Debug, PartialEq, Eq)]
pub enum Taken {
    /// Its change is done: whatever a crash leaves from now on has it.
    Done,
    /// A packet of its number was taken before.
    Again,
    /// Its number is above the next one. This is the position.
    Early(u64),
    /// Its change may not follow.
    Strange,
    /// Its voice file needs the first number of blocks, and the second are free.
    NoRoom(u32, u32),
    /// The journal would need the first number of bytes, and there is room for the second: for a base with the change, or at the last epoch for the change alone.
    JournalFull(u128, u64),
    /// The device failed before the change counted, and its count of faults rose. It may be asked again.
    DiskFault,
    /// The device failed where the change may have counted, and its count of faults rose. The next packet lands it first.
    InDoubt,
}
