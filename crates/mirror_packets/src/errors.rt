//! Why no packets are read.

/// Why no packets are read.
#[derive(Clone, Copy, Debug, PartialEq, Eq)]
pub enum PacketError {
    /// The bytes spell no packets: the place at which the first one begins that is none.
    BadPackets(u64),
    NoMemory,
}
