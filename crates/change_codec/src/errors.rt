//! Why no change is read.

/// Why no change is read.
#[derive(Clone, Copy, Debug, PartialEq, Eq)]
pub enum GetError {
    /// The bytes spell no change: the first byte of the first field that breaks the grammar, or their length where they end too early.
    NotAChange(u64),
    NoMemory,
}
