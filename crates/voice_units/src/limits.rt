//! The limits of ropes, of lanes and of windows.

/// The greatest number of a rope.
pub const LAST_ROPE: u64 = 1 << 48;

/// The most samples of a rope.
pub const MOST_SAMPLES: u64 = 1 << 30;

/// The most live ropes beside which passages are held, or to which one more is added: the uses of a block, by them and by 2^16 held passages, are counted in 32 bits.
pub const MOST_ROPES: usize = 4_294_901_757;

/// The most jobs of a lane, the one being played and stopped ones included.
pub const MOST_JOBS: u32 = 8;

/// The most stretches that a window has.
pub const WINDOW_STRETCHES: u32 = 4;
