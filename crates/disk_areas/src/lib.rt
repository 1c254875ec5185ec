//! What an image of a disk says: its superblock, its areas, the lengths of their records, and the numbers in its bytes.
#![tactic(auto)]

mod numbers;

pub use numbers::{
    append, append_1, append_2, append_4, append_8, eight_bytes, four_bytes, read_2, read_4,
    read_8, two_bytes,
};
