//! The numbers, names and layouts of the voice manager, with their ranges, and the laws of pieces, windows and blocks that every crate above rests on.
#![tactic(auto)]

mod blocks;
mod errors;
pub mod laws;
mod limits;
mod names;
mod numbers;
mod pieces;
mod shapes;
mod steps;

pub use blocks::blocks_needed;
pub use errors::{Failed, NoMemory};
pub use limits::{LAST_ROPE, MOST_JOBS, MOST_ROPES, MOST_SAMPLES, WINDOW_STRETCHES};
pub use names::{Name, TextError, filled_array};
pub use numbers::{JobId, Lane, Moment, RopeId};
pub use pieces::{Piece, Take};
pub use shapes::{BadShape, Graces, Shape};
pub use steps::Steps;
