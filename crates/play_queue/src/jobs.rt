//! A job of play.

use rope_algebra::Pieces;
use voice_units::JobId;

/// A job of play: its number and its passage, how many samples of it were heard, how many behind them are out with its player, and whether it was stopped.
#[derive(Drop)]
pub struct Job {
    pub id: JobId,
    pub passage: Pieces,
    pub heard: u32,
    pub window: u32,
    pub stopped: bool,
}
