//! What a store keeps.

use next_changes::NextChange;
use playing::Lanes;
use recording_calls::Recordings;
use recovery::Parts;
use std::alloc::Global;
use std::sync::Arc;
use voice_journal::Journal;
use voice_model::{Entry, Tapes};

/// A change that is in doubt, with the form of the area once it has landed.
#[derive(Drop)]
pub struct Doubted {
    pub next: NextChange,
    pub form: u8,
}

/// What a store keeps besides its disk: the journal, the tables, the lanes with the number of jobs made so far, their open recordings, the change in doubt, and the history.
#[derive(Drop)]
pub struct Inside {
    pub alloc: Global,
    pub tapes: Arc<Tapes, Global>,
    pub journal: Journal,
    pub parts: Parts,
    pub lanes: Lanes,
    pub made: u64,
    pub recordings: Recordings,
    pub doubt: Option<Doubted>,
    pub history: Vec<Entry>,
}
