//! What a mirror keeps besides its disk.

use mirror_tables::Beside;
use recovery::Parts;
use std::alloc::Global;
use voice_journal::Journal;
use voice_model::Change;

/// A change in doubt, and the tables that show what is there once it has landed.
#[derive(Drop)]
pub(crate) struct Pending {
    pub(crate) tables: Parts,
    pub(crate) change: Change,
}

/// The journal, the tables that its numbered changes rebuild, those beside them, the number of the last change, and what is in doubt.
pub(crate) struct Inside {
    pub(crate) alloc: Global,
    pub(crate) journal: Journal,
    pub(crate) parts: Parts,
    pub(crate) beside: Beside,
    pub(crate) position: u64,
    pub(crate) pending: Option<Pending>,
}
