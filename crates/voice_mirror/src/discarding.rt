//! Values that are let go, each by a call of its own, so that no path of a longer function has to.

use crate::inside::{Inside, Pending};
use crate::ready::Ready;
use mirror_tables::Beside;
use recovery::Parts;
use voice_journal::Journal;
use voice_model::Change;

pub(crate) fn discard_tables(_tables: Parts) {}

pub(crate) fn discard_change(_change: Change) {}

pub(crate) fn discard_beside(_beside: Beside) {}

pub(crate) fn discard_ready(_ready: Ready) {}

fn discard_pending(pending: Option<Pending>) {
    if let Some(Pending { tables, change }) = pending {
        discard_tables(tables);
        discard_change(change);
    }
}

fn discard_journal(_journal: Journal) {}

pub(crate) fn discard_inside(inside: Inside) {
    let Inside {
        alloc: _,
        journal,
        parts,
        beside,
        position: _,
        pending,
    } = inside;
    discard_journal(journal);
    discard_tables(parts);
    discard_beside(beside);
    discard_pending(pending);
}
