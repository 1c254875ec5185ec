// The table behind a turnstile.
ghost use Rattle.std.specs.Prelude.{◌≡◌, ◌<◌, ◌≤◌};

use crate::stands::Stands;
use crate::view::{Start, TurnRule, View};
use atomic_table::{Seat, Table};
use std::alloc::Global;

/// A pass's place at the table.
pub(crate) type Place<T> = Seat<Option<T>, View<T>>;

/// The words and the slot, under the turn rule.
pub(crate) struct Gate<T: Stands> {
    pub(crate) table: Table<Option<T>, View<T>, Start<T>, TurnRule, Global>,
    ghost some: { (0 < table.shared.key.callers) × (table.shared.key.callers ≤ 16) },
    ghost sizes: { (table.shared.table_id.words ≡ 19) × (table.shared.table_id.slots ≡ 1) },
}
