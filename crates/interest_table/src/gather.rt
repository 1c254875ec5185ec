//! What the rows of several stamps have.

ghost use Rattle.std.specs.Prelude.{◌≡◌, ◌≤◌, ◌-◌, ◌++◌, List, length, map, IfOk, OnOk};
ghost use Rattle.voice_model.specs.declared.calls.Row.{Row as AnyRow};
ghost use Rattle.voice_model.specs.Changes.{is_unlisted};
ghost use Rattle.interest_table.specs.Inside.{kept, row_of, AllKept, first_keys};

use crate::going::is_absent;
use crate::stamped::StampedRows;
use std::collections::HashSet;
use voice_model::Key;
use voice_units::{NoMemory, RopeId};

/// The keys of the rows of these stamps.
pub(crate) fn keys_under(rows: &StampedRows, stamps: &[u64]) -> Result<Vec<Key>, NoMemory>
    ensures { IfOk result (λ keys. AllKept (row_of rows.now) stamps.now → keys.items ≡ map (λ s. (kept (row_of rows.now) s).key) stamps.now) }
{
    let mut keys = Vec::new(rows.allocator());
    for stamp in stamps {
        let Some(row) = rows.row(*stamp) else {
            continue;
        };
        keys.push(row.key)?;
    }
    Ok(keys)
}

/// The ropes of the rows of these stamps.
pub(crate) fn ropes_under(rows: &StampedRows, stamps: &[u64]) -> Result<Vec<RopeId>, NoMemory>
    ensures { IfOk result (λ ropes. AllKept (row_of rows.now) stamps.now → ropes.items ≡ map (λ s. (kept (row_of rows.now) s).rope) stamps.now) }
{
    let mut ropes = Vec::new(rows.allocator());
    for stamp in stamps {
        let Some(row) = rows.row(*stamp) else {
            continue;
        };
        ropes.push(row.rope)?;
    }
    Ok(ropes)
}

/// Puts the keys of those of these rows last that are of class Listed and not named, until there are 65,535.
pub(crate) fn push_absent(
    keys: &mut Vec<Key>,
    rows: &StampedRows,
    stamps: &[u64],
    named: &HashSet<Key>,
) -> Result<(), NoMemory>
    requires { length keys.old.items ≤ 65535 }
    ensures keys { OnOk result (AllKept (row_of rows.now) stamps.now → (left : List AnyRow) → keys.new.items ++ first_keys (is_unlisted named.now.keys) (65535 - length keys.new.items) left ≡ keys.old.items ++ first_keys (is_unlisted named.now.keys) (65535 - length keys.old.items) (map (kept (row_of rows.now)) stamps.now ++ left)) }
    ensures most { OnOk result (length keys.new.items ≤ 65535) }
{
    for stamp in stamps {
        if keys.len() >= 65_535 {
            continue;
        }
        let Some(row) = rows.row(*stamp) else {
            continue;
        };
        if !is_absent(row, named) {
            continue;
        }
        keys.push(row.key)?;
    }
    Ok(())
}
