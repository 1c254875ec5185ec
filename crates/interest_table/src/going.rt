//! Which rows go.

ghost use Rattle.std.specs.Prelude.{◌≡◌, ℕ, List, bytes_eq, IfOk};
ghost use Rattle.std.specs.List.{list_any};
ghost use Rattle.voice_model.specs.Changes.{is_unlisted};

use std::alloc::{AllocError, Global};
use std::collections::HashSet;
use voice_model::{Class, Key, Row};
use voice_units::NoMemory;

/// A set collected of keys.
fn collect_keys(alloc: Global, keys: &[Key]) -> Result<HashSet<Key>, AllocError>
    ensures { IfOk result (λ set. (key : List ℕ) → list_any (bytes_eq key) set.keys ≡ list_any (bytes_eq key) keys.now) }
{
    keys.iter().copied().collect(alloc)
}

/// The set of these keys.
pub fn key_set(alloc: Global, keys: &[Key]) -> Result<HashSet<Key>, NoMemory>
    ensures { IfOk result (λ set. (key : List ℕ) → list_any (bytes_eq key) set.keys ≡ list_any (bytes_eq key) keys.now) }
{
    Ok(collect_keys(alloc, keys)?)
}

/// Whether a row is of class Listed and its key is not named.
pub(crate) fn is_absent(row: &Row, named: &HashSet<Key>) -> bool
    ensures { result ≡ is_unlisted named.now.keys row.now }
{
    matches!(row.class, Class::Listed) && !named.contains(&row.key)
}
