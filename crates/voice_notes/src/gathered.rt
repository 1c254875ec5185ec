//! Keys, each once.

ghost use Rattle.std.specs.Prelude.{◌≡◌, IfOk, OnOk};
ghost use Rattle.voice_notes.specs.Anchors.{with_key};

use indexmap::IndexSet;
use std::alloc::Global;
use std::marker::Model;
use voice_model::{Key, KeyList};
use voice_units::NoMemory;

/// A list of keys that grows by new ones. Contracts see the list.
#[derive(Drop)]
pub struct Gathered {
    keys: Vec<Key>,
    // The same keys, each once.
    known: IndexSet<Key>,
}

impl Model for Gathered {
    ghost use Rattle.std.specs.Prelude.{List, ℕ};
    ghost use Rattle.voice_notes.specs.Anchors.{SameKeys};

    ghost Value = { List (List ℕ) };

    ghost view = { λ g. g.keys.items };

    ghost invariant = { λ g. SameKeys g.known.keys g.keys.items };
}

impl Gathered {
    /// These keys.
    pub fn of(alloc: Global, keys: &[Key]) -> Result<Gathered, NoMemory>
        ensures { IfOk result (λ gathered. gathered ≡ keys.now) }
    {
        let mut copied = Vec::with_capacity(alloc, keys.len())?;
        let mut known = IndexSet::new(alloc);
        for key in keys {
            copied.push(*key)?;
            known.insert(*key)?;
        }
        Ok(Gathered {
            keys: copied,
            known,
        })
    }

    /// With one more key, if it is new.
    pub fn with(self, key: Key) -> Result<Gathered, NoMemory>
        ensures { IfOk result (λ gathered. gathered ≡ with_key self key) }
    {
        let Gathered {
            mut keys,
            mut known,
        } = self;
        if known.insert(key)? {
            keys.push(key)?;
        }
        Ok(Gathered { keys, known })
    }

    /// The list. It takes no memory.
    pub fn list(self) -> KeyList
        ensures { result ≡ self }
    {
        let Gathered { keys, .. } = self;
        KeyList::of(keys)
    }
}
