//! A list of names of files.

ghost use Rattle.std.specs.Prelude.{◌≡◌};

use std::marker::Model;
use voice_units::Name;

/// Names of files. Contracts see the list of them.
#[derive(Drop)]
pub struct NameList {
    items: Vec<Name>,
}

impl Model for NameList {
    ghost use Rattle.std.specs.Prelude.{List, ℕ};

    ghost Value = { List (List ℕ) };

    ghost view = { λ a. a.items.items };
}

impl NameList {
    /// The list of these names. It takes no memory.
    pub fn of(items: Vec<Name>) -> NameList
        ensures { result ≡ items.items }
    {
        NameList { items }
    }

    /// Its names, in order.
    pub fn items(&self) -> &[Name]
        ensures { result.now ≡ self.now }
    {
        &self.items
    }

    /// Gives them back. It takes no memory.
    pub fn into_items(self) -> Vec<Name>
        ensures { result.items ≡ self }
    {
        let NameList { items } = self;
        items
    }
}
