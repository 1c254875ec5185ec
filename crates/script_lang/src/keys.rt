//! Names as keys of a map.

ghost use Rattle.std.specs.Prelude.{◌≡◌};

use crate::labels::Label;
use std::hash::{Hash, Hasher};
use std::marker::Model;
use voice_units::Name;

/// A name as a key of a map. It is hashed by its bytes alone, and not by the whole array that holds them.
#[derive(Clone, Copy)]
pub struct NameKey {
    name: Name,
}

impl Model for NameKey {
    ghost use Rattle.std.specs.Prelude.{List, ℕ};

    ghost Value = { List ℕ };

    ghost view = { λ k. k.name };

    ghost inverse = { λ name. record { name = name } };
}

impl PartialEq for NameKey {
    ghost use Rattle.std.specs.Str.{bytes_eq};
    ghost use Rattle.std.specs.Cmp.{partial_equiv_from_equiv};
    ghost use Rattle.std.proofs.lemmas.Cmp.{nat_list_eq_equiv};

    ghost eq = { bytes_eq };

    ghost laws = { partial_equiv_from_equiv nat_list_eq_equiv };

    fn eq(&self, other: &NameKey) -> bool {
        self.name.bytes() == other.name.bytes()
    }
}

impl Eq for NameKey {
    ghost use Rattle.std.proofs.lemmas.Cmp.{nat_list_eq_equiv};

    ghost laws = { nat_list_eq_equiv };
}

impl Hash for NameKey {
    ghost use Rattle.std.specs.Prelude.{List, ℕ, [], ◌∷◌};
    ghost use Rattle.std.proofs.Common.{ap};
    ghost use Rattle.std.proofs.lemmas.Slice.Eq.{bytes_eq-Decides};

    ghost hash_input = { λ name. name ∷ [] };

    ghost respects_eq = { λ x y h. ap (λ name. name ∷ []) ((bytes_eq-Decides x y).0 h) };

    fn hash<H: Hasher>(&self, state: &mut H) {
        state.write(self.name.bytes());
    }
}

impl NameKey {
    /// The key of a name.
    pub fn of(name: &Label) -> NameKey
        ensures { result ≡ name.now }
    {
        NameKey { name: name.name() }
    }
}
