//! Names and keys of a script, the short ones in place, so that a line stays small.

ghost use Rattle.std.specs.Prelude.{◌≡◌, ℕ, ◌≤◌, length, IfOk};

use std::alloc::Global;
use std::hash::{Hash, Hasher};
use std::marker::Model;
use voice_model::Key;
use voice_units::{Name, NoMemory, filled_array};

/// 1 to 16 bytes, in place. The length is a whole word wide, so that copies of a label are copies of whole words.
#[derive(Drop)]
struct Inline {
    len: usize,
    bytes: [u8; 16],
}

impl Model for Inline {
    ghost use Rattle.std.specs.Prelude.{List, ℕ, take};
    ghost use Rattle.voice_units.specs.InPlace.{InPlace};

    ghost Value = { List ℕ };

    ghost view = { λ k. take k.len k.bytes };

    ghost invariant = { λ k. InPlace 1 16 k.bytes k.len };
}

impl Inline {
    #[tactic(auto, using(voice_units::specs::InPlace::filled_in_place, voice_units::specs::InPlace::filled_front))]
    fn new(bytes: &[u8]) -> Inline
        requires { (1 ≤ length bytes.now) × (length bytes.now ≤ 16) }
        ensures { result ≡ bytes.now }
    {
        Inline {
            len: bytes.len(),
            bytes: filled_array::<16>(bytes),
        }
    }

    fn bytes(&self) -> &[u8]
        ensures value { result.now ≡ self.now }
        ensures some { 1 ≤ length self.now }
        ensures most { length self.now ≤ 16 }
    {
        &self.bytes[..self.len]
    }
}

#[derive(Drop)]
enum Stored {
    Short(Inline),
    Long(Box<Name>),
}

/// A name or a key of 1 to 64 bytes. Up to 16 lie in place, more in memory of their own. Contracts see the list of its bytes.
#[derive(Drop)]
pub struct Label {
    stored: Stored,
}

impl Model for Label {
    ghost use Rattle.std.specs.Prelude.{List, ℕ};
    ghost use Rattle.script_lang.specs.Labels.{label_bytes};

    ghost Value = { List ℕ };

    ghost view = { λ l. label_bytes l.stored };
}

impl PartialEq for Label {
    ghost use Rattle.std.specs.Str.{bytes_eq};
    ghost use Rattle.std.specs.Cmp.{partial_equiv_from_equiv};
    ghost use Rattle.std.proofs.lemmas.Cmp.{nat_list_eq_equiv};

    ghost eq = { bytes_eq };

    ghost laws = { partial_equiv_from_equiv nat_list_eq_equiv };

    fn eq(&self, other: &Label) -> bool {
        self.bytes() == other.bytes()
    }
}

impl Eq for Label {
    ghost use Rattle.std.proofs.lemmas.Cmp.{nat_list_eq_equiv};

    ghost laws = { nat_list_eq_equiv };
}

impl Hash for Label {
    ghost use Rattle.std.specs.Prelude.{List, ℕ, [], ◌∷◌};
    ghost use Rattle.std.proofs.Common.{ap};
    ghost use Rattle.std.proofs.lemmas.Slice.Eq.{bytes_eq-Decides};

    ghost hash_input = { λ name. name ∷ [] };

    ghost respects_eq = { λ x y h. ap (λ name. name ∷ []) ((bytes_eq-Decides x y).0 h) };

    fn hash<H: Hasher>(&self, state: &mut H) {
        state.write(self.bytes());
    }
}

impl Label {
    /// The label of 1 to 64 bytes. Up to 16 take no memory.
    pub fn new(alloc: Global, bytes: &[u8]) -> Result<Label, NoMemory>
        requires { (1 ≤ length bytes.now) × (length bytes.now ≤ 64) }
        ensures { IfOk result (λ label. label ≡ bytes.now) }
    {
        if bytes.len() <= 16 {
            let stored = Stored::Short(Inline::new(bytes));
            return Ok(Label { stored });
        }
        let Ok(name) = Name::new(bytes) else {
            unreachable!();
        };
        let stored = Stored::Long(Box::new(alloc, name)?);
        Ok(Label { stored })
    }

    /// Its bytes, 1 to 64 of them.
    pub fn bytes(&self) -> &[u8]
        ensures value { result.now ≡ self.now }
        ensures some { 1 ≤ length self.now }
        ensures most { length self.now ≤ 64 }
    {
        match &self.stored {
            Stored::Short(bytes) => bytes.bytes(),
            Stored::Long(name) => name.bytes(),
        }
    }

    /// The name of these bytes.
    pub fn name(&self) -> Name
        ensures { result ≡ self.now }
    {
        let Ok(name) = Name::new(self.bytes()) else {
            unreachable!();
        };
        name
    }

    /// The key of these bytes.
    pub fn key(&self) -> Key
        ensures { result ≡ self.now }
    {
        let Ok(key) = Key::new(self.bytes()) else {
            unreachable!();
        };
        key
    }
}

/// A value in memory of its own, so that what holds it stays small. Contracts see the value.
#[derive(Drop)]
pub struct Boxed<T> {
    value: Box<T>,
}

impl<T> Model for Boxed<T> {
    ghost Value = { T };

    ghost view = { λ b. b.value.value };
}

impl<T: Drop> Boxed<T> {
    /// The value, moved to memory of its own.
    pub fn new(alloc: Global, value: T) -> Result<Boxed<T>, NoMemory>
        ensures { IfOk result (λ boxed. boxed ≡ value) }
    {
        let value = Box::new(alloc, value)?;
        Ok(Boxed { value })
    }

    /// The value.
    pub fn get(&self) -> &T
        ensures { result.now ≡ self.now }
    {
        &self.value
    }
}
