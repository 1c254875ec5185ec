//! Keys and notes, which hold their bytes in place.

ghost use Rattle.std.specs.Prelude.{◌≡◌, ℕ, ◌+◌, ◌≤◌, ◌<◌, ◌↔◌, List, length, take, IsOk, IfOk, IfErr};
ghost use Rattle.voice_units.specs.InPlace.{filled};

use std::hash::{Hash, Hasher};
use std::marker::Model;
use voice_units::{TextError, filled_array};

/// The key of an interest, 1 to 64 bytes. Contracts see the list of its bytes.
#[derive(Clone, Copy, Debug)]
pub struct Key {
    bytes: [u8; 64],
    len: u8,
}

impl Model for Key {
    ghost use Rattle.std.specs.Prelude.{List, ℕ, take, length};

    ghost Value = { List ℕ };

    ghost use Rattle.voice_units.specs.InPlace.{InPlace, filled, filled_again, filled_length};

    ghost view = { λ k. take k.len k.bytes };

    ghost invariant = { λ k. InPlace 1 64 k.bytes k.len };

    ghost inverse = { λ bytes. record { bytes = filled 64 bytes; len = length bytes } };

    ghost inverse_ok = { λ k h. λ i. record { bytes = filled_again 1 64 k.bytes k.len h i; len = filled_length 1 64 k.bytes k.len h i } };
}

// By its bytes alone: short keys are compared and hashed without the room behind them.
impl PartialEq for Key {
    ghost use Rattle.std.specs.Str.{bytes_eq};
    ghost use Rattle.std.specs.Cmp.{partial_equiv_from_equiv};
    ghost use Rattle.std.proofs.lemmas.Cmp.{nat_list_eq_equiv};

    ghost eq = { bytes_eq };

    ghost laws = { partial_equiv_from_equiv nat_list_eq_equiv };

    fn eq(&self, other: &Key) -> bool {
        self.bytes() == other.bytes()
    }
}

impl Eq for Key {
    ghost use Rattle.std.proofs.lemmas.Cmp.{nat_list_eq_equiv};

    ghost laws = { nat_list_eq_equiv };
}

impl Hash for Key {
    ghost use Rattle.std.specs.Prelude.{List, ℕ, [], ◌∷◌};
    ghost use Rattle.std.proofs.Common.{ap};
    ghost use Rattle.std.proofs.lemmas.Slice.Eq.{bytes_eq-Decides};

    ghost hash_input = { λ key. key ∷ [] };

    ghost respects_eq = { λ x y h. ap (λ key. key ∷ []) ((bytes_eq-Decides x y).0 h) };

    fn hash<H: Hasher>(&self, state: &mut H) {
        state.write(self.bytes());
    }
}

/// The note of an interest, at most 128 bytes. Contracts see the list of its bytes.
#[derive(Clone, Copy, Debug, PartialEq, Eq, Hash)]
pub struct Note {
    bytes: [u8; 128],
    len: u8,
}

impl Model for Note {
    ghost use Rattle.std.specs.Prelude.{List, ℕ, take, length};

    ghost Value = { List ℕ };

    ghost use Rattle.voice_units.specs.InPlace.{InPlace, filled, filled_again, filled_length};

    ghost view = { λ k. take k.len k.bytes };

    ghost invariant = { λ k. InPlace 0 128 k.bytes k.len };

    ghost inverse = { λ bytes. record { bytes = filled 128 bytes; len = length bytes } };

    ghost inverse_ok = { λ k h. λ i. record { bytes = filled_again 0 128 k.bytes k.len h i; len = filled_length 0 128 k.bytes k.len h i } };
}

impl Key {
    /// The key of these bytes; `BadText` exactly outside 1 to 64 bytes. It takes no memory.
    #[tactic(auto, using(voice_units::specs::InPlace::filled_in_place, voice_units::specs::InPlace::filled_front))]
    pub fn new(bytes: &[u8]) -> Result<Key, TextError>
        ensures ok { IfOk result (λ key. key ≡ bytes.now) }
        ensures exact { IsOk result ↔ ((1 ≤ length bytes.now) × (length bytes.now ≤ 64)) }
        ensures err { IfErr result (λ e. e ≡ TextError.BadText) }
    {
        let len = bytes.len();
        if len == 0 || len > 64 {
            return Err(TextError::BadText);
        }
        Ok(Key {
            bytes: filled_array::<64>(bytes),
            len: len as u8,
        })
    }

    /// Its bytes.
    pub fn bytes(&self) -> &[u8]
        ensures value { result.now ≡ self.now }
        ensures some { 1 ≤ length self.now }
        ensures most { length self.now ≤ 64 }
    {
        &self.bytes[..self.len as usize]
    }
}

impl Note {
    /// The note of these bytes; `BadText` exactly above 128 bytes. It takes no memory.
    #[tactic(auto, using(voice_units::specs::InPlace::filled_in_place, voice_units::specs::InPlace::filled_front))]
    pub fn new(bytes: &[u8]) -> Result<Note, TextError>
        ensures ok { IfOk result (λ note. note ≡ bytes.now) }
        ensures exact { IsOk result ↔ (length bytes.now ≤ 128) }
        ensures err { IfErr result (λ e. e ≡ TextError.BadText) }
    {
        let len = bytes.len();
        if len > 128 {
            return Err(TextError::BadText);
        }
        Ok(Note {
            bytes: filled_array::<128>(bytes),
            len: len as u8,
        })
    }

    /// Its bytes.
    pub fn bytes(&self) -> &[u8]
        ensures value { result.now ≡ self.now }
        ensures most { length self.now ≤ 128 }
    {
        &self.bytes[..self.len as usize]
    }
}
