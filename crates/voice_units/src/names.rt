//! Names, which hold their bytes in place, so that copying one takes no memory.

ghost use Rattle.std.specs.Prelude.{◌≡◌, ℕ, ◌+◌, ◌≤◌, ◌<◌, ◌↔◌, List, length, take, IsOk, IfOk, IfErr};
ghost use Rattle.voice_units.specs.InPlace.{filled};

use std::fmt;
use std::marker::Model;

/// A file's name of 1 to 64 bytes. Contracts see the list of its bytes.
#[derive(Clone, Copy, Debug, PartialEq, Eq, Hash)]
pub struct Name {
    bytes: [u8; 64],
    len: u8,
}

impl Model for Name {
    ghost use Rattle.std.specs.Prelude.{List, ℕ, take, length};
    ghost use Rattle.voice_units.specs.InPlace.{InPlace, filled, filled_again, filled_length};

    ghost Value = { List ℕ };

    ghost view = { λ k. take k.len k.bytes };

    ghost invariant = { λ k. InPlace 1 64 k.bytes k.len };

    ghost inverse = { λ bytes. record { bytes = filled 64 bytes; len = length bytes } };

    ghost inverse_ok = { λ k h. λ i. record { bytes = filled_again 1 64 k.bytes k.len h i; len = filled_length 1 64 k.bytes k.len h i } };
}

/// Why a text is refused.
#[derive(Clone, Copy, Debug, PartialEq, Eq)]
pub enum TextError {
    BadText,
    NoMemory,
}

/// An array of `N` bytes that begins with these, zero behind them.
pub fn filled_array<const N: usize>(bytes: &[u8]) -> [u8; N]
    requires { length bytes.now ≤ N }
    ensures { result ≡ filled N bytes.now }
{
    let mut array = [0; N];
    array[..bytes.len()].copy_from_slice(bytes);
    array
}

impl Name {
    /// The name of these bytes; `BadText` exactly outside 1 to 64 bytes. It takes no memory.
    #[tactic(auto, using(crate::specs::InPlace::filled_in_place, crate::specs::InPlace::filled_front))]
    pub fn new(bytes: &[u8]) -> Result<Name, TextError>
        ensures ok { IfOk result (λ name. name ≡ bytes.now) }
        ensures exact { IsOk result ↔ ((1 ≤ length bytes.now) × (length bytes.now ≤ 64)) }
        ensures err { IfErr result (λ e. e ≡ TextError.BadText) }
    {
        let len = bytes.len();
        if len == 0 || len > 64 {
            return Err(TextError::BadText);
        }
        Ok(Name {
            bytes: filled_array::<64>(bytes),
            len: len as u8,
        })
    }

    /// Its bytes, 1 to 64 of them.
    pub fn bytes(&self) -> &[u8]
        ensures value { result.now ≡ self.now }
        ensures some { 1 ≤ length self.now }
        ensures most { length self.now ≤ 64 }
    {
        &self.bytes[..self.len as usize]
    }
}

impl fmt::Display for Name {
    fn fmt<W: fmt::Write>(&self, f: &mut fmt::Formatter<W>) -> fmt::Result {
        for byte in self.bytes() {
            write!(f, "{}", char::from(*byte))?;
        }
        Ok(())
    }
}
