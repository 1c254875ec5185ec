//! The bytes of short changes, which stand in place.

ghost use Rattle.std.specs.Prelude.{◌≡◌, true};
ghost use Rattle.voice_model.specs.Spelling.{spelling, keeps_grammar};
ghost use Rattle.voice_model.specs.declared.changes.Change.TheVariants as changes;

use super::putting::number_of;
use arrayvec::ArrayVec;
use disk_areas::eight_bytes;
use voice_model::{Class, Key};
use voice_units::Moment;

/// So many bytes spell that the row of a longest key goes.
pub const SHORT: usize = 67;

/// The bytes that spell that a row goes. They take no memory.
pub fn forgotten_bytes(class: Class, key: &Key) -> ArrayVec<u8, SHORT>
    requires { keeps_grammar (changes.Forgotten class key.now) ≡ true }
    ensures { result.items ≡ spelling (changes.Forgotten class key.now) }
{
    let mut bytes = ArrayVec::new();
    bytes.push(4);
    bytes.push(number_of(class));
    bytes.push(key.bytes().len() as u8);
    let _ = bytes.try_extend_from_slice(key.bytes());
    bytes
}

/// The bytes that spell that the moment comes. They take no memory.
pub fn advanced_bytes(moment: Moment) -> ArrayVec<u8, SHORT>
    ensures { result.items ≡ spelling (changes.Advanced moment) }
{
    let mut bytes = ArrayVec::new();
    bytes.push(7);
    let _ = bytes.try_extend_from_slice(&eight_bytes(moment.number()));
    bytes
}
