//! The change that bytes spell.

ghost use Rattle.std.specs.Prelude.{◌≡◌, ℕ, ◌+◌, ◌≤◌, length, None, Some, IfOk, IfErr, IsErr, MatchResult};
ghost use Rattle.disk_areas.specs.Numbers.{number_at};
ghost use Rattle.voice_model.specs.Spelling.{at_kind, change_in, Spells};
ghost use Rattle.change_codec.specs.Refused.{place_at, places_by_kind, refused, IsPlace, IsRefusal};
ghost use Rattle.change_codec.specs.Said.{said_by_kind};

use super::appending::Width;
use super::errors::GetError;
use super::fields::number_1;
use super::kinds::{
    advanced, base, base2, census, edited, file, forgotten, recorded, retained, rope, rope2, swept,
};
use std::alloc::Global;
use voice_model::Change;

// The change of a kind.
fn read_by_kind(alloc: Global, bytes: &[u8], kind: u8) -> Result<Change, GetError>
    requires some { 1 ≤ length bytes.now }
    requires least { 1 ≤ kind }
    requires most { kind ≤ 14 }
    ensures place { MatchResult result (λ _. place_at (places_by_kind bytes.now) kind ≡ None) (λ e. IsPlace (place_at (places_by_kind bytes.now) kind) e) }
    ensures value { IfOk result (λ c. at_kind (said_by_kind bytes.now) kind ≡ Some c) }
{
    match kind {
        1 => recorded(alloc, bytes, Width::Narrow),
        2 => edited(alloc, bytes),
        3 => retained(bytes),
        4 => forgotten(bytes),
        5 => census(alloc, bytes),
        6 => swept(alloc, bytes),
        7 => advanced(bytes),
        8 => base(bytes),
        9 => file(alloc, bytes, Width::Narrow),
        10 => rope(alloc, bytes),
        11 => recorded(alloc, bytes, Width::Wide),
        12 => base2(bytes),
        13 => file(alloc, bytes, Width::Wide),
        _ => rope2(alloc, bytes),
    }
}

// The change whose fields the bytes have.
fn read(alloc: Global, bytes: &[u8]) -> Result<Change, GetError>
    ensures place { MatchResult result (λ _. refused bytes.now ≡ None) (λ e. IsPlace (refused bytes.now) e) }
    ensures value { IfOk result (λ c. at_kind (said_by_kind bytes.now) (number_at 1 0 bytes.now) ≡ Some c) }
{
    let kind = number_1(bytes, 0, 1, 14)?;
    read_by_kind(alloc, bytes, kind)
}

/// The change that bytes spell. `NotAChange` comes exactly where they spell none and names the refused place, unless memory wants first.
pub fn get(alloc: Global, bytes: &[u8]) -> Result<Change, GetError>
    ensures ok { IfOk result (λ c. Spells bytes.now c) }
    ensures refusal { IfErr result (λ e. IsRefusal bytes.now e) }
    ensures exact { change_in bytes.now ≡ None → IsErr result }
{
    read(alloc, bytes)
}
