//! What stands at the front of some bytes of a note.

ghost use Rattle.std.specs.Prelude.{◌≡◌, ◌<◌, ◌≤◌, length, drop};
ghost use Rattle.std.specs.List.{position};
ghost use Rattle.voice_notes.specs.Anchors.{ends_key, run, front_of};

use voice_model::Key;

const OPENING: &[u8; 8] = b"[[voice:";

const CLOSING: &[u8; 2] = b"]]";

/// What stands at the front of some bytes.
#[derive(Clone, Copy, Debug)]
pub enum Front {
    /// No `[[voice:`.
    Other,
    /// An anchor of that key.
    Anchor(Key),
    /// `[[voice:`, and no anchor.
    Bad,
}

// Whether no key goes on with that byte.
fn ends_key(b: u8) -> bool
    ensures { result ≡ ends_key b }
{
    !(b.is_ascii_alphanumeric() || matches!(b, b'_' | b'.' | b'-'))
}

// The place of the first byte with which no key goes on.
fn key_end(bytes: &[u8]) -> Option<usize>
    ensures { result ≡ position ends_key bytes.now }
{
    bytes.iter().position(|b| ends_key(*b))
}

// How many bytes of a key stand at the front.
#[tactic(auto, using(crate::proofs::Fronts::run_within, crate::proofs::Fronts::run_is))]
fn key_length(bytes: &[u8]) -> usize
    ensures value { result ≡ run bytes.now }
    ensures within { result ≤ length bytes.now }
{
    key_end(bytes).unwrap_or(bytes.len())
}

// What stands at the front of the bytes.
fn at_front(bytes: &[u8]) -> Front
    ensures { result ≡ front_of bytes.now }
{
    let Some(behind) = bytes.strip_prefix(OPENING) else {
        return Front::Other;
    };
    let (key, rest) = behind.split_at(key_length(behind));
    if !rest.starts_with(CLOSING) {
        return Front::Bad;
    }
    match Key::new(key) {
        Ok(key) => Front::Anchor(key),
        Err(_) => Front::Bad,
    }
}

/// What stands at a place of a note.
#[tactic(auto, using(crate::proofs::Fronts::rest_is))]
pub fn front_at(note: &[u8], place: usize) -> Front
    requires { place < length note.now }
    ensures { result ≡ front_of (drop place note.now) }
{
    at_front(&note[place..])
}
