//! What an edit makes, and the reasons for which it makes nothing.

ghost use Rattle.std.specs.Prelude.{◌≡◌, length, nat_lt};
ghost use Rattle.voice_model.specs.Step.{if_long, if_many, if_outside, last_rope, when};
ghost use Rattle.voice_model.specs.declared.calls.Why.TheVariants as reasons;

use rope_algebra::Pieces;
use voice_model::Why;
use voice_units::{LAST_ROPE, MOST_SAMPLES};

/// The most pieces of a rope.
const MOST_PIECES: u32 = 4096;

/// What an edit makes, or why it is refused before the journal's room is asked.
#[derive(Drop)]
pub enum Made {
    /// The pieces of the new rope.
    Rope(Pieces),
    /// The first reason that holds, the journal's room apart.
    Refused(Why),
}

/// The refusal where an interval does not lie in a rope of this length.
pub(crate) fn if_outside(start: u32, len: u32, length: u32) -> Option<Why>
    ensures { result ≡ if_outside start len length }
{
    if u64::from(start) + u64::from(len) > u64::from(length) {
        return Some(Why::BadInterval(length));
    }
    None
}

/// The refusal where a rope would have too many samples.
pub(crate) fn if_long(length: u64) -> Option<Why>
    ensures { result ≡ if_long length }
{
    if length > MOST_SAMPLES {
        return Some(Why::TooLong(length));
    }
    None
}

/// The refusal where a rope would have too many pieces.
pub(crate) fn if_many(pieces: &Pieces) -> Option<Why>
    ensures { result ≡ if_many (length pieces.now) }
{
    let count = pieces.count();
    if count > MOST_PIECES {
        return Some(Why::TooManyPieces(count));
    }
    None
}

/// The refusal where the next rope would have too great a number.
pub(crate) fn if_spent(next: u64) -> Option<Why>
    ensures { result ≡ when (nat_lt last_rope next) reasons.IdsSpent }
{
    if next > LAST_ROPE {
        return Some(Why::IdsSpent);
    }
    None
}
