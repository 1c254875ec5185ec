//! How large a base is, by numbers that tables keep.

ghost use Rattle.std.specs.Prelude.{◌≡◌, ℕ, ◌+◌, ◌-◌, ◌*◌, ◌^◌, ◌<◌, ◌==◌, cond, min, List};
ghost use Rattle.voice_units.specs.declared.Piece.{Piece};
ghost use Rattle.voice_units.specs.Spots.{Spot};
ghost use Rattle.voice_model.specs.Samples.{Tagged, spot_of};
ghost use Rattle.voice_model.specs.State.{Durable};
ghost use Rattle.voice_model.specs.Changes as model;
ghost use Rattle.voice_model.specs.Replay.{durable_by};
ghost use Rattle.recovery.specs.Shown.{Shows};
ghost use Rattle.checkpoint.specs.Size.{size_by_numbers, numbers_in, AreSmall};
ghost use Rattle.checkpoint.specs.Size as sizes;

use recovery::Parts;

/// What a base spells, in numbers: the blocks that live ropes use and the files of these, each once; the live ropes and all their pieces; the rows, and the bytes of all their keys and of all their notes.
#[derive(Clone, Copy, Debug, PartialEq, Eq)]
pub struct BaseNumbers {
    pub files: u64,
    pub blocks: u64,
    pub ropes: u64,
    pub pieces: u64,
    pub rows: u64,
    pub key_bytes: u64,
    pub note_bytes: u64,
}

/// The bytes that form 2 takes besides: two more for each address, and one for each rope's last class.
fn wide_bytes(form: u8, numbers: &BaseNumbers) -> u128
    ensures { result ≡ cond (form == 2) (2 * numbers.now.blocks + numbers.now.ropes) 0 }
{
    if form != 2 {
        return 0;
    }
    2 * u128::from(numbers.blocks) + u128::from(numbers.ropes)
}

/// The bytes that a base takes as records, with their gates and lengths.
fn framed_bytes(form: u8, numbers: &BaseNumbers) -> u128
    ensures { result ≡ size_by_numbers form numbers.now }
{
    let files = 18 * u128::from(numbers.files) + 6 * u128::from(numbers.blocks);
    let ropes = 24 * u128::from(numbers.ropes) + 16 * u128::from(numbers.pieces);
    let texts = u128::from(numbers.key_bytes) + u128::from(numbers.note_bytes);
    let rows = 17 * u128::from(numbers.rows) + texts;
    22 + files + ropes + rows + wide_bytes(form, numbers)
}

/// The bytes that a base of a form, 1 or 2, takes as records, with their gates and lengths; `u64::MAX` where it takes more.
pub fn base_size(form: u8, numbers: &BaseNumbers) -> u64
    ensures value { result ≡ min (size_by_numbers form numbers.now) (2 ^ 64 - 1) }
    ensures small { AreSmall numbers.now → result ≡ size_by_numbers form numbers.now }
    ensures model { (d : Durable Tagged) → numbers.now ≡ numbers_in d → result ≡ min (model.base_size form d) (2 ^ 64 - 1) }
{
    match u64::try_from(framed_bytes(form, numbers)) {
        Ok(size) => size,
        Err(_) => u64::MAX,
    }
}

/// The numbers of a base of these parts, as the tables count them.
fn counted(parts: &Parts) -> BaseNumbers
    ensures { result ≡ sizes.numbers_of parts.now.ropes parts.now.interests.rows }
{
    BaseNumbers {
        files: parts.ropes.live_files(),
        blocks: parts.ropes.live_blocks(),
        ropes: parts.ropes.count() as u64,
        pieces: parts.ropes.live_pieces(),
        rows: u64::from(parts.interests.len()),
        key_bytes: parts.interests.key_bytes(),
        note_bytes: parts.interests.note_bytes(),
    }
}

/// The bytes that a base of the parts takes in their form, as records with their gates and lengths. The tables count them: no base is made.
pub fn parts_size(parts: &Parts) -> u128
    ensures size { (held : List (List Piece)) (d : Durable Spot) (fill : Spot → Tagged) → Shows held parts.now d → ((x : Spot) → spot_of (fill x) ≡ x) → result ≡ model.base_size parts.now.form (durable_by fill d) }
    ensures limit { result < 2 ^ 72 }
{
    framed_bytes(parts.form, &counted(parts))
}
