//! Fields that are appended to a list of bytes with room for them.

ghost use Rattle.std.specs.Prelude.{◌≡◌, ◌+◌, ◌≤◌, ◌<◌, ◌++◌, length, flat_map, true, vec_capacity};
ghost use Rattle.std.specs.List.{list_all};
ghost use Rattle.disk_areas.specs.Numbers.{number_bytes};
ghost use Rattle.voice_model.specs.Spelling.{piece_bytes, text_bytes, pair_bytes, fits};
ghost use Rattle.change_codec.specs.Widths.{bytes_of};

use disk_areas::{append, append_1, append_2, append_4, append_8};
use voice_model::{Key, Pair};
use voice_units::{Moment, Piece, RopeId};

/// How wide an address is.
#[derive(Clone, Copy)]
pub enum Width {
    /// 2 bytes, in form 1.
    Narrow,
    /// 4 bytes, in form 2.
    Wide,
}

// Appends the number of a rope or of a voice file.
pub fn append_id(out: &mut Vec<u8>, id: RopeId)
    requires room { length out.old.items + 8 ≤ vec_capacity out.old }
    ensures items { out.new.items ≡ out.old.items ++ number_bytes 8 id }
    ensures capacity { vec_capacity out.old ≤ vec_capacity out.new }
{
    append_8(out, id.number());
}

// Appends a moment.
pub fn append_moment(out: &mut Vec<u8>, moment: Moment)
    requires room { length out.old.items + 8 ≤ vec_capacity out.old }
    ensures items { out.new.items ≡ out.old.items ++ number_bytes 8 moment }
    ensures capacity { vec_capacity out.old ≤ vec_capacity out.new }
{
    append_8(out, moment.number());
}

// Appends a text with its length in front.
pub fn append_text(out: &mut Vec<u8>, text: &[u8])
    requires short { length text.now < 256 }
    requires room { length out.old.items + 1 + length text.now ≤ vec_capacity out.old }
    ensures items { out.new.items ≡ out.old.items ++ text_bytes text.now }
    ensures capacity { vec_capacity out.old ≤ vec_capacity out.new }
{
    append_1(out, text.len() as u8);
    append(out, text);
}

// Appends an address.
pub fn append_address(out: &mut Vec<u8>, width: Width, address: u32)
    requires small { fits (bytes_of width) address ≡ true }
    requires room { length out.old.items + bytes_of width ≤ vec_capacity out.old }
    ensures items { out.new.items ≡ out.old.items ++ number_bytes (bytes_of width) address }
    ensures capacity { vec_capacity out.old ≤ vec_capacity out.new }
{
    match width {
        Width::Narrow => append_2(out, address as u16),
        Width::Wide => append_4(out, address),
    }
}

// Appends a piece.
pub fn append_piece(out: &mut Vec<u8>, piece: &Piece)
    requires room { length out.old.items + 16 ≤ vec_capacity out.old }
    ensures items { out.new.items ≡ out.old.items ++ piece_bytes piece.now }
    ensures capacity { vec_capacity out.old ≤ vec_capacity out.new }
{
    append_id(out, piece.file);
    append_4(out, piece.from);
    append_4(out, piece.len);
}

// Appends an index and an address.
pub fn append_pair(out: &mut Vec<u8>, width: Width, pair: Pair)
    requires small { fits (bytes_of width) pair.address ≡ true }
    requires room { length out.old.items + 4 + bytes_of width ≤ vec_capacity out.old }
    ensures items { out.new.items ≡ out.old.items ++ pair_bytes (bytes_of width) pair }
    ensures capacity { vec_capacity out.old ≤ vec_capacity out.new }
{
    append_4(out, pair.index);
    append_address(out, width, pair.address);
}

// Appends addresses.
pub fn append_addresses(out: &mut Vec<u8>, width: Width, addresses: &[u32])
    requires small { list_all (fits (bytes_of width)) addresses.now ≡ true }
    requires room { length out.old.items + length (flat_map (number_bytes (bytes_of width)) addresses.now) ≤ vec_capacity out.old }
    ensures items { out.new.items ≡ out.old.items ++ flat_map (number_bytes (bytes_of width)) addresses.now }
    ensures capacity { vec_capacity out.old ≤ vec_capacity out.new }
{
    for address in addresses {
        append_address(out, width, *address);
    }
}

// Appends the numbers of ropes.
pub fn append_ids(out: &mut Vec<u8>, ids: &[RopeId])
    requires room { length out.old.items + length (flat_map (number_bytes 8) ids.now) ≤ vec_capacity out.old }
    ensures items { out.new.items ≡ out.old.items ++ flat_map (number_bytes 8) ids.now }
    ensures capacity { vec_capacity out.old ≤ vec_capacity out.new }
{
    for id in ids {
        append_id(out, *id);
    }
}

// Appends pieces.
pub fn append_pieces(out: &mut Vec<u8>, pieces: &[Piece])
    requires room { length out.old.items + length (flat_map piece_bytes pieces.now) ≤ vec_capacity out.old }
    ensures items { out.new.items ≡ out.old.items ++ flat_map piece_bytes pieces.now }
    ensures capacity { vec_capacity out.old ≤ vec_capacity out.new }
{
    for piece in pieces {
        append_piece(out, piece);
    }
}

// Appends indices and addresses.
pub fn append_pairs(out: &mut Vec<u8>, width: Width, pairs: &[Pair])
    requires small { list_all (λ pair. fits (bytes_of width) pair.address) pairs.now ≡ true }
    requires room { length out.old.items + length (flat_map (pair_bytes (bytes_of width)) pairs.now) ≤ vec_capacity out.old }
    ensures items { out.new.items ≡ out.old.items ++ flat_map (pair_bytes (bytes_of width)) pairs.now }
    ensures capacity { vec_capacity out.old ≤ vec_capacity out.new }
{
    for pair in pairs {
        append_pair(out, width, *pair);
    }
}

// Appends keys, each with its length in front.
pub fn append_keys(out: &mut Vec<u8>, keys: &[Key])
    requires room { length out.old.items + length (flat_map text_bytes keys.now) ≤ vec_capacity out.old }
    ensures items { out.new.items ≡ out.old.items ++ flat_map text_bytes keys.now }
    ensures capacity { vec_capacity out.old ≤ vec_capacity out.new }
{
    for key in keys {
        append_text(out, key.bytes());
    }
}
