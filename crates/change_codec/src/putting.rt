//! The bytes of a change.

ghost use Rattle.std.specs.Prelude.{◌≡◌, ◌+◌, ◌≤◌, ◌<◌, ◌++◌, length, flat_map, true, IsOk, OnOk, OnErr, vec_len, vec_capacity};
ghost use Rattle.voice_model.specs.State.{class_number};
ghost use Rattle.disk_areas.specs.Numbers.{number_bytes};
ghost use Rattle.voice_model.specs.Spelling.{spelling, keeps_grammar, recorded_bytes, file_bytes, pieces_bytes, text_bytes, is_recording, is_file};
ghost use Rattle.change_codec.specs.Widths.{bytes_of};

use super::appending::{
    Width, append_addresses, append_id, append_ids, append_keys, append_moment, append_pairs,
    append_pieces, append_text,
};
use disk_areas::{append_1, append_2, append_4, append_8};
use voice_model::{Change, Class, Key, Pair};
use voice_units::{NoMemory, Piece, RopeId};

// How many bytes spell keys, each with its length in front.
fn keys_size(keys: &[Key]) -> u64
    requires { length keys.now < 65536 }
    ensures { result ≡ length (flat_map text_bytes keys.now) }
{
    let mut size = 0;
    for key in keys {
        size += 1 + key.bytes().len() as u64;
    }
    size
}

/// How many bytes spell a change.
pub fn size(change: &Change) -> u64
    requires { keeps_grammar change.now ≡ true }
    ensures { result ≡ length (spelling change.now) }
{
    match change {
        Change::Recorded(_, _, addresses) => 17 + 2 * addresses.items().len() as u64,
        Change::Edited(_, pieces) => 11 + 16 * pieces.items().len() as u64,
        Change::Retained(_, key, _, note) => 12
            + key.bytes().len() as u64
            + note.bytes().len() as u64,
        Change::Forgotten(_, key) => 3 + key.bytes().len() as u64,
        Change::Census(keys) => 3 + keys_size(keys.items()),
        Change::Swept(ids) => 3 + 8 * ids.items().len() as u64,
        Change::Advanced(_) => 9,
        Change::Base(_, _) => 17,
        Change::File(_, pairs) => 13 + 6 * pairs.items().len() as u64,
        Change::Rope(_, _, pieces) => 19 + 16 * pieces.items().len() as u64,
        Change::Wide(_, _, addresses) => 17 + 4 * addresses.items().len() as u64,
        Change::Base2(_, _) => 17,
        Change::File2(_, pairs) => 13 + 8 * pairs.items().len() as u64,
        Change::Rope2(_, _, _, pieces) => 20 + 16 * pieces.items().len() as u64,
    }
}

// The number of a class in a spelling.
pub(crate) fn number_of(class: Class) -> u8
    ensures { result ≡ class_number class }
{
    match class {
        Class::Held => 1,
        Class::Until => 2,
        Class::Listed => 3,
    }
}

// Appends a recording behind its kind.
fn append_recorded(out: &mut Vec<u8>, width: Width, id: RopeId, len: u32, addresses: &[u32])
    requires fit { is_recording (bytes_of width) id len addresses.now ≡ true }
    requires room { length out.old.items + length (recorded_bytes (bytes_of width) id len addresses.now) ≤ vec_capacity out.old }
    ensures items { out.new.items ≡ out.old.items ++ recorded_bytes (bytes_of width) id len addresses.now }
    ensures capacity { vec_capacity out.old ≤ vec_capacity out.new }
{
    append_id(out, id);
    append_4(out, len);
    append_4(out, addresses.len() as u32);
    append_addresses(out, width, addresses);
}

// Appends the blocks of a file behind its kind.
fn append_file(out: &mut Vec<u8>, width: Width, file: RopeId, pairs: &[Pair])
    requires fit { is_file (bytes_of width) file pairs.now ≡ true }
    requires room { length out.old.items + length (file_bytes (bytes_of width) file pairs.now) ≤ vec_capacity out.old }
    ensures items { out.new.items ≡ out.old.items ++ file_bytes (bytes_of width) file pairs.now }
    ensures capacity { vec_capacity out.old ≤ vec_capacity out.new }
{
    append_id(out, file);
    append_4(out, pairs.len() as u32);
    append_pairs(out, width, pairs);
}

// Appends pieces with their count in front.
fn append_counted(out: &mut Vec<u8>, pieces: &[Piece])
    requires few { length pieces.now ≤ 4096 }
    requires room { length out.old.items + length (pieces_bytes pieces.now) ≤ vec_capacity out.old }
    ensures items { out.new.items ≡ out.old.items ++ pieces_bytes pieces.now }
    ensures capacity { vec_capacity out.old ≤ vec_capacity out.new }
{
    append_2(out, pieces.len() as u16);
    append_pieces(out, pieces);
}

// Appends a class and a key behind their kind.
fn append_name(out: &mut Vec<u8>, class: Class, key: &Key)
    requires room { length out.old.items + 2 + length key.now ≤ vec_capacity out.old }
    ensures items { out.new.items ≡ out.old.items ++ (number_bytes 1 (class_number class) ++ text_bytes key.now) }
    ensures capacity { vec_capacity out.old ≤ vec_capacity out.new }
{
    append_1(out, number_of(class));
    append_text(out, key.bytes());
}

// Appends the bytes of a change, which have room.
fn append_change(out: &mut Vec<u8>, change: &Change)
    requires fit { keeps_grammar change.now ≡ true }
    requires room { length out.old.items + length (spelling change.now) ≤ vec_capacity out.old }
    ensures { out.new.items ≡ out.old.items ++ spelling change.now }
{
    match change {
        Change::Recorded(id, len, addresses) => {
            append_1(out, 1);
            append_recorded(out, Width::Narrow, *id, *len, addresses.items());
        }
        Change::Edited(id, pieces) => {
            append_1(out, 2);
            append_id(out, *id);
            append_counted(out, pieces.items());
        }
        Change::Retained(class, key, id, note) => {
            append_1(out, 3);
            append_name(out, *class, key);
            append_id(out, *id);
            append_text(out, note.bytes());
        }
        Change::Forgotten(class, key) => {
            append_1(out, 4);
            append_name(out, *class, key);
        }
        Change::Census(keys) => {
            append_1(out, 5);
            append_2(out, keys.items().len() as u16);
            append_keys(out, keys.items());
        }
        Change::Swept(ids) => {
            append_1(out, 6);
            append_2(out, ids.items().len() as u16);
            append_ids(out, ids.items());
        }
        Change::Advanced(moment) => {
            append_1(out, 7);
            append_moment(out, *moment);
        }
        Change::Base(now, next) => {
            append_1(out, 8);
            append_moment(out, *now);
            append_8(out, *next);
        }
        Change::File(file, pairs) => {
            append_1(out, 9);
            append_file(out, Width::Narrow, *file, pairs.items());
        }
        Change::Rope(id, idle, pieces) => {
            append_1(out, 10);
            append_id(out, *id);
            append_moment(out, *idle);
            append_counted(out, pieces.items());
        }
        Change::Wide(id, len, addresses) => {
            append_1(out, 11);
            append_recorded(out, Width::Wide, *id, *len, addresses.items());
        }
        Change::Base2(now, next) => {
            append_1(out, 12);
            append_moment(out, *now);
            append_8(out, *next);
        }
        Change::File2(file, pairs) => {
            append_1(out, 13);
            append_file(out, Width::Wide, *file, pairs.items());
        }
        Change::Rope2(id, idle, last, pieces) => {
            append_1(out, 14);
            append_id(out, *id);
            append_moment(out, *idle);
            append_1(out, *last);
            append_counted(out, pieces.items());
        }
    }
}

/// Appends the bytes of a change. `NoMemory` comes only where there was no room for them, and leaves the bytes as they were.
pub fn put(change: &Change, out: &mut Vec<u8>) -> Result<(), NoMemory>
    requires { keeps_grammar change.now ≡ true }
    ensures ok { OnOk result (out.new.items ≡ out.old.items ++ spelling change.now) }
    ensures err { OnErr result (out.new.items ≡ out.old.items) }
    ensures room { vec_len out.old + length (spelling change.now) ≤ vec_capacity out.old → IsOk result }
{
    out.reserve(size(change) as usize)?;
    append_change(out, change);
    Ok(())
}
