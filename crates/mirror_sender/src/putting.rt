//! The packets of changes.

ghost use Rattle.std.specs.Prelude.{◌≡◌, ℕ, ◌+◌, ◌≤◌, ◌<◌, ◌^◌, ◌++◌, List, length, vec_capacity, flat_map};
ghost use Rattle.disk_areas.specs.Numbers.{number_bytes};
ghost use Rattle.voice_units.specs.declared.pieces.Piece.{Piece as PieceValue};
ghost use Rattle.voice_model.specs.Samples.{Tagged};
ghost use Rattle.voice_model.specs.State.{Durable, Effect};
ghost use Rattle.voice_model.specs.Spelling.{piece_bytes, pieces_bytes, spelling};
ghost use Rattle.voice_model.specs.declared.changes.Change.TheVariants as changes;
ghost use Rattle.mirror_packets.specs.Packets.{packet_spelling, body_spelling, Body};
ghost use Rattle.mirror_packets.specs.Effects.{packet_of_effect, body_of_effect};
ghost use Rattle.mirror_sender.specs.Coming.{IsNextOf, HasTakes, bytes_taken, body_size};

use crate::coming::Next;
use disk_areas::{append, append_1, append_2, append_4, append_8};
use rope_algebra::Pieces;
use voice_model::Tapes;
use voice_units::{Piece, Take};

// The first byte of the body that brings a voice file, and that of an edit.
const VOICE: u8 = 32;

const EDIT: u8 = 2;

// Appends the bytes of takes.
fn append_takes(out: &mut Vec<u8>, tapes: &Tapes, takes: &[Take])
    requires within { HasTakes tapes.now takes.now }
    requires room { length out.old.items + length (bytes_taken tapes.now takes.now) ≤ vec_capacity out.old }
    ensures { out.new.items ≡ out.old.items ++ bytes_taken tapes.now takes.now }
{
    for take in takes {
        append(out, tapes.samples(*take));
    }
}

// Appends a piece as a change spells it.
fn append_piece(out: &mut Vec<u8>, piece: &Piece)
    requires room { length out.old.items + 16 ≤ vec_capacity out.old }
    ensures items { out.new.items ≡ out.old.items ++ piece_bytes piece.now }
    ensures capacity { vec_capacity out.old ≤ vec_capacity out.new }
{
    append_8(out, piece.file.number());
    append_4(out, piece.from);
    append_4(out, piece.len);
}

// Appends pieces as a change spells them.
fn append_pieces(out: &mut Vec<u8>, pieces: &Pieces)
    requires few { length pieces.now ≤ 4096 }
    requires room { length out.old.items + (2 + length (flat_map piece_bytes pieces.now)) ≤ vec_capacity out.old }
    ensures { out.new.items ≡ out.old.items ++ pieces_bytes pieces.now }
{
    append_2(out, pieces.count() as u16);
    for k in 0..pieces.count() {
        let Some(piece) = pieces.piece(k) else {
            return;
        };
        append_piece(out, &piece);
    }
}

// Appends the body of a rope of these pieces.
fn append_edit(out: &mut Vec<u8>, id: u64, pieces: &Pieces)
    requires few { length pieces.now ≤ 4096 }
    requires room { length out.old.items + length (spelling (changes.Edited id pieces.now)) ≤ vec_capacity out.old }
    ensures { out.new.items ≡ out.old.items ++ spelling (changes.Edited id pieces.now) }
{
    append_1(out, EDIT);
    append_8(out, id);
    append_pieces(out, pieces);
}

// Appends the body of a recording of these takes.
fn append_voice(out: &mut Vec<u8>, id: u64, tapes: &Tapes, takes: &[Take])
    requires within { HasTakes tapes.now takes.now }
    requires room { length out.old.items + length (body_spelling (Body.Voice id (bytes_taken tapes.now takes.now))) ≤ vec_capacity out.old }
    ensures { out.new.items ≡ out.old.items ++ body_spelling (Body.Voice id (bytes_taken tapes.now takes.now)) }
{
    append_1(out, VOICE);
    append_8(out, id);
    append_takes(out, tapes, takes);
}

// Appends the body of a change that is ready, of which a rope gets this number.
fn append_body(out: &mut Vec<u8>, tapes: &Tapes, id: u64, next: &Next)
    requires next { (own : Durable Tagged) × (spare : ℕ) × (effect : Effect Tagged) × IsNextOf own tapes.now spare next.now effect × (id ≡ own.next) }
    requires room { length out.old.items + body_size next.now ≤ vec_capacity out.old }
    ensures { (own : Durable Tagged) (spare : ℕ) (effect : Effect Tagged) → IsNextOf own tapes.now spare next.now effect → id ≡ own.next → out.new.items ≡ out.old.items ++ body_spelling (body_of_effect effect) }
{
    match next {
        Next::Edit(pieces) => append_edit(out, id, pieces),
        Next::Voice(_, takes) => append_voice(out, id, tapes, takes.as_slice()),
        Next::Other(ready) => append(out, ready.payload.as_slice()),
    }
}

/// Appends the packet of this number of a change that is ready, of which a rope gets the number `id`.
pub(crate) fn append_packet(out: &mut Vec<u8>, number: u64, tapes: &Tapes, id: u64, next: &Next)
    requires next { (own : Durable Tagged) × (spare : ℕ) × (effect : Effect Tagged) × IsNextOf own tapes.now spare next.now effect × (id ≡ own.next) }
    requires room { length out.old.items + (12 + body_size next.now) ≤ vec_capacity out.old }
    ensures { (own : Durable Tagged) (spare : ℕ) (effect : Effect Tagged) → IsNextOf own tapes.now spare next.now effect → id ≡ own.next → out.new.items ≡ out.old.items ++ packet_spelling (packet_of_effect number effect) }
{
    let size = next.body_size();
    append_8(out, number);
    append_4(out, size);
    append_body(out, tapes, id, next);
}
