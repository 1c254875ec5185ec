//! The bytes that are written to an area.

ghost use Rattle.std.specs.Prelude.{◌≡◌, ◌+◌, ◌≤◌, ◌<◌, ◌^◌, ◌++◌, ◌∷◌, [], length, take};
ghost use Rattle.voice_journal.specs.Readings.{frame, frames, framed_size, views};
ghost use Rattle.voice_journal.specs.Spelled.{area_bytes};

use crate::lists::Payloads;
use disk_areas::{eight_bytes, four_bytes};

// Puts bytes over those that are there.
pub fn put_at(bytes: &mut [u8], at: usize, from: &[u8])
    requires { at + length from.now ≤ length bytes.old }
    ensures { take (at + length from.now) bytes.new ≡ take at bytes.old ++ from.now }
{
    let end = at + from.len();
    bytes[at..end].copy_from_slice(from);
}

// Puts a record's length and payload at a place, and a closed gate behind them.
pub fn put_frame(room: &mut [u8], payload: &[u8])
    requires room { length payload.now + 5 ≤ length room.old }
    requires small { length payload.now < 2 ^ 32 }
    ensures { take (length payload.now + 5) room.new ≡ frame payload.now }
{
    let len = payload.len();
    put_at(room, 0, &four_bytes(len as u32));
    put_at(room, 4, payload);
    put_at(room, 4 + len, &[0]);
}

// Puts a record with its gate open at a place.
fn put_record(room: &mut [u8], at: usize, payload: &[u8])
    requires room { at + 5 + length payload.now ≤ length room.old }
    requires small { length payload.now < 2 ^ 32 }
    ensures { take (at + 5 + length payload.now) room.new ≡ take at room.old ++ frames (payload.now ∷ []) }
{
    let len = payload.len();
    put_at(room, at, &[1]);
    put_at(room, at + 1, &four_bytes(len as u32));
    put_at(room, at + 5, payload);
}

// Puts records with their gates open from a place on, and gives the place behind them.
fn put_records(room: &mut [u8], from: usize, payloads: &[Vec<u8>]) -> usize
    requires room { from + framed_size (views payloads.now) ≤ length room.old }
    requires small { length room.old ≤ 2 ^ 24 }
    ensures value { result ≡ from + framed_size (views payloads.now) }
    ensures written { take (from + framed_size (views payloads.now)) room.new ≡ take from room.old ++ frames (views payloads.now) }
{
    let mut at = from;
    for payload in payloads {
        put_record(room, at, payload);
        at += 5 + payload.len();
    }
    at
}

// Puts what stands in an area behind its head's gate, and gives the offset in the area of the gate behind the records.
pub fn put_area(room: &mut [u8], epoch: u64, payloads: &Payloads) -> usize
    requires room { 16 + framed_size payloads.now < length room.old }
    requires small { length room.old ≤ 2 ^ 24 }
    ensures value { result ≡ 16 + framed_size payloads.now }
    ensures written { take (16 + framed_size payloads.now) room.new ≡ area_bytes epoch payloads.now }
{
    put_at(room, 0, &[0; 7]);
    put_at(room, 7, &eight_bytes(epoch));
    let end = put_records(room, 15, payloads.items());
    put_at(room, end, &[0]);
    end + 1
}
