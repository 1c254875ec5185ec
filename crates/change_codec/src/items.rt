//! Lists in a payload, item by item to its end.

ghost use Rattle.std.specs.Prelude.{◌≡◌, ◌+◌, ◌-◌, ◌/◌, ◌≤◌, ◌<◌, ◌^◌, min, ◌&&◌, ◌==◌, length, Some, None, IfOk, MatchResult, if◌then◌else◌};
ghost use Rattle.disk_areas.specs.Numbers.{number_at};
ghost use Rattle.change_codec.specs.Widths.{bytes_of};
ghost use Rattle.change_codec.specs.Refused.{part, pair_place, piece_place, key_place, piece_in, addresses_place, ids_place, pairs_place, pieces_place, run_place, past, keys_place, IsPlace};
ghost use Rattle.change_codec.specs.Said.{pair_in, key_in, address_values, id_values, pair_values, piece_values, run_values, key_values};

use super::appending::Width;
use super::errors::GetError;
use super::fields::{end_at, id_at, number_1, number_2, number_4, part_at};
use disk_areas::{read_2, read_4};
use std::alloc::Global;
use voice_model::{AddressList, Key, KeyList, Pair, PairList, PieceList, RopeList};
use voice_units::{Piece, RopeId};

/// The place of an item, and the least number that it may have.
#[derive(Clone, Copy)]
pub struct Rising {
    pub at: usize,
    pub least: u64,
}

/// The place of a piece, the file and the end of the piece before it, and how many samples came before it.
#[derive(Clone, Copy)]
pub struct Run {
    pub at: usize,
    pub file: u64,
    pub last: u64,
    pub sum: u64,
}

// How many bytes an address takes.
fn width_of(width: Width) -> usize
    ensures { result ≡ bytes_of width }
{
    match width {
        Width::Narrow => 2,
        Width::Wide => 4,
    }
}

// For how many items memory is taken: no more than the bytes from a place on can hold, each item having at least so many.
fn room(count: usize, bytes: &[u8], at: usize, width: usize) -> usize
    requires within { at ≤ length bytes.now }
    requires some { 0 < width }
    ensures { result ≡ min count ((length bytes.now - at) / width) }
{
    count.min((bytes.len() - at) / width)
}

// The address at a place.
fn address_at(bytes: &[u8], at: usize, width: Width) -> Result<u32, GetError>
    requires within { at ≤ length bytes.now }
    ensures place { MatchResult result (λ _. part at (bytes_of width) bytes.now ≡ None) (λ e. IsPlace (part at (bytes_of width) bytes.now) e) }
    ensures value { IfOk result (λ n. n ≡ number_at (bytes_of width) at bytes.now) }
    ensures within { IfOk result (λ _. at + bytes_of width ≤ length bytes.now) }
{
    match width {
        Width::Narrow => {
            part_at(bytes, at, 2)?;
            Ok(u32::from(read_2(bytes, at)))
        }
        Width::Wide => {
            part_at(bytes, at, 4)?;
            Ok(read_4(bytes, at))
        }
    }
}

// So many addresses from a place on, and nothing behind them.
pub fn addresses_at(
    alloc: Global,
    bytes: &[u8],
    start: usize,
    width: Width,
    count: u32,
) -> Result<AddressList, GetError>
    requires within { start ≤ length bytes.now }
    ensures place { MatchResult result
        (λ _. addresses_place (bytes_of width) count start bytes.now ≡ None)
        (λ e. IsPlace (addresses_place (bytes_of width) count start bytes.now) e) }
    ensures value { IfOk result (λ l. l ≡ address_values (bytes_of width) count start bytes.now) }
{
    let step = width_of(width);
    let Ok(mut items) = Vec::with_capacity(alloc, room(count as usize, bytes, start, step)) else {
        return Err(GetError::NoMemory);
    };
    let mut at = start;
    for _index in 0..count {
        let item = address_at(bytes, at, width)?;
        let Ok(()) = items.push(item) else {
            return Err(GetError::NoMemory);
        };
        at += step;
    }
    end_at(bytes, at)?;
    Ok(AddressList::of(items))
}

// So many numbers of ropes from a place on, and nothing behind them.
pub fn ids_at(alloc: Global, bytes: &[u8], start: usize, count: u16) -> Result<RopeList, GetError>
    requires within { start ≤ length bytes.now }
    ensures place { MatchResult result (λ _. ids_place count start bytes.now ≡ None) (λ e. IsPlace (ids_place count start bytes.now) e) }
    ensures value { IfOk result (λ l. l ≡ id_values count start bytes.now) }
{
    let Ok(mut items) = Vec::with_capacity(alloc, room(count as usize, bytes, start, 8)) else {
        return Err(GetError::NoMemory);
    };
    let mut rising = Rising {
        at: start,
        least: 1,
    };
    for _index in 0..count {
        let item = id_at(bytes, rising.at, rising.least)?;
        let Ok(()) = items.push(item) else {
            return Err(GetError::NoMemory);
        };
        rising = Rising {
            at: rising.at + 8,
            least: item.number() + 1,
        };
    }
    end_at(bytes, rising.at)?;
    Ok(RopeList::of(items))
}

// The pair at a place.
fn pair_at(bytes: &[u8], rising: Rising, width: Width) -> Result<Pair, GetError>
    requires within { rising.at ≤ length bytes.now }
    ensures place { MatchResult result (λ _. pair_place (bytes_of width) bytes.now rising ≡ None) (λ e. IsPlace (pair_place (bytes_of width) bytes.now rising) e) }
    ensures value { IfOk result (λ pair. pair ≡ pair_in (bytes_of width) bytes.now rising) }
    ensures within { IfOk result (λ _. rising.at + 4 + bytes_of width ≤ length bytes.now) }
{
    let index = number_4(bytes, rising.at, rising.least, 1 << 32)?;
    let address = address_at(bytes, rising.at + 4, width)?;
    Ok(Pair { index, address })
}

// So many pairs from a place on, and nothing behind them.
pub fn pairs_at(
    alloc: Global,
    bytes: &[u8],
    start: usize,
    width: Width,
    count: u32,
) -> Result<PairList, GetError>
    requires within { start ≤ length bytes.now }
    ensures place { MatchResult result
        (λ _. pairs_place (bytes_of width) count start bytes.now ≡ None)
        (λ e. IsPlace (pairs_place (bytes_of width) count start bytes.now) e) }
    ensures value { IfOk result (λ l. l ≡ pair_values (bytes_of width) count start bytes.now) }
{
    let step = width_of(width);
    let Ok(mut items) = Vec::with_capacity(alloc, room(count as usize, bytes, start, 4 + step))
    else {
        return Err(GetError::NoMemory);
    };
    let mut rising = Rising {
        at: start,
        least: 0,
    };
    for _index in 0..count {
        let item = pair_at(bytes, rising, width)?;
        let Ok(()) = items.push(item) else {
            return Err(GetError::NoMemory);
        };
        rising = Rising {
            at: rising.at + 4 + step,
            least: u64::from(item.index) + 1,
        };
    }
    end_at(bytes, rising.at)?;
    Ok(PairList::of(items))
}

// Tests that a piece does not go on where the one before it ended.
fn apart_at(run: Run, file: RopeId, from: u32) -> Result<(), GetError>
    requires { run.at < 2 ^ 63 }
    ensures { MatchResult result
        (λ _. (if (run.file == file) && (run.last == from) then Some (run.at + 8) else None) ≡ None)
        (λ e. IsPlace (if (run.file == file) && (run.last == from) then Some (run.at + 8) else None) e) }
{
    if run.file != file.number() {
        return Ok(());
    }
    if run.last != u64::from(from) {
        return Ok(());
    }
    Err(GetError::NotAChange(run.at as u64 + 8))
}

// The piece at a place.
fn piece_at(bytes: &[u8], run: Run) -> Result<Piece, GetError>
    requires within { run.at ≤ length bytes.now }
    requires small { run.sum ≤ 2 ^ 30 }
    ensures place { MatchResult result (λ _. piece_place bytes.now run ≡ None) (λ e. IsPlace (piece_place bytes.now run) e) }
    ensures value { IfOk result (λ piece. piece ≡ piece_in bytes.now run) }
    ensures within { IfOk result (λ _. run.at + 16 ≤ length bytes.now) }
    ensures small { IfOk result (λ piece. run.sum + piece.len ≤ 2 ^ 30) }
{
    let file = id_at(bytes, run.at, 1)?;
    part_at(bytes, run.at + 8, 4)?;
    let from = read_4(bytes, run.at + 8);
    apart_at(run, file, from)?;
    let most = (1u64 << 30).saturating_sub(u64::from(from).max(run.sum));
    let len = number_4(bytes, run.at + 12, 1, most)?;
    Ok(Piece { file, from, len })
}

// What a piece has to know of those before it, behind one more.
fn run_behind(run: Run, piece: &Piece) -> Run
    requires at { run.at < 2 ^ 63 }
    requires sum { run.sum + piece.now.len ≤ 2 ^ 30 }
    ensures { result ≡ past run piece.now }
{
    let from = u64::from(piece.from);
    let len = u64::from(piece.len);
    Run {
        at: run.at + 16,
        file: piece.file.number(),
        last: from + len,
        sum: run.sum + len,
    }
}

// So many pieces from a place on, and nothing behind them.
fn some_pieces_at(
    alloc: Global,
    bytes: &[u8],
    start: usize,
    count: u16,
) -> Result<PieceList, GetError>
    requires within { start ≤ length bytes.now }
    ensures place { MatchResult result (λ _. run_place count start bytes.now ≡ None) (λ e. IsPlace (run_place count start bytes.now) e) }
    ensures value { IfOk result (λ l. l ≡ run_values count start bytes.now) }
{
    let Ok(mut items) = Vec::with_capacity(alloc, room(count as usize, bytes, start, 16)) else {
        return Err(GetError::NoMemory);
    };
    let mut run = Run {
        at: start,
        file: 0,
        last: 0,
        sum: 0,
    };
    for _index in 0..count {
        let item = piece_at(bytes, run)?;
        run = run_behind(run, &item);
        let Ok(()) = items.push(item) else {
            return Err(GetError::NoMemory);
        };
    }
    end_at(bytes, run.at)?;
    Ok(PieceList::of(items))
}

// Pieces with their count in front, and nothing behind them.
pub fn pieces_at(alloc: Global, bytes: &[u8], start: usize) -> Result<PieceList, GetError>
    requires within { start ≤ length bytes.now }
    ensures place { MatchResult result (λ _. pieces_place start bytes.now ≡ None) (λ e. IsPlace (pieces_place start bytes.now) e) }
    ensures value { IfOk result (λ l. l ≡ piece_values start bytes.now) }
{
    let count = number_2(bytes, start, 0, 4096)?;
    some_pieces_at(alloc, bytes, start + 2, count)
}

// The key at a place, with its length in front.
pub fn key_at(bytes: &[u8], at: usize) -> Result<Key, GetError>
    requires within { at ≤ length bytes.now }
    ensures place { MatchResult result (λ _. key_place bytes.now at ≡ None) (λ e. IsPlace (key_place bytes.now at) e) }
    ensures value { IfOk result (λ key. key ≡ key_in bytes.now at) }
    ensures within { IfOk result (λ key. at + 1 + number_at 1 at bytes.now ≤ length bytes.now) }
    ensures size { IfOk result (λ key. length key ≡ number_at 1 at bytes.now) }
{
    let n = number_1(bytes, at, 1, 64)? as usize;
    part_at(bytes, at + 1, n)?;
    Ok(Key::new(&bytes[at + 1..at + 1 + n]).unwrap())
}

// So many keys from a place on, and nothing behind them.
pub fn keys_at(alloc: Global, bytes: &[u8], start: usize, count: u16) -> Result<KeyList, GetError>
    requires within { start ≤ length bytes.now }
    ensures place { MatchResult result (λ _. keys_place count start bytes.now ≡ None) (λ e. IsPlace (keys_place count start bytes.now) e) }
    ensures value { IfOk result (λ l. l ≡ key_values count start bytes.now) }
{
    let Ok(mut items) = Vec::with_capacity(alloc, room(count as usize, bytes, start, 2)) else {
        return Err(GetError::NoMemory);
    };
    let mut at = start;
    for _index in 0..count {
        let item = key_at(bytes, at)?;
        let len = item.bytes().len();
        let Ok(()) = items.push(item) else {
            return Err(GetError::NoMemory);
        };
        at += 1 + len;
    }
    end_at(bytes, at)?;
    Ok(KeyList::of(items))
}
