//! The fields of each kind of change.

ghost use Rattle.std.specs.Prelude.{◌≡◌, ◌+◌, ◌≤◌, ◌<◌, ◌==◌, true, IsTrue, length, cond, None, IfOk, MatchResult};
ghost use Rattle.voice_model.specs.State.{class_number};
ghost use Rattle.disk_areas.specs.Numbers.{number_at};
ghost use Rattle.voice_model.specs.Spelling.{class_of};
ghost use Rattle.change_codec.specs.Widths.{bytes_of};
ghost use Rattle.change_codec.specs.Refused.{number, note_part, recorded_place, edited_place, note_place, retained_place, forgotten_place, census_place, swept_place, advanced_place, base_place, file_place, rope_place, rope2_place, IsPlace};
ghost use Rattle.change_codec.specs.Said.{key_in, recorded_in, edited_in, retained_in, forgotten_in, census_in, swept_in, advanced_in, base_in, base2_in, file_in, rope_in, rope2_in};

use super::appending::Width;
use super::errors::GetError;
use super::fields::{end_at, id_at, moment_at, number_1, number_2, number_4, number_8, part_at};
use super::items::{addresses_at, ids_at, key_at, keys_at, pairs_at, pieces_at};
use disk_areas::{read_2, read_4};
use std::alloc::Global;
use voice_model::{Change, Class, Note};

// A recording.
pub fn recorded(alloc: Global, bytes: &[u8], width: Width) -> Result<Change, GetError>
    requires kind { 1 ≤ length bytes.now }
    ensures place { MatchResult result (λ _. recorded_place (bytes_of width) bytes.now ≡ None) (λ e. IsPlace (recorded_place (bytes_of width) bytes.now) e) }
    ensures value { IfOk result (λ c. c ≡ recorded_in width bytes.now) }
{
    let id = id_at(bytes, 1, 1)?;
    let len = number_4(bytes, 9, 0, 1 << 30)?;
    part_at(bytes, 13, 4)?;
    let count = read_4(bytes, 13);
    let addresses = addresses_at(alloc, bytes, 17, width, count)?;
    match width {
        Width::Narrow => Ok(Change::Recorded(id, len, addresses)),
        Width::Wide => Ok(Change::Wide(id, len, addresses)),
    }
}

// An edit.
pub fn edited(alloc: Global, bytes: &[u8]) -> Result<Change, GetError>
    requires kind { 1 ≤ length bytes.now }
    ensures place { MatchResult result (λ _. edited_place bytes.now ≡ None) (λ e. IsPlace (edited_place bytes.now) e) }
    ensures value { IfOk result (λ c. c ≡ edited_in bytes.now) }
{
    let id = id_at(bytes, 1, 1)?;
    let pieces = pieces_at(alloc, bytes, 9)?;
    Ok(Change::Edited(id, pieces))
}

// The class of a row.
fn class_at(bytes: &[u8]) -> Result<Class, GetError>
    requires kind { 1 ≤ length bytes.now }
    ensures place { MatchResult result (λ _. number 1 1 1 3 bytes.now ≡ None) (λ e. IsPlace (number 1 1 1 3 bytes.now) e) }
    ensures value { IfOk result (λ class. class ≡ class_of (number_at 1 1 bytes.now)) }
    ensures within { IfOk result (λ _. 2 ≤ length bytes.now) }
{
    let n = number_1(bytes, 1, 1, 3)?;
    if n == 1 {
        return Ok(Class::Held);
    }
    if n == 2 {
        return Ok(Class::Until);
    }
    Ok(Class::Listed)
}

// Tests the bytes of a note.
fn note_part_at(bytes: &[u8], at: usize, until: bool, n: usize) -> Result<(), GetError>
    requires within { at ≤ length bytes.now }
    requires few { n ≤ 256 }
    requires until_few { IsTrue until → n ≡ 8 }
    ensures place { MatchResult result (λ _. note_part until at n bytes.now ≡ None) (λ e. IsPlace (note_part until at n bytes.now) e) }
    ensures within { IfOk result (λ _. at + n ≤ length bytes.now) }
{
    if until {
        moment_at(bytes, at, 0)?;
        return Ok(());
    }
    part_at(bytes, at, n)
}

// How many bytes a note has, at its length byte.
fn note_len_at(bytes: &[u8], at: usize, until: bool) -> Result<u8, GetError>
    requires within { at ≤ length bytes.now }
    ensures place { MatchResult result
        (λ _. number at 1 (cond until 8 0) (cond until 8 128) bytes.now ≡ None)
        (λ e. IsPlace (number at 1 (cond until 8 0) (cond until 8 128) bytes.now) e) }
    ensures value { IfOk result (λ n. n ≡ number_at 1 at bytes.now) }
    ensures most { IfOk result (λ n. n ≤ 128) }
    ensures until { IfOk result (λ n. IsTrue until → n ≡ 8) }
    ensures within { IfOk result (λ _. at + 1 ≤ length bytes.now) }
{
    if until {
        return number_1(bytes, at, 8, 8);
    }
    number_1(bytes, at, 0, 128)
}

// A note with its length in front, and nothing behind it.
fn note_at(bytes: &[u8], at: usize, until: bool) -> Result<Note, GetError>
    requires within { at ≤ length bytes.now }
    ensures place { MatchResult result (λ _. note_place until at bytes.now ≡ None) (λ e. IsPlace (note_place until at bytes.now) e) }
    ensures value { IfOk result (λ note. note ≡ key_in bytes.now at) }
{
    let n = note_len_at(bytes, at, until)? as usize;
    note_part_at(bytes, at + 1, until, n)?;
    end_at(bytes, at + 1 + n)?;
    Ok(Note::new(&bytes[at + 1..at + 1 + n]).unwrap())
}

// Whether a class is until.
fn is_until(class: Class) -> bool
    ensures { result ≡ (class_number class == 2) }
{
    match class {
        Class::Until => true,
        Class::Held => false,
        Class::Listed => false,
    }
}

// An interest that comes.
pub fn retained(bytes: &[u8]) -> Result<Change, GetError>
    requires kind { 1 ≤ length bytes.now }
    ensures place { MatchResult result (λ _. retained_place bytes.now ≡ None) (λ e. IsPlace (retained_place bytes.now) e) }
    ensures value { IfOk result (λ c. c ≡ retained_in bytes.now) }
{
    let class = class_at(bytes)?;
    let key = key_at(bytes, 2)?;
    let n = key.bytes().len();
    let id = id_at(bytes, 3 + n, 1)?;
    let note = note_at(bytes, 11 + n, is_until(class))?;
    Ok(Change::Retained(class, key, id, note))
}

// An interest that goes.
pub fn forgotten(bytes: &[u8]) -> Result<Change, GetError>
    requires kind { 1 ≤ length bytes.now }
    ensures place { MatchResult result (λ _. forgotten_place bytes.now ≡ None) (λ e. IsPlace (forgotten_place bytes.now) e) }
    ensures value { IfOk result (λ c. c ≡ forgotten_in bytes.now) }
{
    let class = class_at(bytes)?;
    let key = key_at(bytes, 2)?;
    end_at(bytes, 3 + key.bytes().len())?;
    Ok(Change::Forgotten(class, key))
}

// A census.
pub fn census(alloc: Global, bytes: &[u8]) -> Result<Change, GetError>
    requires kind { 1 ≤ length bytes.now }
    ensures place { MatchResult result (λ _. census_place bytes.now ≡ None) (λ e. IsPlace (census_place bytes.now) e) }
    ensures value { IfOk result (λ c. c ≡ census_in bytes.now) }
{
    let count = number_2(bytes, 1, 1, 1 << 16)?;
    let keys = keys_at(alloc, bytes, 3, count)?;
    Ok(Change::Census(keys))
}

// A sweep.
pub fn swept(alloc: Global, bytes: &[u8]) -> Result<Change, GetError>
    requires kind { 1 ≤ length bytes.now }
    ensures place { MatchResult result (λ _. swept_place bytes.now ≡ None) (λ e. IsPlace (swept_place bytes.now) e) }
    ensures value { IfOk result (λ c. c ≡ swept_in bytes.now) }
{
    part_at(bytes, 1, 2)?;
    let count = read_2(bytes, 1);
    let ids = ids_at(alloc, bytes, 3, count)?;
    Ok(Change::Swept(ids))
}

// A moment that comes.
pub fn advanced(bytes: &[u8]) -> Result<Change, GetError>
    requires kind { 1 ≤ length bytes.now }
    ensures place { MatchResult result (λ _. advanced_place bytes.now ≡ None) (λ e. IsPlace (advanced_place bytes.now) e) }
    ensures value { IfOk result (λ c. c ≡ advanced_in bytes.now) }
{
    let moment = moment_at(bytes, 1, 1)?;
    end_at(bytes, 9)?;
    Ok(Change::Advanced(moment))
}

// The head of a base in form 1.
pub fn base(bytes: &[u8]) -> Result<Change, GetError>
    requires kind { 1 ≤ length bytes.now }
    ensures place { MatchResult result (λ _. base_place bytes.now ≡ None) (λ e. IsPlace (base_place bytes.now) e) }
    ensures value { IfOk result (λ c. c ≡ base_in bytes.now) }
{
    let now = moment_at(bytes, 1, 0)?;
    let next = number_8(bytes, 9, 1, (1 << 48) + 1)?;
    end_at(bytes, 17)?;
    Ok(Change::Base(now, next))
}

// The head of a base in form 2.
pub fn base2(bytes: &[u8]) -> Result<Change, GetError>
    requires kind { 1 ≤ length bytes.now }
    ensures place { MatchResult result (λ _. base_place bytes.now ≡ None) (λ e. IsPlace (base_place bytes.now) e) }
    ensures value { IfOk result (λ c. c ≡ base2_in bytes.now) }
{
    let now = moment_at(bytes, 1, 0)?;
    let next = number_8(bytes, 9, 1, (1 << 48) + 1)?;
    end_at(bytes, 17)?;
    Ok(Change::Base2(now, next))
}

// The blocks of a file.
pub fn file(alloc: Global, bytes: &[u8], width: Width) -> Result<Change, GetError>
    requires kind { 1 ≤ length bytes.now }
    ensures place { MatchResult result (λ _. file_place (bytes_of width) bytes.now ≡ None) (λ e. IsPlace (file_place (bytes_of width) bytes.now) e) }
    ensures value { IfOk result (λ c. c ≡ file_in width bytes.now) }
{
    let file = id_at(bytes, 1, 1)?;
    let count = number_4(bytes, 9, 1, 1 << 32)?;
    let pairs = pairs_at(alloc, bytes, 13, width, count)?;
    match width {
        Width::Narrow => Ok(Change::File(file, pairs)),
        Width::Wide => Ok(Change::File2(file, pairs)),
    }
}

// A rope of a base in form 1.
pub fn rope(alloc: Global, bytes: &[u8]) -> Result<Change, GetError>
    requires kind { 1 ≤ length bytes.now }
    ensures place { MatchResult result (λ _. rope_place bytes.now ≡ None) (λ e. IsPlace (rope_place bytes.now) e) }
    ensures value { IfOk result (λ c. c ≡ rope_in bytes.now) }
{
    let id = id_at(bytes, 1, 1)?;
    let idle = moment_at(bytes, 9, 0)?;
    let pieces = pieces_at(alloc, bytes, 17)?;
    Ok(Change::Rope(id, idle, pieces))
}

// A rope of a base in form 2.
pub fn rope2(alloc: Global, bytes: &[u8]) -> Result<Change, GetError>
    requires kind { 1 ≤ length bytes.now }
    ensures place { MatchResult result (λ _. rope2_place bytes.now ≡ None) (λ e. IsPlace (rope2_place bytes.now) e) }
    ensures value { IfOk result (λ c. c ≡ rope2_in bytes.now) }
{
    let id = id_at(bytes, 1, 1)?;
    let idle = moment_at(bytes, 9, 0)?;
    let last = number_1(bytes, 17, 0, 3)?;
    let pieces = pieces_at(alloc, bytes, 18)?;
    Ok(Change::Rope2(id, idle, last, pieces))
}
