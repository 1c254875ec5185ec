//! The base of the tables, without numbers and under one number.

ghost use Rattle.std.specs.Prelude.{◌≡◌, ◌++◌, ◌∷◌, [], ℕ, map, IfOk, OnOk};
ghost use Rattle.disk_areas.specs.Numbers.{number_bytes};
ghost use Rattle.voice_model.specs.Spelling.{spelling};
ghost use Rattle.voice_model.specs.Replay.{Rebuilt, durable_by};
ghost use Rattle.voice_model.specs.Base.{base_of};
ghost use Rattle.voice_journal.specs.Readings.{framed_size};
ghost use Rattle.recovery.specs.Shown.{Rebuilds, plain_sample};
ghost use Rattle.checkpoint.specs.Size.{numbers_in};
ghost use Rattle.mirror_tables.specs.Numbered.{with_number, numbered_base_of, numbered_by_numbers, numbered_size, plain_size};

use checkpoint::compact_parts;
use disk_areas::{append, append_8};
use recovery::Parts;
use std::alloc::Global;
use voice_journal::Payloads;
use voice_units::NoMemory;

// The bytes that the base of form 2 takes as records, by the numbers that the tables keep.
fn plain_count(parts: &Parts) -> u128
    ensures { result ≡ plain_size parts.now }
{
    let files = 18 * u128::from(parts.ropes.live_files());
    let blocks = 8 * u128::from(parts.ropes.live_blocks());
    let ropes = 25 * parts.ropes.count() as u128 + 16 * u128::from(parts.ropes.live_pieces());
    let texts = u128::from(parts.interests.key_bytes()) + u128::from(parts.interests.note_bytes());
    let rows = 17 * u128::from(parts.interests.len()) + texts;
    22 + files + blocks + ropes + rows
}

// The same with 8 bytes more for the head, each file, each rope and each row.
fn numbered_count(parts: &Parts) -> u128
    ensures { result ≡ numbered_size parts.now }
{
    let files = 26 * u128::from(parts.ropes.live_files());
    let blocks = 8 * u128::from(parts.ropes.live_blocks());
    let ropes = 33 * parts.ropes.count() as u128 + 16 * u128::from(parts.ropes.live_pieces());
    let texts = u128::from(parts.interests.key_bytes()) + u128::from(parts.interests.note_bytes());
    let rows = 25 * u128::from(parts.interests.len()) + texts;
    30 + files + blocks + ropes + rows
}

/// The bytes that the base of form 2 takes as records; the tables count them.
pub fn plain_need(parts: &Parts) -> u128
    ensures numbers { result ≡ plain_size parts.now }
    ensures base { (b : Rebuilt) → Rebuilds parts.now b → result ≡ framed_size (map spelling (base_of 2 b)) }
{
    plain_count(parts)
}

/// The bytes that the numbered base of form 2 takes as records; the tables count them.
pub fn numbered_need(parts: &Parts) -> u128
    ensures numbers { result ≡ numbered_size parts.now }
    ensures base { (b : Rebuilt) (n : ℕ) → Rebuilds parts.now b → result ≡ framed_size (numbered_base_of n b) }
    // In the numbers of the durable part itself.
    ensures kept { (b : Rebuilt) → Rebuilds parts.now b → result ≡ numbered_by_numbers (numbers_in (durable_by plain_sample b.kept)) }
{
    numbered_count(parts)
}

// Puts a payload behind a number. A base whose size takes more than 64 bits counts as want of memory.
fn put_numbered(
    alloc: Global,
    number: u64,
    payload: &[u8],
    numbered: &mut Payloads,
) -> Result<(), NoMemory>
    ensures { OnOk result (numbered.new ≡ numbered.old ++ (number_bytes 8 number ++ payload.now) ∷ []) }
{
    let Some(len) = payload.len().checked_add(8) else {
        return Err(NoMemory);
    };
    let mut bytes = Vec::with_capacity(alloc, len)?;
    append_8(&mut bytes, number);
    append(&mut bytes, payload);
    let framed = 5 + bytes.len() as u64;
    if numbered.size() > u64::MAX - framed {
        return Err(NoMemory);
    }
    numbered.push(bytes)
}

// Puts each payload behind a number. A base of more than 2^32 - 1 records counts as want of memory.
fn with_number(alloc: Global, number: u64, base: &Payloads) -> Result<Payloads, NoMemory>
    ensures { IfOk result (λ numbered. numbered ≡ with_number number base.now) }
{
    let mut numbered = Payloads::new(alloc);
    let mut index = 0u32;
    while let Some(payload) = base.get(index) {
        put_numbered(alloc, number, payload, &mut numbered)?;
        let Some(next) = index.checked_add(1) else {
            return Err(NoMemory);
        };
        index = next;
    }
    Ok(numbered)
}

/// The base of the parts, each record behind one number.
pub fn numbered_base(alloc: Global, number: u64, parts: &Parts) -> Result<Payloads, NoMemory>
    requires { (b : Rebuilt) × Rebuilds parts.now b }
    ensures base { (b : Rebuilt) → Rebuilds parts.now b → IfOk result (λ base. base ≡ numbered_base_of number b) }
    ensures size { IfOk result (λ base. framed_size base ≡ numbered_size parts.now) }
{
    let base = compact_parts(alloc, 2, parts)?;
    with_number(alloc, number, &base)
}
