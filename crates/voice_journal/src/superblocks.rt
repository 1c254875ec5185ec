//! Reads and spells the superblock.

ghost use Rattle.std.specs.Prelude.{◌≡◌, ◌+◌, ◌≤◌, ◌<◌, ◌^◌, ◌++◌, length, take, replicate, cond, MatchResult, IfOk, ◌==◌};
ghost use Rattle.std.specs.List.{list_all};
ghost use Rattle.disk_areas.specs.Areas.{graces_in, superblock_end, superblock, graces_by_class};
ghost use Rattle.voice_journal.specs.Readings.{extent};
ghost use Rattle.voice_journal.specs.Parsed.{IsSuperblock, IsDamage};
ghost use Rattle.voice_journal.specs.Spelled.{AreSpellable};

use crate::spelling::put_at;
use disk_areas::{four_bytes, read_2, read_4, two_bytes};
use voice_units::{Graces, Shape};

const MAGIC: [u8; 8] = [86, 79, 73, 67, 68, 73, 83, 75];

// The graces of a superblock of that version.
fn read_graces(bytes: &[u8; 64], version: u32) -> Graces
    ensures { result ≡ graces_in version bytes.now }
{
    let common = read_4(bytes, 24);
    if version == 1 {
        return Graces {
            common,
            held: common,
            until: common,
            listed: common,
        };
    }
    Graces {
        common,
        held: read_4(bytes, 30),
        until: read_4(bytes, 34),
        listed: read_4(bytes, 38),
    }
}

// Where the fields of a superblock of that version end.
fn fields_end(version: u32) -> usize
    ensures value { result ≡ superblock_end version }
    ensures within { result ≤ 64 }
{
    if version == 1 { 30 } else { 42 }
}

fn is_zero(bytes: &[u8]) -> bool
    ensures { result ≡ list_all (λ b. b == 0) bytes.now }
{
    bytes.iter().all(|b| *b == 0)
}

// The shape that the first 64 bytes of a disk of that size spell, or the place of the damage.
pub fn read_superblock(bytes: &[u8; 64], size: u64) -> Result<Shape, u64>
    requires { 64 ≤ size }
    ensures value { MatchResult result (IsSuperblock bytes.now size) (IsDamage bytes.now size) }
    ensures fits { IfOk result (λ shape. extent shape ≤ size) }
{
    if &bytes[..8] != MAGIC.as_slice() {
        return Err(0);
    }
    let version = read_4(bytes, 8);
    if version != 1 && version != 2 {
        return Err(8);
    }
    let graces = read_graces(bytes, version);
    let lanes = u32::from(read_2(bytes, 28));
    let Ok(shape) = Shape::new(
        version,
        read_4(bytes, 12),
        read_4(bytes, 16),
        read_4(bytes, 20),
        graces,
        lanes,
        size,
    ) else {
        return Err(12);
    };
    let end = fields_end(version);
    if !is_zero(&bytes[end..]) {
        return Err(end as u64);
    }
    Ok(shape)
}

// The graces of the classes.
fn class_bytes(shape: &Shape) -> [u8; 12]
    ensures value { result ≡ graces_by_class shape.now }
    ensures spellable { shape.now.graces.common < 2 ^ 32 → AreSpellable shape.now.graces }
{
    let mut bytes = [0; 12];
    put_at(&mut bytes, 0, &four_bytes(shape.graces.held));
    put_at(&mut bytes, 4, &four_bytes(shape.graces.until));
    put_at(&mut bytes, 8, &four_bytes(shape.graces.listed));
    bytes
}

// What a superblock has behind its lanes.
fn end_bytes(shape: &Shape) -> [u8; 34]
    ensures value { result ≡ cond (shape.now.version == 1) (replicate 34 0) (graces_by_class shape.now ++ replicate 22 0) }
    ensures spellable { shape.now.graces.common < 2 ^ 32 → AreSpellable shape.now.graces }
{
    let mut bytes = [0; 34];
    let classes = class_bytes(shape);
    if shape.version == 1 {
        return bytes;
    }
    put_at(&mut bytes, 0, &classes);
    put_at(&mut bytes, 12, &[0; 22]);
    bytes
}

// Puts a superblock at the front.
pub fn put_superblock(bytes: &mut [u8], shape: &Shape)
    requires { 64 ≤ length bytes.old }
    ensures value { take 64 bytes.new ≡ superblock shape.now }
    ensures spellable { AreSpellable shape.now.graces }
{
    put_at(bytes, 0, &MAGIC);
    put_at(bytes, 8, &four_bytes(shape.version));
    put_at(bytes, 12, &four_bytes(shape.block));
    put_at(bytes, 16, &four_bytes(shape.blocks));
    put_at(bytes, 20, &four_bytes(shape.area));
    put_at(bytes, 24, &four_bytes(shape.graces.common));
    put_at(bytes, 28, &two_bytes(shape.lanes));
    put_at(bytes, 30, &end_bytes(shape));
}
