//! Numbers in a payload, with their ranges.

ghost use Rattle.std.specs.Prelude.{◌≡◌, ◌⊎◌, ◌+◌, ◌<◌, ◌≤◌, ◌^◌, length, None, IfOk, MatchResult};
ghost use Rattle.disk_areas.specs.Numbers.{number_at};
ghost use Rattle.change_codec.specs.Refused.{number, part, behind, IsPlace};

use super::errors::GetError;
use disk_areas::{read_2, read_4, read_8};
use voice_units::{Moment, RopeId};

// The number in the byte at a place.
fn read_1(bytes: &[u8], at: usize) -> u8
    requires { at + 1 ≤ length bytes.now }
    ensures { result ≡ number_at 1 at bytes.now }
{
    bytes[at]
}

// Tests that n bytes stand from a place on.
#[tactic(auto, using(crate::proofs::Places::part_short, crate::proofs::Places::part_whole))]
pub fn part_at(bytes: &[u8], at: usize, n: usize) -> Result<(), GetError>
    requires within { at ≤ length bytes.now }
    requires few { n ≤ 256 }
    ensures place { MatchResult result (λ _. part at n bytes.now ≡ None) (λ e. IsPlace (part at n bytes.now) e) }
    ensures within { IfOk result (λ _. at + n ≤ length bytes.now) }
{
    if bytes.len() < at + n {
        return Err(GetError::NotAChange(bytes.len() as u64));
    }
    Ok(())
}

// Tests that nothing stands from a place on.
#[tactic(auto, using(crate::proofs::Places::some_behind, crate::proofs::Places::nothing_behind))]
pub fn end_at(bytes: &[u8], at: usize) -> Result<(), GetError>
    ensures place { MatchResult result (λ _. behind at bytes.now ≡ None) (λ e. IsPlace (behind at bytes.now) e) }
{
    if at < bytes.len() {
        return Err(GetError::NotAChange(at as u64));
    }
    Ok(())
}

// Tests that the number at a place lies in its range.
fn range_at(at: usize, n: u64, least: u64, most: u64) -> Result<(), GetError>
    ensures { MatchResult result (λ _. (least ≤ n) × (n ≤ most)) (λ e. (e ≡ GetError.NotAChange at) × ((n < least) ⊎ (most < n))) }
{
    if n < least {
        return Err(GetError::NotAChange(at as u64));
    }
    if n > most {
        return Err(GetError::NotAChange(at as u64));
    }
    Ok(())
}

// The number in the byte at a place.
#[tactic(auto, using(crate::proofs::Places::number_part, crate::proofs::Places::number_out, crate::proofs::Places::number_right))]
pub fn number_1(bytes: &[u8], at: usize, least: u8, most: u8) -> Result<u8, GetError>
    requires within { at ≤ length bytes.now }
    ensures place { MatchResult result (λ _. number at 1 least most bytes.now ≡ None) (λ e. IsPlace (number at 1 least most bytes.now) e) }
    ensures value { IfOk result (λ n. n ≡ number_at 1 at bytes.now) }
    ensures range { IfOk result (λ n. (least ≤ n) × (n ≤ most)) }
    ensures within { IfOk result (λ _. at + 1 ≤ length bytes.now) }
{
    part_at(bytes, at, 1)?;
    let n = read_1(bytes, at);
    range_at(at, u64::from(n), u64::from(least), u64::from(most))?;
    Ok(n)
}

// The number in the 2 bytes from a place on.
#[tactic(auto, using(crate::proofs::Places::number_part, crate::proofs::Places::number_out, crate::proofs::Places::number_right))]
pub fn number_2(bytes: &[u8], at: usize, least: u16, most: u32) -> Result<u16, GetError>
    requires within { at ≤ length bytes.now }
    ensures place { MatchResult result (λ _. number at 2 least most bytes.now ≡ None) (λ e. IsPlace (number at 2 least most bytes.now) e) }
    ensures value { IfOk result (λ n. n ≡ number_at 2 at bytes.now) }
    ensures range { IfOk result (λ n. (least ≤ n) × (n ≤ most)) }
    ensures within { IfOk result (λ _. at + 2 ≤ length bytes.now) }
{
    part_at(bytes, at, 2)?;
    let n = read_2(bytes, at);
    range_at(at, u64::from(n), u64::from(least), u64::from(most))?;
    Ok(n)
}

// The number in the 4 bytes from a place on.
#[tactic(auto, using(crate::proofs::Places::number_part, crate::proofs::Places::number_out, crate::proofs::Places::number_right))]
pub fn number_4(bytes: &[u8], at: usize, least: u64, most: u64) -> Result<u32, GetError>
    requires within { at ≤ length bytes.now }
    ensures place { MatchResult result (λ _. number at 4 least most bytes.now ≡ None) (λ e. IsPlace (number at 4 least most bytes.now) e) }
    ensures value { IfOk result (λ n. n ≡ number_at 4 at bytes.now) }
    ensures range { IfOk result (λ n. (least ≤ n) × (n ≤ most)) }
    ensures within { IfOk result (λ _. at + 4 ≤ length bytes.now) }
{
    part_at(bytes, at, 4)?;
    let n = read_4(bytes, at);
    range_at(at, u64::from(n), least, most)?;
    Ok(n)
}

// The number in the 8 bytes from a place on.
#[tactic(auto, using(crate::proofs::Places::number_part, crate::proofs::Places::number_out, crate::proofs::Places::number_right))]
pub fn number_8(bytes: &[u8], at: usize, least: u64, most: u64) -> Result<u64, GetError>
    requires within { at ≤ length bytes.now }
    ensures place { MatchResult result (λ _. number at 8 least most bytes.now ≡ None) (λ e. IsPlace (number at 8 least most bytes.now) e) }
    ensures value { IfOk result (λ n. n ≡ number_at 8 at bytes.now) }
    ensures range { IfOk result (λ n. (least ≤ n) × (n ≤ most)) }
    ensures within { IfOk result (λ _. at + 8 ≤ length bytes.now) }
{
    part_at(bytes, at, 8)?;
    let n = read_8(bytes, at);
    range_at(at, n, least, most)?;
    Ok(n)
}

// The number of a rope or of a voice file.
pub fn id_at(bytes: &[u8], at: usize, least: u64) -> Result<RopeId, GetError>
    requires within { at ≤ length bytes.now }
    ensures place { MatchResult result (λ _. number at 8 least (2 ^ 48) bytes.now ≡ None) (λ e. IsPlace (number at 8 least (2 ^ 48) bytes.now) e) }
    ensures value { IfOk result (λ id. id ≡ number_at 8 at bytes.now) }
    ensures within { IfOk result (λ _. at + 8 ≤ length bytes.now) }
{
    let n = number_8(bytes, at, least, 1 << 48)?;
    Ok(RopeId(n))
}

// A moment.
pub fn moment_at(bytes: &[u8], at: usize, least: u64) -> Result<Moment, GetError>
    requires within { at ≤ length bytes.now }
    ensures place { MatchResult result (λ _. number at 8 least (2 ^ 40) bytes.now ≡ None) (λ e. IsPlace (number at 8 least (2 ^ 40) bytes.now) e) }
    ensures value { IfOk result (λ moment. moment ≡ number_at 8 at bytes.now) }
    ensures within { IfOk result (λ _. at + 8 ≤ length bytes.now) }
{
    let n = number_8(bytes, at, least, 1 << 40)?;
    Ok(Moment(n))
}
