//! Sums of bytes, by loops of different forms.

ghost use Rattle.std.specs.Prelude.{◌≤◌, ◌+◌, length};

use std::simd::prelude::*;

// So many bytes are summed in 32 bits before their sum goes to the others.
const CHUNK: usize = 1 << 16;

/// The sum of the bytes as they are.
pub fn plain_sum(bytes: &[u8]) -> u64 {
    let mut sum = 0u64;
    for byte in bytes {
        sum = sum.wrapping_add(u64::from(*byte));
    }
    sum
}

/// The same, in 32 bits for each 64 KiB.
pub fn short_sum(bytes: &[u8]) -> u64 {
    let mut sum = 0u64;
    for chunk in bytes.chunks(CHUNK) {
        let mut part = 0u32;
        for byte in chunk {
            part = part.wrapping_add(u32::from(*byte));
        }
        sum = sum.wrapping_add(u64::from(part));
    }
    sum
}

// Each lane is the sum of four bytes.
fn sums_of_four(v: u8x32) -> u32x8 {
    v.dot4(u8x32::splat(1))
}

// The same of the 32 bytes from a place on.
fn lanes_at(bytes: &[u8], at: usize) -> u32x8
    requires { at + 32 ≤ length bytes.now }
{
    sums_of_four(u8x32::from_slice(&bytes[at..]))
}

// The sum of whole lanes of a chunk, which are put together at its end.
fn chunk_sum(bytes: &[u8]) -> u32 {
    let mut sums = u32x8::splat(0);
    for k in 0..bytes.len() / 32 {
        sums = sums + lanes_at(bytes, 32 * k);
    }
    sums.reduce_sum()
}

/// The same in lanes of 32 bits, put together for each 64 KiB. Bytes behind the last whole 32 are left out.
pub fn lanes_sum(bytes: &[u8]) -> u64 {
    let mut sum = 0u64;
    for chunk in bytes.chunks(CHUNK) {
        sum = sum.wrapping_add(u64::from(chunk_sum(chunk)));
    }
    sum
}

// Two such rows of lanes side by side.
fn chunk_sum_by_rows(bytes: &[u8]) -> u32 {
    let mut even = u32x8::splat(0);
    let mut odd = u32x8::splat(0);
    for k in 0..bytes.len() / 64 {
        even = even + lanes_at(bytes, 64 * k);
        odd = odd + lanes_at(bytes, 64 * k + 32);
    }
    (even + odd).reduce_sum()
}

/// The same in two rows of lanes side by side. Bytes behind the last whole 64 are left out.
pub fn rows_sum(bytes: &[u8]) -> u64 {
    let mut sum = 0u64;
    for chunk in bytes.chunks(CHUNK) {
        sum = sum.wrapping_add(u64::from(chunk_sum_by_rows(chunk)));
    }
    sum
}
