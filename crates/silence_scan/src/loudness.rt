//! The loudness of mu-law bytes, 32 at a time.

ghost use Rattle.std.specs.Prelude.{◌≡◌, ◌≤◌, ◌+◌, ◌%◌, ◌^◌, ℕ, length, map, slice_range, sum_by, max};
ghost use Rattle.std.specs.Simd.Lanes.{sum_l, zip2};
ghost use Rattle.voice_model.specs.Talk.{loud, peak};
ghost use Rattle.silence_scan.specs.Greatest.{greatest};

use std::simd::prelude::*;

// The samples of a whole window.
pub(crate) const WINDOW: usize = 160;

// So many samples are summed in lanes before these are put together.
const CHUNK: usize = 1 << 16;

fn loud_lanes(v: u8x32) -> u8x32
    ensures { result ≡ map loud v }
{
    u8x32::splat(127) - (v & u8x32::splat(127))
}

fn block_lanes(bytes: &[u8], at: usize) -> u8x32
    requires { at + 32 ≤ length bytes.now }
    ensures { result ≡ map loud (slice_range bytes.now at (at + 32)) }
{
    loud_lanes(u8x32::from_slice(&bytes[at..]))
}

// The loudness of 64 bytes, two in each lane.
fn pair_lanes(bytes: &[u8], at: usize) -> u8x32
    requires { at + 64 ≤ length bytes.now }
    ensures { sum_l result ≡ sum_by loud (slice_range bytes.now at (at + 64)) }
{
    let low = block_lanes(bytes, at);
    let high = block_lanes(bytes, at + 32);
    low.strict_add(high)
}

// Each lane of 32 bits gains the sum of four bytes.
fn add_lanes(sums: u32x8, v: u8x32) -> u32x8
    requires { sum_l sums ≤ 2 ^ 31 }
    ensures { sum_l result ≡ sum_l sums + sum_l v }
{
    sums.strict_add(v.dot4(u8x32::splat(1)))
}

// The lanes together.
fn reduced(sums: u32x8) -> u32
    requires { sum_l sums ≤ 2 ^ 31 }
    ensures { result ≡ sum_l sums }
{
    sums.strict_reduce_sum()
}

// The loudness of n bytes, a multiple of 32, from a place on: a sum in lanes, which are put together once.
fn blocks_loud(bytes: &[u8], at: usize, n: usize) -> u32
    requires whole { n % 32 ≡ 0 }
    requires short { n ≤ 2 ^ 16 }
    requires within { at + n ≤ length bytes.now }
    ensures { result ≡ sum_by loud (slice_range bytes.now at (at + n)) }
{
    let mut sums = u32x8::splat(0);
    let mut done = 0;
    'pairs: while n - done >= 64 {
        sums = add_lanes(sums, pair_lanes(bytes, at + done));
        done += 64;
    }
    'lanes: while done < n {
        sums = add_lanes(sums, block_lanes(bytes, at + done));
        done += 32;
    }
    reduced(sums)
}

fn byte_loud(b: u8) -> u8
    ensures { result ≡ loud b }
{
    127 - b % 128
}

/// The sum of the loudness of each byte. It takes no memory.
pub fn loud_sum(bytes: &[u8]) -> u64
    requires { length bytes.now ≤ 2 ^ 30 }
    ensures { result ≡ sum_by loud bytes.now }
{
    let mut total = 0u64;
    let mut at = 0;
    'chunks: while bytes.len() - at >= 32 {
        let n = ((bytes.len() - at) / 32 * 32).min(CHUNK);
        total += u64::from(blocks_loud(bytes, at, n));
        at += n;
    }
    'ends: while at < bytes.len() {
        total += u64::from(byte_loud(bytes[at]));
        at += 1;
    }
    total
}

fn max_lanes(a: u8x32, b: u8x32) -> u8x32
    ensures { result ≡ zip2 max a b }
{
    a.simd_max(b)
}

fn max_of_lanes(v: u8x32) -> u8
    ensures { result ≡ greatest v }
{
    let lanes = v.to_array();
    let mut most = 0u8;
    for x in &lanes {
        most = most.max(*x);
    }
    most
}

/// The greatest loudness of a byte, 0 to 127; 0 of none. It takes no memory.
pub fn peak(bytes: &[u8]) -> u8
    ensures { result ≡ peak bytes.now }
{
    let mut lanes = u8x32::splat(0);
    let mut at = 0;
    'whole: while bytes.len() - at >= 32 {
        lanes = max_lanes(lanes, block_lanes(bytes, at));
        at += 32;
    }
    let mut most = max_of_lanes(lanes);
    'ends: while at < bytes.len() {
        most = most.max(byte_loud(bytes[at]));
        at += 1;
    }
    most
}
