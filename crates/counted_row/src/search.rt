//! The place of a row's values that a test does not pass.

ghost use Rattle.std.specs.Prelude.{◌≡◌, ℕ, Bool, true, false, ◌+◌, ◌<◌, ◌≤◌, ◌^◌, [], length, take, slice_index_or, IfSome, IfNone};
ghost use Rattle.std.specs.Fn.{ComputesKey};
ghost use Rattle.std.specs.List.Sorted.{IsPartitionedBy, IsPartitionPoint};
ghost use Rattle.counted_row.specs.Row.{flat, IsDense, Stands, passing};

use crate::chunk::Chunk;
use crate::steps::Spot;

// How many values the chunks in front of one have, counted from the first chunk on.
fn count_before<T: Drop>(chunks: &Vec<Chunk<T>>, i: usize) -> usize
    requires within { i ≤ length chunks.now.items }
    requires few { length (flat chunks.now.items) < 2 ^ 63 }
    ensures { result ≡ length (flat (take i chunks.now.items)) }
{
    let mut count = 0;
    let mut j = 0;
    while j < i {
        count += chunks[j].len();
        j += 1;
    }
    count
}

// The same, counted from the last chunk on, where there are `len` values in all.
fn count_down<T: Drop>(chunks: &Vec<Chunk<T>>, len: usize, i: usize) -> usize
    requires within { i ≤ length chunks.now.items }
    requires len { len ≡ length (flat chunks.now.items) }
    ensures { result ≡ length (flat (take i chunks.now.items)) }
{
    let mut count = len;
    let mut j = chunks.len();
    'back: while j > i {
        j -= 1;
        count -= chunks[j].len();
    }
    count
}

// The same, counted from the nearer end.
fn start_of<T: Drop>(chunks: &Vec<Chunk<T>>, len: usize, i: usize) -> usize
    requires within { i ≤ length chunks.now.items }
    requires len { len ≡ length (flat chunks.now.items) }
    requires few { length (flat chunks.now.items) < 2 ^ 63 }
    ensures { result ≡ length (flat (take i chunks.now.items)) }
{
    if i < chunks.len() / 2 {
        return count_before(chunks, i);
    }
    count_down(chunks, len, i)
}

// Where the values end that pass a test: first over the chunks' first values, then inside one chunk. The place may be the end of the chunk.
fn end_of<T: Drop, P: FnMut(&T) -> bool>(chunks: &Vec<Chunk<T>>, mut pred: P) -> Spot
    requires callable { P.IsAlwaysCallable pred }
    requires dense { IsDense chunks.now.items }
    requires some { 0 < length chunks.now.items }
    ensures chunk { result.chunk < length chunks.now.items }
    ensures place { result.place ≤ length (slice_index_or chunks.now.items result.chunk []) }
    ensures partitioned { (p : T → Bool) → ComputesKey P.FnMut p pred → IsPartitionedBy p (flat chunks.now.items) → IsPartitionPoint (λ y. p y ≡ true) (λ y. p y ≡ false) (flat chunks.now.items) (length (flat (take result.chunk chunks.now.items)) + result.place) }
{
    let mut size = chunks.len();
    let mut base = 0;
    while size > 1 {
        let half = size / 2;
        let mid = base + half;
        size -= half;
        let Some(first) = chunks[mid].get(0) else {
            continue;
        };
        if pred(first) {
            base = mid;
        }
    }
    let place = chunks[base].tail(0).partition_point(pred);
    Spot { chunk: base, place }
}

/// How many of `len` values in front pass a test.
pub(crate) fn point_in<T: Drop, P: FnMut(&T) -> bool>(
    chunks: &Vec<Chunk<T>>,
    len: usize,
    pred: P,
) -> usize
    requires callable { P.IsAlwaysCallable pred }
    requires dense { IsDense chunks.now.items }
    requires len { len ≡ length (flat chunks.now.items) }
    requires few { length (flat chunks.now.items) < 2 ^ 63 }
    ensures bound { result ≤ length (flat chunks.now.items) }
    ensures partitioned { (p : T → Bool) → ComputesKey P.FnMut p pred → IsPartitionedBy p (flat chunks.now.items) → IsPartitionPoint (λ y. p y ≡ true) (λ y. p y ≡ false) (flat chunks.now.items) result }
{
    if chunks.len() == 0 {
        return 0;
    }
    let end = end_of(chunks, pred);
    start_of(chunks, len, end.chunk) + end.place
}

// The value at a place of a chunk, which is the next chunk's first one at the end of the chunk.
fn settled<T: Drop>(chunks: &Vec<Chunk<T>>, end: Spot) -> Option<Spot>
    requires dense { IsDense chunks.now.items }
    requires chunk { end.chunk < length chunks.now.items }
    requires place { end.place ≤ length (slice_index_or chunks.now.items end.chunk []) }
    ensures some { IfSome result (λ spot. Stands chunks.now.items spot.chunk spot.place (length (flat (take end.chunk chunks.now.items)) + end.place)) }
    ensures none { IfNone result (length (flat (take end.chunk chunks.now.items)) + end.place ≡ length (flat chunks.now.items)) }
{
    if end.place < chunks[end.chunk].len() {
        return Some(end);
    }
    let next = end.chunk + 1;
    if next >= chunks.len() {
        return None;
    }
    if chunks[next].len() == 0 {
        return None;
    }
    Some(Spot {
        chunk: next,
        place: 0,
    })
}

/// Where the first value stands that fails a test. It looks at the last value first, and no chunk's values are counted.
pub(crate) fn first_failing<T: Drop, P: FnMut(&T) -> bool>(
    chunks: &Vec<Chunk<T>>,
    mut pred: P,
) -> Option<Spot>
    requires callable { P.IsAlwaysCallable pred }
    requires dense { IsDense chunks.now.items }
    ensures stands { IfSome result (λ spot. Stands chunks.now.items spot.chunk spot.place (length (flat (take spot.chunk chunks.now.items)) + spot.place)) }
    ensures some { IfSome result (λ spot. (p : T → Bool) → ComputesKey P.FnMut p pred → IsPartitionedBy p (flat chunks.now.items) → length (flat (take spot.chunk chunks.now.items)) + spot.place ≡ passing p (flat chunks.now.items)) }
    ensures none { IfNone result ((p : T → Bool) → ComputesKey P.FnMut p pred → IsPartitionedBy p (flat chunks.now.items) → passing p (flat chunks.now.items) ≡ length (flat chunks.now.items)) }
{
    if chunks.len() == 0 {
        return None;
    }
    if let Some(last) = chunks[chunks.len() - 1].last() {
        if pred(last) {
            return None;
        }
    }
    settled(chunks, end_of(chunks, pred))
}
