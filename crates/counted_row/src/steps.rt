//! Steps over the chunks of a row: each keeps the values and how many chunks there are.

ghost use Rattle.std.specs.Prelude.{◌≡◌, ℕ, List, ◌+◌, ◌^◌, ◌<◌, ◌≤◌, [], ◌∷◌, ◌++◌, length, take, slice_get, slice_set, slice_index_or, insert, remove, option_copied, IfSome, IfNone, IfOk, OnOk, OnErr, IsOk};
ghost use Rattle.std.specs.Vec.{vec_capacity};
ghost use Rattle.counted_row.specs.Row.{flat, IsDense, AreEmpty, Stands, IsChanged};

use crate::chunk::{CHUNK, Chunk, HALF};
use std::alloc::AllocError;

/// Where a value stands: in which chunk, and where in it.
#[derive(Drop)]
pub(crate) struct Spot {
    pub(crate) chunk: usize,
    pub(crate) place: usize,
}

// Where the k-th value stands, looked for from the first chunk on.
fn spot_from_front<T: Drop>(chunks: &Vec<Chunk<T>>, k: usize) -> Option<Spot>
    ensures some { IfSome result (λ spot. Stands chunks.now.items spot.chunk spot.place k) }
    ensures none { IfNone result (length (flat chunks.now.items) ≤ k) }
{
    let mut rest = k;
    for (i, chunk) in chunks.iter().enumerate() {
        let count = chunk.len();
        if rest < count {
            return Some(Spot {
                chunk: i,
                place: rest,
            });
        }
        rest -= count;
    }
    None
}

// The same from the last chunk on, where there are `len` values in all.
fn spot_from_end<T: Drop>(chunks: &Vec<Chunk<T>>, len: usize, k: usize) -> Option<Spot>
    requires { len ≡ length (flat chunks.now.items) }
    ensures some { IfSome result (λ spot. Stands chunks.now.items spot.chunk spot.place k) }
    ensures none { IfNone result (length (flat chunks.now.items) ≤ k) }
{
    if k >= len {
        return None;
    }
    let mut start = len;
    let mut i = chunks.len();
    'back: while i > 0 {
        i -= 1;
        start -= chunks[i].len();
        if start <= k {
            return Some(Spot {
                chunk: i,
                place: k - start,
            });
        }
    }
    None
}

/// Where the k-th of `len` values stands. It looks at half the chunks at most.
pub(crate) fn spot_of<T: Drop>(chunks: &Vec<Chunk<T>>, len: usize, k: usize) -> Option<Spot>
    requires { len ≡ length (flat chunks.now.items) }
    ensures some { IfSome result (λ spot. Stands chunks.now.items spot.chunk spot.place k) }
    ensures none { IfNone result (length (flat chunks.now.items) ≤ k) }
{
    if k < len / 2 {
        return spot_from_front(chunks, k);
    }
    spot_from_end(chunks, len, k)
}

/// Puts a value into a chunk that is not full.
pub(crate) fn put_in<T: Drop>(chunks: &mut Vec<Chunk<T>>, i: usize, place: usize, value: T)
    requires chunk { i < length chunks.old.items }
    requires within { place ≤ length (slice_index_or chunks.old.items i []) }
    requires room { length (slice_index_or chunks.old.items i []) < 256 }
    ensures chunks { chunks.new.items ≡ slice_set chunks.old.items i (insert (slice_index_or chunks.old.items i []) place value) }
    ensures room { vec_capacity chunks.new ≡ vec_capacity chunks.old }
{
    chunks[i].insert(place, value);
}

/// Puts a value last in a chunk that is not full.
pub(crate) fn push_in<T: Drop>(chunks: &mut Vec<Chunk<T>>, i: usize, value: T)
    requires chunk { i < length chunks.old.items }
    requires room { length (slice_index_or chunks.old.items i []) < 256 }
    ensures chunks { chunks.new.items ≡ slice_set chunks.old.items i (slice_index_or chunks.old.items i [] ++ value ∷ []) }
    ensures room { vec_capacity chunks.new ≡ vec_capacity chunks.old }
{
    chunks[i].push(value);
}

/// Takes a value out of a chunk.
pub(crate) fn take_out<T: Drop>(chunks: &mut Vec<Chunk<T>>, i: usize, place: usize) -> T
    requires chunk { i < length chunks.old.items }
    requires within { place < length (slice_index_or chunks.old.items i []) }
    ensures value { slice_get (slice_index_or chunks.old.items i []) place ≡ Some result }
    ensures chunks { chunks.new.items ≡ slice_set chunks.old.items i (remove (slice_index_or chunks.old.items i []) place) }
    ensures room { vec_capacity chunks.new ≡ vec_capacity chunks.old }
{
    chunks[i].remove(place)
}

/// Puts a value in the place of one of a chunk.
pub(crate) fn exchange<T: Drop>(chunks: &mut Vec<Chunk<T>>, i: usize, place: usize, value: T) -> T
    requires chunk { i < length chunks.old.items }
    requires within { place < length (slice_index_or chunks.old.items i []) }
    ensures value { slice_get (slice_index_or chunks.old.items i []) place ≡ Some result }
    ensures chunks { chunks.new.items ≡ slice_set chunks.old.items i (slice_set (slice_index_or chunks.old.items i []) place value) }
    ensures room { vec_capacity chunks.new ≡ vec_capacity chunks.old }
{
    chunks[i].replace(place, value)
}

/// Changes a value of a chunk where it stands.
pub(crate) fn change_in<T: Drop, R, F: FnOnce(&mut T) -> R>(
    chunks: &mut Vec<Chunk<T>>,
    i: usize,
    place: usize,
    change: F,
) -> R
    requires chunk { i < length chunks.old.items }
    requires within { place < length (slice_index_or chunks.old.items i []) }
    requires callable { F.IsAlwaysCallable change }
    ensures chunks { (values : List T) × IsChanged F.FnOnce change (slice_index_or chunks.old.items i []) values place result × (chunks.new.items ≡ slice_set chunks.old.items i values) }
    ensures room { vec_capacity chunks.new ≡ vec_capacity chunks.old }
{
    chunks[i].change(place, change)
}

/// Splits a full chunk, with an empty one from the stock.
pub(crate) fn split_at<T: Drop>(chunks: &mut Vec<Chunk<T>>, stock: &mut Vec<Chunk<T>>, i: usize)
    requires chunk { i < length chunks.old.items }
    requires long { length (slice_index_or chunks.old.items i []) ≡ 256 }
    requires stock { 0 < length stock.old.items }
    requires empty { AreEmpty stock.old.items }
    requires room { length chunks.old.items < vec_capacity chunks.old }
    ensures chunks { (lower upper : List T) × (lower ++ upper ≡ slice_index_or chunks.old.items i []) × (length lower ≡ 128) × (chunks.new.items ≡ insert (slice_set chunks.old.items i lower) (i + 1) upper) }
    ensures room { vec_capacity chunks.old ≤ vec_capacity chunks.new }
    ensures stock { stock.old.items ≡ stock.new.items ++ [] ∷ [] }
    ensures empty { AreEmpty stock.new.items }
    ensures stock_room { vec_capacity stock.new ≡ vec_capacity stock.old }
{
    let Some(mut upper) = stock.pop() else {
        return;
    };
    chunks[i].split(&mut upper);
    let _inserted = chunks.insert(i + 1, upper);
}

/// Moves the first value of the next chunk to the end of a chunk.
pub(crate) fn borrow_at<T: Drop>(chunks: &mut Vec<Chunk<T>>, i: usize)
    requires next { i + 1 < length chunks.old.items }
    requires long { 0 < length (slice_index_or chunks.old.items (i + 1) []) }
    requires short { length (slice_index_or chunks.old.items i []) < 256 }
    ensures chunks { (value : T) × (slice_get (slice_index_or chunks.old.items (i + 1) []) 0 ≡ Some value) × (chunks.new.items ≡ slice_set (slice_set chunks.old.items (i + 1) (remove (slice_index_or chunks.old.items (i + 1) []) 0)) i (slice_index_or chunks.old.items i [] ++ value ∷ [])) }
    ensures room { vec_capacity chunks.new ≡ vec_capacity chunks.old }
{
    let value = chunks[i + 1].remove(0);
    chunks[i].push(value);
}

/// Moves all of the next chunk to the end of a chunk, and puts the empty one into the stock.
pub(crate) fn merge_at<T: Drop>(chunks: &mut Vec<Chunk<T>>, stock: &mut Vec<Chunk<T>>, i: usize)
    requires next { i + 1 < length chunks.old.items }
    requires short { length (slice_index_or chunks.old.items i []) + length (slice_index_or chunks.old.items (i + 1) []) ≤ 256 }
    requires room { length stock.old.items < vec_capacity stock.old }
    ensures chunks { chunks.new.items ≡ slice_set (remove chunks.old.items (i + 1)) i (slice_index_or chunks.old.items i [] ++ slice_index_or chunks.old.items (i + 1) []) }
    ensures room { vec_capacity chunks.new ≡ vec_capacity chunks.old }
    ensures stock { stock.new.items ≡ stock.old.items ++ [] ∷ [] }
    ensures stock_room { vec_capacity stock.old ≤ vec_capacity stock.new }
{
    let mut next = chunks.remove(i + 1);
    chunks[i].append(&mut next);
    let _pushed = stock.push(next);
}

// Puts a chunk last, where there is room.
fn put_behind<T: Drop>(chunks: &mut Vec<Chunk<T>>, chunk: Chunk<T>)
    requires { length chunks.old.items < vec_capacity chunks.old }
    ensures chunks { chunks.new.items ≡ chunks.old.items ++ chunk ∷ [] }
    ensures room { vec_capacity chunks.old ≤ vec_capacity chunks.new }
{
    let _pushed = chunks.push(chunk);
}

/// Puts an empty chunk last, from the stock.
pub(crate) fn open_last<T: Drop>(chunks: &mut Vec<Chunk<T>>, stock: &mut Vec<Chunk<T>>)
    requires stock { 0 < length stock.old.items }
    requires empty { AreEmpty stock.old.items }
    requires room { length chunks.old.items < vec_capacity chunks.old }
    ensures chunks { chunks.new.items ≡ chunks.old.items ++ [] ∷ [] }
    ensures room { vec_capacity chunks.old ≤ vec_capacity chunks.new }
    ensures stock { stock.old.items ≡ stock.new.items ++ [] ∷ [] }
    ensures empty { AreEmpty stock.new.items }
    ensures stock_room { vec_capacity stock.new ≡ vec_capacity stock.old }
{
    let Some(chunk) = stock.pop() else {
        return;
    };
    put_behind(chunks, chunk);
}

// One more empty chunk, and room for the stock beside so many others.
fn add_empty<T: Drop>(stock: &mut Vec<Chunk<T>>, others: usize) -> Result<(), AllocError>
    requires { others < 2 ^ 62 }
    ensures ok { OnOk result (stock.new.items ≡ stock.old.items ++ [] ∷ []) }
    ensures err { OnErr result (stock.new.items ≡ stock.old.items) }
    ensures room { OnOk result (others + length stock.new.items ≤ vec_capacity stock.new) }
    ensures kept { vec_capacity stock.old ≤ vec_capacity stock.new }
{
    let Ok(()) = stock.reserve(others + 1) else {
        return Err(AllocError);
    };
    let Ok(chunk) = Chunk::new(*stock.allocator()) else {
        return Err(AllocError);
    };
    put_behind(stock, chunk);
    Ok(())
}

/// Fills the stock until there are so many chunks in all, each list with room for all of them.
pub(crate) fn fill_stock<T: Drop>(
    chunks: &mut Vec<Chunk<T>>,
    stock: &mut Vec<Chunk<T>>,
    total: usize,
) -> Result<(), AllocError>
    requires empty { AreEmpty stock.old.items }
    requires chunks_fit { length chunks.old.items + length stock.old.items ≤ vec_capacity chunks.old }
    requires stock_fits { length chunks.old.items + length stock.old.items ≤ vec_capacity stock.old }
    requires small { total < 2 ^ 62 }
    ensures chunks { chunks.new.items ≡ chunks.old.items }
    ensures empty { AreEmpty stock.new.items }
    ensures ok { OnOk result (total ≤ length chunks.new.items + length stock.new.items) }
    ensures kept { length stock.old.items ≤ length stock.new.items }
    ensures room { total ≤ length chunks.old.items + length stock.old.items → IsOk result }
    ensures chunks_fit { length chunks.new.items + length stock.new.items ≤ vec_capacity chunks.new }
    ensures stock_fits { length chunks.new.items + length stock.new.items ≤ vec_capacity stock.new }
{
    let count = chunks.len();
    if total <= count {
        return Ok(());
    }
    let wanted = total - count;
    if wanted <= stock.len() {
        return Ok(());
    }
    chunks.reserve(wanted)?;
    while stock.len() < wanted {
        let Ok(()) = add_empty(stock, count) else {
            return Err(AllocError);
        };
    }
    Ok(())
}
