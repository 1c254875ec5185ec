//! The row, and how its chunks are kept half full.

ghost use Rattle.std.specs.Prelude.{◌≡◌, ℕ, List, ◌+◌, ◌-◌, ◌*◌, ◌^◌, ◌<◌, ◌≤◌, [], ◌∷◌, ◌++◌, length, take, drop, slice_get, slice_set, slice_index_or, insert, remove, option_copied, IfSome, OnSome, IfNone, IfOk, OnOk, OnErr, IsOk, Some, min};
ghost use Rattle.std.specs.Prelude.{Bool, true, false};
ghost use Rattle.std.specs.Fn.{ComputesKey};
ghost use Rattle.std.specs.List.Sorted.{IsPartitionedBy, IsPartitionPoint};
ghost use Rattle.std.specs.Vec.{vec_capacity};
ghost use Rattle.counted_row.specs.Row.{flat, IsDense, AreEmpty, Stands, passing, room_of, IsChanged};

use crate::chunk::{CHUNK, Chunk, HALF};
use crate::search::{first_failing, point_in};
use crate::steps::{
    Spot, borrow_at, change_in, exchange, fill_stock, merge_at, open_last, push_in, put_in,
    split_at, spot_of, take_out,
};
use std::alloc::{AllocError, Global};
use std::marker::Model;

/// How many values there are at most: no memory holds so many.
const MOST: usize = 1 << 48;

/// A list of values in order. Contracts see the list, and how many more values fit without memory, wherever they go.
#[derive(Drop)]
pub struct CountedRow<T> {
    chunks: Vec<Chunk<T>>,
    stock: Vec<Chunk<T>>,
    len: usize,
}

impl<T> Model for CountedRow<T> {
    ghost use Rattle.std.specs.Prelude.{◌+◌, ◌-◌, length};
    ghost use Rattle.std.specs.Vec.{vec_capacity};
    ghost use Rattle.counted_row.specs.Row.{Row, row_code, flat, room_of, IsRow};

    ghost Value = { Row T };

    ghost coded = { row_code T.code };

    ghost view = { λ r. record { items = flat r.chunks.items; spare = room_of (length r.chunks.items + length r.stock.items) - r.len } };

    ghost invariant = { λ r. IsRow r.chunks.items (vec_capacity r.chunks) r.stock.items (vec_capacity r.stock) r.len };
}

/// Makes a chunk long enough that one value can go: it takes the first value of the next chunk, or all of them.
fn fill_up<T: Drop>(chunks: &mut Vec<Chunk<T>>, stock: &mut Vec<Chunk<T>>, i: usize)
    requires chunk { i < length chunks.old.items }
    requires dense { IsDense chunks.old.items }
    requires empty { AreEmpty stock.old.items }
    requires room { length chunks.old.items + length stock.old.items ≤ vec_capacity stock.old }
    ensures values { flat chunks.new.items ≡ flat chunks.old.items }
    ensures dense { IsDense chunks.new.items }
    ensures front { take i chunks.new.items ≡ take i chunks.old.items }
    ensures chunk { i < length chunks.new.items }
    ensures longer { length (slice_index_or chunks.old.items i []) ≤ length (slice_index_or chunks.new.items i []) }
    ensures long { i + 1 < length chunks.new.items → 128 < length (slice_index_or chunks.new.items i []) }
    ensures empty { AreEmpty stock.new.items }
    ensures count { length chunks.new.items + length stock.new.items ≡ length chunks.old.items + length stock.old.items }
    ensures chunk_room { vec_capacity chunks.new ≡ vec_capacity chunks.old }
    ensures stock_room { vec_capacity stock.old ≤ vec_capacity stock.new }
{
    if i + 1 >= chunks.len() {
        return;
    }
    let count = chunks[i].len();
    if count > HALF {
        return;
    }
    if count + chunks[i + 1].len() <= CHUNK {
        merge_at(chunks, stock, i);
    } else {
        borrow_at(chunks, i);
    }
}

/// Makes room for one value in a chunk: it splits a full one.
fn open_up<T: Drop>(chunks: &mut Vec<Chunk<T>>, stock: &mut Vec<Chunk<T>>, spot: &Spot) -> Spot
    requires stands { spot.now.chunk < length chunks.old.items }
    requires within { spot.now.place < length (slice_index_or chunks.old.items spot.now.chunk []) }
    requires dense { IsDense chunks.old.items }
    requires empty { AreEmpty stock.old.items }
    requires stock { length (flat chunks.old.items) < 128 * (length chunks.old.items + length stock.old.items) }
    requires room { length chunks.old.items + length stock.old.items ≤ vec_capacity chunks.old }
    ensures values { flat chunks.new.items ≡ flat chunks.old.items }
    ensures dense { IsDense chunks.new.items }
    ensures stands { Stands chunks.new.items result.chunk result.place (length (flat (take spot.now.chunk chunks.old.items)) + spot.now.place) }
    ensures short { length (slice_index_or chunks.new.items result.chunk []) < 256 }
    ensures empty { AreEmpty stock.new.items }
    ensures count { length chunks.new.items + length stock.new.items ≡ length chunks.old.items + length stock.old.items }
    ensures chunk_room { vec_capacity chunks.old ≤ vec_capacity chunks.new }
    ensures stock_room { vec_capacity stock.new ≡ vec_capacity stock.old }
{
    if chunks[spot.chunk].len() < CHUNK {
        return Spot {
            chunk: spot.chunk,
            place: spot.place,
        };
    }
    split_at(chunks, stock, spot.chunk);
    if spot.place < HALF {
        return Spot {
            chunk: spot.chunk,
            place: spot.place,
        };
    }
    Spot {
        chunk: spot.chunk + 1,
        place: spot.place - HALF,
    }
}

/// The value of a place.
fn value_at<'a, T: Drop>(chunks: &'a Vec<Chunk<T>>, spot: &Spot) -> Option<&'a T>
    requires { Stands chunks.now.items spot.now.chunk spot.now.place (length (flat (take spot.now.chunk chunks.now.items)) + spot.now.place) }
    ensures { option_copied result ≡ slice_get (flat chunks.now.items) (length (flat (take spot.now.chunk chunks.now.items)) + spot.now.place) }
{
    chunks[spot.chunk].get(spot.place)
}

/// Takes out the value of a place, of `len` values.
fn take_at<T: Drop>(
    chunks: &mut Vec<Chunk<T>>,
    stock: &mut Vec<Chunk<T>>,
    len: &mut usize,
    spot: &Spot,
) -> T
    requires stands { Stands chunks.old.items spot.now.chunk spot.now.place (length (flat (take spot.now.chunk chunks.old.items)) + spot.now.place) }
    requires len { len.old ≡ length (flat chunks.old.items) }
    requires dense { IsDense chunks.old.items }
    requires empty { AreEmpty stock.old.items }
    requires room { length chunks.old.items + length stock.old.items ≤ vec_capacity stock.old }
    ensures value { Some result ≡ slice_get (flat chunks.old.items) (length (flat (take spot.now.chunk chunks.old.items)) + spot.now.place) }
    ensures values { flat chunks.new.items ≡ remove (flat chunks.old.items) (length (flat (take spot.now.chunk chunks.old.items)) + spot.now.place) }
    ensures len { len.new ≡ length (flat chunks.new.items) }
    ensures shorter { len.new + 1 ≡ len.old }
    ensures dense { IsDense chunks.new.items }
    ensures empty { AreEmpty stock.new.items }
    ensures count { length chunks.new.items + length stock.new.items ≡ length chunks.old.items + length stock.old.items }
    ensures chunk_room { vec_capacity chunks.new ≡ vec_capacity chunks.old }
    ensures stock_room { vec_capacity stock.old ≤ vec_capacity stock.new }
{
    fill_up(chunks, stock, spot.chunk);
    *len -= 1;
    take_out(chunks, spot.chunk, spot.place)
}

/// Puts a value in front of that of a place, of `len` values.
fn put_at<T: Drop>(
    chunks: &mut Vec<Chunk<T>>,
    stock: &mut Vec<Chunk<T>>,
    len: &mut usize,
    spot: &Spot,
    value: T,
)
    requires stands { Stands chunks.old.items spot.now.chunk spot.now.place (length (flat (take spot.now.chunk chunks.old.items)) + spot.now.place) }
    requires len { len.old ≡ length (flat chunks.old.items) }
    requires few { len.old < 2 ^ 48 }
    requires dense { IsDense chunks.old.items }
    requires empty { AreEmpty stock.old.items }
    requires stock { length (flat chunks.old.items) < 128 * (length chunks.old.items + length stock.old.items) }
    requires room { length chunks.old.items + length stock.old.items ≤ vec_capacity chunks.old }
    ensures values { flat chunks.new.items ≡ insert (flat chunks.old.items) (length (flat (take spot.now.chunk chunks.old.items)) + spot.now.place) value }
    ensures len { len.new ≡ length (flat chunks.new.items) }
    ensures longer { len.new ≡ len.old + 1 }
    ensures dense { IsDense chunks.new.items }
    ensures empty { AreEmpty stock.new.items }
    ensures count { length chunks.new.items + length stock.new.items ≡ length chunks.old.items + length stock.old.items }
    ensures chunk_room { vec_capacity chunks.old ≤ vec_capacity chunks.new }
    ensures stock_room { vec_capacity stock.new ≡ vec_capacity stock.old }
{
    let spot = open_up(chunks, stock, spot);
    put_in(chunks, spot.chunk, spot.place, value);
    *len += 1;
}

/// Sees to it that the last chunk has room for one value.
fn open_end<T: Drop>(chunks: &mut Vec<Chunk<T>>, stock: &mut Vec<Chunk<T>>)
    requires dense { IsDense chunks.old.items }
    requires empty { AreEmpty stock.old.items }
    requires stock { length (flat chunks.old.items) < 128 * (length chunks.old.items + length stock.old.items) }
    requires room { length chunks.old.items + length stock.old.items ≤ vec_capacity chunks.old }
    ensures values { flat chunks.new.items ≡ flat chunks.old.items }
    ensures dense { IsDense chunks.new.items }
    ensures some { 0 < length chunks.new.items }
    ensures short { (i : ℕ) → i + 1 ≡ length chunks.new.items → length (slice_index_or chunks.new.items i []) < 256 }
    ensures empty { AreEmpty stock.new.items }
    ensures count { length chunks.new.items + length stock.new.items ≡ length chunks.old.items + length stock.old.items }
    ensures chunk_room { vec_capacity chunks.old ≤ vec_capacity chunks.new }
    ensures stock_room { vec_capacity stock.new ≡ vec_capacity stock.old }
{
    let count = chunks.len();
    if count == 0 {
        open_last(chunks, stock);
        return;
    }
    if chunks[count - 1].len() < CHUNK {
        return;
    }
    open_last(chunks, stock);
}

/// Puts a value last.
fn put_last<T: Drop>(chunks: &mut Vec<Chunk<T>>, stock: &mut Vec<Chunk<T>>, value: T)
    requires dense { IsDense chunks.old.items }
    requires empty { AreEmpty stock.old.items }
    requires stock { length (flat chunks.old.items) < 128 * (length chunks.old.items + length stock.old.items) }
    requires room { length chunks.old.items + length stock.old.items ≤ vec_capacity chunks.old }
    ensures values { flat chunks.new.items ≡ flat chunks.old.items ++ value ∷ [] }
    ensures dense { IsDense chunks.new.items }
    ensures empty { AreEmpty stock.new.items }
    ensures count { length chunks.new.items + length stock.new.items ≡ length chunks.old.items + length stock.old.items }
    ensures chunk_room { vec_capacity chunks.old ≤ vec_capacity chunks.new }
    ensures stock_room { vec_capacity stock.new ≡ vec_capacity stock.old }
{
    open_end(chunks, stock);
    let last = chunks.len() - 1;
    push_in(chunks, last, value);
}

impl<T: Drop> CountedRow<T> {
    /// No value. It takes no memory.
    pub fn new(alloc: Global) -> CountedRow<T>
        ensures { result.items ≡ [] }
    {
        CountedRow {
            chunks: Vec::new(alloc),
            stock: Vec::new(alloc),
            len: 0,
        }
    }

    /// How many values there are.
    pub fn len(&self) -> usize
        ensures { result ≡ length self.now.items }
    {
        self.len
    }

    /// How many more values fit without memory.
    pub fn spare(&self) -> usize
        ensures { result ≡ self.now.spare }
    {
        (HALF * (self.chunks.len() + self.stock.len()).min(MOST / HALF)).saturating_sub(self.len)
    }

    /// The k-th value.
    pub fn get(&self, k: usize) -> Option<&T>
        ensures { option_copied result ≡ slice_get self.now.items k }
    {
        let Some(spot) = spot_of(&self.chunks, self.len, k) else {
            return None;
        };
        value_at(&self.chunks, &spot)
    }

    /// How many values in front pass a test, where none passes it behind one that fails it. It looks at the first values of chunks, and then into one chunk.
    pub fn partition_point<P: FnMut(&T) -> bool>(&self, pred: P) -> usize
        requires { P.IsAlwaysCallable pred }
        ensures bound { result ≤ length self.now.items }
        ensures partitioned { (p : T → Bool) → ComputesKey P.FnMut p pred → IsPartitionedBy p self.now.items → IsPartitionPoint (λ y. p y ≡ true) (λ y. p y ≡ false) self.now.items result }
    {
        point_in(&self.chunks, self.len, pred)
    }

    /// The first value that fails a test, where none passes it behind one that fails it. No place is counted: what it costs does not grow with the values but for the search.
    pub fn at_point<P: FnMut(&T) -> bool>(&self, pred: P) -> Option<&T>
        requires { P.IsAlwaysCallable pred }
        ensures { (p : T → Bool) → ComputesKey P.FnMut p pred → IsPartitionedBy p self.now.items → option_copied result ≡ slice_get self.now.items (passing p self.now.items) }
    {
        let Some(spot) = first_failing(&self.chunks, pred) else {
            return None;
        };
        value_at(&self.chunks, &spot)
    }

    /// Values that lie side by side from the k-th on, at least one, if there is a k-th. Runs that follow one another go over all values in order.
    pub fn run(&self, k: usize) -> Option<&[T]>
        ensures values { IfSome result (λ run. drop k self.now.items ≡ run.now ++ drop (k + length run.now) self.now.items) }
        ensures some { IfSome result (λ run. 0 < length run.now) }
        ensures none { IfNone result (length self.now.items ≤ k) }
    {
        let Some(spot) = spot_of(&self.chunks, self.len, k) else {
            return None;
        };
        Some(self.chunks[spot.chunk].tail(spot.place))
    }

    /// Puts a value in the place of the k-th, which it gives back, if there is one. It takes no memory.
    pub fn replace(&mut self, k: usize, value: T) -> Option<T>
        ensures value { result ≡ slice_get self.old.items k }
        ensures items { self.new.items ≡ slice_set self.old.items k value }
        ensures spare { self.new.spare ≡ self.old.spare }
    {
        let Some(spot) = spot_of(&self.chunks, self.len, k) else {
            return None;
        };
        let old = exchange(&mut self.chunks, spot.chunk, spot.place, value);
        Some(old)
    }

    /// Changes the first value that fails a test where it stands, where none passes it behind one that fails it, and gives what the change gives, if one fails it. It takes no memory.
    pub fn change_at_point<R, P: FnMut(&T) -> bool, F: FnOnce(&mut T) -> R>(
        &mut self,
        pred: P,
        change: F,
    ) -> Option<R>
        requires tests { P.IsAlwaysCallable pred }
        requires changes { F.IsAlwaysCallable change }
        ensures some { IfSome result (λ r. (p : T → Bool) → ComputesKey P.FnMut p pred → IsPartitionedBy p self.old.items → IsChanged F.FnOnce change self.old.items self.new.items (passing p self.old.items) r) }
        ensures none { IfNone result ((p : T → Bool) → ComputesKey P.FnMut p pred → IsPartitionedBy p self.old.items → passing p self.old.items ≡ length self.old.items) }
        ensures same { IfNone result (self.new.items ≡ self.old.items) }
        ensures spare { self.new.spare ≡ self.old.spare }
    {
        let Some(first) = first_failing(&self.chunks, pred) else {
            return None;
        };
        let given = change_in(&mut self.chunks, first.chunk, first.place, change);
        Some(given)
    }

    /// Takes out the k-th value, if there is one. It takes no memory.
    pub fn remove(&mut self, k: usize) -> Option<T>
        ensures value { result ≡ slice_get self.old.items k }
        ensures items { self.new.items ≡ remove self.old.items k }
        ensures spare { self.old.spare ≤ self.new.spare }
        ensures gained { OnSome result (self.new.spare ≡ self.old.spare + 1) }
    {
        let Some(spot) = spot_of(&self.chunks, self.len, k) else {
            return None;
        };
        let value = take_at(&mut self.chunks, &mut self.stock, &mut self.len, &spot);
        Some(value)
    }

    /// Takes out the first value that fails a test, where none passes it behind one that fails it, if one fails it. It takes no memory.
    pub fn remove_at_point<P: FnMut(&T) -> bool>(&mut self, pred: P) -> Option<T>
        requires { P.IsAlwaysCallable pred }
        ensures value { (p : T → Bool) → ComputesKey P.FnMut p pred → IsPartitionedBy p self.old.items → result ≡ slice_get self.old.items (passing p self.old.items) }
        ensures items { (p : T → Bool) → ComputesKey P.FnMut p pred → IsPartitionedBy p self.old.items → self.new.items ≡ remove self.old.items (passing p self.old.items) }
        ensures spare { self.old.spare ≤ self.new.spare }
        ensures gained { OnSome result (self.new.spare ≡ self.old.spare + 1) }
    {
        let Some(first) = first_failing(&self.chunks, pred) else {
            return None;
        };
        let value = take_at(&mut self.chunks, &mut self.stock, &mut self.len, &first);
        Some(value)
    }

    /// Makes room for n more values, wherever they go. It takes no memory where that room is there.
    pub fn reserve(&mut self, n: usize) -> Result<(), AllocError>
        ensures items { self.new.items ≡ self.old.items }
        ensures ok { OnOk result (n ≤ self.new.spare) }
        ensures room { n ≤ self.old.spare → IsOk result }
        ensures spare { self.old.spare ≤ self.new.spare }
    {
        if n <= self.spare() {
            return Ok(());
        }
        if self.len > MOST || n > MOST - self.len {
            return Err(AllocError);
        }
        let total = (self.len + n + 127) / HALF;
        fill_stock(&mut self.chunks, &mut self.stock, total)
    }

    // Puts a value last, where there is room.
    fn put_end(&mut self, value: T)
        requires { 1 ≤ self.old.spare }
        ensures items { self.new.items ≡ self.old.items ++ value ∷ [] }
        ensures spare { self.old.spare ≤ self.new.spare + 1 }
    {
        put_last(&mut self.chunks, &mut self.stock, value);
        self.len += 1;
    }

    // Puts a value in front of the k-th, where there is room.
    fn put(&mut self, k: usize, value: T)
        requires room { 1 ≤ self.old.spare }
        requires within { k < length self.old.items }
        ensures items { self.new.items ≡ insert self.old.items k value }
        ensures spare { self.old.spare ≤ self.new.spare + 1 }
    {
        let Some(spot) = spot_of(&self.chunks, self.len, k) else {
            return;
        };
        put_at(
            &mut self.chunks,
            &mut self.stock,
            &mut self.len,
            &spot,
            value,
        );
    }

    /// Puts a value last. It takes no memory where there is spare room. After an error the values are as before.
    pub fn push(&mut self, value: T) -> Result<(), AllocError>
        ensures ok { OnOk result (self.new.items ≡ self.old.items ++ value ∷ []) }
        ensures err { OnErr result (self.new.items ≡ self.old.items) }
        ensures room { 1 ≤ self.old.spare → IsOk result }
        ensures spare { self.old.spare ≤ self.new.spare + 1 }
    {
        let Ok(()) = self.reserve(1) else {
            return Err(AllocError);
        };
        self.put_end(value);
        Ok(())
    }

    /// Puts a value in front of the k-th, or last. It takes no memory where there is spare room. After an error the values are as before.
    pub fn insert(&mut self, k: usize, value: T) -> Result<(), AllocError>
        requires { k ≤ length self.old.items }
        ensures ok { OnOk result (self.new.items ≡ insert self.old.items k value) }
        ensures err { OnErr result (self.new.items ≡ self.old.items) }
        ensures room { 1 ≤ self.old.spare → IsOk result }
        ensures spare { self.old.spare ≤ self.new.spare + 1 }
    {
        let Ok(()) = self.reserve(1) else {
            return Err(AllocError);
        };
        if k < self.len() {
            self.put(k, value);
            return Ok(());
        }
        self.put_end(value);
        Ok(())
    }

    // Puts a value in front of the first one that fails a test, or last, where there is room.
    fn put_at_point<P: FnMut(&T) -> bool>(&mut self, pred: P, value: T)
        requires room { 1 ≤ self.old.spare }
        requires callable { P.IsAlwaysCallable pred }
        ensures items { (p : T → Bool) → ComputesKey P.FnMut p pred → IsPartitionedBy p self.old.items → self.new.items ≡ insert self.old.items (passing p self.old.items) value }
        ensures spare { self.old.spare ≤ self.new.spare + 1 }
    {
        let Some(first) = first_failing(&self.chunks, pred) else {
            self.put_end(value);
            return;
        };
        put_at(
            &mut self.chunks,
            &mut self.stock,
            &mut self.len,
            &first,
            value,
        );
    }

    /// Puts a value in front of the first one that fails a test, where none passes it behind one that fails it, or last. It takes no memory where there is spare room. After an error the values are as before.
    pub fn insert_at_point<P: FnMut(&T) -> bool>(
        &mut self,
        pred: P,
        value: T,
    ) -> Result<(), AllocError>
        requires { P.IsAlwaysCallable pred }
        ensures ok { OnOk result ((p : T → Bool) → ComputesKey P.FnMut p pred → IsPartitionedBy p self.old.items → self.new.items ≡ insert self.old.items (passing p self.old.items) value) }
        ensures err { OnErr result (self.new.items ≡ self.old.items) }
        ensures room { 1 ≤ self.old.spare → IsOk result }
        ensures spare { self.old.spare ≤ self.new.spare + 1 }
    {
        let Ok(()) = self.reserve(1) else {
            return Err(AllocError);
        };
        self.put_at_point(pred, value);
        Ok(())
    }
}
