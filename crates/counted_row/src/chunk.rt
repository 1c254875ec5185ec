//! At most 256 values, in memory that is reserved.

ghost use Rattle.std.specs.Prelude.{◌≡◌, ℕ, ◌+◌, ◌-◌, ◌<◌, ◌≤◌, [], ◌∷◌, ◌++◌, length, drop, slice_get, slice_set, option_copied, IfOk, insert, remove, reverse};
ghost use Rattle.counted_row.specs.Row.{IsChanged};
ghost use Rattle.std.specs.Vec.{vec_capacity};

use std::alloc::{AllocError, Global};
use std::marker::Model;
use std::mem;

/// How many values a chunk has room for.
pub(crate) const CHUNK: usize = 256;

/// How many values each chunk but the last has at least.
pub(crate) const HALF: usize = 128;

/// At most 256 values, which take no memory. Contracts see the list.
#[derive(Drop)]
pub(crate) struct Chunk<T> {
    values: Vec<T>,
}

impl<T> Model for Chunk<T> {
    ghost use Rattle.std.specs.Prelude.{◌≤◌, List, length};
    ghost use Rattle.std.specs.Vec.{vec_capacity};

    ghost Value = { List T };

    ghost view = { λ c. c.values.items };

    ghost invariant = { λ c. (256 ≤ vec_capacity c.values) × (length c.values.items ≤ 256) };
}

// Moves the values behind the first 128 into an empty vector with room, last first.
fn take_upper<T: Drop>(lower: &mut Vec<T>, upper: &mut Vec<T>)
    requires long { length lower.old.items ≡ 256 }
    requires empty { upper.old.items ≡ [] }
    requires room { 256 ≤ vec_capacity upper.old }
    ensures parts { lower.new.items ++ reverse upper.new.items ≡ lower.old.items }
    ensures count { length lower.new.items ≡ 128 }
    ensures lower_room { vec_capacity lower.new ≡ vec_capacity lower.old }
    ensures upper_room { 256 ≤ vec_capacity upper.new }
{
    while lower.len() > HALF {
        let Some(value) = lower.pop() else {
            return;
        };
        let _pushed = upper.push(value);
    }
}

impl<T: Drop> Chunk<T> {
    pub(crate) fn new(alloc: Global) -> Result<Chunk<T>, AllocError>
        ensures { IfOk result (λ c. c ≡ []) }
    {
        let values = Vec::with_capacity(alloc, CHUNK)?;
        Ok(Chunk { values })
    }

    pub(crate) fn len(&self) -> usize
        ensures value { result ≡ length self.now }
        ensures within { length self.now ≤ 256 }
    {
        self.values.len()
    }

    pub(crate) fn get(&self, k: usize) -> Option<&T>
        ensures { option_copied result ≡ slice_get self.now k }
    {
        self.values.get(k)
    }

    // The last value.
    pub(crate) fn last(&self) -> Option<&T>
        ensures { option_copied result ≡ slice_get self.now (length self.now - 1) }
    {
        self.values.get(self.values.len().saturating_sub(1))
    }

    // The values from a place on.
    pub(crate) fn tail(&self, place: usize) -> &[T]
        requires { place ≤ length self.now }
        ensures { result.now ≡ drop place self.now }
    {
        &self.values[place..]
    }

    pub(crate) fn insert(&mut self, k: usize, value: T)
        requires within { k ≤ length self.old }
        requires room { length self.old < 256 }
        ensures { self.new ≡ insert self.old k value }
    {
        let _inserted = self.values.insert(k, value);
    }

    pub(crate) fn push(&mut self, value: T)
        requires { length self.old < 256 }
        ensures { self.new ≡ self.old ++ value ∷ [] }
    {
        let _pushed = self.values.push(value);
    }

    pub(crate) fn remove(&mut self, k: usize) -> T
        requires { k < length self.old }
        ensures value { slice_get self.old k ≡ Some result }
        ensures values { self.new ≡ remove self.old k }
    {
        self.values.remove(k)
    }

    pub(crate) fn replace(&mut self, k: usize, value: T) -> T
        requires { k < length self.old }
        ensures value { slice_get self.old k ≡ Some result }
        ensures values { self.new ≡ slice_set self.old k value }
    {
        mem::replace(&mut self.values[k], value)
    }

    // Changes the value of a place where it stands.
    pub(crate) fn change<R, F: FnOnce(&mut T) -> R>(&mut self, k: usize, change: F) -> R
        requires within { k < length self.old }
        requires callable { F.IsAlwaysCallable change }
        ensures { IsChanged F.FnOnce change self.old self.new k result }
    {
        change(&mut self.values[k])
    }

    // Moves all values of another chunk behind its own.
    pub(crate) fn append(&mut self, other: &mut Chunk<T>)
        requires { length self.old + length other.old ≤ 256 }
        ensures values { self.new ≡ self.old ++ other.old }
        ensures other { other.new ≡ [] }
    {
        let _appended = self.values.append(&mut other.values);
    }

    // Moves its upper half into an empty chunk.
    pub(crate) fn split(&mut self, upper: &mut Chunk<T>)
        requires long { length self.old ≡ 256 }
        requires empty { upper.old ≡ [] }
        ensures parts { self.new ++ upper.new ≡ self.old }
        ensures count { length self.new ≡ 128 }
    {
        take_upper(&mut self.values, &mut upper.values);
        upper.values.reverse();
    }
}
