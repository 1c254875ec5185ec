//! Which address holds which block.

ghost use Rattle.std.specs.Prelude.{ℕ, ◌≡◌, ◌≢◌, ◌+◌, ◌-◌, ◌^◌, ◌<◌, ◌≤◌, ◌↔◌, Option, Some, None, MatchOption, IsTrue, OnOk, OnErr, IfOk, IfSome, replicate, length, slice_set, if◌then◌else◌};
ghost use Rattle.voice_blocks.specs.Holders.{of_owner, IsLowestFree, Holders, holder_at, open_in, next_index, with_taken, without_owner, without_block, renamed, renamed_block, block_of, EachBecomes, IsAddressOf};

use crate::bitmap::Bitmap;
use crate::owner::{Holder, Owner};
use std::alloc::Global;
use std::collections::HashMap;
use std::marker::Model;
use voice_units::{Lane, NoMemory, RopeId};

/// Which address holds which block of which owner: each address at most one block, each block at most one address. Contracts see the list of the holders, by address, and how many more blocks it can enter without memory.
#[derive(Drop)]
pub struct BlockMap {
    alloc: Global,
    holders: Vec<Option<Holder>>,
    taken: Bitmap,
    free: u32,
    // blocks of recordings that aren't done, each of which may yet be renamed
    takings: u32,
    room: u32,
    places: HashMap<Holder, u32>,
    // above each index of an owner
    ends: HashMap<Owner, u64>,
}

impl Model for BlockMap {
    ghost use Rattle.voice_blocks.specs.Holders.{BlocksView};
    ghost use Rattle.voice_blocks.specs.Sound.{IsSound, place_in, end_in};
    ghost use Rattle.std.specs.HashMap.{spare};

    ghost Value = { BlocksView };

    ghost view = { λ m. record { holders = m.holders.items; spare = m.room } };

    ghost invariant = { λ m. IsSound m.holders.items m.taken.words.items m.free m.takings m.room (place_in m.places) (end_in m.ends) (spare m.places) (spare m.ends) };
}

impl BlockMap {
    /// A map of so many free addresses.
    pub fn new(alloc: Global, blocks: u32) -> Result<BlockMap, NoMemory>
        ensures { IfOk result (λ map. map.holders ≡ replicate blocks None) }
    {
        let holders = vec![in alloc; None; blocks as usize]?;
        let taken = Bitmap::new(alloc, blocks)?;
        Ok(BlockMap {
            alloc,
            holders,
            taken,
            free: blocks,
            takings: 0,
            room: 0,
            places: HashMap::new(alloc),
            ends: HashMap::new(alloc),
        })
    }

    /// An equal map, of whose spare room nothing is said.
    pub fn copy(&self) -> Result<BlockMap, NoMemory>
        ensures { IfOk result (λ copy. copy.holders ≡ self.now.holders) }
    {
        let holders = Vec::from_slice(self.alloc, &self.holders)?;
        let taken = self.taken.copy()?;
        let mut places = self.places.clone()?;
        places.reserve(self.takings as usize)?;
        let mut ends = self.ends.clone()?;
        ends.reserve(self.takings as usize)?;
        Ok(BlockMap {
            alloc: self.alloc,
            holders,
            taken,
            free: self.free,
            takings: self.takings,
            room: 0,
            places,
            ends,
        })
    }

    /// Makes room for n more blocks.
    pub fn reserve(&mut self, n: u32) -> Result<(), NoMemory>
        ensures holders { self.new.holders ≡ self.old.holders }
        ensures spare { OnOk result (n ≤ self.new.spare) }
        ensures kept { self.old.spare ≤ self.new.spare }
    {
        if n <= self.room {
            return Ok(());
        }
        let wanted = 2 * n as usize + self.takings as usize;
        self.places.reserve(wanted)?;
        self.ends.reserve(wanted)?;
        self.room = n;
        Ok(())
    }

    /// How many addresses are free.
    pub fn free(&self) -> u32
        ensures { result ≡ open_in self.now.holders }
    {
        self.free
    }

    /// The address of a block.
    pub fn address(&self, owner: Owner, index: u32) -> Option<u32>
        ensures { IsAddressOf (block_of owner index) self.now.holders result }
    {
        self.address_of(&Holder { owner, index })
    }

    fn address_of(&self, holder: &Holder) -> Option<u32>
        ensures { IsAddressOf holder.now self.now.holders result }
    {
        self.places.get(holder).copied()
    }

    // Enters a block of which no address is known under a free address.
    fn enter(&mut self, address: usize, holder: &Holder)
        requires within { address < length self.old.holders }
        requires was_free { holder_at self.old.holders address ≡ None }
        requires new_block { (a : ℕ) → holder_at self.old.holders a ≢ Some holder.now }
        requires room { 1 ≤ self.old.spare }
        ensures holders { self.new.holders ≡ slice_set self.old.holders address (Some holder.now) }
        ensures spare { self.new.spare + 1 ≡ self.old.spare }
    {
        let end = self.end_of(&holder.owner).max(holder.index as u64 + 1);
        let _ended = self.ends.insert(holder.owner, end);
        let _placed = self.places.insert(*holder, address as u32);
        self.holders[address] = Some(*holder);
        self.taken.insert(address);
        self.free -= 1;
        self.room -= 1;
        self.takings += of_taking(&holder.owner);
    }

    // Frees the address of a block.
    fn leave(&mut self, address: usize, holder: &Holder)
        requires { holder_at self.old.holders address ≡ Some holder.now }
        ensures holders { self.new.holders ≡ slice_set self.old.holders address None }
        ensures spare { self.new.spare ≡ self.old.spare }
    {
        let _address = self.places.remove(holder);
        self.holders[address] = None;
        self.taken.remove(address);
        self.free += 1;
        self.takings -= of_taking(&holder.owner);
    }

    // The lowest free address, if any is.
    fn lowest_free(&mut self) -> Option<usize>
        ensures holders { self.new.holders ≡ self.old.holders }
        ensures spare { self.new.spare ≡ self.old.spare }
        ensures lowest { MatchOption result (open_in self.old.holders ≡ 0) (λ a. IsLowestFree self.old.holders a) }
    {
        let Some(lowest) = self.taken.lowest_out() else {
            return None;
        };
        if lowest >= self.holders.len() {
            return None;
        }
        Some(lowest)
    }

    // One above the greatest index of an owner, or 0.
    pub(crate) fn next_index(&self, owner: &Owner) -> u64
        ensures { result ≡ next_index owner.now self.now.holders }
    {
        let mut end = self.end_of(owner);
        while end > 0 {
            let holder = Holder {
                owner: *owner,
                index: (end - 1) as u32,
            };
            if self.address_of(&holder).is_some() {
                return end;
            }
            end -= 1;
        }
        0
    }

    // Gives the n lowest free addresses to an owner's indices from one on.
    fn give(&mut self, owner: &Owner, from: u64, n: u32)
        requires room { n ≤ self.old.spare }
        requires enough { n ≤ open_in self.old.holders }
        requires behind { (a index : ℕ) → holder_at self.old.holders a ≡ Some (block_of owner.now index) → index < from }
        requires fits { from + n ≤ 2 ^ 32 }
        ensures holders { self.new.holders ≡ with_taken owner.now from n self.old.holders }
        ensures spare { self.new.spare + n ≡ self.old.spare }
    {
        for k in 0..n {
            let holder = Holder {
                owner: *owner,
                index: (from + k as u64) as u32,
            };
            let Some(address) = self.lowest_free() else {
                return;
            };
            self.enter(address, &holder);
        }
    }

    /// Gives the n lowest free addresses, rising, to an owner's next n indices, which begin one above its greatest index, or at 0. False exactly where fewer are free.
    pub fn take(&mut self, owner: Owner, n: u32) -> bool
        requires room { n ≤ self.old.spare }
        requires fits { next_index owner self.old.holders + n ≤ 2 ^ 32 }
        ensures exact { IsTrue result ↔ (n ≤ open_in self.old.holders) }
        ensures holders { self.new.holders ≡ (if result then with_taken owner (next_index owner self.old.holders) n self.old.holders else self.old.holders) }
        ensures spare { self.new.spare + (if result then n else 0) ≡ self.old.spare }
    {
        if n > self.free {
            return false;
        }
        let from = self.next_index(&owner);
        self.give(&owner, from, n);
        true
    }

    // A bound on an owner's indices.
    fn end_of(&self, owner: &Owner) -> u64
        ensures bound { (a index : ℕ) → holder_at self.now.holders a ≡ Some (block_of owner.now index) → index < result }
        ensures fits { result ≤ 2 ^ 32 }
    {
        self.ends.get(owner).copied().unwrap_or(0)
    }

    /// Drops a block, if it is there.
    pub fn drop_block(&mut self, owner: Owner, index: u32)
        ensures holders { EachBecomes (without_block (block_of owner index)) self.old.holders self.new.holders }
        ensures spare { self.new.spare ≡ self.old.spare }
    {
        self.drop_held(&Holder { owner, index });
    }

    fn drop_held(&mut self, holder: &Holder)
        ensures holders { EachBecomes (without_block holder.now) self.old.holders self.new.holders }
        ensures spare { self.new.spare ≡ self.old.spare }
    {
        if let Some(address) = self.address_of(holder) {
            self.leave(address as usize, holder);
        }
    }

    /// Drops an owner's blocks. It takes as many steps as the greatest index that the owner has had.
    pub fn drop_owner(&mut self, owner: Owner)
        ensures holders { EachBecomes (without_owner owner) self.old.holders self.new.holders }
        ensures spare { self.new.spare ≡ self.old.spare }
    {
        let end = self.end_of(&owner);
        for index in 0..end {
            let holder = Holder {
                owner,
                index: index as u32,
            };
            self.drop_held(&holder);
        }
        self.forget_end(&owner);
    }

    // Forgets the bound on the indices of an owner that has no block.
    fn forget_end(&mut self, owner: &Owner)
        requires { (a index : ℕ) → holder_at self.old.holders a ≢ Some (block_of owner.now index) }
        ensures { self.new ≡ self.old }
    {
        let _end = self.ends.remove(owner);
    }

    // Gives the address of a block of a recording to a file's block that has none.
    fn move_block(&mut self, address: usize, from: &Holder, to: &Holder)
        requires held { holder_at self.old.holders address ≡ Some from.now }
        requires new_block { (a : ℕ) → holder_at self.old.holders a ≢ Some to.now }
        requires recording { of_owner from.now.owner ≡ 1 }
        requires to_file { of_owner to.now.owner ≡ 0 }
        ensures holders { self.new.holders ≡ slice_set self.old.holders address (Some to.now) }
        ensures spare { self.new.spare ≡ self.old.spare }
    {
        let end = self.end_of(&to.owner).max(to.index as u64 + 1);
        let _ended = self.ends.insert(to.owner, end);
        let _left = self.places.remove(from);
        let _placed = self.places.insert(*to, address as u32);
        self.holders[address] = Some(*to);
        self.takings -= 1;
    }

    fn rename_held(&mut self, from: &Holder, to: &Holder)
        requires new_block { (a : ℕ) → holder_at self.old.holders a ≢ Some to.now }
        requires recording { of_owner from.now.owner ≡ 1 }
        requires to_file { of_owner to.now.owner ≡ 0 }
        ensures holders { EachBecomes (renamed_block from.now to.now) self.old.holders self.new.holders }
        ensures spare { self.new.spare ≡ self.old.spare }
    {
        if let Some(address) = self.address_of(from) {
            self.move_block(address as usize, from, to);
        }
    }

    /// Gives the blocks of a lane's recording to a file that has none, each under the same index and address. It needs no memory, and takes as many steps as the greatest index that the recording has had.
    pub fn rename(&mut self, lane: Lane, file: RopeId)
        requires { (a index : ℕ) → holder_at self.old.holders a ≢ Some (block_of (Owner.File file) index) }
        ensures holders { EachBecomes (renamed lane file) self.old.holders self.new.holders }
        ensures spare { self.new.spare ≡ self.old.spare }
    {
        let bound = self.end_of(&Owner::Taking(lane));
        for index in 0..bound {
            let from = Holder {
                owner: Owner::Taking(lane),
                index: index as u32,
            };
            let to = Holder {
                owner: Owner::File(file),
                index: index as u32,
            };
            self.rename_held(&from, &to);
        }
        self.forget_end(&Owner::Taking(lane));
    }

    /// Enters a block of a file under an address. False exactly where the address is taken or there is no such address, or the block has one.
    pub fn place(&mut self, file: RopeId, index: u32, address: u32) -> bool
        requires { 1 ≤ self.old.spare }
        ensures exact { IsTrue result ↔ ((address < length self.old.holders) × (holder_at self.old.holders address ≡ None) × ((a : ℕ) → holder_at self.old.holders a ≢ Some (block_of (Owner.File file) index))) }
        ensures holders { self.new.holders ≡ (if result then slice_set self.old.holders address (Some (block_of (Owner.File file) index)) else self.old.holders) }
        ensures spare { self.new.spare + (if result then 1 else 0) ≡ self.old.spare }
    {
        let holder = Holder {
            owner: Owner::File(file),
            index,
        };
        let at = address as usize;
        if at >= self.holders.len() || self.holders[at].is_some() {
            return false;
        }
        if self.address_of(&holder).is_some() {
            return false;
        }
        self.enter(at, &holder);
        true
    }
}

// 1 for a recording that isn't done, else 0.
fn of_taking(owner: &Owner) -> u32
    ensures { result ≡ of_owner owner.now }
{
    match owner {
        Owner::File(_) => 0,
        Owner::Taking(_) => 1,
    }
}
