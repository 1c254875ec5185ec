//! An open recording.

ghost use Rattle.std.specs.Prelude.{◌≡◌, ℕ, ◌+◌, ◌%◌, ◌<◌, ◌≤◌, ◌^◌, [], ◌++◌, length, IfOk, OnErr, OnOk};
ghost use Rattle.std.specs.Cow.{cow_slice_items};
ghost use Rattle.record_job.specs.Recording.{empty, added, whole_blocks, filled_up};

use std::alloc::Global;
use std::borrow::CowSlice;
use std::marker::Model;
use voice_units::{Lane, NoMemory};

/// An open recording of a lane. Contracts see its lane and block, how many bytes were added, and those of them that are not given out yet, which are fewer than a block.
#[derive(Drop)]
pub struct Taking {
    lane: Lane,
    block: u32,
    total: u32,
    rest: Vec<u8>,
}

impl Model for Taking {
    ghost use Rattle.std.specs.Vec.{vec_capacity};
    ghost use Rattle.record_job.specs.Recording.{Recording, IsRecording, seen};

    ghost Value = { Recording };

    ghost view = { λ t. seen t.lane t.block t.total t.rest.items };

    ghost invariant = { λ t. IsRecording t.block t.total t.rest.items (vec_capacity t.rest) };
}

impl Taking {
    /// A recording without bytes. It takes room for one block, and no call but `add` and `copy` takes more.
    pub fn begin(alloc: Global, lane: Lane, block: u32) -> Result<Taking, NoMemory>
        requires least { 8 ≤ block }
        requires most { block ≤ 8192 }
        requires words { block % 8 ≡ 0 }
        ensures { IfOk result (λ taking. taking ≡ empty lane block) }
    {
        let rest = Vec::with_capacity(alloc, block as usize)?;
        Ok(Taking {
            lane,
            block,
            total: 0,
            rest,
        })
    }

    /// Takes bytes, and gives the whole blocks that are now complete, one after another: a front of these bytes where none before them were kept back, else a copy. After want of memory nothing changed.
    pub fn add<'a>(&mut self, bytes: &'a [u8]) -> Result<CowSlice<'a, u8, Global>, NoMemory>
        requires { self.old.total + length bytes.now ≤ 2 ^ 30 }
        ensures given { IfOk result (λ blocks. cow_slice_items blocks ≡ whole_blocks self.old.block (self.old.rest ++ bytes.now)) }
        ensures kept { OnOk result (self.new ≡ added self.old bytes.now) }
        ensures err { OnErr result (self.new ≡ self.old) }
    {
        let block = self.block as usize;
        let before = self.rest.len();
        let all = before + bytes.len();
        let whole = all - all % block;
        if whole == 0 {
            self.rest.extend_from_slice(bytes)?;
            self.total += bytes.len() as u32;
            return Ok(CowSlice::Borrowed(&bytes[..0]));
        }
        let (last, rest) = bytes.split_at(whole - before);
        let blocks = joined(&self.rest, last)?;
        self.rest.clear();
        self.rest.extend_from_slice(rest)?;
        self.total += bytes.len() as u32;
        Ok(blocks)
    }

    /// The lane that is recorded.
    pub fn lane(&self) -> Lane
        ensures { result ≡ self.now.lane }
    {
        self.lane
    }

    /// How many bytes were added, at most 2^30.
    pub fn total(&self) -> u32
        ensures value { result ≡ self.now.total }
        ensures most { result ≤ 2 ^ 30 }
        ensures few { length self.now.rest < self.now.block }
        ensures rest { length self.now.rest ≡ result % self.now.block }
    {
        self.total
    }

    /// An equal recording.
    pub fn copy(&self) -> Result<Taking, NoMemory>
        ensures { IfOk result (λ taking. taking ≡ self.now) }
    {
        let alloc = *self.rest.allocator();
        let mut rest = Vec::with_capacity(alloc, self.block as usize)?;
        rest.extend_from_slice(&self.rest)?;
        Ok(Taking {
            lane: self.lane,
            block: self.block,
            total: self.total,
            rest,
        })
    }

    /// The last block, filled up with zero bytes, or nothing where the bytes end with a block. It takes no memory.
    pub fn end(self) -> Vec<u8>
        ensures { result.items ≡ filled_up self.block self.rest }
    {
        let mut rest = self.rest;
        if rest.is_empty() {
            return rest;
        }
        let filled = rest.resize(self.block as usize, 0);
        prove!(filled.is_ok());
        rest
    }
}

// Bytes behind those of a front: they themselves where the front is empty, else a copy of all.
fn joined<'a>(front: &Vec<u8>, bytes: &'a [u8]) -> Result<CowSlice<'a, u8, Global>, NoMemory>
    ensures { IfOk result (λ all. cow_slice_items all ≡ front.now.items ++ bytes.now) }
{
    if front.is_empty() {
        return Ok(CowSlice::Borrowed(bytes));
    }
    let alloc = *front.allocator();
    let mut all = Vec::with_capacity(alloc, front.len() + bytes.len())?;
    all.extend_from_slice(front)?;
    all.extend_from_slice(bytes)?;
    Ok(CowSlice::Owned(all))
}
