//! The table of ropes.

ghost use Rattle.std.specs.Prelude.{◌≡◌, ℕ, ◌+◌, ◌-◌, ◌%◌, ◌^◌, ◌<◌, ◌≤◌, ◌++◌, ◌∷◌, [], List, Bool, true, Option, Some, None, IsOk, IfOk, OnOk, IfSome, map, length, cond, nat_lt, slice_get, option_copied, option_map, option_to_list};
ghost use Rattle.std.specs.List.{list_all};
ghost use Rattle.voice_units.specs.declared.Piece.{Piece};
ghost use Rattle.voice_units.specs.Spots.{spots_of};
ghost use Rattle.voice_units.specs.Blocks.{BlockPair, pairs_at, has_pair};
ghost use Rattle.rope_table.specs.Table.{rope_of, number_above, with_rope, with_due, without_rope, settled, idled, held_back, made_rope, pieces_at, idle_at, last_at, wait_at, kept_at, uses_by, uses_in, pieces_in, pair_of, uses_at, index_of, due_at, as_pair, piece_count, block_count, file_count, Counts, new_pairs, IsTable};
ghost use Rattle.rope_table.specs.Inside.{rested};

use crate::counts::UseCounts;
use crate::dues::{Due, DueOrder};
use crate::ropes::{LiveRopes, Rope};
use rope_algebra::Pieces;
use std::alloc::Global;
use std::marker::Model;
use std::sync::ledger::Ledger;
use voice_units::{Moment, NoMemory, RopeId, Steps};

/// The live ropes. Contracts see the list of the ropes in rising number, how many of them and of the held passages use each block, and for how many more ropes and blocks there is room. Ropes lie in chunks of at most 256, so one comes or goes without moving all later ones. A rope is found by halving over the chunks and then in one of them; its place is not counted, so no call costs more for the chunks in front of it.
#[derive(Drop)]
pub struct RopeTable {
    ropes: LiveRopes,
    dues: DueOrder,
    counts: UseCounts,
}

impl Model for RopeTable {
    ghost use Rattle.rope_table.specs.Table.{Table};
    ghost use Rattle.rope_table.specs.Inside.{seen, IsWhole};

    ghost Value = { Table };

    ghost view = { λ t. seen t.ropes t.dues t.counts };

    ghost invariant = { λ t. IsWhole t.ropes t.dues t.counts };
}

// When a rope is due.
fn due_of(id: RopeId, idle: Moment, wait: u32) -> Due
    ensures { result ≡ due_at id idle wait }
{
    Due {
        at: idle.number() + u64::from(wait),
        id,
    }
}

// A rope that no row keeps goes in among the ropes, and among those that are due.
fn enter(
    ropes: &mut LiveRopes,
    dues: &mut DueOrder,
    id: RopeId,
    pieces: Pieces,
    idle: Moment,
    last: u8,
    wait: u32,
)
    requires unknown { rope_of ropes.old.ropes id ≡ None }
    requires room { length ropes.old.ropes < ropes.old.room }
    requires due_room { length ropes.old.ropes < dues.old.room }
    requires ordered { dues.old.dues ≡ index_of ropes.old.ropes }
    ensures ropes { ropes.new.ropes ≡ with_rope (made_rope id pieces idle last wait) ropes.old.ropes }
    ensures dues { dues.new.dues ≡ with_due (due_at id idle wait) dues.old.dues }
    ensures room { ropes.old.room ≤ ropes.new.room }
    ensures due_room { dues.old.room ≤ dues.new.room }
{
    dues.enter(due_of(id, idle, wait));
    ropes.enter(Rope {
        id,
        pieces,
        idle,
        last,
        wait,
        kept: false,
    });
}

impl RopeTable {
    /// A table without ropes, for blocks of so many samples. It takes no memory.
    pub fn new(alloc: Global, block: u32) -> RopeTable
        requires least { 8 ≤ block }
        requires most { block ≤ 8192 }
        requires words { block % 8 ≡ 0 }
        ensures block { result.block ≡ block }
        ensures ropes { result.ropes ≡ [] }
        ensures uses { (pair : BlockPair) → uses_at result pair ≡ 0 }
        ensures counts { Counts result [] }
    {
        RopeTable {
            ropes: LiveRopes::new(alloc),
            dues: DueOrder::new(alloc),
            counts: UseCounts::new(alloc, block),
        }
    }

    /// The samples of a block. What each table keeps holds of this one.
    pub fn block(&self) -> u32
        ensures value { result ≡ self.now.block }
        ensures laws { IsTable self.now }
    {
        self.counts.block()
    }

    /// How many ropes are live.
    pub fn count(&self) -> usize
        ensures { result ≡ length self.now.ropes }
    {
        self.ropes.count()
    }

    /// How many blocks of voice files the live ropes have. It is kept and not counted again.
    pub fn live_blocks(&self) -> u64
        ensures { result ≡ block_count self.now.block self.now.ropes }
    {
        self.counts.live()
    }

    /// How many voice files the live ropes have samples of. It is kept and not counted again.
    pub fn live_files(&self) -> u64
        ensures { result ≡ file_count self.now.block self.now.ropes }
    {
        self.counts.live_files()
    }

    /// How many pieces the live ropes have in all. It is kept and not counted again.
    pub fn live_pieces(&self) -> u64
        ensures { result ≡ piece_count self.now.ropes }
    {
        self.ropes.pieces()
    }

    /// The pieces of a rope; `None` exactly where it is not live.
    pub fn get(&self, id: RopeId) -> Option<&Pieces>
        ensures { option_copied result ≡ pieces_at self.now.ropes id }
    {
        let Some(rope) = self.ropes.find(id) else {
            return None;
        };
        Some(&rope.pieces)
    }

    /// The moment since which a rope is idle; `None` exactly where it is not live.
    pub fn idle(&self, id: RopeId) -> Option<Moment>
        ensures { result ≡ idle_at self.now.ropes id }
    {
        let Some(rope) = self.ropes.find(id) else {
            return None;
        };
        Some(rope.idle)
    }

    /// The class of the last row that a rope lost, 1 to 3, or 0; `None` exactly where it is not live.
    pub fn last(&self, id: RopeId) -> Option<u8>
        ensures { result ≡ last_at self.now.ropes id }
    {
        let Some(rope) = self.ropes.find(id) else {
            return None;
        };
        Some(rope.last)
    }

    /// How long a rope stays once it is idle; `None` exactly where it is not live.
    pub fn wait(&self, id: RopeId) -> Option<u32>
        ensures { result ≡ wait_at self.now.ropes id }
    {
        let Some(rope) = self.ropes.find(id) else {
            return None;
        };
        Some(rope.wait)
    }

    /// Whether a rope is kept by a row; `None` exactly where it is not live.
    pub fn kept(&self, id: RopeId) -> Option<bool>
        ensures { result ≡ kept_at self.now.ropes id }
    {
        let Some(rope) = self.ropes.find(id) else {
            return None;
        };
        Some(rope.kept)
    }

    /// The lowest live number above this one; `None` exactly where there is none.
    pub fn after(&self, id: u64) -> Option<RopeId>
        ensures { result ≡ number_above self.now.ropes id }
    {
        self.ropes.after(id)
    }

    /// Makes room for one more rope and for `pairs` more blocks. After `NoMemory` too the ropes and the uses are as before.
    pub fn reserve(&mut self, pairs: u32) -> Result<(), NoMemory>
        ensures ropes { self.new.ropes ≡ self.old.ropes }
        ensures block { self.new.block ≡ self.old.block }
        ensures uses { (pair : BlockPair) → uses_at self.new pair ≡ uses_at self.old pair }
        ensures spare_ropes { OnOk result (1 ≤ self.new.spare_ropes) }
        ensures spare_pairs { OnOk result (pairs ≤ self.new.spare_pairs) }
        ensures kept_ropes { self.old.spare_ropes ≤ self.new.spare_ropes }
        ensures kept_pairs { self.old.spare_pairs ≤ self.new.spare_pairs }
    {
        self.ropes.reserve()?;
        self.dues.reserve(self.ropes.room())?;
        self.counts.reserve(pairs)?;
        Ok(())
    }

    /// Puts in a rope that no row keeps. It takes no memory.
    pub fn add(&mut self, id: RopeId, pieces: Pieces, idle: Moment, last: u8, wait: u32)
        requires unknown { rope_of self.old.ropes id ≡ None }
        requires room { 1 ≤ self.old.spare_ropes }
        requires pairs { new_pairs self.old pieces ≤ self.old.spare_pairs }
        requires class { last ≤ 3 }
        requires fits { (pair : BlockPair) → has_pair (pairs_at self.old.block (spots_of pieces)) pair ≡ true → uses_at self.old pair + 1 < 2 ^ 32 }
        ensures ropes { self.new.ropes ≡ with_rope (made_rope id pieces idle last wait) self.old.ropes }
        ensures block { self.new.block ≡ self.old.block }
        ensures uses { (pair : BlockPair) → uses_at self.new pair ≡ uses_at self.old pair + uses_by self.old.block pieces pair }
        ensures counts { (held : List (List Piece)) → Counts self.old held → Counts self.new held }
        ensures spare_ropes { self.old.spare_ropes ≤ self.new.spare_ropes + 1 }
        ensures spare_pairs { self.old.spare_pairs ≤ self.new.spare_pairs + new_pairs self.old pieces }
    {
        self.counts.raise(&pieces, true);
        enter(
            &mut self.ropes,
            &mut self.dues,
            id,
            pieces,
            idle,
            last,
            wait,
        );
    }

    /// Puts in a rope that no row keeps, where each of its blocks is in use; false exactly where one is not, and then nothing changes. It takes no memory.
    pub fn add_used(
        &mut self,
        id: RopeId,
        pieces: Pieces,
        idle: Moment,
        last: u8,
        wait: u32,
    ) -> bool
        requires unknown { rope_of self.old.ropes id ≡ None }
        requires room { 1 ≤ self.old.spare_ropes }
        requires class { last ≤ 3 }
        requires fits { (pair : BlockPair) → has_pair (pairs_at self.old.block (spots_of pieces)) pair ≡ true → uses_at self.old pair + 1 < 2 ^ 32 }
        ensures value { result ≡ list_all (λ pair. nat_lt 0 (uses_at self.old pair)) (pairs_at self.old.block (spots_of pieces)) }
        ensures ropes { self.new.ropes ≡ cond result (with_rope (made_rope id pieces idle last wait) self.old.ropes) self.old.ropes }
        ensures block { self.new.block ≡ self.old.block }
        ensures uses { (pair : BlockPair) → uses_at self.new pair ≡ uses_at self.old pair + cond result (uses_by self.old.block pieces pair) 0 }
        ensures counts { (held : List (List Piece)) → Counts self.old held → Counts self.new held }
        ensures spare_ropes { self.old.spare_ropes ≤ self.new.spare_ropes + cond result 1 0 }
        ensures spare_pairs { self.old.spare_pairs ≤ self.new.spare_pairs }
    {
        if !self.counts.raise_used(&pieces, true) {
            return false;
        }
        enter(
            &mut self.ropes,
            &mut self.dues,
            id,
            pieces,
            idle,
            last,
            wait,
        );
        true
    }

    /// Takes a rope out, and gives its pieces; `None` exactly where it is not live. It takes no memory, and moves a few hundred ropes at most.
    pub fn remove(&mut self, id: RopeId) -> Option<Pieces>
        ensures value { result ≡ pieces_at self.old.ropes id }
        ensures ropes { self.new.ropes ≡ without_rope id self.old.ropes }
        ensures block { self.new.block ≡ self.old.block }
        ensures uses { (pair : BlockPair) → uses_at self.new pair + uses_in self.old.block (option_to_list result) pair ≡ uses_at self.old pair }
        ensures counts { (held : List (List Piece)) → Counts self.old held → Counts self.new held }
        ensures spare_ropes { self.old.spare_ropes ≤ self.new.spare_ropes }
        ensures spare_pairs { self.old.spare_pairs ≤ self.new.spare_pairs }
    {
        let Some(rope) = self.ropes.leave(id) else {
            return None;
        };
        let Rope {
            id: _,
            pieces,
            idle,
            last: _,
            wait,
            kept,
        } = rope;
        self.counts.lower(&pieces, true);
        if kept {
            return Some(pieces);
        }
        self.dues.leave(due_of(id, idle, wait));
        Some(pieces)
    }

    /// No row names the rope of a number any more: since when, the class of the last row that it lost, and how long it waits. Where it is not live nothing changes. It takes no memory.
    pub fn settle(&mut self, id: RopeId, idle: Moment, last: u8, wait: u32)
        requires { last ≤ 3 }
        ensures ropes { self.new.ropes ≡ map (settled id idle last wait) self.old.ropes }
        ensures block { self.new.block ≡ self.old.block }
        ensures uses { (pair : BlockPair) → uses_at self.new pair ≡ uses_at self.old pair }
        ensures counts { (held : List (List Piece)) → Counts self.old held → Counts self.new held }
        ensures spare_ropes { self.old.spare_ropes ≤ self.new.spare_ropes }
        ensures spare_pairs { self.new.spare_pairs ≡ self.old.spare_pairs }
    {
        self.rest(id, idle, last, wait, false);
    }

    /// Since when the rope of a number is idle, the class of the last row that it lost, and how long it waits. Where it is not live nothing changes. It takes no memory.
    pub fn set_idle(&mut self, id: RopeId, idle: Moment, last: u8, wait: u32)
        requires { last ≤ 3 }
        ensures ropes { self.new.ropes ≡ map (idled id idle last wait) self.old.ropes }
        ensures block { self.new.block ≡ self.old.block }
        ensures uses { (pair : BlockPair) → uses_at self.new pair ≡ uses_at self.old pair }
        ensures counts { (held : List (List Piece)) → Counts self.old held → Counts self.new held }
        ensures spare_ropes { self.old.spare_ropes ≤ self.new.spare_ropes }
        ensures spare_pairs { self.new.spare_pairs ≡ self.old.spare_pairs }
    {
        self.rest(id, idle, last, wait, true);
    }

    // The same of both; a row that keeps the rope still does, or none.
    fn rest(&mut self, id: RopeId, idle: Moment, last: u8, wait: u32, still: bool)
        requires { last ≤ 3 }
        ensures ropes { self.new.ropes ≡ map (rested id idle last wait still) self.old.ropes }
        ensures block { self.new.block ≡ self.old.block }
        ensures uses { (pair : BlockPair) → uses_at self.new pair ≡ uses_at self.old pair }
        ensures counts { (held : List (List Piece)) → Counts self.old held → Counts self.new held }
        ensures spare_ropes { self.old.spare_ropes ≤ self.new.spare_ropes }
        ensures spare_pairs { self.new.spare_pairs ≡ self.old.spare_pairs }
    {
        let Some(was) = self.ropes.rest(id, idle, last, wait, still) else {
            return;
        };
        let due = due_of(id, idle, wait);
        if was.kept {
            if still {
                return;
            }
            self.dues.enter(due);
            return;
        }
        self.dues.leave(due_of(id, was.idle, was.wait));
        self.dues.enter(due);
    }

    /// Whether a row keeps the rope of a number: a rope that is kept is not due. Where it is not live nothing changes. It takes no memory; the rope comes or goes at its place among those that are due, of which a few hundred move at most.
    pub fn keep(&mut self, id: RopeId, kept: bool)
        ensures ropes { self.new.ropes ≡ map (held_back id kept) self.old.ropes }
        ensures block { self.new.block ≡ self.old.block }
        ensures uses { (pair : BlockPair) → uses_at self.new pair ≡ uses_at self.old pair }
        ensures counts { (held : List (List Piece)) → Counts self.old held → Counts self.new held }
        ensures spare_ropes { self.old.spare_ropes ≤ self.new.spare_ropes }
        ensures spare_pairs { self.new.spare_pairs ≡ self.old.spare_pairs }
    {
        let Some(was) = self.ropes.keep(id, kept) else {
            return;
        };
        if was.kept == kept {
            return;
        }
        let due = due_of(id, was.idle, was.wait);
        if kept {
            self.dues.leave(due);
            return;
        }
        self.dues.enter(due);
    }

    /// How many live ropes and held passages use a block of a voice file.
    pub fn uses(&self, file: RopeId, index: u32) -> u32
        ensures { result ≡ uses_at self.now (pair_of file index) }
    {
        self.counts.uses(file, index)
    }

    /// Holds a passage, each block of which is in use. It takes no memory.
    pub fn hold(&mut self, passage: &Pieces)
        requires used { (pair : BlockPair) → has_pair (pairs_at self.old.block (spots_of passage.now)) pair ≡ true → 1 ≤ uses_at self.old pair }
        requires fits { (pair : BlockPair) → has_pair (pairs_at self.old.block (spots_of passage.now)) pair ≡ true → uses_at self.old pair + 1 < 2 ^ 32 }
        ensures ropes { self.new.ropes ≡ self.old.ropes }
        ensures block { self.new.block ≡ self.old.block }
        ensures uses { (pair : BlockPair) → uses_at self.new pair ≡ uses_at self.old pair + uses_by self.old.block passage.now pair }
        ensures counts { (held : List (List Piece)) → Counts self.old held → Counts self.new (passage.now ∷ held) }
        ensures spare_ropes { self.new.spare_ropes ≡ self.old.spare_ropes }
        ensures spare_pairs { self.old.spare_pairs ≤ self.new.spare_pairs }
    {
        self.counts.raise(passage, false);
    }

    /// Holds a passage no longer. The uses of each of its blocks are above what the live ropes give, as they are where it is held. It takes no memory.
    pub fn release(&mut self, passage: &Pieces)
        requires { (pair : BlockPair) → has_pair (pairs_at self.old.block (spots_of passage.now)) pair ≡ true → uses_in self.old.block (pieces_in self.old.ropes) pair + 1 ≤ uses_at self.old pair }
        ensures ropes { self.new.ropes ≡ self.old.ropes }
        ensures block { self.new.block ≡ self.old.block }
        ensures uses { (pair : BlockPair) → uses_at self.new pair + uses_by self.old.block passage.now pair ≡ uses_at self.old pair }
        ensures counts { (before after : List (List Piece)) → Counts self.old (before ++ passage.now ∷ after) → Counts self.new (before ++ after) }
        ensures spare_ropes { self.new.spare_ropes ≡ self.old.spare_ropes }
        ensures spare_pairs { self.old.spare_pairs ≤ self.new.spare_pairs }
    {
        self.counts.lower(passage, false);
    }

    /// The k-th rope in the order in which they are due, from 0, and its moment: ropes that no row keeps, by the moment and the number; `None` exactly where there are not so many. It is one step.
    pub fn due<L: Ledger>(&self, k: u32, steps: &mut Steps<L>) -> Option<(u64, RopeId)>
        ensures value { result ≡ option_map as_pair (slice_get (index_of self.now.ropes) k) }
        ensures steps { steps.new ≡ steps.old + 1 }
    {
        steps.tick();
        self.dues.at(k)
    }

    /// An equal table, of whose spare room nothing is said. It goes over all ropes.
    pub fn copy(&self) -> Result<RopeTable, NoMemory>
        ensures ropes { IfOk result (λ copy. copy.ropes ≡ self.now.ropes) }
        ensures block { IfOk result (λ copy. copy.block ≡ self.now.block) }
        ensures uses { IfOk result (λ copy. (pair : BlockPair) → uses_at copy pair ≡ uses_at self.now pair) }
    {
        Ok(RopeTable {
            ropes: self.ropes.copy()?,
            dues: self.dues.copy(self.ropes.count())?,
            counts: self.counts.copy()?,
        })
    }
}
