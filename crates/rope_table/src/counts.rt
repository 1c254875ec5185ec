//! How many live ropes and held passages use each block, and how many blocks live ropes use.

ghost use Rattle.std.specs.Prelude.{◌≡◌, ℕ, ◌+◌, ◌^◌, ◌<◌, ◌≤◌, true, false, List, length, IfOk, OnOk, IfSome, if◌then◌else◌, ◌||◌, ◌&&◌, ◌==◌, cond, nat_lt, nat_le, None, is_some, option_map, unwrap_or};
ghost use Rattle.std.specs.HashMap.{spare};
ghost use Rattle.std.specs.List.{sum_by, list_all};
ghost use Rattle.voice_units.specs.Spots.{spots_of};
ghost use Rattle.voice_units.specs.Blocks.{BlockPair, pairs_at, has_pair, same_pair, distinct};
ghost use Rattle.rope_table.specs.Table.{uses_by, pair_of, unused, uses_counted, live_counted, files_of, no_count, count_of};
ghost use Rattle.rope_table.specs.Files.{is_filed};
ghost use Rattle.rope_table.specs.Inside.{count_in, found_in, is_entered, entered_in, pair_named, touched, used_again, used_less, missing, needed, entries_made, is_live, weight_found, raises, lowers, goes_apart, is_met, stands_behind, AreApart, IsTallied, IsBehind};
ghost use Rattle.rope_table.specs.declared.counts.BlockName.{BlockName};
ghost use Rattle.rope_table.specs.declared.counts.Count.{Count};
ghost use Rattle.rope_table.specs.declared.counts.Pass.TheVariants as pass_is;

use crate::files::FileCounts;
use rope_algebra::Pieces;
use std::alloc::Global;
use std::collections::HashMap;
use std::marker::Model;
use voice_units::{NoMemory, RopeId};

/// A block of a voice file.
#[derive(Clone, Copy, PartialEq, Eq, Hash)]
pub(crate) struct BlockName {
    file: RopeId,
    index: u32,
}

/// How many lists of pieces have a block, how many of these are live ropes', and whether a pass over such a list has met it.
#[derive(Clone, Copy)]
pub(crate) struct Count {
    uses: u32,
    live: u32,
    marked: bool,
}

/// What is done to the count of each block of some pieces. A list of pieces may have a block more than once: the first meeting counts and marks it. Where no block comes twice, none is marked.
#[derive(Clone, Copy)]
pub(crate) enum Pass {
    Raise,
    Lower,
    Settle,
    RaiseApart,
    LowerApart,
}

/// The counts of blocks, and what they come to in each file. Contracts see the entries, and for how many more there is room.
#[derive(Drop)]
pub(crate) struct Tally {
    counts: HashMap<BlockName, Count>,
    files: FileCounts,
    live: u64,
}

impl Model for Tally {
    ghost use Rattle.std.specs.Prelude.{min};
    ghost use Rattle.std.specs.HashMap.{spare};
    ghost use Rattle.rope_table.specs.Inside.{Tallied, IsTallied};

    ghost Value = { Tallied };

    ghost view = { λ t. record { counts = t.counts.entries; spare = min (spare t.counts) t.files.spare } };

    ghost invariant = { λ t. IsTallied t.counts t.files t.live };
}

/// The uses of blocks. Contracts see the samples of a block, the uses, and for how many more blocks there is room.
#[derive(Drop)]
pub(crate) struct UseCounts {
    block: u32,
    tally: Tally,
}

impl Model for UseCounts {
    ghost use Rattle.rope_table.specs.Inside.{Uses, AreCounts};

    ghost Value = { Uses };

    ghost view = { λ c. record { block = c.block; counts = c.tally.counts; spare = c.tally.spare } };

    ghost invariant = { λ c. AreCounts c.block c.tally };
}

// A block has this count from now on. The count that it had.
fn put(counts: &mut HashMap<BlockName, Count>, name: BlockName, count: Count) -> Option<Count>
    requires { entered_in counts.old.entries (pair_named name) ≡ false → 0 < spare counts.old }
    ensures counts { (pair : BlockPair) → count_of counts.new.entries pair ≡ cond (same_pair (pair_named name) pair) count (count_of counts.old.entries pair) }
    ensures entered { (pair : BlockPair) → entered_in counts.new.entries pair ≡ (same_pair (pair_named name) pair || entered_in counts.old.entries pair) }
    ensures spare { spare counts.old ≤ spare counts.new + (if entered_in counts.old.entries (pair_named name) then 0 else 1) }
    ensures result { result ≡ found_in counts.old.entries (pair_named name) }
    ensures sums { (weigh : BlockName × Count → ℕ) → sum_by weigh counts.new.entries + weight_found weigh name result ≡ sum_by weigh counts.old.entries + weigh (name, count) }
{
    let Some(place) = counts.get_mut(&name) else {
        let _entered = counts.insert(name, count);
        return None;
    };
    let old = *place;
    *place = count;
    Some(old)
}

// The count of a block without a use.
fn no_uses() -> Count
    ensures { result ≡ no_count }
{
    Count {
        uses: 0,
        live: 0,
        marked: false,
    }
}

// A count with one use more, marked or not.
fn raised(count: Count, live: bool, marked: bool) -> Count
    requires fits { count.uses + 1 < 2 ^ 32 }
    requires live_fits { count.live + 1 < 2 ^ 32 }
    ensures { result ≡ record (used_again live count) { marked = marked } }
{
    Count {
        uses: count.uses + 1,
        live: count.live + u32::from(live),
        marked,
    }
}

// One more use of a block, which is not marked. The count that it had.
fn put_raised(counts: &mut HashMap<BlockName, Count>, name: BlockName, live: bool) -> Option<Count>
    requires room { entered_in counts.old.entries (pair_named name) ≡ false → 0 < spare counts.old }
    requires fits { (count_of counts.old.entries (pair_named name)).uses + 1 < 2 ^ 32 }
    requires live_fits { (count_of counts.old.entries (pair_named name)).live + 1 < 2 ^ 32 }
    ensures counts { (pair : BlockPair) → count_of counts.new.entries pair ≡ cond (same_pair (pair_named name) pair) (used_again live (count_of counts.old.entries pair)) (count_of counts.old.entries pair) }
    ensures entered { (pair : BlockPair) → entered_in counts.new.entries pair ≡ (same_pair (pair_named name) pair || entered_in counts.old.entries pair) }
    ensures spare { spare counts.old ≤ spare counts.new + (if entered_in counts.old.entries (pair_named name) then 0 else 1) }
    ensures result { result ≡ found_in counts.old.entries (pair_named name) }
    ensures sums { (weigh : BlockName × Count → ℕ) → sum_by weigh counts.new.entries + weight_found weigh name result ≡ sum_by weigh counts.old.entries + weigh (name, used_again live (unwrap_or result no_count)) }
{
    let Some(place) = counts.get_mut(&name) else {
        let first = raised(no_uses(), live, false);
        let _entered = counts.insert(name, first);
        return None;
    };
    let old = *place;
    *place = raised(old, live, false);
    Some(old)
}

// One more use of a block that has one, and is not marked; without one nothing changes. The count that it had, if it was used.
fn put_used(counts: &mut HashMap<BlockName, Count>, name: &BlockName, live: bool) -> Option<Count>
    requires fits { (count_of counts.old.entries (pair_named name.now)).uses + 1 < 2 ^ 32 }
    requires live_fits { (count_of counts.old.entries (pair_named name.now)).live + 1 < 2 ^ 32 }
    ensures result { result ≡ cond (nat_lt 0 (count_of counts.old.entries (pair_named name.now)).uses) (found_in counts.old.entries (pair_named name.now)) None }
    ensures counts { (pair : BlockPair) → count_of counts.new.entries pair ≡ cond (is_some result && same_pair (pair_named name.now) pair) (used_again live (count_of counts.old.entries pair)) (count_of counts.old.entries pair) }
    ensures spare { spare counts.old ≤ spare counts.new }
    ensures sums { (weigh : BlockName × Count → ℕ) → sum_by weigh counts.new.entries + weight_found weigh name.now result ≡ sum_by weigh counts.old.entries + weight_found weigh name.now (option_map (used_again live) result) }
{
    let Some(place) = counts.get_mut(name) else {
        return None;
    };
    let old = *place;
    if old.uses == 0 {
        return None;
    }
    *place = raised(old, live, false);
    Some(old)
}

// A count with one use less, marked or not.
fn lowered(count: Count, live: bool, marked: bool) -> Count
    ensures { result ≡ record (used_less live count) { marked = marked } }
{
    Count {
        uses: count.uses.saturating_sub(1),
        live: count.live.saturating_sub(u32::from(live)),
        marked,
    }
}

// Whether a block of a count has no use.
fn has_no_use(count: &Count) -> bool
    ensures { result ≡ ((count.now.uses == 0) && (count.now.live == 0)) }
{
    count.uses == 0 && count.live == 0
}

// One use less of a block, which is not marked; without a count nothing changes. The count that it had.
fn put_lowered(
    counts: &mut HashMap<BlockName, Count>,
    name: &BlockName,
    live: bool,
) -> Option<Count>
    ensures result { result ≡ found_in counts.old.entries (pair_named name.now) }
    ensures counts { (pair : BlockPair) → count_of counts.new.entries pair ≡ cond (is_some result && same_pair (pair_named name.now) pair) (used_less live (count_of counts.old.entries pair)) (count_of counts.old.entries pair) }
    ensures spare { spare counts.old ≤ spare counts.new }
    ensures sums { (weigh : BlockName × Count → ℕ) → sum_by weigh counts.new.entries + weight_found weigh name.now result ≡ sum_by weigh counts.old.entries + weight_found weigh name.now (option_map (used_less live) result) }
{
    let Some(place) = counts.get_mut(name) else {
        return None;
    };
    let old = *place;
    *place = lowered(old, live, false);
    Some(old)
}

// A block has no count any longer. The count that it had.
fn take(counts: &mut HashMap<BlockName, Count>, name: &BlockName) -> Option<Count>
    ensures counts { (pair : BlockPair) → count_of counts.new.entries pair ≡ cond (same_pair (pair_named name.now) pair) no_count (count_of counts.old.entries pair) }
    ensures spare { spare counts.old ≤ spare counts.new }
    ensures result { result ≡ found_in counts.old.entries (pair_named name.now) }
    ensures sums { (weigh : BlockName × Count → ℕ) → sum_by weigh counts.new.entries + weight_found weigh name.now result ≡ sum_by weigh counts.old.entries }
{
    counts.remove(name)
}

// The same counts.
fn copied(counts: &HashMap<BlockName, Count>) -> Result<HashMap<BlockName, Count>, NoMemory>
    ensures { IfOk result (λ copy. copy.entries ≡ counts.now.entries) }
{
    Ok(counts.clone()?)
}

// Whether a live rope has the block of a count.
fn has_live(count: &Option<Count>) -> bool
    ensures { result ≡ is_live (unwrap_or count.now no_count) }
{
    match count {
        Some(count) => count.live > 0,
        None => false,
    }
}

// The same of the block with one use more.
fn has_live_again(count: &Option<Count>, live: bool) -> bool
    ensures { result ≡ is_live (used_again live (unwrap_or count.now no_count)) }
{
    has_live(count) || live
}

// The numbers of a file follow, where a block of it has got a count. How many blocks live ropes have then.
fn refile(
    counts: &HashMap<BlockName, Count>,
    files: &mut FileCounts,
    live: u64,
    file: RopeId,
    old: &Option<Count>,
    is: bool,
) -> u64
    requires behind { IsBehind counts.now.entries files.old live file old.now is }
    requires room { is_filed files.old.files file ≡ false → 0 < files.old.spare }
    ensures tallied { IsTallied counts.now files.new result }
    ensures spare { files.old.spare ≤ files.new.spare + (if is_filed files.old.files file then 0 else 1) }
{
    let _most = counts.len();
    let was = has_live(old);
    files.change(file, old.is_none(), was, is);
    live + u64::from(is) - u64::from(was)
}

impl Tally {
    // No counts. It takes no memory.
    fn new(alloc: Global) -> Tally
        ensures { (pair : BlockPair) → is_entered result pair ≡ false }
    {
        Tally {
            counts: HashMap::new(alloc),
            files: FileCounts::new(alloc),
            live: 0,
        }
    }

    // Equal counts.
    fn copy(&self) -> Result<Tally, NoMemory>
        ensures { IfOk result (λ copy. (pair : BlockPair) → count_in copy pair ≡ count_in self.now pair) }
    {
        let counts = copied(&self.counts)?;
        let files = self.files.copy()?;
        Ok(Tally {
            counts,
            files,
            live: self.live,
        })
    }

    // Makes room for n more blocks.
    fn reserve(&mut self, n: u32) -> Result<(), NoMemory>
        ensures counts { (pair : BlockPair) → count_in self.new pair ≡ count_in self.old pair }
        ensures room { OnOk result (n ≤ self.new.spare) }
        ensures kept { self.old.spare ≤ self.new.spare }
    {
        if n == 0 {
            return Ok(());
        }
        self.counts.reserve(n as usize)?;
        self.files.reserve(n)
    }

    // The count of a block.
    fn get(&self, name: &BlockName) -> Option<Count>
        ensures { result ≡ found_in self.now.counts (pair_named name.now) }
    {
        self.counts.get(name).copied()
    }

    // How many use a block.
    fn uses(&self, name: &BlockName) -> u32
        ensures { result ≡ (count_in self.now (pair_named name.now)).uses }
    {
        let Some(count) = self.get(name) else {
            return 0;
        };
        count.uses
    }

    // A block has this count from now on.
    fn put(&mut self, name: BlockName, count: Count)
        requires { is_entered self.old (pair_named name) ≡ false → 0 < self.old.spare }
        ensures counts { (pair : BlockPair) → count_in self.new pair ≡ cond (same_pair (pair_named name) pair) count (count_in self.old pair) }
        ensures entered { (pair : BlockPair) → is_entered self.new pair ≡ (same_pair (pair_named name) pair || is_entered self.old pair) }
        ensures spare { self.old.spare ≤ self.new.spare + (if is_entered self.old (pair_named name) then 0 else 1) }
    {
        let file = name.file;
        let old = put(&mut self.counts, name, count);
        let is = count.live > 0;
        self.live = refile(&self.counts, &mut self.files, self.live, file, &old, is);
    }

    // One more use of a block, which is not marked.
    fn put_raised(&mut self, name: BlockName, live: bool)
        requires room { is_entered self.old (pair_named name) ≡ false → 0 < self.old.spare }
        requires fits { (count_in self.old (pair_named name)).uses + 1 < 2 ^ 32 }
        requires live_fits { (count_in self.old (pair_named name)).live + 1 < 2 ^ 32 }
        ensures counts { (pair : BlockPair) → count_in self.new pair ≡ cond (same_pair (pair_named name) pair) (used_again live (count_in self.old pair)) (count_in self.old pair) }
        ensures entered { (pair : BlockPair) → is_entered self.new pair ≡ (same_pair (pair_named name) pair || is_entered self.old pair) }
        ensures spare { self.old.spare ≤ self.new.spare + (if is_entered self.old (pair_named name) then 0 else 1) }
    {
        let file = name.file;
        let old = put_raised(&mut self.counts, name, live);
        let is = has_live_again(&old, live);
        self.live = refile(&self.counts, &mut self.files, self.live, file, &old, is);
    }

    // One more use of a block that has one, and is not marked. False where it has none, and then nothing changes.
    fn put_used(&mut self, name: &BlockName, live: bool) -> bool
        requires fits { (count_in self.old (pair_named name.now)).uses + 1 < 2 ^ 32 }
        requires live_fits { (count_in self.old (pair_named name.now)).live + 1 < 2 ^ 32 }
        ensures value { result ≡ nat_lt 0 (count_in self.old (pair_named name.now)).uses }
        ensures counts { (pair : BlockPair) → count_in self.new pair ≡ cond (result && same_pair (pair_named name.now) pair) (used_again live (count_in self.old pair)) (count_in self.old pair) }
        ensures spare { self.old.spare ≤ self.new.spare }
    {
        let file = name.file;
        let old = put_used(&mut self.counts, name, live);
        if old.is_none() {
            return false;
        }
        let is = has_live_again(&old, live);
        self.live = refile(&self.counts, &mut self.files, self.live, file, &old, is);
        true
    }

    // One use less of a block, which is not marked. Whether it has no use then.
    fn put_lowered(&mut self, name: &BlockName, live: bool) -> bool
        requires { is_entered self.old (pair_named name.now) ≡ true }
        ensures value { result ≡ ((count_in self.new (pair_named name.now)).uses == 0 && (count_in self.new (pair_named name.now)).live == 0) }
        ensures counts { (pair : BlockPair) → count_in self.new pair ≡ cond (same_pair (pair_named name.now) pair) (used_less live (count_in self.old pair)) (count_in self.old pair) }
        ensures spare { self.old.spare ≤ self.new.spare }
    {
        let old = put_lowered(&mut self.counts, name, live);
        let Some(count) = old else {
            return false;
        };
        let now = lowered(count, live, false);
        let is = now.live > 0;
        self.live = refile(
            &self.counts,
            &mut self.files,
            self.live,
            name.file,
            &old,
            is,
        );
        has_no_use(&now)
    }

    // A block has no count any longer.
    fn take(&mut self, name: &BlockName)
        ensures counts { (pair : BlockPair) → count_in self.new pair ≡ cond (same_pair (pair_named name.now) pair) no_count (count_in self.old pair) }
        ensures spare { self.old.spare ≤ self.new.spare }
    {
        let old = take(&mut self.counts, name);
        if old.is_none() {
            return;
        }
        let was = has_live(&old);
        self.files.leave(name.file, was);
        self.live -= u64::from(was);
    }

    // How many blocks live ropes have.
    fn live(&self) -> u64
        ensures { (pairs : List BlockPair) → ((pair : BlockPair) → has_pair pairs pair ≡ is_live (count_in self.now pair)) → result ≡ length (distinct pairs) }
    {
        let _unique = self.counts.len();
        self.live
    }

    // How many files live ropes have.
    fn live_files(&self) -> u64
        ensures { (pairs : List BlockPair) → ((pair : BlockPair) → has_pair pairs pair ≡ is_live (count_in self.now pair)) → result ≡ length (files_of pairs) }
    {
        let _unique = self.counts.len();
        self.files.live()
    }
}

// One more use of a block, unless it is marked.
fn raise(tally: &mut Tally, name: BlockName, live: bool)
    requires room { is_entered tally.old (pair_named name) ≡ false → 0 < tally.old.spare }
    requires fits { (count_in tally.old (pair_named name)).marked ≡ false → (count_in tally.old (pair_named name)).uses + 1 < 2 ^ 32 }
    requires live_fits { (count_in tally.old (pair_named name)).marked ≡ false → (count_in tally.old (pair_named name)).live + 1 < 2 ^ 32 }
    ensures counts { (pair : BlockPair) → count_in tally.new pair ≡ cond (same_pair (pair_named name) pair) (touched live pass_is.Raise (count_in tally.old pair)) (count_in tally.old pair) }
    ensures entered { (pair : BlockPair) → is_entered tally.new pair ≡ (same_pair (pair_named name) pair || is_entered tally.old pair) }
    ensures spare { tally.old.spare ≤ tally.new.spare + (if is_entered tally.old (pair_named name) then 0 else 1) }
{
    let Some(count) = tally.get(&name) else {
        tally.put(name, raised(no_uses(), live, true));
        return;
    };
    if count.marked {
        return;
    }
    tally.put(name, raised(count, live, true));
}

// One use of a block less, unless it is marked.
fn lower(tally: &mut Tally, name: BlockName, live: bool)
    requires { is_entered tally.old (pair_named name) ≡ true }
    ensures counts { (pair : BlockPair) → count_in tally.new pair ≡ cond (same_pair (pair_named name) pair) (touched live pass_is.Lower (count_in tally.old pair)) (count_in tally.old pair) }
    ensures spare { tally.old.spare ≤ tally.new.spare }
{
    let Some(count) = tally.get(&name) else {
        return;
    };
    if count.marked {
        return;
    }
    tally.put(name, lowered(count, live, true));
}

// A block is not marked any longer, and without a use it goes.
fn settle(tally: &mut Tally, name: BlockName)
    ensures counts { (pair : BlockPair) → count_in tally.new pair ≡ cond (same_pair (pair_named name) pair) (touched false pass_is.Settle (count_in tally.old pair)) (count_in tally.old pair) }
    ensures spare { tally.old.spare ≤ tally.new.spare }
{
    let Some(count) = tally.get(&name) else {
        return;
    };
    if count.uses == 0 && count.live == 0 {
        tally.take(&name);
        return;
    }
    let settled = Count {
        uses: count.uses,
        live: count.live,
        marked: false,
    };
    tally.put(name, settled);
}

// What a pass does to one block.
fn touch(tally: &mut Tally, name: BlockName, live: bool, pass: Pass)
    requires room { raises pass ≡ true → is_entered tally.old (pair_named name) ≡ false → 0 < tally.old.spare }
    requires fits { raises pass ≡ true → is_met pass (count_in tally.old (pair_named name)) ≡ false → (count_in tally.old (pair_named name)).uses + 1 < 2 ^ 32 }
    requires live_fits { raises pass ≡ true → is_met pass (count_in tally.old (pair_named name)) ≡ false → (count_in tally.old (pair_named name)).live + 1 < 2 ^ 32 }
    requires there { lowers pass ≡ true → is_entered tally.old (pair_named name) ≡ true }
    ensures counts { (pair : BlockPair) → count_in tally.new pair ≡ cond (same_pair (pair_named name) pair) (touched live pass (count_in tally.old pair)) (count_in tally.old pair) }
    ensures entered { raises pass ≡ true → (pair : BlockPair) → is_entered tally.new pair ≡ (same_pair (pair_named name) pair || is_entered tally.old pair) }
    ensures spare { tally.old.spare ≤ tally.new.spare + entries_made pass (is_entered tally.old (pair_named name)) }
{
    match pass {
        Pass::Raise => raise(tally, name, live),
        Pass::Lower => lower(tally, name, live),
        Pass::Settle => settle(tally, name),
        Pass::RaiseApart => raise_alone(tally, name, live),
        Pass::LowerApart => lower_alone(tally, name, live),
    }
}

// What a pass does to each block of some pieces, which are a live rope's or not.
fn touch_all(tally: &mut Tally, block: u32, pieces: &Pieces, live: bool, pass: Pass)
    requires some { 0 < block }
    requires apart { goes_apart pass ≡ true → AreApart block pieces.now }
    requires room { raises pass ≡ true → missing tally.old (pairs_at block (spots_of pieces.now)) ≤ tally.old.spare }
    requires fits { raises pass ≡ true → (pair : BlockPair) → has_pair (pairs_at block (spots_of pieces.now)) pair ≡ true → (count_in tally.old pair).uses + 1 < 2 ^ 32 }
    requires live_fits { raises pass ≡ true → (pair : BlockPair) → has_pair (pairs_at block (spots_of pieces.now)) pair ≡ true → (count_in tally.old pair).live + 1 < 2 ^ 32 }
    requires there { lowers pass ≡ true → (pair : BlockPair) → has_pair (pairs_at block (spots_of pieces.now)) pair ≡ true → 1 ≤ (count_in tally.old pair).uses }
    ensures counts { (pair : BlockPair) → count_in tally.new pair ≡ cond (has_pair (pairs_at block (spots_of pieces.now)) pair) (touched live pass (count_in tally.old pair)) (count_in tally.old pair) }
    ensures spare { tally.old.spare ≤ tally.new.spare + needed pass tally.old (pairs_at block (spots_of pieces.now)) }
{
    let _length = pieces.length();
    for k in 0..pieces.count() {
        let Some(piece) = pieces.piece(k) else {
            return;
        };
        let file = piece.file;
        let blocks = piece.blocks(block);
        for index in blocks.start..blocks.end {
            touch(tally, BlockName { file, index }, live, pass);
        }
    }
}

// Whether an index of a file stands at or behind another, by files and then by indexes.
fn stands_behind(last: u64, end: u32, file: u64, start: u32) -> bool
    ensures { result ≡ stands_behind last end file start }
{
    last < file || (last == file && end <= start)
}

// Whether the blocks of pieces rise, by files and then by indexes: then none comes twice.
fn are_apart(pieces: &Pieces, block: u32) -> bool
    requires { 0 < block }
    ensures { result ≡ true → AreApart block pieces.now }
{
    let _length = pieces.length();
    let mut last = 0;
    let mut end = 0;
    for k in 0..pieces.count() {
        let Some(piece) = pieces.piece(k) else {
            return false;
        };
        let file = piece.file.number();
        let blocks = piece.blocks(block);
        if !stands_behind(last, end, file, blocks.start) {
            return false;
        }
        last = file;
        end = blocks.end;
    }
    true
}

// The block of pieces that lie in one, of one piece: its count needs no mark.
fn only_block(pieces: &Pieces, block: u32) -> Option<BlockName>
    requires { 0 < block }
    ensures { IfSome result (λ name. (pair : BlockPair) → has_pair (pairs_at block (spots_of pieces.now)) pair ≡ same_pair (pair_named name) pair) }
{
    let _length = pieces.length();
    if pieces.count() != 1 {
        return None;
    }
    let Some(piece) = pieces.piece(0) else {
        return None;
    };
    let file = piece.file;
    let blocks = piece.blocks(block);
    let index = blocks.start;
    if blocks.end != index + 1 {
        return None;
    }
    Some(BlockName { file, index })
}

// Whether each block of some pieces has a use.
fn are_used(tally: &Tally, block: u32, pieces: &Pieces) -> bool
    requires { 0 < block }
    ensures { result ≡ list_all (λ pair. nat_lt 0 (count_in tally.now pair).uses) (pairs_at block (spots_of pieces.now)) }
{
    let _length = pieces.length();
    for k in 0..pieces.count() {
        let Some(piece) = pieces.piece(k) else {
            return false;
        };
        let file = piece.file;
        let blocks = piece.blocks(block);
        for index in blocks.start..blocks.end {
            if tally.uses(&BlockName { file, index }) == 0 {
                return false;
            }
        }
    }
    true
}

// One more use of a block, which is not marked.
fn raise_alone(tally: &mut Tally, name: BlockName, live: bool)
    requires room { is_entered tally.old (pair_named name) ≡ false → 0 < tally.old.spare }
    requires fits { (count_in tally.old (pair_named name)).uses + 1 < 2 ^ 32 }
    requires live_fits { (count_in tally.old (pair_named name)).live + 1 < 2 ^ 32 }
    ensures counts { (pair : BlockPair) → count_in tally.new pair ≡ cond (same_pair (pair_named name) pair) (used_again live (count_in tally.old pair)) (count_in tally.old pair) }
    ensures entered { (pair : BlockPair) → is_entered tally.new pair ≡ (same_pair (pair_named name) pair || is_entered tally.old pair) }
    ensures spare { tally.old.spare ≤ tally.new.spare + (if is_entered tally.old (pair_named name) then 0 else 1) }
{
    tally.put_raised(name, live);
}

// One use less of a block, which is not marked. Without a use it goes.
fn lower_alone(tally: &mut Tally, name: BlockName, live: bool)
    requires { is_entered tally.old (pair_named name) ≡ true }
    ensures counts { (pair : BlockPair) → count_in tally.new pair ≡ cond (same_pair (pair_named name) pair) (used_less live (count_in tally.old pair)) (count_in tally.old pair) }
    ensures spare { tally.old.spare ≤ tally.new.spare }
{
    if tally.put_lowered(&name, live) {
        tally.take(&name);
    }
}

impl UseCounts {
    /// No uses, for blocks of so many samples. It takes no memory.
    pub(crate) fn new(alloc: Global, block: u32) -> UseCounts
        requires { 0 < block }
        ensures block { result.block ≡ block }
        ensures uses { (pair : BlockPair) → uses_counted result.counts pair ≡ 0 }
        ensures live { (pair : BlockPair) → live_counted result.counts pair ≡ 0 }
    {
        UseCounts {
            block,
            tally: Tally::new(alloc),
        }
    }

    /// Equal uses.
    pub(crate) fn copy(&self) -> Result<UseCounts, NoMemory>
        ensures block { IfOk result (λ copy. copy.block ≡ self.now.block) }
        ensures uses { IfOk result (λ copy. (pair : BlockPair) → uses_counted copy.counts pair ≡ uses_counted self.now.counts pair) }
        ensures live { IfOk result (λ copy. (pair : BlockPair) → live_counted copy.counts pair ≡ live_counted self.now.counts pair) }
    {
        let tally = self.tally.copy()?;
        Ok(UseCounts {
            block: self.block,
            tally,
        })
    }

    /// The samples of a block.
    pub(crate) fn block(&self) -> u32
        ensures { result ≡ self.now.block }
    {
        self.block
    }

    /// How many use a block.
    pub(crate) fn uses(&self, file: RopeId, index: u32) -> u32
        ensures { result ≡ uses_counted self.now.counts (pair_of file index) }
    {
        self.tally.uses(&BlockName { file, index })
    }

    /// How many blocks live ropes have.
    pub(crate) fn live(&self) -> u64
        ensures { (pairs : List BlockPair) → ((pair : BlockPair) → has_pair pairs pair ≡ nat_lt 0 (live_counted self.now.counts pair)) → result ≡ length (distinct pairs) }
    {
        self.tally.live()
    }

    /// How many files live ropes have.
    pub(crate) fn live_files(&self) -> u64
        ensures { (pairs : List BlockPair) → ((pair : BlockPair) → has_pair pairs pair ≡ nat_lt 0 (live_counted self.now.counts pair)) → result ≡ length (files_of pairs) }
    {
        self.tally.live_files()
    }

    /// Makes room for n more blocks.
    pub(crate) fn reserve(&mut self, n: u32) -> Result<(), NoMemory>
        ensures block { self.new.block ≡ self.old.block }
        ensures uses { (pair : BlockPair) → uses_counted self.new.counts pair ≡ uses_counted self.old.counts pair }
        ensures live { (pair : BlockPair) → live_counted self.new.counts pair ≡ live_counted self.old.counts pair }
        ensures room { OnOk result (n ≤ self.new.spare) }
        ensures kept { self.old.spare ≤ self.new.spare }
    {
        self.tally.reserve(n)
    }

    /// One more use of each block of these pieces, which are a live rope's or not. It takes no memory.
    pub(crate) fn raise(&mut self, pieces: &Pieces, live: bool)
        requires room { unused (uses_counted self.old.counts) (pairs_at self.old.block (spots_of pieces.now)) ≤ self.old.spare }
        requires fits { (pair : BlockPair) → has_pair (pairs_at self.old.block (spots_of pieces.now)) pair ≡ true → uses_counted self.old.counts pair + 1 < 2 ^ 32 }
        requires live_fits { (pair : BlockPair) → live_counted self.old.counts pair ≤ uses_counted self.old.counts pair }
        ensures block { self.new.block ≡ self.old.block }
        ensures uses { (pair : BlockPair) → uses_counted self.new.counts pair ≡ uses_counted self.old.counts pair + uses_by self.old.block pieces.now pair }
        ensures live { (pair : BlockPair) → live_counted self.new.counts pair ≡ live_counted self.old.counts pair + cond live (uses_by self.old.block pieces.now pair) 0 }
        ensures spare { self.old.spare ≤ self.new.spare + unused (uses_counted self.old.counts) (pairs_at self.old.block (spots_of pieces.now)) }
    {
        if are_apart(pieces, self.block) {
            touch_all(&mut self.tally, self.block, pieces, live, Pass::RaiseApart);
            return;
        }
        touch_all(&mut self.tally, self.block, pieces, live, Pass::Raise);
        touch_all(&mut self.tally, self.block, pieces, live, Pass::Settle);
    }

    /// One more use of each block of these pieces, which are a live rope's or not, where each has one; false exactly where one has none, and then nothing changes. It takes no memory.
    pub(crate) fn raise_used(&mut self, pieces: &Pieces, live: bool) -> bool
        requires fits { (pair : BlockPair) → has_pair (pairs_at self.old.block (spots_of pieces.now)) pair ≡ true → uses_counted self.old.counts pair + 1 < 2 ^ 32 }
        requires live_fits { (pair : BlockPair) → live_counted self.old.counts pair ≤ uses_counted self.old.counts pair }
        ensures value { result ≡ list_all (λ pair. nat_lt 0 (uses_counted self.old.counts pair)) (pairs_at self.old.block (spots_of pieces.now)) }
        ensures block { self.new.block ≡ self.old.block }
        ensures uses { (pair : BlockPair) → uses_counted self.new.counts pair ≡ uses_counted self.old.counts pair + cond result (uses_by self.old.block pieces.now pair) 0 }
        ensures live { (pair : BlockPair) → live_counted self.new.counts pair ≡ live_counted self.old.counts pair + cond (result && live) (uses_by self.old.block pieces.now pair) 0 }
        ensures spare { self.old.spare ≤ self.new.spare }
    {
        if let Some(name) = only_block(pieces, self.block) {
            return self.tally.put_used(&name, live);
        }
        if !are_used(&self.tally, self.block, pieces) {
            return false;
        }
        if are_apart(pieces, self.block) {
            touch_all(&mut self.tally, self.block, pieces, live, Pass::RaiseApart);
            return true;
        }
        touch_all(&mut self.tally, self.block, pieces, live, Pass::Raise);
        touch_all(&mut self.tally, self.block, pieces, live, Pass::Settle);
        true
    }

    /// One use less of each block of these pieces, which are a live rope's or not. A block without a use takes no place. It takes no memory.
    pub(crate) fn lower(&mut self, pieces: &Pieces, live: bool)
        requires there { (pair : BlockPair) → has_pair (pairs_at self.old.block (spots_of pieces.now)) pair ≡ true → 1 ≤ uses_counted self.old.counts pair }
        requires live { live ≡ true → (pair : BlockPair) → has_pair (pairs_at self.old.block (spots_of pieces.now)) pair ≡ true → 1 ≤ live_counted self.old.counts pair }
        ensures block { self.new.block ≡ self.old.block }
        ensures uses { (pair : BlockPair) → uses_counted self.new.counts pair + uses_by self.old.block pieces.now pair ≡ uses_counted self.old.counts pair }
        ensures live { (pair : BlockPair) → live_counted self.new.counts pair + cond live (uses_by self.old.block pieces.now pair) 0 ≡ live_counted self.old.counts pair }
        ensures spare { self.old.spare ≤ self.new.spare }
    {
        if are_apart(pieces, self.block) {
            touch_all(&mut self.tally, self.block, pieces, live, Pass::LowerApart);
            return;
        }
        touch_all(&mut self.tally, self.block, pieces, live, Pass::Lower);
        touch_all(&mut self.tally, self.block, pieces, live, Pass::Settle);
    }
}
